//! The types of operators, by those of their operands.

ghost use Rattle.std.specs.Prelude.{◌≡◌, nat_eq, if◌then◌else◌};
ghost use Rattle.lustat_rules.specs.Typing.{same_kind, agreed, has_kind, single_kind, operand_kind, result_kind, double_kind, choice_kind};

use lutree::{BinaryOperator, Kind, UnaryOperator};

/// Whether two types are one.
fn is_same(j: Kind, k: Kind) -> bool
    ensures { result ≡ same_kind j k }
{
    match (j, k) {
        (Kind::Int, Kind::Int) | (Kind::Bool, Kind::Bool) => true,
        (Kind::Enum(i, m), Kind::Enum(l, n)) => i == l && m == n,
        _ => false,
    }
}

/// The type that two expressions both have.
pub fn agreed_kind(a: Option<Kind>, b: Option<Kind>) -> Option<Kind>
    ensures { result ≡ agreed a b }
{
    match (a, b) {
        (Some(j), Some(k)) => if is_same(j, k) { Some(j) } else { None },
        _ => None,
    }
}

/// The type that some expressions and one more behind them have, where `before` of them have the type `all`.
pub fn kind_with(before: usize, all: Option<Kind>, kind: Option<Kind>) -> Option<Kind>
    ensures { result ≡ (if nat_eq before 0 then kind else agreed all kind) }
{
    if before == 0 {
        kind
    } else {
        agreed_kind(all, kind)
    }
}

/// Whether an expression has a type.
pub fn is_of_kind(a: Option<Kind>, kind: Kind) -> bool
    ensures { result ≡ has_kind a kind }
{
    match a {
        Some(j) => is_same(j, kind),
        None => false,
    }
}

/// The type of an operator's one operand and of its result.
pub fn kind_of_unary(op: UnaryOperator) -> Kind
    ensures { result ≡ single_kind op }
{
    match op {
        UnaryOperator::Minus => Kind::Int,
        UnaryOperator::Not => Kind::Bool,
    }
}

/// The type that an operator asks of its two operands; none is any.
pub fn asked_kind(op: BinaryOperator) -> Option<Kind>
    ensures { result ≡ operand_kind op }
{
    match op {
        BinaryOperator::Equal | BinaryOperator::Unequal => None,
        BinaryOperator::And | BinaryOperator::Or | BinaryOperator::Xor | BinaryOperator::Implies =>
            { Some(Kind::Bool) }
        _ => Some(Kind::Int),
    }
}

/// The type of an operator's result, where it has two operands.
pub fn kind_of_result(op: BinaryOperator) -> Kind
    ensures { result ≡ result_kind op }
{
    match op {
        BinaryOperator::Add
        | BinaryOperator::Subtract
        | BinaryOperator::Multiply
        | BinaryOperator::Divide
        | BinaryOperator::Modulo => Kind::Int,
        _ => Kind::Bool,
    }
}

/// The type of two operands and what stands between them.
pub fn kind_of_binary(op: BinaryOperator, a: Option<Kind>, b: Option<Kind>) -> Option<Kind>
    ensures { result ≡ double_kind op a b }
{
    let both = agreed_kind(a, b);
    let allowed = match asked_kind(op) {
        None => both,
        Some(asked) => agreed_kind(Some(asked), both),
    };
    match allowed {
        None => None,
        Some(_) => Some(kind_of_result(op)),
    }
}

/// The type of `if c then a else b`.
pub fn kind_of_choice(c: Option<Kind>, a: Option<Kind>, b: Option<Kind>) -> Option<Kind>
    ensures { result ≡ choice_kind c a b }
{
    match c {
        Some(Kind::Bool) => agreed_kind(a, b),
        _ => None,
    }
}
