//! Tokens: the keywords and signs, their spelling, and the table of operators.

ghost use Rattle.std.specs.Prelude.{◌≡◌};
ghost use Rattle.lusyn_grammar.specs.Tokens as tokens;

use lutree::{BinaryOperator, Infix, Prefix, UnaryOperator};

/// A token with one spelling: a keyword or a sign.
#[derive(Clone, Copy, PartialEq, Eq)]
pub enum Fixed {
    /// `node`
    Node,
    /// `returns`
    Returns,
    /// `var`
    Var,
    /// `let`
    Let,
    /// `tel`
    Tel,
    /// `int`
    Int,
    /// `bool`
    Bool,
    /// `true`
    True,
    /// `false`
    False,
    /// `if`
    If,
    /// `then`
    Then,
    /// `else`
    Else,
    /// `pre`
    Pre,
    /// `fby`
    FollowedBy,
    /// `current`
    Current,
    /// `when`
    When,
    /// `merge`
    Merge,
    /// `not`
    Not,
    /// `and`
    And,
    /// `or`
    Or,
    /// `xor`
    Xor,
    /// `div`
    Divide,
    /// `mod`
    Modulo,
    /// `type`
    Type,
    /// `enum`
    Enum,
    /// `(`
    Open,
    /// `)`
    Close,
    /// `{`
    OpenBrace,
    /// `}`
    CloseBrace,
    /// `,`
    Comma,
    /// `;`
    Semicolon,
    /// `:`
    Colon,
    /// `=`
    Equal,
    /// `<>`
    Unequal,
    /// `<`
    Less,
    /// `<=`
    LessEqual,
    /// `>`
    Greater,
    /// `>=`
    GreaterEqual,
    /// `+`
    Plus,
    /// `-`
    Minus,
    /// `*`
    Star,
    /// `->`
    Arrow,
    /// `=>`
    Implies,
}

impl Fixed {
    /// How the token is spelled.
    pub fn text(self) -> &'static str
        ensures { result.now ≡ tokens.text_of self }
    {
        match self {
            Fixed::Node => "node",
            Fixed::Returns => "returns",
            Fixed::Var => "var",
            Fixed::Let => "let",
            Fixed::Tel => "tel",
            Fixed::Int => "int",
            Fixed::Bool => "bool",
            Fixed::True => "true",
            Fixed::False => "false",
            Fixed::If => "if",
            Fixed::Then => "then",
            Fixed::Else => "else",
            Fixed::Pre => "pre",
            Fixed::FollowedBy => "fby",
            Fixed::Current => "current",
            Fixed::When => "when",
            Fixed::Merge => "merge",
            Fixed::Not => "not",
            Fixed::And => "and",
            Fixed::Or => "or",
            Fixed::Xor => "xor",
            Fixed::Divide => "div",
            Fixed::Modulo => "mod",
            Fixed::Type => "type",
            Fixed::Enum => "enum",
            Fixed::Open => "(",
            Fixed::Close => ")",
            Fixed::OpenBrace => "{",
            Fixed::CloseBrace => "}",
            Fixed::Comma => ",",
            Fixed::Semicolon => ";",
            Fixed::Colon => ":",
            Fixed::Equal => "=",
            Fixed::Unequal => "<>",
            Fixed::Less => "<",
            Fixed::LessEqual => "<=",
            Fixed::Greater => ">",
            Fixed::GreaterEqual => ">=",
            Fixed::Plus => "+",
            Fixed::Minus => "-",
            Fixed::Star => "*",
            Fixed::Arrow => "->",
            Fixed::Implies => "=>",
        }
    }
}

/// The keyword that is spelled so, if there is one.
pub fn keyword(word: &str) -> Option<Fixed>
    ensures { result ≡ tokens.keyword word.now }
{
    match word {
        "node" => Some(Fixed::Node),
        "returns" => Some(Fixed::Returns),
        "var" => Some(Fixed::Var),
        "let" => Some(Fixed::Let),
        "tel" => Some(Fixed::Tel),
        "int" => Some(Fixed::Int),
        "bool" => Some(Fixed::Bool),
        "true" => Some(Fixed::True),
        "false" => Some(Fixed::False),
        "if" => Some(Fixed::If),
        "then" => Some(Fixed::Then),
        "else" => Some(Fixed::Else),
        "pre" => Some(Fixed::Pre),
        "fby" => Some(Fixed::FollowedBy),
        "current" => Some(Fixed::Current),
        "when" => Some(Fixed::When),
        "merge" => Some(Fixed::Merge),
        "not" => Some(Fixed::Not),
        "and" => Some(Fixed::And),
        "or" => Some(Fixed::Or),
        "xor" => Some(Fixed::Xor),
        "div" => Some(Fixed::Divide),
        "mod" => Some(Fixed::Modulo),
        "type" => Some(Fixed::Type),
        "enum" => Some(Fixed::Enum),
        _ => None,
    }
}

/// The token of an operator that stands before its operand.
pub fn prefix_token(op: Prefix) -> Fixed
    ensures { result ≡ tokens.prefix_token op }
{
    match op {
        Prefix::Data(UnaryOperator::Minus) => Fixed::Minus,
        Prefix::Data(UnaryOperator::Not) => Fixed::Not,
        Prefix::Pre => Fixed::Pre,
    }
}

/// The token of an operator that stands between two operands.
pub fn infix_token(op: Infix) -> Fixed
    ensures { result ≡ tokens.infix_token op }
{
    match op {
        Infix::Arrow => Fixed::Arrow,
        Infix::FollowedBy => Fixed::FollowedBy,
        Infix::Data(BinaryOperator::Implies) => Fixed::Implies,
        Infix::Data(BinaryOperator::Or) => Fixed::Or,
        Infix::Data(BinaryOperator::Xor) => Fixed::Xor,
        Infix::Data(BinaryOperator::And) => Fixed::And,
        Infix::Data(BinaryOperator::Equal) => Fixed::Equal,
        Infix::Data(BinaryOperator::Unequal) => Fixed::Unequal,
        Infix::Data(BinaryOperator::Less) => Fixed::Less,
        Infix::Data(BinaryOperator::LessEqual) => Fixed::LessEqual,
        Infix::Data(BinaryOperator::Greater) => Fixed::Greater,
        Infix::Data(BinaryOperator::GreaterEqual) => Fixed::GreaterEqual,
        Infix::Data(BinaryOperator::Add) => Fixed::Plus,
        Infix::Data(BinaryOperator::Subtract) => Fixed::Minus,
        Infix::Data(BinaryOperator::Multiply) => Fixed::Star,
        Infix::Data(BinaryOperator::Divide) => Fixed::Divide,
        Infix::Data(BinaryOperator::Modulo) => Fixed::Modulo,
    }
}

/// The operator that stands before its operand as this token, if there is one.
pub fn prefix_of(fixed: Fixed) -> Option<Prefix>
    ensures { result ≡ tokens.prefix_of fixed }
{
    match fixed {
        Fixed::Minus => Some(Prefix::Data(UnaryOperator::Minus)),
        Fixed::Not => Some(Prefix::Data(UnaryOperator::Not)),
        Fixed::Pre => Some(Prefix::Pre),
        _ => None,
    }
}

/// The operator that stands between two operands as this token, if there is one.
pub fn infix_of(fixed: Fixed) -> Option<Infix>
    ensures { result ≡ tokens.infix_of fixed }
{
    match fixed {
        Fixed::Arrow => Some(Infix::Arrow),
        Fixed::FollowedBy => Some(Infix::FollowedBy),
        Fixed::Implies => Some(Infix::Data(BinaryOperator::Implies)),
        Fixed::Or => Some(Infix::Data(BinaryOperator::Or)),
        Fixed::Xor => Some(Infix::Data(BinaryOperator::Xor)),
        Fixed::And => Some(Infix::Data(BinaryOperator::And)),
        Fixed::Equal => Some(Infix::Data(BinaryOperator::Equal)),
        Fixed::Unequal => Some(Infix::Data(BinaryOperator::Unequal)),
        Fixed::Less => Some(Infix::Data(BinaryOperator::Less)),
        Fixed::LessEqual => Some(Infix::Data(BinaryOperator::LessEqual)),
        Fixed::Greater => Some(Infix::Data(BinaryOperator::Greater)),
        Fixed::GreaterEqual => Some(Infix::Data(BinaryOperator::GreaterEqual)),
        Fixed::Plus => Some(Infix::Data(BinaryOperator::Add)),
        Fixed::Minus => Some(Infix::Data(BinaryOperator::Subtract)),
        Fixed::Star => Some(Infix::Data(BinaryOperator::Multiply)),
        Fixed::Divide => Some(Infix::Data(BinaryOperator::Divide)),
        Fixed::Modulo => Some(Infix::Data(BinaryOperator::Modulo)),
        _ => None,
    }
}

/// How tightly an operator between two operands binds, and how tightly they have to.
#[derive(Clone, Copy)]
pub struct Binding {
    /// The level of the operator with its operands, 1 to 7.
    pub level: u8,
    /// The least level of the left operand.
    pub left: u8,
    /// The least level of the right operand.
    pub right: u8,
}

fn binding_at(level: u8, left: u8, right: u8) -> Binding
    ensures level { result.level ≡ level }
    ensures left { result.left ≡ left }
    ensures right { result.right ≡ right }
{
    Binding { level, left, right }
}

fn binding_of_data(op: BinaryOperator) -> Binding
    ensures level { result.level ≡ tokens.level (Infix.Data op) }
    ensures left { result.left ≡ tokens.left (Infix.Data op) }
    ensures right { result.right ≡ tokens.right (Infix.Data op) }
{
    match op {
        BinaryOperator::Implies => binding_at(2, 3, 2),
        BinaryOperator::Or | BinaryOperator::Xor => binding_at(3, 3, 4),
        BinaryOperator::And => binding_at(4, 4, 5),
        BinaryOperator::Equal
        | BinaryOperator::Unequal
        | BinaryOperator::Less
        | BinaryOperator::LessEqual
        | BinaryOperator::Greater
        | BinaryOperator::GreaterEqual => binding_at(5, 6, 6),
        BinaryOperator::Add | BinaryOperator::Subtract => binding_at(6, 6, 7),
        BinaryOperator::Multiply | BinaryOperator::Divide | BinaryOperator::Modulo => {
            binding_at(7, 7, 8)
        }
    }
}

/// How tightly the operator binds, and how tightly its operands have to.
pub fn binding_of(op: Infix) -> Binding
    ensures level { result.level ≡ tokens.level op }
    ensures left { result.left ≡ tokens.left op }
    ensures right { result.right ≡ tokens.right op }
{
    match op {
        Infix::Arrow | Infix::FollowedBy => binding_at(1, 2, 0),
        Infix::Data(op) => binding_of_data(op),
    }
}

/// A token, without its place.
#[derive(Clone, Copy)]
pub enum Token<'t> {
    /// An identifier.
    Name(&'t str),
    /// A number. One above 9223372036854775807, which no text has, stands for that.
    Number(u64),
    Fixed(Fixed),
}

/// A token, and the place of its first byte in the text.
#[derive(Clone, Copy)]
pub struct Lexeme<'t> {
    pub token: Token<'t>,
    pub place: usize,
}
