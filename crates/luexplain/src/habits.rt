//! What is said to those who come from another dialect (Lustre V4 or V6, SCADE, C), by the word or the sign
//! that they write: how it is written here. The first line that fits is the one that is said. A hole is
//! filled as in `sentences`, with the token before what is refused, and its line.

/// Where a word or a sign of another dialect stands.
#[derive(Clone, Copy)]
pub(crate) enum Stand {
    /// The text is refused inside of a comment that begins with `(*`, or at its first byte.
    Comment,
    /// It is refused where this sign begins, or at this word.
    At(&'static str),
    /// It is refused at the second byte of this sign.
    Inside(&'static str),
    /// It is refused right behind this word.
    Behind(&'static str),
    /// It is refused right behind this word, with which an equation would begin.
    First(&'static str),
    /// It is refused at a value right behind this word.
    Prefix(&'static str),
    /// It is refused right behind this word, at the other.
    Both(&'static str, &'static str),
    /// It is refused at the second token behind this word, where this sign begins, or at the other word.
    Second(&'static str, &'static str),
    /// It is refused right behind a `not` that stands behind this word.
    Not(&'static str),
    /// It is refused at this word, with which a type, a node or an equation would begin.
    Top(&'static str),
    /// It is refused at a point with a digit beside it.
    Point,
    /// It is refused behind the `=` of a type, or where a type ends without it.
    OfType,
    /// It is refused at this type, where a name would be declared.
    Declared(&'static str),
    /// It is refused at this sign in an equation.
    Equation(&'static str),
    /// It is refused at a comma behind the first name of an equation.
    Tuple,
    /// It is refused right behind the `=` of an equation of several variables.
    Sides,
    /// It is refused at a comma behind a declaration.
    Comma,
    /// It is refused at a keyword in capitals.
    Capital,
    /// It is refused at a value right behind a keyword in capitals.
    BehindCapital,
    /// It is refused at a comparison of what is compared already.
    Chain,
    /// It is refused at this word, with which an operand would begin.
    Operand(&'static str),
    /// It is refused where an `if` ends that has no `else`.
    NoElse,
    /// It is refused where an equation ends in which a parenthesis is open.
    Unclosed,
    /// It is refused where the next equation or declaration begins, or the list of them ends.
    Unended,
    /// It is refused at a keyword in place of a name.
    Keyword,
    /// It is refused behind the call of an equation of several variables.
    BehindCall,
    /// It is a type that isn't known; capitals are as good.
    Type(&'static str),
    /// It is a variable that isn't known; capitals are as good.
    Value(&'static str),
    /// It is a node that isn't known.
    Call(&'static str),
}

/// Where something of another dialect stands, and what is said of it.
#[derive(Clone, Copy)]
pub(crate) struct Habit(pub(crate) Stand, pub(crate) &'static str);

const COMMENT: &str = "A comment begins with `--` and goes on to the end of its line.";

const OPEN_COMMENT: &str =
    "`(*` begins no comment: one begins with `--`, and goes on to the end of its line.";

const DIV: &str = "Write `div` for a quotient in whole numbers, as `x div y`.";

const MOD: &str = "Write `mod` for the remainder of a division, as `x mod y`.";

const AND: &str = "Write `and`.";

const OR: &str = "Write `or`.";

const NOT: &str = "Write `not`.";

const UNEQUAL: &str = "Write `<>`.";

const AT_MOST: &str = "Write `<=`.";

const EQUAL: &str = "Compare by one `=`.";

const ASSIGN: &str = "Write `=`: an equation says what holds at every instant.";

const ONE_OF_MANY: &str =
    "Write `not (a and b)` for at most one of two; for three, that of each two, joined by `and`.";

const NOR: &str = "Write `not (a or b)`.";

const XOR: &str = "`xor` stands between its operands, as `a xor b`.";

const CHOICE: &str = "Write `if c then a else b`.";

const REALS: &str = "There are no reals: take an `int` in a finer unit, as thousandths.";

const ARRAYS: &str = "There are no arrays: each element is a variable of its own.";

const STRUCTURES: &str = "There are no structures: each field is a variable of its own.";

const PACKAGES: &str = "There are no packages and no `include`: all nodes stand in one file.";

const PARAMETERS: &str =
    "There is no `<<`: a node has no parameters but its inputs; write a node for each value.";

const TYPES: &str =
    "A type is an enumeration, as `type mode = enum { Idle, Busy };`; there are no others but `int` and `bool`.";

const CONSTANTS: &str =
    "There are no constants: write the number, or, behind all types, a node without inputs, as `node limit() returns (v: int); let v = 80; tel`.";

const FUNCTIONS: &str = "Write `node`; a node that keeps no state is a function.";

const FOREIGN: &str =
    "Each node is written in this language; what comes from outside is an input of the main node.";

const ELSE_IF: &str = "Write `else if`.";

const ASSERTIONS: &str =
    "There are no assertions: make the condition an output, and check that it is true.";

const AUTOMATA: &str =
    "There are no automata: keep the state in a variable of an enumeration, by `fby` and `merge`.";

const CASES: &str =
    "Choose by a merge on a variable of an enumeration, as `merge x (A -> ..) (B -> ..)`, or by `if`.";

const LAST: &str = "Write `pre x`, with a value for the first instant, as `0 -> pre x`.";

const CURRENT: &str =
    "`current` takes the name of a variable, without parentheses, as `current q`; an expression gets a name first, as `q = x when c;`.";

const WHEN: &str =
    "`when` takes a clock, `c`, `not c` or `A(x)`: give the condition a name first, as `c = x > 3;`.";

const WHEN_TRUE: &str = "Write `when c`, or `when not c`.";

const MERGE: &str =
    "A merge has its variable and then its branches, as `merge c (true -> a) (false -> b)`.";

const FBY: &str = "`fby` stands between its operands, as `0 fby x`.";

const TEL: &str = "Leave out the point: a node ends with `tel`.";

const TUPLE: &str = "Put the variables on the left in parentheses, as `(y, z) = f(x);`.";

const SIDES: &str =
    "Several variables take the values of one call; else write an equation for each.";

const BETWEEN: &str = "Between declarations stands a `;`, as `x: int; y: int`.";

const TYPE_BEHIND: &str = "The type stands after the name, as `x: int`.";

const SMALL: &str = "Write keywords in small letters.";

const SMALL_BEFORE: &str = "Write keywords in small letters: @ is none.";

const CHAIN: &str = "Comparisons aren't chained: write `a < b and b < c`.";

const IF_STATEMENT: &str = "An equation begins with its variable: write `y = if c then a else b;`.";

const IF_OPERAND: &str =
    "An `if` that is an operand stands in parentheses, as `x + (if c then 1 else 0)`.";

const CURRENT_OPERAND: &str = "Put the `current` in parentheses, as `(current x) when c`.";

const KEYWORD: &str = "A keyword is no name: choose another name.";

const NO_ELSE: &str = "Each `if` has an `else`, since there is a value at every instant.";

const UNCLOSED: &str = "Close the parenthesis that is open, after @ in line @ or before.";

const UNENDED: &str =
    "Put a `;` after @ in line @: each equation and each declaration ends with one.";

const TRUE: &str = "Write `true`, in small letters.";

const FALSE: &str = "Write `false`, in small letters.";

const BOOL: &str = "Write `bool`.";

const INT: &str = "Write `int`, which has 64 bits.";

/// The habits, by token.
pub(crate) const HABITS: &[Habit] = &[
    Habit(Stand::Comment, OPEN_COMMENT),
    Habit(Stand::First("automaton"), AUTOMATA),
    Habit(Stand::Prefix("case"), CASES),
    Habit(Stand::Both("of", "|"), CASES),
    Habit(Stand::At("/*"), COMMENT),
    Habit(Stand::At("//"), COMMENT),
    Habit(Stand::At("/"), DIV),
    Habit(Stand::At("%"), MOD),
    Habit(Stand::At("&"), AND),
    Habit(Stand::At("|"), OR),
    Habit(Stand::At("!="), UNEQUAL),
    Habit(Stand::At("!"), NOT),
    Habit(Stand::At("#("), ONE_OF_MANY),
    Habit(Stand::At("# ("), ONE_OF_MANY),
    Habit(Stand::At("?"), CHOICE),
    Habit(Stand::At("["), ARRAYS),
    Habit(Stand::At("]"), ARRAYS),
    Habit(Stand::At("^"), ARRAYS),
    Habit(Stand::At("\""), PACKAGES),
    Habit(Stand::Both("last", "'"), LAST),
    Habit(Stand::Both("tel", "."), TEL),
    Habit(Stand::Point, REALS),
    Habit(Stand::At("."), STRUCTURES),
    Habit(Stand::At(":="), ASSIGN),
    Habit(Stand::At("::"), PACKAGES),
    Habit(Stand::Inside("=="), EQUAL),
    Habit(Stand::Inside("=<"), AT_MOST),
    Habit(Stand::At("<<"), PARAMETERS),
    Habit(Stand::Inside("<<"), PARAMETERS),
    Habit(Stand::Top("if"), IF_STATEMENT),
    Habit(Stand::Both(":", "enum"), TYPES),
    Habit(Stand::Top("const"), CONSTANTS),
    Habit(Stand::First("const"), CONSTANTS),
    Habit(Stand::Top("function"), FUNCTIONS),
    Habit(Stand::Top("extern"), FOREIGN),
    Habit(Stand::Top("imported"), FOREIGN),
    Habit(Stand::Top("unsafe"), FOREIGN),
    Habit(Stand::Top("package"), PACKAGES),
    Habit(Stand::Top("model"), PACKAGES),
    Habit(Stand::Top("open"), PACKAGES),
    Habit(Stand::OfType, TYPES),
    Habit(Stand::First("assert"), ASSERTIONS),
    Habit(Stand::First("assume"), ASSERTIONS),
    Habit(Stand::First("guarantee"), ASSERTIONS),
    Habit(Stand::Prefix("last"), LAST),
    Habit(Stand::Behind("current"), CURRENT),
    Habit(Stand::Both("when", "true"), WHEN_TRUE),
    Habit(Stand::Both("when", "false"), WHEN_TRUE),
    Habit(Stand::Behind("when"), WHEN),
    Habit(Stand::Not("when"), WHEN),
    Habit(Stand::Second("when", "match"), WHEN),
    Habit(Stand::Behind("merge"), MERGE),
    Habit(Stand::Second("merge", ""), MERGE),
    Habit(Stand::At("fby"), FBY),
    Habit(Stand::At("xor"), XOR),
    Habit(Stand::At("nor"), NOR),
    Habit(Stand::At("elsif"), ELSE_IF),
    Habit(Stand::At("elseif"), ELSE_IF),
    Habit(Stand::At("elif"), ELSE_IF),
    Habit(Stand::Declared("int"), TYPE_BEHIND),
    Habit(Stand::Declared("bool"), TYPE_BEHIND),
    Habit(Stand::Capital, SMALL),
    Habit(Stand::BehindCapital, SMALL_BEFORE),
    Habit(Stand::Equation("{"), STRUCTURES),
    Habit(Stand::Tuple, TUPLE),
    Habit(Stand::Sides, SIDES),
    Habit(Stand::Comma, BETWEEN),
    Habit(Stand::Chain, CHAIN),
    Habit(Stand::Operand("if"), IF_OPERAND),
    Habit(Stand::Second("current", "when"), CURRENT_OPERAND),
    Habit(Stand::NoElse, NO_ELSE),
    Habit(Stand::Unclosed, UNCLOSED),
    Habit(Stand::Unended, UNENDED),
    Habit(Stand::Keyword, KEYWORD),
    Habit(Stand::BehindCall, SIDES),
    Habit(Stand::Type("real"), REALS),
    Habit(Stand::Type("float"), REALS),
    Habit(Stand::Type("double"), REALS),
    Habit(Stand::Type("float32"), REALS),
    Habit(Stand::Type("float64"), REALS),
    Habit(Stand::Type("boolean"), BOOL),
    Habit(Stand::Type("integer"), INT),
    Habit(Stand::Type("int32"), INT),
    Habit(Stand::Type("int64"), INT),
    Habit(Stand::Type("uint32"), INT),
    Habit(Stand::Value("true"), TRUE),
    Habit(Stand::Value("false"), FALSE),
    Habit(Stand::Call("nor"), NOR),
    Habit(Stand::Call("real"), REALS),
    Habit(Stand::Call("float"), REALS),
];
