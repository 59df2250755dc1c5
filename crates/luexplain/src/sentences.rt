//! What is said of each refusal and of each fault, by its code: what is wrong, in a sentence, and how to mend
//! it, in another. Each `@` is a hole for a part; the parts fill the holes in turn, first those of `what`,
//! then those of `mend`, and a hole without a part stays empty.
//!
//! A wording with the name of an error is what is said by the rule alone, where nothing more is known.

use luplace_file::PlaceError;
use lustat_rules::StatError;

/// The two sentences on a case.
#[derive(Clone, Copy)]
pub(crate) struct Wording {
    pub(crate) what: &'static str,
    pub(crate) mend: &'static str,
}

/// E01 Syntax; what is said of words and signs of other dialects stands in `habits`, and what could stand
/// there in `expected`
pub(crate) const TEXT_ENDS: Wording = Wording {
    what: "The text ends here, before the program does.",
    mend: "Each node ends with `tel`, and each equation and declaration with `;`.",
};

pub(crate) const MISPLACED: &str = "@ can't stand here.";

pub(crate) const NO_TOKEN: Wording = Wording {
    what: "@ begins no name, number or sign.",
    mend: "Leave it out; a comment begins with `--`.",
};

/// E02 NumberTooLarge
pub(crate) const LARGE_NUMBER: Wording = Wording {
    what: "The number @ is above 9223372036854775807, the greatest `int`.",
    mend: "Choose a coarser unit, here and in the table.",
};

/// E03 NotAscii
pub(crate) const MARKED_PROGRAM: Wording = Wording {
    what: "The program begins with a byte order mark, the bytes EF BB BF.",
    mend: "Save it as UTF-8 without a byte order mark, or cut the mark off: `tail -c +4 old.lus > new.lus`.",
};

pub(crate) const WIDE_BYTE: Wording = Wording {
    what: "This byte is above 127: a program is ASCII, and so are its comments.",
    mend: "Write it in ASCII letters.",
};

/// E04 TooLong
pub(crate) const LONG_PROGRAM: Wording = Wording {
    what: "The text has @ bytes, and a program has at most @.",
    mend: "Leave out what says nothing, and nodes that nothing calls.",
};

pub(crate) const MANY_ITEMS: Wording = Wording {
    what: "The program has more than 256 nodes, more than 64 types, or a type of more than 64 names.",
    mend: "Leave out nodes that nothing calls, and split large types.",
};

/// E05 LongRun
pub(crate) const LONG_RUN: Wording = Wording {
    what: "1,000 names, numbers and signs stand before this one without a `;`.",
    mend: "Cut the expression, and give its parts to locals.",
};

/// E10 DuplicateName
const OWN_NAMES: &str = "Give each its own name.";

pub(crate) const DUPLICATE_NAME: Wording = Wording {
    what: "One name is declared twice.",
    mend: OWN_NAMES,
};

pub(crate) const NAME_TAKEN: Wording = Wording {
    what: "@ is taken: line @ declares it too.",
    mend: OWN_NAMES,
};

/// E11 UnknownName
pub(crate) const UNKNOWN_NAME: Wording = Wording {
    what: "A name here isn't known.",
    mend: "Spell it as it is declared, or declare it.",
};

pub(crate) const NO_VARIABLE: Wording = Wording {
    what: "@ is no variable of node @, and no name of an enumeration.",
    mend: "@Spell the name as it is declared, or declare it; a variable of another node has to come as an argument.",
};

pub(crate) const LABEL_NO_VARIABLE: Wording = Wording {
    what: "@ is a name of the enumeration @, and no variable of node @.",
    mend: "Name a variable of that type; a clock is written with both, as `A(x)`.",
};

pub(crate) const NODE_NO_VARIABLE: Wording = Wording {
    what: "@ is a node, and no variable of node @.",
    mend: "Call it, with @ in parentheses.",
};

pub(crate) const TYPE_NO_VARIABLE: Wording = Wording {
    what: "@ is a type, and no variable of node @.",
    mend: "Name a variable of that type.",
};

pub(crate) const NO_LABEL: Wording = Wording {
    what: "@ is no name of an enumeration.",
    mend: "@Spell it as in its type, or declare it there.",
};

pub(crate) const NO_TYPE: Wording = Wording {
    what: "@ is no type of the program.",
    mend: "@The types are `int`, `bool` and those that the program declares.",
};

/// E12 UnknownNode
const CALL_A_NODE: &str =
    "@Call a node of the program by its name, or write the node; none is built in.";

pub(crate) const UNKNOWN_NODE: Wording = Wording {
    what: "A call here is of no node of the program.",
    mend: CALL_A_NODE,
};

pub(crate) const NO_NODE: Wording = Wording {
    what: "@ is no node of the program.",
    mend: CALL_A_NODE,
};

pub(crate) const LABEL_NO_NODE: Wording = Wording {
    what: "@ is a name of the enumeration @, and no node.",
    mend: "Compare by `x = A`; the clock `A(x)` stands after a `when`.",
};

pub(crate) const VARIABLE_NO_NODE: Wording = Wording {
    what: "@ is a variable of node @, and no node.",
    mend: "A name with parentheses after it is a call: leave them out, or put an operator or a `;` before them.",
};

/// E13 TypeMismatch
pub(crate) const TYPE_MISMATCH: Wording = Wording {
    what: "The types don't agree.",
    mend: "Give both sides one type.",
};

const TYPES_DIFFER: &str = "The types don't agree: @ is of @, @ is of @.";

pub(crate) const TWO_TYPES: Wording = Wording {
    what: TYPES_DIFFER,
    mend: "Give both one type.",
};

pub(crate) const BOOL_FOR_INT: Wording = Wording {
    what: TYPES_DIFFER,
    mend: "Give both one type; `if c then 1 else 0` makes an `int` of a `bool`.",
};

pub(crate) const INT_FOR_BOOL: Wording = Wording {
    what: TYPES_DIFFER,
    mend: "Give both one type; `x <> 0` makes a `bool` of an `int`.",
};

/// E14 WrongArity
pub(crate) const WRONG_ARITY: Wording = Wording {
    what: "A call has too many or too few arguments, or an equation too many or too few variables.",
    mend: "Give each call as many arguments as its node has inputs, and each value a variable.",
};

pub(crate) const ARGUMENTS: Wording = Wording {
    what: "The call of @ has @, and the node has @.",
    mend: "Give each call as many arguments as its node has inputs.",
};

pub(crate) const INNER_VALUES: Wording = Wording {
    what: "The call of @ stands inside an expression and gives @.",
    mend: "Give its values to variables in an equation of their own, and use these.",
};

pub(crate) const SIDES: Wording = Wording {
    what: "@ on the left, and @ on the right.",
    mend: "Write as many variables on the left as the right side has values.",
};

/// E15 Undefined
pub(crate) const UNDEFINED: Wording = Wording {
    what: "A variable has no equation.",
    mend: "Write its equation.",
};

pub(crate) const NO_EQUATION: Wording = Wording {
    what: "The @ @ of node @ has no equation.",
    mend: "Write the equation, or remove the declaration; what comes from outside is an input.",
};

/// E16 DefinedTwice
pub(crate) const DEFINED_TWICE: Wording = Wording {
    what: "A variable has a second equation, or an input has one.",
    mend: "Write one equation for each variable, and none for an input.",
};

pub(crate) const INPUT_DEFINED: Wording = Wording {
    what: "@ is an input of node @, and an input has no equation.",
    mend: "Remove the equation, or give its value another name.",
};

pub(crate) const TWICE_ON_LEFT: Wording = Wording {
    what: "@ stands twice on the left side.",
    mend: "Give each value a variable of its own.",
};

pub(crate) const DEFINED_BEFORE: Wording = Wording {
    what: "@ has an equation already, in line @.",
    mend: "Write one equation for it: an equation holds at every instant, and is no assignment.",
};

/// E17 RecursiveNode
const STEP_BY_STEP: &str =
    "Keep a value from instant to instant with `pre`, or write a node for each level of calls.";

pub(crate) const RECURSIVE_NODE: Wording = Wording {
    what: "A node calls itself.",
    mend: STEP_BY_STEP,
};

pub(crate) const CIRCLE_OF_CALLS: Wording = Wording {
    what: "A node can't call itself: @.",
    mend: STEP_BY_STEP,
};

/// E18 NoMain
const NAME_THE_MAIN: &str = "@Name the main node with `--main`, or rename it.";

pub(crate) const NO_MAIN: Wording = Wording {
    what: "No node is called @; the nodes are @.",
    mend: NAME_THE_MAIN,
};

pub(crate) const NO_OTHER_MAIN: Wording = Wording {
    what: "No node is called @; the only one is @.",
    mend: NAME_THE_MAIN,
};

pub(crate) const NO_NODES: Wording = Wording {
    what: "No node is called @: the program has no nodes.",
    mend: NAME_THE_MAIN,
};

/// E19 BadMerge
pub(crate) const BAD_MERGE: Wording = Wording {
    what: "The branches of a merge on a `bool` are `true` and `false`, in this order.",
    mend: "Write a branch for each of the two.",
};

const BRANCH_FOR_EACH: &str = "Write a branch for each name of the type, in this order: @.";

pub(crate) const MISSING_BRANCH: Wording = Wording {
    what: "The merge on @ has no branch for @.",
    mend: BRANCH_FOR_EACH,
};

pub(crate) const OTHER_BRANCHES: Wording = Wording {
    what: "The branches of the merge on @ aren't the names of its type, each once and in order.",
    mend: BRANCH_FOR_EACH,
};

/// E20 ClockMismatch
const ONE_CLOCK: &str =
    "Bring both to one clock: sample the faster by `when`, hold the slower by `current`, or join them by `merge`.";

pub(crate) const CLOCK_MISMATCH: Wording = Wording {
    what: "Values of two clocks are joined.",
    mend: ONE_CLOCK,
};

const CLOCKS_DIFFER: &str = "Two clocks are joined: @ is on @, @ is on @.";

pub(crate) const TWO_CLOCKS: Wording = Wording {
    what: CLOCKS_DIFFER,
    mend: ONE_CLOCK,
};

pub(crate) const SIDES_ON_TWO_CLOCKS: Wording = Wording {
    what: CLOCKS_DIFFER,
    mend: "Declare the variable on the clock of the right side, as `v: int when c`; or sample the faster by `when`, hold the slower by `current`, or join them by `merge`.",
};

pub(crate) const NOTHING_HELD: Wording = Wording {
    what: "`current` holds a variable that is on a clock, and @ is on the base clock.",
    mend: "Leave out the `current`, or declare the variable on a clock, as `v: int when c`.",
};

/// E21 NotAClock
pub(crate) const NOT_A_CLOCK: Wording = Wording {
    what: "A variable is used as a clock, and is none.",
    mend: "Name a `bool`, or a variable of an enumeration with one of its names.",
};

pub(crate) const OTHER_TYPE: Wording = Wording {
    what: "@ is used here as a clock of @, and is of @.",
    mend: "Name a `bool`, or name a variable of an enumeration with one of its names, as `A(x)`.",
};

pub(crate) const ENDLESS_CLOCKS: Wording = Wording {
    what: "This chain of clocks never comes to the base clock: @ ..",
    mend: "Declare one of them without a clock.",
};

/// E22 ClockedParameter
const CALL_ON_BASE: &str = "Call a node whose outputs are all on the base clock.";

pub(crate) const CLOCKED_PARAMETER: Wording = Wording {
    what: "A main node with a clocked output isn't called.",
    mend: CALL_ON_BASE,
};

pub(crate) const CLOCKED_MAIN: Wording = Wording {
    what: "The main node @ is called here, and its output @ is on @.",
    mend: CALL_ON_BASE,
};

pub(crate) const CLOCKED_DECLARATION: Wording = Wording {
    what: "The @ @ of node @ is on @; inputs, and outputs of all but the main node, are on the base clock.",
    mend: "Declare it without a clock, and sample it inside by `when`; a node whose arguments are sampled runs on their clock as a whole.",
};

/// E23 HiddenClock
pub(crate) const HIDDEN_CLOCK: Wording = Wording {
    what: "An output is on a clock that a local names.",
    mend: "Make the local an output too.",
};

pub(crate) const LOCAL_CLOCK: Wording = Wording {
    what: "The output @ is on the clock `@`, and @ is a local, which isn't known outside.",
    mend: "Make @ an output too.",
};

/// E30 MaybeNil
const FIRST_VALUE: &str = "Say what holds at the first instant: `@ -> pre x`, or `@ fby x`.";

pub(crate) const MAYBE_NIL: Wording = Wording {
    what: "A value may be missing at the first instant, where it is needed.",
    mend: "Say what holds at the first instant, as `0 -> pre x`, or `0 fby x`.",
};

pub(crate) const NEEDED_VALUE: Wording = Wording {
    what: "@ has no value at the first instant, and @ needs one there.",
    mend: FIRST_VALUE,
};

/// E31 CurrentMayBeNil
pub(crate) const CURRENT_MAY_BE_NIL: Wording = Wording {
    what: "A `current` holds a variable whose clock may be false at first.",
    mend: "Hold it by a merge with a value to start with, or put it on a clock whose equation begins with `true ->`.",
};

pub(crate) const CLOCK_OF_INPUT: Wording = Wording {
    what: "@ is on @, which may be false at first: @ is an input.",
    mend: "Hold it with a value to start with: `@`@. Or, where a first sample is meant, put it on a new clock, as `fresh = @ -> @`.",
};

pub(crate) const CLOCK_WITHOUT_START: Wording = Wording {
    what: "@ is on @, which may be false at first: the equation of @ doesn't begin with `@ ->`.",
    mend: "Hold it with a value to start with: `@`@. Or, where a first sample is meant, begin the equation of the clock so: `@ = @ -> ..`.",
};

/// E40 Cycle
const BREAK_THE_CIRCLE: &str =
    "Put a `pre` into the circle, with a value for the first instant, as `@ -> pre x`.";

pub(crate) const CIRCLE_OF_READS: Wording = Wording {
    what: "A value can't depend on itself at one instant: @.",
    mend: BREAK_THE_CIRCLE,
};

pub(crate) const CIRCLE_BY_CALLS: Wording = Wording {
    what: "The value that this equation defines depends on itself at the same instant, by way of a call.",
    mend: "Put a `pre` into the circle, with a value for the first instant, as `0 -> pre x`.",
};

/// E50 TooLarge
pub(crate) const MANY_FLOWS: Wording = Wording {
    what: "With all calls put in place, the main node has more than 4,096 flows.",
    mend: "Call less often, or give a result to a local in place of a second call.",
};

/// P01 NotToml
const FORM_OF_TOML: &str =
    "Names of sites stand in quotes, arrays in brackets, and each key stands once, in a line of its own.";

pub(crate) const NOT_TOML: Wording = Wording {
    what: "The placement is no TOML text.",
    mend: FORM_OF_TOML,
};

pub(crate) const NOT_TOML_FROM_HERE: Wording = Wording {
    what: "The placement is no TOML text from here on: @.",
    mend: FORM_OF_TOML,
};

/// P02 BadKey
pub(crate) const BAD_KEY: Wording = Wording {
    what: "A key isn't one of a placement, `sites` is missing, or a value is of the wrong kind.",
    mend: "The keys are `version`, `sites`, `capacity`, `default` and the table `place`; a name of a site has letters, digits and `_`, and is in quotes.",
};

pub(crate) const NO_KEY: Wording = Wording {
    what: "@ is no key of a placement.",
    mend: "@The keys are `version`, `sites`, `capacity`, `default` and the table `place`, in which the variables have their entries.",
};

pub(crate) const OUTSIDE_PLACE: Wording = Wording {
    what: "@ is no key of a placement, but a variable of the main node.",
    mend: "Put it below a line `[place]`.",
};

pub(crate) const INSIDE_PLACE: Wording = Wording {
    what: "@ is a key of the placement, and stands in the table `place`.",
    mend: "Put it above the line `[place]`: what stands below belongs to the table.",
};

pub(crate) const NO_SITES: Wording = Wording {
    what: "The placement has no key `sites`.",
    mend: "Name the sites, as `sites = [\"tank\", \"panel\"]`.",
};

pub(crate) const BAD_SITES: Wording = Wording {
    what: "The value of @ is no array of names.",
    mend: "Write the names of the sites in quotes, with commas between them, in brackets.",
};

const NAME_IN_QUOTES: &str = "Write a name in quotes; several in brackets need `version = 2`.";

pub(crate) const BAD_DEFAULT: Wording = Wording {
    what: "The value of @ is no name in quotes; in version 2 it may be an array of such names.",
    mend: NAME_IN_QUOTES,
};

pub(crate) const BAD_ENTRY: Wording = Wording {
    what: "The entry of @ is no name in quotes; in version 2 it may be an array of such names.",
    mend: NAME_IN_QUOTES,
};

pub(crate) const BAD_PLACE: Wording = Wording {
    what: "The value of @ is no table.",
    mend: "Write `[place]` in a line of its own, and below it an entry for each variable.",
};

const NO_WHOLE_NUMBER: &str = "The value of @ is no whole number.";

const ONE_OR_TWO: &str = "Write `version = 1` or `version = 2`.";

pub(crate) const BAD_VERSION: Wording = Wording {
    what: NO_WHOLE_NUMBER,
    mend: ONE_OR_TWO,
};

pub(crate) const BAD_CAPACITY: Wording = Wording {
    what: NO_WHOLE_NUMBER,
    mend: "Write how many messages each link holds, as `capacity = 8`.",
};

pub(crate) const BAD_SITE_NAME: Wording = Wording {
    what: "@ is no name of a site.",
    mend: "A name of a site has letters, digits and `_`, at most 32 in all, and doesn't begin with a digit.",
};

/// P03 UnknownSite
const AS_IN_SITES: &str = "@Spell it as in `sites`, or add it there.";

pub(crate) const UNKNOWN_SITE: Wording = Wording {
    what: "A name in `default` or in `place` isn't one of `sites`.",
    mend: AS_IN_SITES,
};

pub(crate) const NO_SITE: Wording = Wording {
    what: "@ isn't one of `sites`.",
    mend: AS_IN_SITES,
};

/// P04 UnknownVariable
const NAME_A_VARIABLE: &str =
    "@Name a variable of the main node; one of a called node stands where the call does.";

pub(crate) const UNKNOWN_VARIABLE: Wording = Wording {
    what: "A key in `place` is no input, output or local of the main node.",
    mend: NAME_A_VARIABLE,
};

pub(crate) const NO_VARIABLE_OF_MAIN: Wording = Wording {
    what: "@ is no input, output or local of the main node @.",
    mend: NAME_A_VARIABLE,
};

/// P05 Unplaced
const ENTRY_OR_DEFAULT: &str = "Add an entry to `place`, or a `default`.";

pub(crate) const UNPLACED: Wording = Wording {
    what: "A variable of the main node has no entry in `place`, and there is no `default`.",
    mend: ENTRY_OR_DEFAULT,
};

pub(crate) const NO_ENTRY: Wording = Wording {
    what: "@, a variable of the main node, has no entry in `place`, and there is no `default`.",
    mend: ENTRY_OR_DEFAULT,
};

/// P06 DuplicateSite
const EACH_ONCE: &str = "Name each site once.";

pub(crate) const DUPLICATE_SITE: Wording = Wording {
    what: "A name stands twice in `sites`, or in one array.",
    mend: EACH_ONCE,
};

pub(crate) const TWICE_IN_KEY: Wording = Wording {
    what: "@ stands twice in @.",
    mend: EACH_ONCE,
};

pub(crate) const TWICE_IN_ENTRY: Wording = Wording {
    what: "@ stands twice in the entry of @.",
    mend: EACH_ONCE,
};

/// P07 OutOfRange
pub(crate) const OUT_OF_RANGE: Wording = Wording {
    what: "The capacity isn't from 1 to 1,024, the version isn't 1 or 2, there aren't from 1 to 16 sites, or the text is too long.",
    mend: "Keep to these ranges.",
};

pub(crate) const NO_VERSION: Wording = Wording {
    what: "The version is neither 1 nor 2.",
    mend: ONE_OR_TWO,
};

pub(crate) const CAPACITY_OUT_OF_RANGE: Wording = Wording {
    what: "The capacity isn't from 1 to 1,024.",
    mend: "Write a whole number from 1 to 1,024, as `capacity = 8`.",
};

pub(crate) const SITE_COUNT: Wording = Wording {
    what: "The placement has @, and there may be from 1 to @.",
    mend: "Name each site that variables stand at, and no others.",
};

pub(crate) const LONG_PLACEMENT: Wording = Wording {
    what: "The text has @ bytes, and a placement has at most @.",
    mend: "Leave out comments, and entries that say what `default` says.",
};

/// P08 SplitCall
const PLACE_TOGETHER: &str =
    "Place them together; a further variable with an equation `c = b` can stand elsewhere.";

pub(crate) const SPLIT_CALL: Wording = Wording {
    what: "The variables of one equation, which one call computes, stand at different sites.",
    mend: PLACE_TOGETHER,
};

pub(crate) const APART: Wording = Wording {
    what: "@ and @ come from one call, and stand at different sites.",
    mend: PLACE_TOGETHER,
};

/// F01 CannotRead
pub(crate) const NO_FILE: Wording = Wording {
    what: "There is no such file.",
    mend: "Look at its path: it begins at the folder in which the command is called.",
};

pub(crate) const FOLDER: Wording = Wording {
    what: "This is a folder.",
    mend: "Write the path of a file in it.",
};

pub(crate) const FORBIDDEN_FILE: Wording = Wording {
    what: "The system doesn't let this file be read.",
    mend: "Ask for the right to read it (`chmod u+r`), and to pass the folders on its path.",
};

pub(crate) const UNREAD_FILE: Wording = Wording {
    what: "The system can't read this file.",
    mend: "See whether another program can, as `cat`.",
};

/// A text whose path ends as those of others do.
pub(crate) const OTHER_FILE: Wording = Wording {
    what: "@ is read as the @, and is none.",
    mend: "The files come in this order, as far as the command takes them: PROGRAM, PLACE, TABLE, SCHEDULE.",
};

/// S01 BadSchedule
pub(crate) const NO_TURN: Wording = Wording {
    what: "@ is no turn, no space and no line feed.",
    mend: "Write a letter for each turn, `0` to `9` and `a` to `f` for the sites 0 to 15, and between them spaces and line feeds alone.",
};

/// S02 LongSchedule
pub(crate) const LONG_SCHEDULE: Wording = Wording {
    what: "The schedule has @ bytes, and may have @.",
    mend: "Write the turns that matter, and let `--finish` take the others.",
};

/// R1 Fault
pub(crate) const OVERFLOW: Wording = Wording {
    what: "The equation of @ has no value at instant @, which is line @ of the table: a result doesn't fit into 64 bits.",
    mend: "Bound the operands before the operator.",
};

pub(crate) const DIV_ZERO: Wording = Wording {
    what: "The equation of @ has no value at instant @, which is line @ of the table: a divisor is 0.",
    mend: "Divide by `if x = 0 then 1 else x`, or keep the division away by a clock; an `if` computes both branches.",
};

/// R2 OutOfMemory
pub(crate) const OUT_OF_MEMORY: Wording = Wording {
    what: "Memory ran out, which says nothing of the text.",
    mend: "Take a machine with more memory, or a shorter text.",
};

// WORDS FOR HOLES

/// A name that is declared, by what bears it.
pub(crate) const NAME_OF_NODE: &str = "The name of the node @";

pub(crate) const NAME_OF_TYPE: &str = "The name of the type @";

pub(crate) const NAME_OF_LABEL: &str = "The name @ of an enumeration";

pub(crate) const NAME_OF_VARIABLE: &str = "The name of the variable @";

/// What variables are, and what is counted of them.
pub(crate) const VARIABLE: &str = "variable";

pub(crate) const INPUT: &str = "input";

pub(crate) const OUTPUT: &str = "output";

pub(crate) const LOCAL: &str = "local";

/// What is counted, besides variables and inputs.
pub(crate) const ARGUMENT: &str = "argument";

pub(crate) const VALUE: &str = "value";

pub(crate) const SITE: &str = "site";

/// What one does to the next in a circle.
pub(crate) const CALLS: &str = "calls";

pub(crate) const READS: &str = "reads";

/// What is of a type, or on a clock.
pub(crate) const OPERAND: &str = "an operand of @";

pub(crate) const CONDITION: &str = "the condition of an `if`";

pub(crate) const INPUT_OF: &str = "the input @ of node @";

pub(crate) const OUTPUT_OF: &str = "the output @ of node @";

pub(crate) const RIGHT_SIDE: &str = "the right side";

/// What a variable is held by that isn't alone on the left.
pub(crate) const HELD: [&str; 3] = ["held", "kept", "last"];

pub(crate) const BY_HELD: &str = ", with @ in place of the `current`";

/// What needs a value at the first instant.
pub(crate) const NEEDED_OUTPUT: &str = "the output @";

pub(crate) const NAMED_AS_CLOCK: &str = "@, which is named as a clock,";

pub(crate) const BEHIND_PRE: &str = "the operand of a `pre`";

pub(crate) const BEHIND_FBY: &str = "the right operand of a `fby`";

pub(crate) const ARGUMENT_OF: &str = "an argument of @";

pub(crate) const BRANCH_OF: &str = "a branch of the merge on @";

pub(crate) const HELD_BY_CURRENT: &str = "@, which a `current` holds,";

/// A name that is spelled nearly so, before what else mends it.
pub(crate) const NEAR: &str = "Did you mean @? ";

// THE RULES ALONE

/// What is said of a broken rule by the rule alone.
pub(crate) fn of_rule_alone(error: &StatError) -> Wording {
    match error {
        StatError::DuplicateName { .. } => DUPLICATE_NAME,
        StatError::UnknownName { .. } => UNKNOWN_NAME,
        StatError::UnknownNode { .. } => UNKNOWN_NODE,
        StatError::TypeMismatch { .. } => TYPE_MISMATCH,
        StatError::WrongArity { .. } => WRONG_ARITY,
        StatError::Undefined { .. } => UNDEFINED,
        StatError::DefinedTwice { .. } => DEFINED_TWICE,
        StatError::RecursiveNode { .. } => RECURSIVE_NODE,
        StatError::BadMerge { .. } => BAD_MERGE,
        StatError::ClockMismatch { .. } => CLOCK_MISMATCH,
        StatError::NotAClock { .. } => NOT_A_CLOCK,
        StatError::ClockedParameter { .. } => CLOCKED_PARAMETER,
        StatError::HiddenClock { .. } => HIDDEN_CLOCK,
        StatError::MaybeNil { .. } => MAYBE_NIL,
        StatError::CurrentMayBeNil { .. } => CURRENT_MAY_BE_NIL,
        _ => OUT_OF_MEMORY,
    }
}

/// What is said of a placement that is refused by the rule alone.
pub(crate) fn of_place_alone(error: &PlaceError) -> Wording {
    match error {
        PlaceError::NotToml => NOT_TOML,
        PlaceError::BadKey => BAD_KEY,
        PlaceError::UnknownSite => UNKNOWN_SITE,
        PlaceError::UnknownVariable => UNKNOWN_VARIABLE,
        PlaceError::Unplaced => UNPLACED,
        PlaceError::DuplicateSite => DUPLICATE_SITE,
        PlaceError::OutOfRange => OUT_OF_RANGE,
        PlaceError::SplitCall => SPLIT_CALL,
        PlaceError::OutOfMemory => OUT_OF_MEMORY,
    }
}

/// What is said of the value of a key of a placement that is of the wrong kind.
pub(crate) fn of_value(key: &str) -> Wording {
    match key {
        "sites" => BAD_SITES,
        "default" => BAD_DEFAULT,
        "place" => BAD_PLACE,
        "version" => BAD_VERSION,
        _ => BAD_CAPACITY,
    }
}

/// W01 UnusedNode to W04 DividingBranch
pub(crate) const UNUSED_NODE: Wording = Wording {
    what: "No equation calls the node @.",
    mend: "",
};

pub(crate) const UNUSED_INPUT: Wording = Wording {
    what: "Nothing in the node @ reads its input @.",
    mend: "",
};

pub(crate) const UNUSED_LOCAL: Wording = Wording {
    what: "Nothing in the node @ reads its local @, which is computed all the same and may fault.",
    mend: "",
};

pub(crate) const DIVIDING_BRANCH: Wording = Wording {
    what: "Both branches of an `if` are computed at each instant: a `div` or `mod` by zero faults also where it isn't chosen.",
    mend: "",
};
