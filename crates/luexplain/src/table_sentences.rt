//! What is said of tables, by the code of the refusal, as in `sentences`; and of bytes that no table has, by
//! the byte.

use crate::sentences::Wording;

/// A byte that stands in no table, or not where it does, and what is said of it.
#[derive(Clone, Copy)]
pub(crate) struct Sign(pub(crate) u8, pub(crate) Wording);

/// T01 BadHeader
pub(crate) const MARKED: Wording = Wording {
    what: "The table begins with a byte order mark, the bytes EF BB BF.",
    mend: "Save it as UTF-8 without a byte order mark, or cut the mark off: `tail -c +4 old.csv > new.csv`.",
};

pub(crate) const UTF16: Wording = Wording {
    what: "The table is in UTF-16.",
    mend: "Save it as UTF-8 without a byte order mark.",
};

pub(crate) const NOT_UTF8: Wording = Wording {
    what: "The table isn't UTF-8: this byte can't stand here.",
    mend: "Save it in ASCII.",
};

pub(crate) const EMPTY_TABLE: Wording = Wording {
    what: "The table is empty.",
    mend: "Write the header @, and below it a line for each instant.",
};

pub(crate) const EMPTY_HEADER: Wording = Wording {
    what: "The first line is empty.",
    mend: "Begin with the header @, and leave out empty lines.",
};

pub(crate) const NO_INPUTS: Wording = Wording {
    what: "The main node has no inputs, and this line isn't empty.",
    mend: "Write an empty line as the header, and an empty line for each instant.",
};

const END_LINES: &str = "End each line with a line feed, the last one too.";

pub(crate) const UNENDED_HEADER: Wording = Wording {
    what: "The header has no line feed at its end.",
    mend: END_LINES,
};

const WRITE_THE_HEADER: &str = "Write the header @.";

pub(crate) const NO_NAME: Wording = Wording {
    what: "A name is missing here.",
    mend: WRITE_THE_HEADER,
};

pub(crate) const NO_HEADER: Wording = Wording {
    what: "The first line is no header: @ is a value.",
    mend: "Put the header @ before it.",
};

pub(crate) const NO_INPUT: Wording = Wording {
    what: "@ is no input of the main node.",
    mend: "@Write the header @.",
};

pub(crate) const NAMED_TWICE: Wording = Wording {
    what: "@ stands twice in the header.",
    mend: WRITE_THE_HEADER,
};

pub(crate) const NO_COLUMN: Wording = Wording {
    what: "The input @ has no column.",
    mend: "Write the header @, and below it a value for each input in each line.",
};

pub(crate) const OTHER_ORDER: Wording = Wording {
    what: "The columns are in another order than the inputs, from here on.",
    mend: "Write them in the order of declaration: @.",
};

/// T02 BadRow
pub(crate) const UNENDED_LINE: Wording = Wording {
    what: "The last line has no line feed at its end.",
    mend: END_LINES,
};

pub(crate) const EMPTY_LINE: Wording = Wording {
    what: "The line is empty.",
    mend: "Leave it out: each line below the header is an instant.",
};

pub(crate) const EMPTY_END: Wording = Wording {
    what: "The table has an empty line at its end.",
    mend: "Leave it out: the table ends with the line feed of its last instant.",
};

const A_VALUE_FOR_EACH: &str = "Write a value for each input at every instant.";

pub(crate) const FIELD_COUNT: Wording = Wording {
    what: "The line has @, and the table has @: @.",
    mend: A_VALUE_FOR_EACH,
};

/// T03 BadValue
pub(crate) const BAD_VALUE: Wording = Wording {
    what: "A field of this line is no value of its type.",
    mend: "Write a value of the type of its input.",
};

pub(crate) const NO_VALUE: Wording = Wording {
    what: "The column @ has no value here.",
    mend: A_VALUE_FOR_EACH,
};

const NO_VALUE_OF_TYPE: &str = "@ in the column @ is no value of @.";

pub(crate) const NO_INT: Wording = Wording {
    what: NO_VALUE_OF_TYPE,
    mend: "Write a whole number in decimal digits, without `+` or zeros before it.",
};

pub(crate) const FRACTION: Wording = Wording {
    what: NO_VALUE_OF_TYPE,
    mend: "Write a whole number, without a point or an exponent; for fractions choose a finer unit, as thousandths.",
};

pub(crate) const LARGE_INT: Wording = Wording {
    what: NO_VALUE_OF_TYPE,
    mend: "Write a whole number from -9223372036854775808 to 9223372036854775807, in a coarser unit if need be.",
};

pub(crate) const NO_BOOL: Wording = Wording {
    what: NO_VALUE_OF_TYPE,
    mend: "Write `true` or `false`.",
};

pub(crate) const ONE_FOR_TRUE: Wording = Wording {
    what: NO_VALUE_OF_TYPE,
    mend: "Write `true` for 1, and `false` for 0.",
};

pub(crate) const CAPITALS: Wording = Wording {
    what: NO_VALUE_OF_TYPE,
    mend: "Write `true` or `false`, in small letters.",
};

pub(crate) const NO_LABEL_OF_TYPE: Wording = Wording {
    what: NO_VALUE_OF_TYPE,
    mend: "@Write one of @.",
};

/// T04 TooLong
pub(crate) const LONG_TABLE: Wording = Wording {
    what: "The table has @ bytes and @; it may have @ bytes, and a header and 1000000 lines.",
    mend: "Try the program on a part of the table.",
};

// BYTES THAT NO TABLE HAS

const CARRIAGE_RETURN: Wording = Wording {
    what: "A carriage return stands here: a line ends with a line feed alone.",
    mend: "Remove carriage returns: `tr -d '\\r' < old.csv > new.csv`.",
};

const SEMICOLON: Wording = Wording {
    what: "A `;` stands here: the separator is a comma.",
    mend: "Replace each `;`: `tr ';' ',' < old.csv > new.csv`.",
};

const TAB: Wording = Wording {
    what: "A tab stands here: the separator is a comma.",
    mend: "Replace each tab: `tr '\\t' ',' < old.csv > new.csv`.",
};

const SPACE: Wording = Wording {
    what: "A space stands here: the separator is a comma.",
    mend: "Replace each space: `tr ' ' ',' < old.csv > new.csv`.",
};

const BLANK: Wording = Wording {
    what: "A blank stands here: names and values have none around them.",
    mend: "Remove blanks: `tr -d ' \\t' < old.csv > new.csv`.",
};

const QUOTE: Wording = Wording {
    what: "A quote stands here, and a table has none.",
    mend: "Write names and values without quotes.",
};

/// What is said of a line of several columns that has no comma.
pub(crate) const SEPARATORS: &[Sign] = &[
    Sign(b'\r', CARRIAGE_RETURN),
    Sign(b';', SEMICOLON),
    Sign(b'\t', TAB),
    Sign(b'"', QUOTE),
    Sign(b'\'', QUOTE),
    Sign(b' ', SPACE),
];

/// What is said of any other line or field.
pub(crate) const STRAYS: &[Sign] = &[
    Sign(b'\r', CARRIAGE_RETURN),
    Sign(b';', SEMICOLON),
    Sign(b'"', QUOTE),
    Sign(b'\'', QUOTE),
    Sign(b' ', BLANK),
    Sign(b'\t', BLANK),
];

/// What is said of a line with commas whose number of fields is wrong.
pub(crate) const JOINED: &[Sign] = &[Sign(b';', SEMICOLON), Sign(b'"', QUOTE), Sign(b'\'', QUOTE)];

// WORDS FOR HOLES

/// What is counted.
pub(crate) const FIELD: &str = "field";

pub(crate) const COLUMN: &str = "column";

pub(crate) const LINE: &str = "line";
