//! How patterns and clocks are spelled.

use crate::words::put_cut;
use lustat_rules::PatternRef;
use std::alloc::AllocError;

/// `true`, `false` or a name of an enumeration.
pub(crate) fn put_sign(text: &mut String, sign: PatternRef) -> Result<(), AllocError> {
    match sign {
        PatternRef::Truth(true) => text.push_str("true"),
        PatternRef::Truth(false) => text.push_str("false"),
        PatternRef::Label(label) => put_cut(text, label.name.as_str()),
    }
}

/// `c`, `not c` or `A(c)`, by the variable and the pattern.
pub(crate) fn put_on(text: &mut String, name: &str, sign: PatternRef) -> Result<(), AllocError> {
    match sign {
        PatternRef::Truth(true) => put_cut(text, name),
        PatternRef::Truth(false) => {
            text.push_str("not ")?;
            put_cut(text, name)
        }
        PatternRef::Label(label) => {
            put_cut(text, label.name.as_str())?;
            text.push('(')?;
            put_cut(text, name)?;
            text.push(')')
        }
    }
}
