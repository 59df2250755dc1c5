//! Files that can't be read, `F01`, and files that are read as what they aren't.

ghost use Rattle.std.specs.Prelude.{◌≡◌, IfOk};
ghost use Rattle.luexplain.specs.Explanations.{IsExplanation, whole as whole_of};

use crate::said::{Explanation, Said, reported, say, whole};
use crate::sentences;
use crate::words::Part;
use lusdist_shell::ReadFault;
use std::alloc::{AllocError, Global};

/// What a user reads about a file that can't be read: its path, what is wrong, and how to mend it.
///
/// # Errors
///
/// An error means that memory ran out.
pub fn of_unread(alloc: Global, path: &str, why: ReadFault) -> Result<Explanation, AllocError>
    ensures { IfOk result (IsExplanation (whole_of path.now)) }
{
    let wording = match why {
        ReadFault::Missing => sentences::NO_FILE,
        ReadFault::Folder => sentences::FOLDER,
        ReadFault::Forbidden => sentences::FORBIDDEN_FILE,
        ReadFault::Other => sentences::UNREAD_FILE,
    };
    let said = say(alloc, wording, &[])?;
    Ok(reported(whole(alloc, path)?, said))
}

/// The names of the texts of a call, and how their paths mostly end.
const ROLES: &[(&str, &str)] = &[("PROGRAM", ".lus"), ("PLACE", ".toml"), ("TABLE", ".csv")];

/// Whether the path of a text ends as those of others do.
pub(crate) fn is_other(path: &str, role: &str) -> bool {
    for (other, end) in ROLES {
        if path.ends_with(*end) {
            return *other != role;
        }
    }
    false
}

/// What is said of a text whose path ends as those of others do; nothing of another.
pub(crate) fn said_of_order(
    alloc: Global,
    path: &str,
    role: &str,
) -> Result<Option<Said>, AllocError> {
    if !is_other(path, role) {
        return Ok(None);
    }
    let parts = [Part::Name(path), Part::Words(role)];
    Ok(Some(say(alloc, sentences::OTHER_FILE, &parts)?))
}
