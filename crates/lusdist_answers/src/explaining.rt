//! A page of the manual.

ghost use Rattle.std.specs.Prelude.{◌≡◌, IfOk, IfErr, Some, string_bytes};
ghost use Rattle.lusdist_call.specs.Explained.{code_in, explanation, IsExplainStopped};

use lubase::Name;
use lusdist_call::{CallError, Mistake};
use lusdist_shell::{ExplainRequest, all_codes, page_of};
use std::alloc::Global;

/// The page of a code, whose letter may be small.
fn page_text(alloc: Global, code: &str) -> Result<String, CallError>
    ensures text { IfOk result (λ text. explanation (Some code.now) ≡ Some (string_bytes text)) }
    ensures stopped { IfErr result (IsExplainStopped (Some code.now)) }
{
    match page_of(alloc, code)? {
        Some(page) => Ok(String::from_str(alloc, page)?),
        None => Err(CallError::Mistaken(Mistake::UnknownCode {
            code: Name::from_text(alloc, code)?,
        })),
    }
}

/// The page of the code that is asked for; without a code a line for each.
pub fn explained(alloc: Global, request: ExplainRequest<'_>) -> Result<String, CallError>
    ensures text { IfOk result (λ text. explanation (code_in request.entry)
        ≡ Some (string_bytes text)) }
    ensures stopped { IfErr result (IsExplainStopped (code_in request.entry)) }
{
    match request.code {
        Some(code) => page_text(alloc, code),
        None => Ok(String::from_str(alloc, all_codes())?),
    }
}
