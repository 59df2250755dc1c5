//! The design's table.

use crate::design::OUTPUTS;
use crate::texts::Texts;
use lusdist_answers::CallError;
use lusdist_answers::answering::eval_answer;
use std::alloc::Global;

/// The table of the design's outputs.
pub(crate) fn table_of_design(alloc: Global) -> Result<String, CallError> {
    match eval_answer(alloc, OUTPUTS, &Texts) {
        Ok(reply) => Ok(reply.text),
        Err(refusal) => Err(refusal.error),
    }
}
