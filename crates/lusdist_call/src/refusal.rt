//! Why a call stops, and what it leaves all the same.

use crate::call_error::CallError;
use std::alloc::AllocError;

/// Why a call stops, and the dump that it leaves: of an evaluation that stops at a fault, that of the
/// instants before it.
#[derive(Drop)]
pub struct Refusal {
    pub error: CallError,
    pub dump: Option<String>,
}

impl From<CallError> for Refusal {
    ghost use Rattle.std.specs.Prelude.{◌≡◌, None};

    ghost from_gives = { λ error refusal. (refusal.error ≡ error) × (refusal.dump ≡ None) };

    fn from(error: CallError) -> Self {
        Refusal { error, dump: None }
    }
}

impl From<AllocError> for Refusal {
    ghost use Rattle.std.specs.Prelude.{◌≡◌, None};
    ghost use Rattle.lusdist_call.specs.declared.call_error.CallError.TheVariants.{OutOfMemory};

    ghost from_gives = { λ _ refusal. (refusal.error ≡ OutOfMemory) × (refusal.dump ≡ None) };

    fn from(_error: AllocError) -> Self {
        Refusal {
            error: CallError::OutOfMemory,
            dump: None,
        }
    }
}
