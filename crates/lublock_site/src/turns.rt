//! What came of a part of a turn.

ghost use Rattle.std.specs.Prelude.{◌≡◌};
ghost use Rattle.luworld.specs.Turns.{is_over};

use luworld::Turn;

/// What came of a part of a turn that could do some of it.
pub fn moved_if(moved: bool) -> Turn {
    if moved { Turn::Moved } else { Turn::Blocked }
}

pub fn is_over(turn: Turn) -> bool
    ensures { result ≡ is_over turn }
{
    match turn {
        Turn::Moved | Turn::Blocked => false,
        Turn::Over => true,
    }
}
