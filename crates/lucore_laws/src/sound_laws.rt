//! What holds of the flat list of an accepted program, as contracts of functions that do nothing.

ghost use Rattle.lucore_laws.specs.SoundLaws.{SoundLaw, InsideLaw, FlatLaw};

/// The flows fit each other in clock, type and class.
pub fn sound_law()
    ensures { SoundLaw }
{}

/// A flow names main variables and flows of its own equation, and the inputs are the flows that read the
/// table.
pub fn inside_law()
    ensures { InsideLaw }
{}

/// With an order of rank the flat program is one that can be evaluated.
pub fn flat_law()
    ensures { FlatLaw }
{}
