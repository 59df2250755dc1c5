//! What the rule of a ring says, as contracts of functions that do nothing.

ghost use Rattle.lulink.specs.RingLaw.{RingLaw, SenderLaw, ReceiverLaw};

/// What was put is what was taken and then what stands in the ring, which is no more than the capacity; both
/// are prefixes of the list; and each word that an end saw is one of the other end's, the last where it says
/// that the other has left. It holds between any two steps of the two ends, in any schedule.
pub fn ring_law()
    ensures { RingLaw }
{}

/// What the rule knows of an end is what contracts see of it.
pub fn ends_law()
    ensures sender { SenderLaw }
    ensures receiver { ReceiverLaw }
{}
