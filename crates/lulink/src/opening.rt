//! Opening a link.

ghost use Rattle.std.specs.Prelude.{◌≡◌, ◌<◌, [], IfOk};
ghost use Rattle.std.specs.Arc.{arc_value};
ghost use Rattle.lulink.specs.declared.opening.LinkError.TheVariants.{OutOfMemory};
ghost use Rattle.lulink.specs.declared.rule.Role.TheVariants.{Producer, Consumer};
ghost use Rattle.lulink.specs.Insides.{IsRing, IsNewSeat};
ghost use Rattle.lulink.specs.Views.{AreOfOneRing};
ghost use Rattle.lulink.specs.Counts.{uncounted};

use crate::receiver::Rx;
use crate::rule::{Ring, RingSeat, Terms, TwoEnds};
use crate::sender::Tx;
use luplace::Job;
use std::alloc::{AllocError, AllocFailed, Global};
use std::snapshot::Snapshot;
use std::sync::Arc;

/// The number of a link: its place among the plan's links, from 0.
pub type LinkNo = usize;

/// A link wasn't opened.
#[derive(Clone, Copy, Debug, Drop, PartialEq, Eq, thiserror::Error)]
pub enum LinkError {
    #[error("OutOfMemory")]
    OutOfMemory,
}

impl From<AllocError> for LinkError {
    ghost from_gives = { λ _ e. e ≡ OutOfMemory };

    fn from(_e: AllocError) -> LinkError {
        LinkError::OutOfMemory
    }
}

impl<T: Drop> From<AllocFailed<T>> for LinkError {
    ghost from_gives = { λ _ e. e ≡ OutOfMemory };

    fn from(_e: AllocFailed<T>) -> LinkError {
        LinkError::OutOfMemory
    }
}

/// Opens a link of this job, with room for this many messages (at least one). Both ends are of one ring, know
/// which link of which job they are of, and may go to two threads. A number that is no link's has an empty
/// list: nothing can be put.
///
/// All memory that the two ends ever use is taken here. `OutOfMemory`: nothing was made.
pub fn open_link(
    alloc: Global,
    job: &Job,
    link: LinkNo,
    capacity: u16,
) -> Result<(Tx, Rx), LinkError>
    requires { 0 < capacity }
    ensures sender { IfOk result
        (λ ends. (ends.0.job ≡ job.now) × (ends.0.link ≡ link) × (ends.0.put ≡ [])) }
    ensures receiver { IfOk result
        (λ ends. (ends.1.job ≡ job.now) × (ends.1.link ≡ link) × (ends.1.taken ≡ [])) }
    ensures room { IfOk result
        (λ ends. (ends.0.capacity ≡ capacity) × (ends.1.capacity ≡ capacity)) }
    ensures unseen { IfOk result (λ ends. (ends.0.seen ≡ []) × (ends.1.seen ≡ [])) }
    ensures ring { IfOk result (λ ends. AreOfOneRing ends.0 ends.1) }
    ensures counts { IfOk result
        (λ ends. (ends.0.counts ≡ uncounted) × (ends.1.counts ≡ uncounted)) }
{
    let (ring, seat, other) = new_ring(alloc, job, link, capacity)?;
    let shared = Arc::try_clone(&ring)?;
    let tx = Tx::new(ring, seat, link);
    let rx = Rx::new(shared, other, link);
    Ok((tx, rx))
}

/// A ring for this link, with the seats of the sender and of the receiver.
fn new_ring(
    alloc: Global,
    job: &Job,
    link: LinkNo,
    capacity: u16,
) -> Result<(Arc<Ring>, RingSeat, RingSeat), LinkError>
    requires { 0 < capacity }
    ensures job { IfOk result (λ r. (arc_value r.0).shared.key.job.value ≡ job.now) }
    ensures link { IfOk result (λ r. (arc_value r.0).shared.key.link ≡ link) }
    ensures capacity { IfOk result (λ r. (arc_value r.0).shared.key.capacity ≡ capacity) }
    ensures ring { IfOk result
        (λ r. IsRing (arc_value r.0).shared.table_id (arc_value r.0).shared.key) }
    ensures sender { IfOk result
        (λ r. IsNewSeat Producer (arc_value r.0).shared.table_id (arc_value r.0).shared.key r.1) }
    ensures receiver { IfOk result
        (λ r. IsNewSeat Consumer (arc_value r.0).shared.table_id (arc_value r.0).shared.key r.2) }
{
    job.recall_invariant();
    let room = usize::from(capacity);
    let terms = Terms {
        job: Snapshot::of(job),
        link,
        capacity: room,
    };
    let (ring, mut seat) = Ring::vacant(alloc, &[0; 17], room, &terms)?;
    let other = ring.shared.split_seat::<TwoEnds>(&mut seat);
    let ring = Arc::new(alloc, ring)?;
    Ok((ring, seat, other))
}
