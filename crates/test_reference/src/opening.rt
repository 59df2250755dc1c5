//! Opening a link.

ghost use Rattle.std.specs.Prelude.{◌≡◌, ◌<◌, [], IfOk};
ghost use Rattle.lulink.specs.Views.{AreOfOneRing};

use crate::doors::Doors;
use crate::receiver::Rx;
use crate::rule::part;
use crate::sender::Tx;
use crossbeam_channel::bounded_with;
use lulink::{LinkError, LinkNo};
use luplace::Job;
use std::alloc::Global;
use std::marker::Brand;
use std::snapshot::Snapshot;
use std::sync::Arc;

/// Opens a link of this job, with room for this many messages (at least one). Both ends are of one channel,
/// know which link of which job they are of, and may go to two threads. A number that is no link's has an
/// empty list: nothing can be put.
///
/// All memory that the two ends ever use is taken here. `OutOfMemory`: nothing was made.
pub fn open_link(
    alloc: Global,
    job: &Job,
    link: LinkNo,
    capacity: u16,
) -> Result<(Tx, Rx), LinkError>
    requires { 0 < capacity }
    ensures sender { IfOk result
        (λ ends. (ends.0.job ≡ job.now) × (ends.0.link ≡ link) × (ends.0.put ≡ [])) }
    ensures receiver { IfOk result
        (λ ends. (ends.1.job ≡ job.now) × (ends.1.link ≡ link) × (ends.1.taken ≡ [])) }
    ensures room { IfOk result
        (λ ends. (ends.0.capacity ≡ capacity) × (ends.1.capacity ≡ capacity)) }
    ensures unseen { IfOk result (λ ends. (ends.0.seen ≡ []) × (ends.1.seen ≡ [])) }
    ensures ring { IfOk result (λ ends. AreOfOneRing ends.0 ends.1) }
{
    let room = usize::from(capacity);
    let doors = Arc::new(alloc, Doors::new())?;
    let other_doors = Arc::try_clone(&doors)?;
    let (sends, receives, mut link_pass) = bounded_with(alloc, room)?;
    let spare = receives.try_clone()?;
    let other = part::<Brand>(&sends, &mut link_pass, job, link, room);
    let tx = Tx {
        end: sends,
        link_pass,
        job: Snapshot::of(job),
        link,
        doors,
        spare,
    };
    let rx = Rx {
        end: receives,
        link_pass: other,
        job: Snapshot::of(job),
        link,
        doors: other_doors,
    };
    Ok((tx, rx))
}
