//! The lists of links.

ghost use Rattle.std.specs.Prelude.{◌≡◌, ◌<◌, ◌^◌, IfOk, length, map};
ghost use Rattle.luflow.specs.Messages.{marks, messages};
ghost use Rattle.luflow.specs.Program.{flows_of};
ghost use Rattle.luworld.specs.Jobs.{link_list, streams_of};
ghost use Rattle.test_reference.specs.AsMark.{as_mark};

use crate::filling::whole;
use crate::mark::Mark;
use crate::plans::link_at;
use luflow::{Body, Msg, Status};
use luplace::Job;
use std::alloc::{AllocError, Global};

/// The messages that a flow of these marks makes.
fn messages_of(alloc: Global, marks: &[Mark]) -> Result<Vec<Msg>, AllocError>
    requires { length marks.now < 2 ^ 32 }
    ensures { IfOk result (λ list. list.items ≡ messages 0 (map as_mark marks.now)) }
{
    let mut list = Vec::new(alloc);
    let mut no = 0;
    for mark in marks {
        match *mark {
            Mark::Broken => return Ok(list),
            Mark::Known(Status::Absent) => continue,
            Mark::Known(Status::Present(d)) => {
                list.push(Msg {
                    no,
                    body: Body::Value(d),
                })?;
                no += 1;
            }
        }
    }
    list.push(Msg {
        no,
        body: Body::Close,
    })?;
    Ok(list)
}

/// The messages of a flow over the whole table.
fn list_of_flow(alloc: Global, job: &Job, flow: usize) -> Result<Vec<Msg>, AllocError>
    requires { flow < flows_of job.now.plan.flat }
    ensures { IfOk result (λ list. list.items ≡ messages 0
        (marks (streams_of job.now flow) job.now.inputs.instants)) }
{
    let marks = whole(alloc, job)?.marks(alloc, flow)?;
    messages_of(alloc, marks.as_slice())
}

/// All messages that a link carries, in order; none where there is no such link.
pub fn list_of_link(alloc: Global, job: &Job, link: usize) -> Result<Vec<Msg>, AllocError>
    ensures { IfOk result (λ list. list.items ≡ link_list job.now (streams_of job.now) link) }
{
    match link_at(job.plan().links(), link) {
        Some(found) => list_of_flow(alloc, job, found.flow),
        None => Ok(Vec::new(alloc)),
    }
}
