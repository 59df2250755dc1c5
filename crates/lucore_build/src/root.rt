//! Roots and operands.

ghost use Rattle.std.specs.Prelude.{◌≡◌, ◌++◌, length, IfOk, OnOk};
ghost use Rattle.lucore_laws.specs.Layout.{root_flows, root_place};
ghost use Rattle.lucore_build.specs.Walks.{root_view};

use crate::Operand;
use luflow::Flow;
use lutree::Kind;
use std::alloc::AllocError;

/// What stands at the root of an expression: a flow of its own, which has no place yet, or what stands at a
/// place already.
#[derive(Drop)]
pub enum Root {
    Own(Flow),
    At(usize),
}

/// What the walk of an expression finds: its root, and its type, or none where it has none.
#[derive(Drop)]
pub struct Walked {
    pub root: Root,
    pub kind: Option<Kind>,
}

/// The walked expression as an operand: a flow of its own is put behind those before.
pub fn settled(walked: Walked, flows: &mut Vec<Flow>) -> Result<Operand, AllocError>
    ensures flows { OnOk result (flows.new.items ≡ flows.old.items
        ++ root_flows (root_view walked.root)) }
    ensures place { IfOk result (λ x. x.place ≡ root_place (length flows.old.items)
        (root_view walked.root)) }
    ensures kind { IfOk result (λ x. x.kind ≡ walked.kind) }
{
    let Walked { root, kind } = walked;
    match root {
        Root::At(place) => Ok(Operand { place, kind }),
        Root::Own(flow) => {
            let place = flows.len();
            flows.push(flow)?;
            Ok(Operand { place, kind })
        }
    }
}
