//! A site in rows as it stands before its first block.

ghost use Rattle.std.specs.Prelude.{◌≡◌, ℕ, IfOk, IfSome, Some, slice_get};
ghost use Rattle.lulink.specs.Views.{IsUnusedReceiver, IsUnusedSender, ReceiverView, SenderView};
ghost use Rattle.lublock_site.specs.Codes.{AreCodeParts, outputs_at};
ghost use Rattle.lublock_site.specs.Going.{IsGoing};

use crate::block::next_len;
use crate::code::CodeParts;
use crate::site::{Frame, RowSite};
use crate::start_ends::{outlets_of, sources_of};
use crate::start_rows::{first_board, first_columns};
use luflow::Inputs;
use lulink::{Rx, Tx};
use luplace::SiteInputs;
use std::alloc::{AllocError, Global};
use std::mem;

/// A site in rows before its first block, and what its code has of outputs. None where the ends aren't those
/// that the code names, in its order.
///
/// # Errors
///
/// Out of memory. The ends of the links have left then, and where there is none.
pub fn start(
    alloc: Global,
    parts: CodeParts,
    inputs: SiteInputs,
    txs: Vec<Tx>,
    rxs: Vec<Rx>,
) -> Result<Option<(RowSite, Vec<Option<usize>>)>, AllocError>
    requires code { AreCodeParts inputs.job.plan inputs.site parts }
    requires senders { (k : ℕ) (t : SenderView) → slice_get txs.items k ≡ Some t
        → IsUnusedSender inputs.job t }
    requires receivers { (k : ℕ) (t : ReceiverView) → slice_get rxs.items k ≡ Some t
        → IsUnusedReceiver inputs.job t }
    ensures going { IfOk result (λ o. IfSome o (λ x. IsGoing x.0)) }
    ensures at { IfOk result
        (λ o. IfSome o (λ x. (x.0.job.value ≡ inputs.job) × (x.0.site ≡ inputs.site))) }
    ensures outputs { IfOk result
        (λ o. IfSome o (λ x. x.1.items ≡ outputs_at inputs.job.plan inputs.site)) }
{
    let Some(sources) = sources_of(alloc, parts.into.as_slice(), rxs)? else {
        return Ok(None);
    };
    let Some(outlets) = outlets_of(alloc, parts.out.as_slice(), txs)? else {
        return Ok(None);
    };
    let Some(none) = Inputs::new(0, Vec::new(alloc)) else {
        return Ok(None);
    };
    let mut code = parts.code;
    let instants = inputs.instants() as usize;
    let len = next_len(instants, 0, code.block);
    let columns = first_columns(alloc, &code.flat, code.needs.as_slice(), instants, len)?;
    let board = first_board(alloc, &code.marks, code.block)?;
    let sure = vec![in alloc; false; code.marks.own.len()]?;
    let run = Vec::with_capacity(alloc, parts.run)?;
    let cycles = mem::replace(&mut code.order.cycles, Vec::new(alloc));
    let site = inputs.site();
    let (given, job) = inputs.take_apart();
    let frame = Frame {
        alloc,
        code,
        given,
        none,
        instants,
    };
    let row_site = RowSite {
        job,
        site,
        frame,
        cycles,
        board,
        sure,
        sources,
        outlets,
        run,
        columns,
        t: 0,
        len,
        at: 0,
    };
    Ok(Some((row_site, parts.outputs)))
}
