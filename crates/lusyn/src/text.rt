//! Texts of programs.

ghost use Rattle.std.specs.Prelude.{◌≡◌, ◌≤◌, ◌⊎◌, true, false, length, IfOk};
ghost use Rattle.std.specs.Result.{IfErr};
ghost use Rattle.lutree.specs.Places.{places_view};
ghost use Rattle.lutree.specs.Tree.{ProgramTree, program_view};
ghost use Rattle.lubase.specs.Limits.{most_names};
ghost use Rattle.lusyn_grammar.specs.Grammar.{Each};
ghost use Rattle.lusyn_parser.specs.Tables.{types_view};
ghost use Rattle.lusyn.specs.Gives.{IsAnswered, Refuses};
ghost use Rattle.lusyn.specs.Places.{ArePlacesOf};
ghost use Rattle.lusyn.specs.Refusals.{IsRefused};
ghost use Rattle.lusyn.specs.Texts.{HasProgram, IsSmall, HasLongType, IsLarge, SpellsText};

use crate::error::SynError;
use lubase::limits::{MOST_NAMES, MOST_NODES, MOST_TYPES};
use lusyn_grammar::lex;
use lusyn_parser::{parse_tokens, resolve};
use lutree::{Program, TypeDeclaration};
use std::alloc::Global;

/// Whether each type has at most [`MOST_NAMES`] names.
fn are_short(types: &[TypeDeclaration]) -> bool
    ensures short { result ≡ true → Each (λ x. length x.names ≤ most_names) (types_view types.now) }
    ensures long { result ≡ false → HasLongType (types_view types.now) }
{
    for declared in types {
        if declared.names.as_slice().len() > MOST_NAMES {
            return false;
        }
    }
    true
}

/// Whether it has at most [`MOST_NODES`] nodes, [`MOST_TYPES`] types and [`MOST_NAMES`] names in each.
fn is_small(program: &Program) -> bool
    ensures small { result ≡ true → IsSmall (program_view program.now) }
    ensures large { result ≡ false → IsLarge (program_view program.now) }
{
    if program.nodes.as_slice().len() > MOST_NODES {
        return false;
    }
    if program.types.as_slice().len() > MOST_TYPES {
        return false;
    }
    are_short(program.types.as_slice())
}

/// The program that a text spells, as it is written: it knows nothing of what its names stand for.
fn read_written(alloc: Global, text: &str) -> Result<Program, SynError>
    ensures spelled { IfOk result (λ found. HasProgram text.now (program_view found)) }
    ensures small { IfOk result (λ found. IsSmall (program_view found)) }
    ensures places { IfOk result (λ found. ArePlacesOf text.now (places_view found)) }
    ensures only { (tree : ProgramTree) → HasProgram text.now tree → IsSmall tree
        → IsAnswered result tree }
    ensures refused { IfErr result (λ error. (error ≡ SynError.OutOfMemory)
        ⊎ IsRefused text.now error) }
    ensures refuses { (error : SynError) → IsRefused text.now error → Refuses result error }
{
    let tokens = lex(alloc, text)?;
    let program = parse_tokens(alloc, &tokens, text.len())?;
    if !is_small(&program) {
        return Err(SynError::TooLong);
    }
    Ok(program)
}

/// The program that a text spells.
///
/// A text without tokens is refused as [`lex`] of crate `lusyn_grammar` refuses it. Any other text that
/// spells no program is refused at the first token with which no program goes on, or at its end where it ends
/// too early. A program of more than [`MOST_NODES`] nodes, of more than [`MOST_TYPES`] types or of more than
/// [`MOST_NAMES`] names in one is refused last.
pub fn read_program(alloc: Global, text: &str) -> Result<Program, SynError>
    // What is read is spelled so.
    ensures spelled { IfOk result (λ found. SpellsText text.now (program_view found)) }
    // The places that it keeps are those of the text.
    ensures places { IfOk result (λ found. ArePlacesOf text.now (places_view found)) }
    // What is spelled so is read, unless memory runs out. So no text spells two programs.
    ensures only { (tree : ProgramTree) → SpellsText text.now tree → IsAnswered result tree }
    // A refusal other than out of memory is true of the text.
    ensures refused { IfErr result (λ error. (error ≡ SynError.OutOfMemory)
        ⊎ IsRefused text.now error) }
    // A refusal that is true of the text is reported, unless memory runs out. So no text has two.
    ensures refuses { (error : SynError) → IsRefused text.now error → Refuses result error }
{
    let written = read_written(alloc, text)?;
    Ok(resolve(alloc, written)?)
}
