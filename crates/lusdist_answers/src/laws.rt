//! What holds of the definitions, as contracts of functions that do nothing.

ghost use Rattle.lusdist_call.specs.Begun.{BeginsWithInputs};
ghost use Rattle.lusdist_call.specs.Exact.{HasOneOutcome, HasOneStatus, HasOneRefusal};
ghost use Rattle.lusdist_call.specs.Headline.{Headline};

use lusdist_shell::Files;

/// Where each file has one text or none, what has an answer isn't refused, unless by a stop that says nothing
/// of the files; and what is refused has no answer.
pub fn one_outcome_law<F: Files>(files: &F)
    ensures { HasOneOutcome (F.gives files.now) }
{
    let _ = files;
}

/// Two refusals of one request have one status, where each file has one text or none and neither says nothing
/// of them.
pub fn one_status_law<F: Files>(files: &F)
    ensures { HasOneStatus (F.gives files.now) }
{
    let _ = files;
}

/// Two refusals of one request are the same, where each file has one text or none, neither says nothing of
/// them, and they are no faults of a run on threads.
pub fn one_refusal_law<F: Files>(files: &F)
    ensures { HasOneRefusal (F.gives files.now) }
{
    let _ = files;
}

/// The table that a design begins with is one of the program's inputs: an evaluation reads it, where it isn't
/// too long.
pub fn first_inputs_law()
    ensures { BeginsWithInputs }
{}

/// The main theorem: where each file has one text, what a replay or a run printed when it was done is true of
/// the program that the program's text spells, at the inputs that the table's text says. `serve` says by its
/// clause `done` what it printed.
pub fn headline_law<F: Files>(files: &F)
    ensures { Headline (F.gives files.now) }
{
    let _ = files;
}
