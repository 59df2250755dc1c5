//! All faults of the first stage that has any, of texts.

use lustat::all_faults;
use lustat_rules::StatError;
use lusyn::read_program;
use lutree::Program;
use std::alloc::Global;

const TEXTS: &[(&str, &[StatError])] = &[
    // Of a declaration, two of one equation, and of a later equation, in order of place.
    (
        "node main(x: int) returns (y: int; w: int); let y = z + f(1); y = x; tel",
        &[
            StatError::Undefined { byte: 35 },
            StatError::UnknownName { byte: 48 },
            StatError::UnknownNode { byte: 48 },
            StatError::DefinedTwice { byte: 62 },
        ],
    ),
    // Of two nodes that call each other the first, beside faults of equations.
    (
        "node f(x: int) returns (y: int); let y = g(x); tel node g(x: int) returns (y: int); let y = f(x); y = x; tel node main(x: int) returns (y: bool); let y = x; tel",
        &[
            StatError::RecursiveNode { byte: 5 },
            StatError::DefinedTwice { byte: 98 },
            StatError::TypeMismatch { byte: 150 },
        ],
    ),
    // No main node, and a fault of another one.
    (
        "node f(x: int) returns (y: int); let y = z; tel",
        &[StatError::NoMain, StatError::UnknownName { byte: 37 }],
    ),
    // Of names alone, where clocks have a fault too; of clocks alone, where initialisation has one.
    (
        "node main(x: int; c: bool) returns (y: int; z: int); let y = x when c; z = q; tel",
        &[StatError::UnknownName { byte: 71 }],
    ),
    (
        "node main(x: int; c: bool) returns (y: int; z: int); let y = x when c; z = pre x; tel",
        &[StatError::ClockMismatch { byte: 57 }],
    ),
    // Of initialisation.
    (
        "node main(x: int) returns (y: int; z: int); let z = pre y; y = pre x; tel",
        &[
            StatError::MaybeNil { byte: 48 },
            StatError::MaybeNil { byte: 59 },
        ],
    ),
    // Of a program that keeps all rules.
    ("node main(x: int) returns (y: int); let y = x; tel", &[]),
];

/// Whether these are all faults of the first stage that has any.
fn has_all(alloc: Global, program: &Program, faults: &[StatError]) -> bool {
    match all_faults(alloc, program, "main") {
        Ok(found) => found.as_slice() == faults,
        Err(_) => false,
    }
}

/// Whether these are all faults of the first stage that has any, of the program of a text.
fn has_all_of_text(alloc: Global, text: &str, faults: &[StatError]) -> bool {
    match read_program(alloc, text) {
        Ok(program) => has_all(alloc, &program, faults),
        Err(_) => false,
    }
}

#[test]
fn all_faults_of_the_first_stage_are_given_in_order(rt: HostRuntime) {
    for (text, faults) in TEXTS {
        assert!(rt; has_all_of_text(rt.alloc(), text, faults), "{text}");
    }
}
