//! What a stage alone reports of programs that an earlier stage refuses: texts, and programs that no text
//! has, with an equation that has no variable on its left.

use lubase::{Name, Number, Row, SharedName};
use lustat_clocks::clock_fault;
use lustat_init::{Initialised, all_lefts_known, initialise};
use lustat_rules::{Catalog, Scope, StatError};
use lusyn::read_program;
use lutree::{
    BinaryOperator, Condition, Declaration, Equation, Expr, Infix, Kind, Node, Pattern, Prefix,
    Program,
};
use lutype::least_fault;
use std::alloc::{AllocError, Global};
use std::test::Fail;

/// A stage of the static checks; the main node is `main`.
#[derive(Clone, Copy)]
enum Stage {
    /// Names and types, but for recursion.
    Names,
    Clocks,
    /// Initialisation, where what the equations define is declared.
    Classes,
}

/// Whether initialisation has this fault.
fn has_class_fault(
    alloc: Global,
    catalog: &Catalog,
    fault: Option<StatError>,
) -> Result<bool, AllocError> {
    if !all_lefts_known(catalog) {
        return Ok(false);
    }
    match initialise(alloc, catalog)? {
        Initialised::Kept(_) => Ok(fault.is_none()),
        Initialised::Broken(found) => Ok(fault == Some(found)),
    }
}

/// Whether a stage reports this fault of what is looked up.
fn tells_of(
    alloc: Global,
    stage: Stage,
    catalog: &Catalog,
    fault: Option<StatError>,
) -> Result<bool, AllocError> {
    match stage {
        Stage::Names => Ok(least_fault(alloc, catalog, "main")? == fault),
        Stage::Clocks => Ok(clock_fault(alloc, catalog, "main")? == fault),
        Stage::Classes => has_class_fault(alloc, catalog, fault),
    }
}

/// Whether a stage reports this fault of a program.
fn tells(
    alloc: Global,
    stage: Stage,
    program: &Program,
    fault: Option<StatError>,
) -> Result<bool, AllocError> {
    let catalog = Catalog::new(alloc, program)?;
    tells_of(alloc, stage, &catalog, fault)
}

const TEXTS: &[(Stage, &str, StatError)] = &[
    // Recursion is no matter of the search for the least fault.
    (
        Stage::Names,
        "node main(x: int) returns (y: int); let y = main(x); y = x; tel",
        StatError::DefinedTwice { byte: 53 },
    ),
    // What is an input and an output is reported as an input.
    (
        Stage::Clocks,
        "node main(y: int when l) returns (y: int when l); var l: bool; let l = true; tel",
        StatError::ClockedParameter { byte: 10 },
    ),
    // A clock that a `when` alone names may not be nil: in an argument, and deep inside one.
    (
        Stage::Classes,
        "node main(d: bool; x: int) returns (y: int); var c: bool; let y = f(x when c); c = pre d; tel",
        StatError::MaybeNil { byte: 79 },
    ),
    (
        Stage::Classes,
        "node main(d: bool; x: int) returns (y: int); var c: bool; let y = f(x when not c); c = pre d; tel",
        StatError::MaybeNil { byte: 83 },
    ),
    (
        Stage::Classes,
        "node main(d: bool; x: int) returns (y: int); var c: bool; let y = f(0 -> (x when c)) + (if d then 1 else 2); c = d or pre d; tel",
        StatError::MaybeNil { byte: 109 },
    ),
];

/// Whether a stage reports this fault of a text.
fn tells_of_text(alloc: Global, stage: Stage, text: &str, fault: StatError) -> bool {
    match read_program(alloc, text) {
        Ok(program) => tells(alloc, stage, &program, Some(fault)).unwrap_or(false),
        Err(_) => false,
    }
}

#[test]
fn a_stage_alone_judges_what_an_earlier_one_refuses(rt: HostRuntime) {
    for (stage, text, fault) in TEXTS {
        assert!(rt; tells_of_text(rt.alloc(), *stage, text, *fault), "{text}");
    }
}

/// What stands right of an equation without variables.
#[derive(Clone, Copy, Debug)]
enum Right {
    /// `1`
    One,
    /// `x`
    Sampled,
    /// `c or x`
    Mixed,
    /// `pre 1`
    Before,
    /// `pre pre 1`
    BeforeTwice,
    /// `main(c)`
    Call,
}

fn variable(alloc: Global, name: &str) -> Result<Expr, AllocError> {
    Ok(Expr::Variable(Name::from_text(alloc, name)?))
}

fn mixed(alloc: Global) -> Result<Expr, AllocError> {
    let a = Box::new(alloc, variable(alloc, "c")?)?;
    let b = Box::new(alloc, variable(alloc, "x")?)?;
    Ok(Expr::Binary(Infix::Data(BinaryOperator::Or), a, b))
}

fn before(alloc: Global, operand: Expr) -> Result<Expr, AllocError> {
    Ok(Expr::Unary(Prefix::Pre, Box::new(alloc, operand)?))
}

fn one() -> Expr {
    Expr::Number(Number::from(1))
}

fn call(alloc: Global) -> Result<Expr, AllocError> {
    let arguments = vec![in alloc; variable(alloc, "c")?]?;
    Ok(Expr::Call(Name::from_text(alloc, "main")?, arguments))
}

fn expression(alloc: Global, right: Right) -> Result<Expr, AllocError> {
    match right {
        Right::One => Ok(one()),
        Right::Sampled => variable(alloc, "x"),
        Right::Mixed => mixed(alloc),
        Right::Before => before(alloc, one()),
        Right::BeforeTwice => before(alloc, before(alloc, one())?),
        Right::Call => call(alloc),
    }
}

/// A declaration at byte 9.
fn declared(
    alloc: Global,
    name: &str,
    clock: Option<Condition>,
) -> Result<Row<Declaration>, AllocError> {
    let declaration = Declaration {
        name: Name::from_text(alloc, name)?,
        kind: Kind::Bool,
        type_name: None,
        clock,
        byte: 9,
    };
    Ok(Row::new(vec![in alloc; declaration]?))
}

/// `let = RIGHT; tel`, the equation at byte 7.
fn equations_of(alloc: Global, right: Right) -> Result<Row<Equation>, AllocError> {
    let equation = Equation {
        left: Row::new(Vec::new(alloc)),
        right: expression(alloc, right)?,
        byte: 7,
    };
    Ok(Row::new(vec![in alloc; equation]?))
}

/// `x: bool when c`
fn sampled(alloc: Global) -> Result<Row<Declaration>, AllocError> {
    let clock = Condition {
        variable: SharedName::from_text(alloc, "c")?,
        pattern: Pattern::Truth(true),
    };
    declared(alloc, "x", Some(clock))
}

/// `node main(c: bool) returns (); var x: bool when c; let = RIGHT; tel`
fn main_node(alloc: Global, right: Right) -> Result<Node, AllocError> {
    let inputs = declared(alloc, "c", None)?;
    let locals = sampled(alloc)?;
    let equations = equations_of(alloc, right)?;
    Ok(Node {
        name: Name::from_text(alloc, "main")?,
        byte: 0,
        inputs,
        outputs: Row::new(Vec::new(alloc)),
        locals,
        equations,
    })
}

/// A program of this node alone.
fn nameless(alloc: Global, right: Right) -> Result<Program, AllocError> {
    let main = main_node(alloc, right)?;
    Ok(Program {
        types: Row::new(Vec::new(alloc)),
        nodes: Row::new(vec![in alloc; main]?),
    })
}

/// Whether a stage reports this fault of it.
fn tells_of_nameless(
    alloc: Global,
    stage: Stage,
    right: Right,
    fault: Option<StatError>,
) -> Result<bool, AllocError> {
    let program = nameless(alloc, right)?;
    tells(alloc, stage, &program, fault)
}

const WRONG_ARITY: Option<StatError> = Some(StatError::WrongArity { byte: 7 });

const MISMATCH: Option<StatError> = Some(StatError::ClockMismatch { byte: 7 });

const MAYBE_NIL: Option<StatError> = Some(StatError::MaybeNil { byte: 7 });

const NAMELESS: &[(Stage, Right, Option<StatError>)] = &[
    // A value for no variable is reported, and no value for no variable.
    (Stage::Names, Right::One, WRONG_ARITY),
    (Stage::Names, Right::Call, WRONG_ARITY),
    // A right side of any clock is kept, and one of no clock reported.
    (Stage::Clocks, Right::Sampled, None),
    (Stage::Clocks, Right::Mixed, MISMATCH),
    // A right side of class 1 is kept, and an unmet need reported.
    (Stage::Classes, Right::Before, None),
    (Stage::Classes, Right::BeforeTwice, MAYBE_NIL),
];

#[test]
fn equations_without_variables_are_judged(rt: HostRuntime) -> Result<(), Fail> {
    for (stage, right, fault) in NAMELESS {
        assert!(rt;
            tells_of_nameless(rt.alloc(), *stage, *right, *fault)?,
            "{right:?}"
        );
    }
    Ok(())
}

/// Whether names mean their first declarations in `node f(x: int; c: bool) returns (y: int; x: bool); var v:
/// int when not c`.
fn looks_up(scope: &Scope) -> bool {
    scope.kind("x") == Some(Kind::Int)
        && scope.place("v") == Some(4)
        && scope.find("z").is_none()
        && scope.is_input("x")
        && scope.is_output("x")
        && !scope.is_input("y")
}

/// Whether a call means the first of two nodes `f`, with another one between them, and the second defines
/// what isn't declared.
fn finds(catalog: &Catalog) -> bool {
    catalog.place("f") == Some(0)
        && catalog.find("g").is_some()
        && catalog.find("h").is_none()
        && !all_lefts_known(catalog)
}

const TWICE: &str =
    "node f(x: int; c: bool) returns (y: int; x: bool); var v: int when not c; let tel node g() returns (y: int); let tel node f() returns (y: int); let y = 0; z = 1; tel";

/// Whether both are so of a program.
fn are_meant(alloc: Global, program: &Program) -> Result<bool, AllocError> {
    let catalog = Catalog::new(alloc, program)?;
    Ok(finds(&catalog) && catalog.scopes().iter().take(1).all(looks_up))
}

/// Whether both are so of the program of a text.
fn are_meant_in(alloc: Global, text: &str) -> bool {
    match read_program(alloc, text) {
        Ok(program) => are_meant(alloc, &program).unwrap_or(false),
        Err(_) => false,
    }
}

#[test]
fn names_mean_what_stands_first(rt: HostRuntime) {
    assert!(rt; are_meant_in(rt.alloc(), TWICE));
}
