//! Equations that begin with a constant, with a table of what they define.

ghost use Rattle.std.specs.Prelude.{◌≡◌, ◌↔◌, ◌<◌, ◌++◌, Some, IsTrue, Contains, map, option_map, option_to_list, length, slice_get, IfOk};
ghost use Rattle.lutree.specs.Tree.{equation_view, view};
ghost use Rattle.lustat_rules.specs.Scope.{AreDistinct};
ghost use Rattle.lustat_rules.specs.ClockRefs.{the_pattern};
ghost use Rattle.lustat_init.specs.Beginnings.{pattern_of, start_of, begun_of, all_begun, begun_view, spelled};

use lustat_rules::{PatternRef, Places};
use lutree::{Equation, Expr, Infix, Pattern};
use std::alloc::{AllocError, Global};

/// A variable that an equation defines alone, and the pattern whose constant the equation begins with.
#[derive(Clone, Copy)]
pub struct Beginning<'a> {
    name: &'a str,
    pattern: PatternRef<'a>,
}

impl<'a> Beginning<'a> {
    /// Whether the variable has a name, and the pattern is another.
    fn is(&self, name: &str, pattern: &PatternRef) -> bool
        ensures { IsTrue result ↔ (begun_view self.now
            ≡ record { name = name.now; pattern = the_pattern pattern.now }) }
    {
        self.name == name && self.pattern.is(pattern)
    }
}

/// The pattern whose constant an expression is.
fn pattern_of(e: &Expr) -> Option<PatternRef<'_>>
    ensures { option_map the_pattern result ≡ pattern_of (view e.now) }
{
    match e {
        Expr::Truth(b) => Some(PatternRef::Truth(*b)),
        Expr::Label(l) => Some(PatternRef::Label(l)),
        _ => None,
    }
}

/// The pattern whose constant an expression begins with, by `->` or `fby`.
fn start_of(e: &Expr) -> Option<PatternRef<'_>>
    ensures { option_map the_pattern result ≡ start_of (view e.now) }
{
    match e {
        Expr::Binary(op, a, _) => match op {
            Infix::Arrow => pattern_of(a),
            Infix::FollowedBy => pattern_of(a),
            Infix::Data(_) => None,
        },
        _ => None,
    }
}

/// The variable that an equation defines alone, if it begins with a constant.
fn beginning_of(equation: &Equation) -> Option<Beginning<'_>>
    ensures { option_to_list (option_map begun_view result)
        ≡ begun_of (equation_view equation.now) }
{
    match equation.left.as_slice() {
        [x] => match start_of(&equation.right) {
            None => None,
            Some(pattern) => Some(Beginning {
                name: x.as_str(),
                pattern,
            }),
        },
        _ => None,
    }
}

/// Those of some equations, in order.
fn beginnings_of(alloc: Global, equations: &[Equation]) -> Result<Vec<Beginning<'_>>, AllocError>
    ensures { IfOk result
        (λ all. map begun_view all.items ≡ all_begun (map equation_view equations.now)) }
{
    let mut all = Vec::new(alloc);
    for q in equations {
        if let Some(b) = beginning_of(q) {
            all.push(b)?;
        }
    }
    Ok(all)
}

/// The table of the variables.
fn names_of<'a>(alloc: Global, all: &[Beginning<'a>]) -> Result<Places<'a>, AllocError>
    ensures { IfOk result (λ names. names ≡ spelled all.now) }
{
    let mut names = Vec::with_capacity(alloc, all.len())?;
    for b in all {
        names.push(b.name)?;
    }
    Places::new(alloc, names)
}

/// Whether no variable stands twice.
fn are_once(names: &Places, all: &[Beginning]) -> bool
    requires { names.now ≡ spelled all.now }
    ensures { IsTrue result → AreDistinct (spelled all.now) }
{
    for (i, b) in all.iter().enumerate() {
        if names.find(b.name) == Some(i) {
            continue;
        }
        return false;
    }
    true
}

/// The equations of a node that begin with a constant, with a table of the variables that they define. A
/// look-up looks at one of them, but where a variable has several.
#[derive(Drop)]
pub struct BeginningTable<'a> {
    all: Vec<Beginning<'a>>,
    names: Places<'a>,
    is_once: bool,
    ghost named: { names ≡ spelled all.items },
    ghost once: { IsTrue is_once → AreDistinct (spelled all.items) },
}

impl<'a> BeginningTable<'a> {
    /// The table of some equations. Its time grows with their length.
    pub fn new(alloc: Global, equations: &'a [Equation]) -> Result<BeginningTable<'a>, AllocError>
        ensures { IfOk result (λ table. map begun_view table.all.items
            ≡ all_begun (map equation_view equations.now)) }
    {
        let all = beginnings_of(alloc, equations)?;
        let names = names_of(alloc, &all)?;
        let is_once = are_once(&names, &all);
        Ok(BeginningTable {
            all,
            names,
            is_once,
        })
    }

    /// Whether some equation defines a variable alone and begins with the constant of a pattern, by a look at
    /// all of them.
    fn has_among(&self, name: &str, pattern: &PatternRef) -> bool
        ensures { IsTrue result ↔ Contains (map begun_view self.now.all.items)
            (record { name = name.now; pattern = the_pattern pattern.now }) }
    {
        for b in &self.all {
            if b.is(name, pattern) {
                return true;
            }
        }
        false
    }

    /// Whether some equation defines a variable alone and begins with the constant of a pattern.
    pub fn has(&self, name: &str, pattern: &Pattern) -> bool
        ensures { IsTrue result ↔ Contains (map begun_view self.now.all.items)
            (record { name = name.now; pattern = pattern.now }) }
    {
        let asked = PatternRef::of(pattern);
        match self.names.find(name) {
            None => false,
            Some(place) => {
                if self.is_once {
                    self.all[place].pattern.is(&asked)
                } else {
                    self.has_among(name, &asked)
                }
            }
        }
    }
}
