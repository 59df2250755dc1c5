//! Where the calls of a node stand in its text.

ghost use Rattle.std.specs.Prelude.{◌≡◌, ℕ, ◌∷◌, [], option_map, slice_get, IfSome};
ghost use Rattle.lutree.specs.Tree.{view, views, trees_of, node_view};
ghost use Rattle.lustat_rules.specs.Naming.{calls_in, calls_in_all, called_by};
ghost use Rattle.luinside.specs.Calls.{Passes, IsCallAt};

use lutree::{Expr, Node};

/// A call in the text of a node.
#[derive(Clone, Copy)]
pub struct TextCall<'a> {
    /// The place of its equation among those of the node, counted from 0.
    pub equation: usize,
    /// Its number among the calls of that equation, counted from 0.
    pub number: usize,
    /// The name of the called node.
    pub name: &'a str,
}

/// How far the calls of a text have been passed: so many are left, or the one that is looked for is of the
/// node of this name.
#[derive(Clone, Copy)]
enum Reached<'a> {
    Left(usize),
    At(&'a str),
}

/// The calls of an expression, passed.
#[cycle(texts)]
fn pass<'a>(e: &'a Expr, reached: Reached<'a>) -> Reached<'a>
    ensures { Passes (calls_in (view e.now)) reached.entry result }
{
    match e {
        Expr::Number(_) | Expr::Truth(_) | Expr::Label(_) | Expr::Variable(_) | Expr::Current(_) =>
            reached,
        Expr::Unary(_, a) | Expr::When(a, _) => pass(a, reached),
        Expr::Binary(_, a, b) => pass(b, pass(a, reached)),
        Expr::If(c, a, b) => pass(b, pass(a, pass(c, reached))),
        Expr::Merge(_, _, branches) => pass_all(branches, reached),
        Expr::Call(f, arguments) => pass_one(f.as_str(), pass_all(arguments, reached)),
    }
}

/// A call of this name, passed.
fn pass_one<'a>(name: &'a str, reached: Reached<'a>) -> Reached<'a>
    ensures { (count : ℕ) → Passes (record { node = name.now; arguments = count } ∷ []) reached.entry
        result }
{
    match reached {
        Reached::Left(0) => Reached::At(name),
        Reached::Left(left) => Reached::Left(left - 1),
        Reached::At(_) => reached,
    }
}

/// The calls of the arguments of a call, or of the branches of a merge, passed.
#[cycle(texts)]
fn pass_all<'a>(arguments: &'a [Expr], reached: Reached<'a>) -> Reached<'a>
    ensures { Passes (calls_in_all (trees_of (views arguments.now))) reached.entry result }
{
    let mut now = reached;
    for a in arguments {
        now = pass(a, now);
    }
    now
}

/// The call of a number among those of a node, if there are as many. Calls are numbered as their arguments
/// end in the text, from 0.
pub fn call_at(node: &Node, number: usize) -> Option<TextCall<'_>>
    ensures there { IfSome result (IsCallAt (node_view node.now) number) }
    ensures called { option_map (λ call. call.name.now) result
        ≡ slice_get (called_by (node_view node.now)) number }
{
    let mut left = number;
    for (equation, q) in node.equations.as_slice().iter().enumerate() {
        match pass(&q.right, Reached::Left(left)) {
            Reached::Left(rest) => left = rest,
            Reached::At(name) => {
                return Some(TextCall {
                    equation,
                    number: left,
                    name,
                });
            }
        }
    }
    None
}
