//! A program that keeps all rules.

ghost use Rattle.std.specs.Prelude.{◌≡◌, ◌<◌, Some, length, slice_get};
ghost use Rattle.std.specs.Option.{ForSome};
ghost use Rattle.lutree.specs.Tree.{NodeTree, program_view};
ghost use Rattle.lustat_rules.specs.Accepted.{IsAccepted};
ghost use Rattle.lustat_rules.specs.Naming.{IsCallOrder};
ghost use Rattle.lustat_rules.specs.Classes.{Meets};
ghost use Rattle.lustat_init.specs.Assigned.{assigned};
ghost use Rattle.lustat_init.specs.Rows.{plain, row_at};
ghost use Rattle.lustat.specs.Whole.{IsSound};

use lustat_rules::Catalog;
use lutree::Program;
use lutype::Typed;
use std::marker::Model;

/// A program that keeps all rules, lent, with the name of its main node, an order of its nodes in which calls
/// go backward, and the classes of its nodes' variables. A contract sees the `Whole` of `specs/Whole.antt`.
pub struct Checked<'a> {
    typed: Typed<'a>,
    classes: Vec<Vec<bool>>,
}

// By hand, so that it is proved here alone, and not in each crate that owns one.
impl Drop for Checked<'_> {
    fn drop(self) {
        let Self {
            typed: _,
            classes: _,
        } = self;
    }
}

impl<'a> Model for Checked<'a> {
    ghost use Rattle.lustat.specs.Whole.{Whole};
    ghost use Rattle.std.specs.Coded.{codes};
    ghost use Rattle.lutree.specs.contracts.expr.Expr as tree_row;

    ghost Value = { Whole };

    ghost coded = { Prim.hlevel (codes, tree_row.the_row.coded) };

    ghost use Rattle.lustat_init.specs.Rows.{plain};
    ghost use Rattle.lustat.specs.Whole.{IsSound};

    ghost view = { λ t. record {
      program = t.typed.program;
      main = t.typed.main;
      order = t.typed.order;
      classes = plain t.classes.items;
    } };

    ghost invariant = { λ t. IsSound (record {
      program = t.typed.program;
      main = t.typed.main;
      order = t.typed.order;
      classes = plain t.classes.items;
    }) };
}

impl<'a> Checked<'a> {
    /// What the checks found in order.
    pub(crate) fn new(typed: Typed<'a>, classes: Vec<Vec<bool>>) -> Checked<'a>
        requires { IsSound (record {
          program = typed.program;
          main = typed.main;
          order =
              typed.order;
          classes = plain classes.items;
        }) }
        ensures { result ≡ record {
          program = typed.entry.program;
          main = typed.entry.main;
          order =
              typed.entry.order;
          classes = plain classes.items;
        } }
    {
        Checked { typed, classes }
    }

    /// The tables of the program's names.
    pub fn catalog(&self) -> &Catalog<'a>
        ensures catalog { result.now ≡ self.now.program }
        ensures accepted { IsAccepted (program_view self.now.program) self.now.main }
    {
        self.typed.catalog()
    }

    /// The program.
    pub fn program(&self) -> &'a Program
        ensures { result.now ≡ self.now.program }
    {
        self.typed.program()
    }

    /// The name of the main node.
    pub fn main(&self) -> &'a str
        ensures { result.now ≡ self.now.main }
    {
        self.typed.main()
    }

    /// All nodes by their places in the text, from 0, each after those that it calls.
    pub fn order(&self) -> &[usize]
        ensures order { result.now ≡ self.now.order }
        ensures calls { IsCallOrder (program_view self.now.program) self.now.order }
    {
        self.typed.order()
    }

    /// The classes of the variables of the node at a place of the text, counted from 0: a mark by place of
    /// declaration, true for class
    /// 1. Behind them stand marks of something else.
    pub fn classes(&self, node: usize) -> &[bool]
        requires { node < length self.now.program.nodes }
        ensures classes { result.now ≡ row_at self.now.classes node }
        ensures meets { ForSome (slice_get (program_view self.now.program).nodes node)
            (λ n. Meets (assigned n result.now) n) }
    {
        self.classes[node].as_slice()
    }
}
