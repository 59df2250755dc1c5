//! A program whose names and types are in order.

ghost use Rattle.std.specs.Prelude.{◌≡◌};
ghost use Rattle.lutree.specs.Tree.{program_view};
ghost use Rattle.lustat_rules.specs.Accepted.{IsNamed};
ghost use Rattle.lustat_rules.specs.Naming.{IsCallOrder};
ghost use Rattle.lutype.specs.Named.{AreInOrder};

use lustat_rules::Catalog;
use lutree::Program;
use std::marker::Model;

/// A program whose names and types are in order, lent, with the name of its main node and an order of its
/// nodes in which calls go backward. A contract sees the `Named` of `specs/Named.antt`.
pub struct Typed<'a> {
    catalog: Catalog<'a>,
    main: &'a str,
    order: Vec<usize>,
}

// By hand, so that it is proved here alone, and not in each crate that owns one.
impl Drop for Typed<'_> {
    fn drop(self) {
        let Self {
            catalog: _,
            main: _,
            order: _,
        } = self;
    }
}

impl<'a> Model for Typed<'a> {
    ghost use Rattle.lutype.specs.Named.{Named};
    ghost use Rattle.std.specs.Coded.{codes};
    ghost use Rattle.lutree.specs.contracts.expr.Expr as tree_row;

    ghost Value = { Named };

    ghost coded = { Prim.hlevel (codes, tree_row.the_row.coded) };

    ghost use Rattle.lutype.specs.Named.{AreInOrder};

    ghost view = { λ t. record { program = t.catalog; main = t.main.now; order = t.order.items } };

    ghost invariant = { λ t. AreInOrder
        (record { program = t.catalog; main = t.main.now; order = t.order.items }) };
}

impl<'a> Typed<'a> {
    /// What the checks found in order.
    pub(crate) fn new(catalog: Catalog<'a>, main: &'a str, order: Vec<usize>) -> Typed<'a>
        requires { AreInOrder (record { program = catalog; main = main.now; order = order.items }) }
        ensures { result ≡ record {
          program = catalog.entry;
          main = main.now;
          order = order.items;
        } }
    {
        Typed {
            catalog,
            main,
            order,
        }
    }

    /// The tables of the program's names.
    pub fn catalog(&self) -> &Catalog<'a>
        ensures catalog { result.now ≡ self.now.program }
        ensures names { IsNamed (program_view self.now.program) self.now.main }
    {
        &self.catalog
    }

    /// The program.
    pub fn program(&self) -> &'a Program
        ensures { result.now ≡ self.now.program }
    {
        self.catalog.program()
    }

    /// The name of the main node.
    pub fn main(&self) -> &'a str
        ensures { result.now ≡ self.now.main }
    {
        self.main
    }

    /// All nodes by their places in the text, from 0, each after those that it calls.
    pub fn order(&self) -> &[usize]
        ensures order { result.now ≡ self.now.order }
        ensures calls { IsCallOrder (program_view self.now.program) self.now.order }
    {
        self.order.as_slice()
    }
}
