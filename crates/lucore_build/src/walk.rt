//! The walk of an expression.

ghost use Rattle.std.specs.Prelude.{fold, ◌≡◌, ◌∷◌, ◌++◌, [], pos, length, IfOk, OnOk};
ghost use Rattle.lutree.specs.Tree.{view, views, trees_of, node_view, program_view, declarations_view};
ghost use Rattle.lutree.specs.Tree as tree;
ghost use Rattle.lustat_rules.specs.Scope.{node_called};
ghost use Rattle.lustat_rules.specs.Typing.{type_of, only, call_kinds, arguments_fit, agreed, agreed_all};
ghost use Rattle.lucore_laws.specs.Layout.{clock_place, instance, made, place as place_in, walk as walk_of};
ghost use Rattle.lustat_rules.specs.ClockRefs.{the_pattern, placed_view, IsPlaced};
ghost use Rattle.lucore_build.specs.Walks.{IsWalked, root_view, plain, prefix_form, prefix_kind, infix_walk, infix_kind, kinds_of, pattern_at};
ghost use Rattle.lucore_build.specs.Operands.{places_of};

use crate::context::{
    Context, called_list, clock_by_place, flow_of, inputs_of, own, variable_clock, variable_place,
};
use crate::root::{Root, Walked, settled};
use crate::{Operand, push_moved, sum_of};
use lubase::{Number, Row};
use luflow::{Datum, Flow, Form};
use lustat_rules::{Catalog, ClockRef, PatternRef, PlacedClock, Scope};
use lutree::{Declaration, Expr, Infix, Kind, Pattern, Prefix};
use lutype::{agreed_kind, is_of_kind, kind_of_binary, kind_of_choice, kind_of_unary, only_kind};
use std::alloc::{AllocError, Global};

/// The datum of a number.
fn constant(number: &Number) -> Datum
    ensures { result ≡ Datum.Int (pos number.now) }
{
    Datum::Int(number.value() as i64)
}

/// An operator before its operand.
fn prefix(op: Prefix, place: usize) -> Form
    ensures { result ≡ prefix_form op place }
{
    match op {
        Prefix::Data(op) => Form::Unary(op, place),
        Prefix::Pre => Form::Pre(place),
    }
}

/// The type of an operator before its operand.
fn kind_of_prefix(op: Prefix, kind: Option<Kind>) -> Option<Kind>
    ensures { result ≡ prefix_kind op kind }
{
    match op {
        Prefix::Data(op) => agreed_kind(Some(kind_of_unary(op)), kind),
        Prefix::Pre => kind,
    }
}

/// Two operands and what stands between them.
fn infix(
    scope: &Scope,
    flows: &mut Vec<Flow>,
    op: Infix,
    x: Operand,
    y: Operand,
    clock: PlacedClock,
) -> Result<Walked, AllocError>
    requires { IsPlaced (node_view scope.now) clock }
    ensures walked { IfOk result (λ w. IsWalked (infix_walk
        (clock_place (node_view scope.now) (placed_view clock.entry)) op x y) flows.old.items
        flows.new.items (root_view w.root)) }
    ensures kind { IfOk result (λ w. w.kind ≡ infix_kind op x.kind y.kind) }
{
    match op {
        Infix::Data(op) => {
            let kind = kind_of_binary(op, x.kind, y.kind);
            Ok(own(scope, clock, kind, Form::Binary(op, x.place, y.place)))
        }
        Infix::Arrow => {
            let kind = agreed_kind(x.kind, y.kind);
            Ok(own(scope, clock, kind, Form::Arrow(x.place, y.place)))
        }
        Infix::FollowedBy => {
            let before = flows.len();
            flows.push(flow_of(scope, clock, y.kind, Form::Pre(y.place)))?;
            let kind = agreed_kind(x.kind, y.kind);
            Ok(own(scope, clock, kind, Form::Arrow(x.place, before)))
        }
    }
}

/// Whether the arguments of a call are those that a node takes.
fn arguments_have_kinds(arguments: &[Operand], inputs: &[Declaration]) -> bool
    ensures { result ≡ arguments_fit (kinds_of arguments.now) (declarations_view inputs.now) }
{
    for (i, a) in arguments.iter().enumerate() {
        if i >= inputs.len() || !is_of_kind(a.kind, inputs[i].kind) {
            return false;
        }
    }
    arguments.len() == inputs.len()
}

/// The type of a call.
fn kind_of_call(catalog: &Catalog, name: &str, arguments: &[Operand]) -> Option<Kind>
    ensures { result ≡ only (call_kinds (node_called (program_view catalog.now) name.now)
        (kinds_of arguments.now)) }
{
    let node = catalog.find(name)?.node();
    if arguments_have_kinds(arguments, node.inputs.as_slice()) {
        only_kind(node.outputs.as_slice())
    } else {
        None
    }
}

/// The pattern of a branch of a merge, which has as many; any other is `true`.
fn pattern_at(patterns: &[Pattern], branch: usize) -> PatternRef
    ensures { the_pattern result ≡ pattern_at patterns.now branch }
{
    match patterns.get(branch) {
        Some(pattern) => PatternRef::of(pattern),
        None => PatternRef::Truth(true),
    }
}

/// Where operands stand.
fn row_of_places(alloc: Global, operands: &[Operand]) -> Result<Row<usize>, AllocError>
    ensures { IfOk result (λ row. row ≡ places_of operands.now) }
{
    let mut places = Vec::with_capacity(alloc, operands.len())?;
    for x in operands {
        places.push(x.place)?;
    }
    Ok(Row::new(places))
}

/// The type that a type and those of some operands agree in, if they do.
fn kind_with(first: Option<Kind>, rest: &[Operand]) -> Option<Kind>
    ensures { result ≡ fold agreed first (kinds_of rest.now) }
{
    let mut kind = first;
    for x in rest {
        kind = agreed_kind(kind, x.kind);
    }
    kind
}

/// The type that all of some operands have, if there are any and they have one.
fn kind_of_branches(operands: &[Operand]) -> Option<Kind>
    ensures { result ≡ agreed_all (kinds_of operands.now) }
{
    match operands {
        [] => None,
        [first, rest @ ..] => kind_with(first.kind, rest),
    }
}

/// A copy of the called node's list, with its arguments in place.
fn instance_of(
    alloc: Global,
    context: &Context,
    flows: &mut Vec<Flow>,
    name: &str,
    arguments: &[Operand],
    clock: PlacedClock,
) -> Result<Walked, AllocError>
    requires { IsPlaced (node_view context.now.scope.now) clock }
    ensures walked { IfOk result (λ w. IsWalked (instance (program_view context.now.catalog.now)
        (plain context.now.lists.now) name.now (clock_place (node_view context.now.scope.now)
        (placed_view clock.entry)) (places_of arguments.now)) flows.old.items flows.new.items
        (root_view w.root)) }
    ensures kind { IfOk result (λ w. w.kind ≡ only (call_kinds
        (node_called (program_view context.now.catalog.now) name.now) (kinds_of arguments.now))) }
{
    let outputs = sum_of(flows.len(), inputs_of(context.catalog, name))?;
    let list = called_list(context.catalog, context.lists, name);
    push_moved(
        alloc,
        flows,
        clock_by_place(context.scope, clock),
        arguments,
        list,
    )?;
    Ok(Walked {
        root: Root::At(outputs),
        kind: kind_of_call(context.catalog, name, arguments),
    })
}

/// The walk of an expression of a node, on a clock: puts its inner flows behind those before.
///
/// The time grows with the length of the expression and of the lists that it calls, whatever the length of
/// the clock's name.
///
/// # Errors
///
/// An error means that memory ran out.
#[cycle(walk)]
pub fn walk(
    alloc: Global,
    context: &Context,
    flows: &mut Vec<Flow>,
    e: &Expr,
    clock: PlacedClock,
) -> Result<Walked, AllocError>
    requires { IsPlaced (node_view context.now.scope.now) clock }
    ensures walked { IfOk result (λ w. IsWalked (walk_of (program_view context.now.catalog.now)
        (plain context.now.lists.now) (node_view context.now.scope.now) (view e.now)
        (placed_view clock.entry)) flows.old.items flows.new.items (root_view w.root)) }
    ensures kind { IfOk result (λ w. w.kind ≡ type_of (program_view context.now.catalog.now)
        (node_view context.now.scope.now) (view e.now)) }
{
    let scope = context.scope;
    match e {
        Expr::Number(n) => Ok(own(scope, clock, Some(Kind::Int), Form::Constant(constant(n)))),
        Expr::Truth(b) => {
            let form = Form::Constant(Datum::Bool(*b));
            Ok(own(scope, clock, Some(Kind::Bool), form))
        }
        Expr::Label(x) => {
            let form = Form::Constant(Datum::Name(x.number));
            Ok(own(scope, clock, Some(x.kind), form))
        }
        Expr::Variable(x) => Ok(Walked {
            root: Root::At(variable_place(scope, x.as_str())),
            kind: scope.kind(x.as_str()),
        }),
        Expr::Current(x) => {
            let form = Form::Current(variable_place(scope, x.as_str()));
            Ok(own(scope, clock, scope.kind(x.as_str()), form))
        }
        Expr::Unary(op, a) => {
            let x = walk_operand(alloc, context, flows, a, clock)?;
            Ok(own(
                scope,
                clock,
                kind_of_prefix(*op, x.kind),
                prefix(*op, x.place),
            ))
        }
        Expr::Binary(op, a, b) => {
            let x = walk_operand(alloc, context, flows, a, clock)?;
            let y = walk_operand(alloc, context, flows, b, clock)?;
            infix(scope, flows, *op, x, y, clock)
        }
        Expr::If(c, a, b) => {
            let z = walk_operand(alloc, context, flows, c, clock)?;
            let x = walk_operand(alloc, context, flows, a, clock)?;
            let y = walk_operand(alloc, context, flows, b, clock)?;
            let kind = kind_of_choice(z.kind, x.kind, y.kind);
            Ok(own(scope, clock, kind, Form::If(z.place, x.place, y.place)))
        }
        Expr::When(a, c) => {
            let name = c.variable.as_str();
            let inside = variable_clock(scope, name);
            let x = walk_operand(alloc, context, flows, a, inside)?;
            let sampled = scope.placed(ClockRef::of(c));
            Ok(own(scope, sampled, x.kind, Form::When(x.place)))
        }
        Expr::Merge(c, patterns, branches) => merge(
            alloc,
            context,
            flows,
            c.as_str(),
            patterns.as_slice(),
            branches,
            clock,
        ),
        Expr::Call(f, arguments) => call(alloc, context, flows, f.as_str(), arguments, clock),
    }
}

/// The walk of an operand of a node: where its root is a flow of its own, that has a place now.
#[cycle(walk)]
fn walk_operand(
    alloc: Global,
    context: &Context,
    flows: &mut Vec<Flow>,
    e: &Expr,
    clock: PlacedClock,
) -> Result<Operand, AllocError>
    requires { IsPlaced (node_view context.now.scope.now) clock }
    ensures flows { OnOk result (flows.new.items ≡ flows.old.items
        ++ made (walk_of (program_view context.now.catalog.now) (plain context.now.lists.now)
        (node_view context.now.scope.now) (view e.now) (placed_view clock.entry)
        (length flows.old.items))) }
    ensures place { IfOk result (λ x. x.place ≡ place_in (length flows.old.items)
        (walk_of (program_view context.now.catalog.now) (plain context.now.lists.now)
        (node_view context.now.scope.now) (view e.now) (placed_view clock.entry)
        (length flows.old.items))) }
    ensures kind { IfOk result (λ x. x.kind ≡ type_of (program_view context.now.catalog.now)
        (node_view context.now.scope.now) (view e.now)) }
{
    settled(walk(alloc, context, flows, e, clock)?, flows)
}

/// The walk of a call: its arguments from left to right, then the called node's list.
#[cycle(walk)]
fn call(
    alloc: Global,
    context: &Context,
    flows: &mut Vec<Flow>,
    name: &str,
    arguments: &[Expr],
    clock: PlacedClock,
) -> Result<Walked, AllocError>
    requires { IsPlaced (node_view context.now.scope.now) clock }
    ensures walked { IfOk result (λ w. IsWalked (walk_of (program_view context.now.catalog.now)
        (plain context.now.lists.now) (node_view context.now.scope.now)
        (tree.call name.now (trees_of (views arguments.now))) (placed_view clock.entry))
        flows.old.items flows.new.items (root_view w.root)) }
    ensures kind { IfOk result (λ w. w.kind ≡ type_of (program_view context.now.catalog.now)
        (node_view context.now.scope.now) (tree.call name.now (trees_of (views arguments.now)))) }
{
    let mut operands = Vec::with_capacity(alloc, arguments.len())?;
    for a in arguments {
        let x = walk_operand(alloc, context, flows, a, clock)?;
        operands.push(x)?;
    }
    instance_of(alloc, context, flows, name, operands.as_slice(), clock)
}

/// The walk of a merge: its branches from left to right, each on the clock of its variable with the branch's
/// pattern.
#[cycle(walk)]
fn merge(
    alloc: Global,
    context: &Context,
    flows: &mut Vec<Flow>,
    name: &str,
    patterns: &[Pattern],
    branches: &[Expr],
    clock: PlacedClock,
) -> Result<Walked, AllocError>
    requires { IsPlaced (node_view context.now.scope.now) clock }
    ensures walked { IfOk result (λ w. IsWalked (walk_of (program_view context.now.catalog.now)
        (plain context.now.lists.now) (node_view context.now.scope.now)
        (tree.merge name.now patterns.now (trees_of (views branches.now)))
        (placed_view clock.entry)) flows.old.items flows.new.items (root_view w.root)) }
    ensures kind { IfOk result (λ w. w.kind ≡ type_of (program_view context.now.catalog.now)
        (node_view context.now.scope.now)
        (tree.merge name.now patterns.now (trees_of (views branches.now)))) }
{
    let scope = context.scope;
    let mut operands = Vec::with_capacity(alloc, branches.len())?;
    for (i, a) in branches.iter().enumerate() {
        let on = scope.placed(ClockRef::On(name, pattern_at(patterns, i)));
        let x = walk_operand(alloc, context, flows, a, on)?;
        operands.push(x)?;
    }
    let places = row_of_places(alloc, operands.as_slice())?;
    let form = Form::Merge(variable_place(scope, name), places);
    Ok(own(scope, clock, kind_of_branches(operands.as_slice()), form))
}
