//! The scopes of a dump, by the dots in the names of flows.

ghost use Rattle.std.specs.Prelude.{◌≡◌, ◌<◌, ◌++◌, ◌∷◌, [], IfSome, None, flat_map, length};
ghost use Rattle.luchart.specs.Pieces.{Adds};
ghost use Rattle.luchart.specs.Scopes.{ended, moved, opened, own_name, scopes};

use std::alloc::AllocError;

/// The first scope of a flow, and the rest of its name; none where the name has no dot.
fn first_scope(name: &str) -> Option<(&str, &str)>
    ensures scope { IfSome result (λ p. scopes name.now ≡ p.0.now ∷ scopes p.1.now) }
    ensures own { IfSome result (λ p. own_name name.now ≡ own_name p.1.now) }
    ensures rest { IfSome result (λ p. length p.1.now < length name.now) }
    ensures none { result ≡ None → scopes name.now ≡ [] }
    ensures whole { result ≡ None → own_name name.now ≡ name.now }
{
    name.split_once('.')
}

/// The name of a flow in its scope.
pub fn own_name(name: &str) -> &str
    ensures { result.now ≡ own_name name.entry.now }
{
    let mut rest = name;
    while let Some((_, behind)) = first_scope(rest) {
        rest = behind;
    }
    rest
}

/// Adds the ends of the scopes of a flow.
pub fn put_ends(text: &mut String, name: &str) -> Result<(), AllocError>
    ensures { Adds result text.old text.new (flat_map ended (scopes name.entry.now)) }
{
    let mut rest = name;
    while let Some((_, behind)) = first_scope(rest) {
        text.push_str("$upscope $end\n")?;
        rest = behind;
    }
    Ok(())
}

/// Adds the beginning of a scope.
fn put_scope(text: &mut String, scope: &str) -> Result<(), AllocError>
    ensures { Adds result text.old text.new (opened scope.now) }
{
    writeln!(text, "$scope module {scope} $end")
}

/// Adds the beginnings of the scopes of a flow.
fn put_openings(text: &mut String, name: &str) -> Result<(), AllocError>
    ensures { Adds result text.old text.new (flat_map opened (scopes name.entry.now)) }
{
    let mut rest = name;
    while let Some((scope, behind)) = first_scope(rest) {
        put_scope(text, scope)?;
        rest = behind;
    }
    Ok(())
}

/// The rests of two names that begin with the same scope; none where they don't.
fn shared<'a>(from: &'a str, to: &'a str) -> Option<(&'a str, &'a str)>
    ensures same { IfSome result (λ p. moved (scopes from.entry.now) (scopes to.entry.now)
        ≡ moved (scopes p.0.now) (scopes p.1.now)) }
    ensures rest { IfSome result (λ p. length p.0.now < length from.entry.now) }
    ensures none { result ≡ None → moved (scopes from.entry.now) (scopes to.entry.now)
        ≡ flat_map ended (scopes from.entry.now) ++ flat_map opened (scopes to.entry.now) }
{
    let (a, from_rest) = first_scope(from)?;
    let (b, to_rest) = first_scope(to)?;
    if a == b {
        return Some((from_rest, to_rest));
    }
    None
}

/// Adds the ends and the beginnings of scopes between two flows.
pub fn put_moved(text: &mut String, from: &str, to: &str) -> Result<(), AllocError>
    ensures { Adds result text.old text.new (moved (scopes from.entry.now) (scopes to.entry.now)) }
{
    let mut left = from;
    let mut next = to;
    while let Some((left_rest, next_rest)) = shared(left, next) {
        left = left_rest;
        next = next_rest;
    }
    put_ends(text, left)?;
    put_openings(text, next)
}
