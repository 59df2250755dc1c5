//! A turn of a schedule that is of no site.

ghost use Rattle.std.specs.Prelude.{◌≡◌, ◌<◌, IfOk, IfSome, length, position, string_bytes};
ghost use Rattle.luworld.specs.Needs.{sites_of};
ghost use Rattle.luweave_text.specs.Stray.{is_no_site, last_part, stray_at, stray_line, stray_text, turn_part};
ghost use Rattle.luweave_text.specs.WorldText.{Adds};

use luplace::Plan;
use std::alloc::{AllocError, Global};

/// Whether a turn is of no site, of so many.
fn is_no_site(sites: u8, site: u8) -> bool
    ensures { result ≡ is_no_site sites site }
{
    site >= sites
}

/// Where the first turn stands that is of no site.
fn first_stray(sites: u8, turns: &[u8]) -> Option<usize>
    ensures first { result ≡ position (is_no_site sites) turns.now }
    ensures within { IfSome result (λ turn. turn < length turns.now) }
{
    turns.iter().position(|site| is_no_site(sites, *site))
}

/// Adds the number of a turn and the site that it is of, behind a path.
fn put_turn(text: &mut String, path: &str, turn: usize, site: u8) -> Result<(), AllocError>
    ensures { Adds result text.old text.new (turn_part path.now turn site) }
{
    write!(
        text,
        "{path}: W06 StrayTurn: Turn {turn}, counted from 0, is of site {site}"
    )
}

/// Adds the last of so many sites.
fn put_last(text: &mut String, sites: u8) -> Result<(), AllocError>
    requires { 0 < sites }
    ensures { Adds result text.old text.new (last_part sites) }
{
    writeln!(text, ", and the last site is {}.", sites - 1)
}

/// Adds the line of a turn that is of this site, where there are so many.
fn put_stray(
    text: &mut String,
    path: &str,
    sites: u8,
    turn: usize,
    site: u8,
) -> Result<(), AllocError>
    requires { 0 < sites }
    ensures { Adds result text.old text.new (stray_line path.now sites turn site) }
{
    put_turn(text, path, turn, site)?;
    put_last(text, sites)
}

/// A line for the first turn of a schedule that is of no site of the plan, behind the path of the schedule:
/// its number, counted from 0, and its site. Nothing where each is of a site.
///
/// # Errors
///
/// An error means that memory ran out.
pub fn text_of_stray(
    alloc: Global,
    path: &str,
    plan: &Plan,
    turns: &[u8],
) -> Result<String, AllocError>
    ensures { IfOk result (λ text. string_bytes text ≡ stray_text path.now (sites_of plan.now) turns.now) }
{
    plan.recall_invariant();
    let mut text = String::new(alloc);
    let sites = plan.sites().len() as u8;
    if let Some(turn) = first_stray(sites, turns) {
        put_stray(&mut text, path, sites, turn, turns[turn])?;
    }
    Ok(text)
}
