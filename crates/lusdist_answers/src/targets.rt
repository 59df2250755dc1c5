//! Where the dump of a call goes, before a file is read: over none of the call's own files, and to a place
//! that can be written.

ghost use Rattle.std.specs.Prelude.{◌≡◌, ◌⊎◌, IfSome, IsNone, Some, true, false, option_map};
ghost use Rattle.std.specs.Bool.{OnTrue};
ghost use Rattle.lusdist_call.specs.declared.call_error.CallError.TheVariants.{CannotWrite, Mistaken, OutOfMemory};
ghost use Rattle.lusdist_call.specs.declared.mistake.Mistake.TheVariants.{Overwritten};
ghost use Rattle.lusdist_call.specs.Files.{dump_path};
ghost use Rattle.lusdist_call.specs.Targets.{file_of, IsApart, KeepsFiles, IsSameFile, IsOver, IsDumpRefused};

use lubase::Name;
use lusdist_call::{CallError, Mistake, Role};
use lusdist_shell::{Dumps, Request};
use std::alloc::Global;

/// The path of the file that a request asks a dump to be written into.
pub fn dump_path(request: Request<'_>) -> Option<&str>
    ensures { option_map (λ s. s.now) result ≡ dump_path request.entry }
{
    match request {
        Request::Eval(asked) => asked.vcd,
        Request::Replay(asked) => asked.vcd,
        Request::Run(asked) => asked.vcd,
        _ => None,
    }
}

/// The path of the file that is this to a request, where there is one.
fn file_of(request: Request<'_>, role: Role) -> Option<&str>
    ensures { option_map (λ s. s.now) result ≡ file_of request.entry role }
{
    match (request, role) {
        (Request::Check(asked), Role::Program) => Some(asked.program),
        (Request::Eval(asked), Role::Program) => Some(asked.program),
        (Request::Eval(asked), Role::Table) => Some(asked.table),
        (Request::New(asked), Role::Program) => Some(asked.program),
        (Request::Plan(asked), Role::Program) => Some(asked.program),
        (Request::Plan(asked), Role::Place) => Some(asked.place),
        (Request::Replay(asked), Role::Program) => Some(asked.program),
        (Request::Replay(asked), Role::Place) => Some(asked.place),
        (Request::Replay(asked), Role::Table) => Some(asked.table),
        (Request::Replay(asked), Role::Schedule) => asked.source.file(),
        (Request::Run(asked), Role::Program) => Some(asked.program),
        (Request::Run(asked), Role::Place) => Some(asked.place),
        (Request::Run(asked), Role::Table) => Some(asked.table),
        _ => None,
    }
}

/// Whether a dump at the path would take the place of the file that is this to a request.
fn is_over<D: Dumps>(alloc: Global, dumps: &D, request: Request<'_>, path: &str, role: Role) -> bool
    ensures over { OnTrue result (IsSameFile
        (record { same = D.same dumps.now; shut = D.shut dumps.now }) request.entry path.now role) }
    ensures apart { result ≡ false → IsApart request.entry path.now role }
{
    match file_of(request, role) {
        Some(file) => dumps.is_same(alloc, path, file),
        None => false,
    }
}

/// What the first file of a request of which a dump at the path would take the place is to it.
fn overwritten<D: Dumps>(alloc: Global, dumps: &D, request: Request<'_>, path: &str) -> Option<Role>
    requires { dump_path request ≡ Some path.now }
    ensures over { IfSome result (IsOver
        (record { same = D.same dumps.now; shut = D.shut dumps.now }) request.entry path.now) }
    ensures kept { IsNone result → KeepsFiles request.entry }
{
    if is_over(alloc, dumps, request, path, Role::Program) {
        Some(Role::Program)
    } else if is_over(alloc, dumps, request, path, Role::Place) {
        Some(Role::Place)
    } else if is_over(alloc, dumps, request, path, Role::Table) {
        Some(Role::Table)
    } else if is_over(alloc, dumps, request, path, Role::Schedule) {
        Some(Role::Schedule)
    } else {
        None
    }
}

/// The stop for a dump at the path that would take the place of a file.
fn over(alloc: Global, path: &str, role: Role) -> CallError
    ensures { (result ≡ OutOfMemory) ⊎ (result ≡ Mistaken (Overwritten path.now role)) }
{
    match Name::from_text(alloc, path) {
        Ok(path) => CallError::Mistaken(Mistake::Overwritten { path, role }),
        Err(_) => CallError::OutOfMemory,
    }
}

/// The stop for a dump that can't be written at the path.
fn unwritable(alloc: Global, path: &str) -> CallError
    ensures { (result ≡ OutOfMemory) ⊎ (result ≡ CannotWrite path.now) }
{
    match Name::from_text(alloc, path) {
        Ok(path) => CallError::CannotWrite { path },
        Err(_) => CallError::OutOfMemory,
    }
}

/// Why a request whose dump goes to the path is refused for that.
fn refused_at<D: Dumps>(
    alloc: Global,
    dumps: &D,
    request: Request<'_>,
    path: &str,
) -> Option<CallError>
    requires { dump_path request ≡ Some path.now }
    ensures refused { IfSome result (IsDumpRefused
        (record { same = D.same dumps.now; shut = D.shut dumps.now }) request.entry) }
    ensures kept { IsNone result → KeepsFiles request.entry }
{
    match overwritten(alloc, dumps, request, path) {
        Some(role) => Some(over(alloc, path, role)),
        None => {
            if dumps.is_shut(alloc, path) {
                Some(unwritable(alloc, path))
            } else {
                None
            }
        }
    }
}

/// Why a request is refused for its dump, before a file is read: the dump would take the place of a file of
/// the request, or it can't be written. Where there is no reason no file of the request is spelled as the
/// path of its dump.
pub fn dump_refused<D: Dumps>(alloc: Global, dumps: &D, request: Request<'_>) -> Option<CallError>
    ensures refused { IfSome result (IsDumpRefused
        (record { same = D.same dumps.now; shut = D.shut dumps.now }) request.entry) }
    ensures kept { IsNone result → KeepsFiles request.entry }
{
    match dump_path(request) {
        Some(path) => refused_at(alloc, dumps, request, path),
        None => None,
    }
}
