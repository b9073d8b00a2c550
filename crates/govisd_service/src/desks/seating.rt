//! A place for one session.
ghost use Rattle.std.specs.Prelude.{◌≡◌, [], IfErr, IfOk, None};
ghost use Rattle.go_path_core.specs.Path.{IsPath};
ghost use Rattle.go_board_core.specs.submit_core.Trees.{tree_with};
ghost use Rattle.govisd_service.specs.desks.Sessions.{GoesOn, IsOpenReply, RefusesOpen, RepliesOfNone, SeatReplies, is_build, is_close, module_of};

use crate::desks::asking::{build, complete, define, doc_of, edit, list, run};
use go_hall::hall_core::Named;
use go_hall::{Hall, Session};
use go_path_core::Module;
use go_path_core::text_core::Rule;
use go_wire_core::{Command, Text, WireReply};
use std::alloc::Global;
use std::sync::Wait;

// A session of the module that a text is.
#[tactic(auto, using(crate::proofs::DesksOpening::not_opened, crate::proofs::DesksOpening::not_read))]
fn opened<'a, L: Named, H: Wait>(
    rt: &H,
    alloc: Global,
    hall: &'a Hall<L>,
    path: &Text,
) -> Result<Session<'a, L>, Rule>
    ensures ok { IfOk result (λ s. IsPath path.now × (s.draft ≡ tree_with path.now []) × (s.submits ≡ 0)) }
    ensures err { IfErr result (λ rule. RefusesOpen path.now rule) }
{
    let own = Module::read(alloc, path.as_str())?;
    let session = hall.open(rt, own)?;
    Ok(session)
}

// Begins a session where none is.
fn open<'a, L: Named, H: Wait>(
    rt: &H,
    alloc: Global,
    hall: &'a Hall<L>,
    place: &mut Option<Session<'a, L>>,
    path: Text,
) -> WireReply
    requires { place.old ≡ None }
    ensures { IsOpenReply path result place.new }
{
    match opened(rt, alloc, hall, &path) {
        Ok(session) => {
            *place = Some(session);
            WireReply::Opened { module: path }
        }
        Err(rule) => WireReply::Refused { rule },
    }
}

/// Ends the session, if there is one.
pub(crate) fn close<L: Named, H: Wait>(rt: &H, place: &mut Option<Session<'_, L>>)
    ensures { place.new ≡ None }
{
    if let Some(session) = place.take() {
        let _submits = session.close(rt);
    }
}

// What an open session replies that goes on.
fn asked<L: Named, H: Wait>(
    rt: &H,
    alloc: Global,
    session: &mut Session<'_, L>,
    command: Command,
) -> WireReply
    ensures { GoesOn session.old command result session.new }
{
    match command {
        Command::Open { module: _ } => WireReply::Refused { rule: Rule::O1 },
        Command::Edit { path, file, text } => { edit(session, path.as_str(), file.as_str(), text) }
        Command::Build => build(rt, alloc, session),
        Command::List { from } => list(alloc, session, from.as_str()),
        Command::Doc {
            from,
            path,
            type_name,
        } => doc_of(alloc, session, from.as_str(), path.as_str(), &type_name),
        Command::Complete { path, file, offset } => {
            complete(alloc, session, path.as_str(), file.as_str(), offset)
        }
        Command::Define { path, file, offset } => {
            define(alloc, session, path.as_str(), file.as_str(), offset)
        }
        Command::Run { path, steps } => run(alloc, session, path.as_str(), steps),
        Command::Close => WireReply::Done,
    }
}

// Whether a command ends a session.
fn is_close(command: &Command) -> bool
    ensures { result ≡ is_close command.now }
{
    matches!(command, Command::Close)
}

/// Whether a command builds.
pub(crate) fn is_build(command: &Command) -> bool
    ensures { result ≡ is_build command.now }
{
    matches!(command, Command::Build)
}

// The module of an open.
fn module_of(command: Command) -> Option<Text>
    ensures { result ≡ module_of command }
{
    match command {
        Command::Open { module } => Some(module),
        _ => None,
    }
}

// What is replied where no session is open.
fn asked_of_none<'a, L: Named, H: Wait>(
    rt: &H,
    alloc: Global,
    hall: &'a Hall<L>,
    place: &mut Option<Session<'a, L>>,
    path: Option<Text>,
) -> WireReply
    requires { place.old ≡ None }
    ensures { RepliesOfNone path result place.new }
{
    match path {
        Some(path) => open(rt, alloc, hall, place, path),
        None => WireReply::Refused { rule: Rule::O5 },
    }
}

/// What is replied at a place where a session may be open, or none.
pub(crate) fn answer_at<'a, L: Named, H: Wait>(
    rt: &H,
    alloc: Global,
    hall: &'a Hall<L>,
    place: &mut Option<Session<'a, L>>,
    command: Command,
) -> WireReply
    ensures { SeatReplies place.old command result place.new }
{
    let ends = is_close(&command);
    match place {
        Some(session) => {
            let reply = asked(rt, alloc, session, command);
            if ends {
                close(rt, place);
            }
            reply
        }
        None => asked_of_none(rt, alloc, hall, place, module_of(command)),
    }
}
