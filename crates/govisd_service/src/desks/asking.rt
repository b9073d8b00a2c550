//! What an open session replies to each command.
ghost use Rattle.std.specs.Prelude.{◌≡◌, option_map, string_bytes};
ghost use Rattle.go_hall.specs.session_core.QueriesQueries.{IsCompleteAnswer, IsDefineAnswer, IsDocAnswer, IsListAnswer, IsRunAnswer, IsTypeDocAnswer};
ghost use Rattle.govisd_service.specs.desks.Sessions.{IsBuildReply, IsDocReply, IsEditReply, IsReply, IsTold};
ghost use Rattle.govisd_replies.specs.Told.{TellsBuild, TellsDeclaration, TellsDoc, TellsListing, TellsNames, TellsOutcome, TellsTypeDoc};

use go_hall::hall_core::Named;
use go_hall::{Built, Look, Session};
use go_path_core::text_core::Rule;
use go_wire_core::{Text, WireReply};
use govisd_replies::{described, described_type, listed, names_told, or_memory, places, ran};
use std::alloc::Global;
use std::sync::Wait;

// A text, if there is one, as a string of its own.
fn string_of(text: Option<Text>) -> Option<String>
    ensures { option_map (λ s. string_bytes s) result ≡ text }
{
    match text {
        Some(text) => Some(text.into_string()),
        None => None,
    }
}

/// Gives a file of the draft a text, or takes it away.
pub(crate) fn edit<L: Named>(
    session: &mut Session<'_, L>,
    path: &str,
    file: &str,
    text: Option<Text>,
) -> WireReply
    ensures { IsEditReply session.old path.now file.now text result session.new }
{
    let text = string_of(text);
    match session.edit(path, file, text) {
        Ok(()) => WireReply::Done,
        Err(rule) => WireReply::Refused { rule },
    }
}

// What was built, as it goes out.
fn told_build(alloc: Global, built: Built) -> WireReply
    ensures { TellsBuild built.batch built.faults.items result }
{
    match places(alloc, &built.faults) {
        Ok(faults) => WireReply::Built {
            batch: built.batch,
            faults,
        },
        Err(_) => WireReply::Refused { rule: Rule::M0 },
    }
}

/// Builds the draft.
pub(crate) fn build<L: Named, H: Wait>(
    rt: &H,
    alloc: Global,
    session: &mut Session<'_, L>,
) -> WireReply
    ensures { IsBuildReply session.old result session.new }
{
    match session.build(rt) {
        Ok(built) => told_build(alloc, built),
        Err(rule) => WireReply::Refused { rule },
    }
}

// What a list finds, as it goes out.
fn told_list(alloc: Global, look: &Look, from: &str) -> WireReply
    ensures { IsTold look.now.own from.now look.now.board (IsListAnswer from.now) TellsListing result }
{
    match look.list(alloc, from) {
        Ok((batch, listing)) => or_memory(listed(alloc, batch, &listing)),
        Err(rule) => WireReply::Refused { rule },
    }
}

/// Lists the packages that a package may import.
pub(crate) fn list<L: Named>(alloc: Global, session: &mut Session<'_, L>, from: &str) -> WireReply
    ensures { IsReply session.old from.now (IsListAnswer from.now) TellsListing result session.new }
{
    match session.look() {
        Ok(look) => told_list(alloc, &look, from),
        Err(rule) => WireReply::Refused { rule },
    }
}

// The names of a package, as they go out.
fn told_doc(alloc: Global, look: &Look, from: &str, path: &str) -> WireReply
    ensures { IsTold look.now.own from.now look.now.board (IsDocAnswer from.now path.now) TellsDoc result }
{
    match look.doc(alloc, from, path) {
        Ok((batch, names)) => or_memory(described(alloc, batch, &names)),
        Err(rule) => WireReply::Refused { rule },
    }
}

/// Tells the names of a package.
pub(crate) fn doc<L: Named>(
    alloc: Global,
    session: &mut Session<'_, L>,
    from: &str,
    path: &str,
) -> WireReply
    ensures { IsReply session.old from.now (IsDocAnswer from.now path.now) TellsDoc result session.new }
{
    match session.look() {
        Ok(look) => told_doc(alloc, &look, from, path),
        Err(rule) => WireReply::Refused { rule },
    }
}

// The members of a type, as they go out.
fn told_type(alloc: Global, look: &Look, from: &str, path: &str, type_name: &str) -> WireReply
    ensures { IsTold look.now.own from.now look.now.board (IsTypeDocAnswer from.now path.now type_name.now) TellsTypeDoc result }
{
    match look.doc_of_type(alloc, from, path, type_name) {
        Ok((batch, members)) => or_memory(described_type(alloc, batch, &members)),
        Err(rule) => WireReply::Refused { rule },
    }
}

// Tells the members of a type.
fn doc_of_type<L: Named>(
    alloc: Global,
    session: &mut Session<'_, L>,
    from: &str,
    path: &str,
    type_name: &str,
) -> WireReply
    ensures { IsReply session.old from.now (IsTypeDocAnswer from.now path.now type_name.now) TellsTypeDoc result session.new }
{
    match session.look() {
        Ok(look) => told_type(alloc, &look, from, path, type_name),
        Err(rule) => WireReply::Refused { rule },
    }
}

/// Tells the names of a package, or the members of one of its types.
pub(crate) fn doc_of<L: Named>(
    alloc: Global,
    session: &mut Session<'_, L>,
    from: &str,
    path: &str,
    type_name: &Option<Text>,
) -> WireReply
    ensures { IsDocReply session.old from.now path.now type_name.now result session.new }
{
    match type_name {
        Some(name) => doc_of_type(alloc, session, from, path, name.as_str()),
        None => doc(alloc, session, from, path),
    }
}

// The names that may stand somewhere, as they go out.
fn told_names(alloc: Global, look: &Look, path: &str, file: &str, offset: u64) -> WireReply
    ensures { IsTold look.now.own path.now look.now.board (IsCompleteAnswer path.now file.now offset) TellsNames result }
{
    match look.complete(alloc, path, file, offset) {
        Ok((batch, names)) => or_memory(names_told(alloc, batch, &names)),
        Err(rule) => WireReply::Refused { rule },
    }
}

/// Tells the names that may stand in place of an identifier.
pub(crate) fn complete<L: Named>(
    alloc: Global,
    session: &mut Session<'_, L>,
    path: &str,
    file: &str,
    offset: u64,
) -> WireReply
    ensures { IsReply session.old path.now (IsCompleteAnswer path.now file.now offset) TellsNames result session.new }
{
    match session.look() {
        Ok(look) => told_names(alloc, &look, path, file, offset),
        Err(rule) => WireReply::Refused { rule },
    }
}

// What an identifier denotes, as it goes out.
fn told_declaration(alloc: Global, look: &Look, path: &str, file: &str, offset: u64) -> WireReply
    ensures { IsTold look.now.own path.now look.now.board (IsDefineAnswer path.now file.now offset) TellsDeclaration result }
{
    match look.define(alloc, path, file, offset) {
        Ok((batch, declaration)) => WireReply::Defined {
            batch,
            declaration: Text::new(declaration),
        },
        Err(rule) => WireReply::Refused { rule },
    }
}

/// Tells what an identifier denotes.
pub(crate) fn define<L: Named>(
    alloc: Global,
    session: &mut Session<'_, L>,
    path: &str,
    file: &str,
    offset: u64,
) -> WireReply
    ensures { IsReply session.old path.now (IsDefineAnswer path.now file.now offset) TellsDeclaration result session.new }
{
    match session.look() {
        Ok(look) => told_declaration(alloc, &look, path, file, offset),
        Err(rule) => WireReply::Refused { rule },
    }
}

// What a package that ran came to, as it goes out.
fn told_run(alloc: Global, look: &Look, path: &str, steps: u64) -> WireReply
    ensures { IsTold look.now.own path.now look.now.board (IsRunAnswer path.now steps) TellsOutcome result }
{
    match look.run(alloc, path, steps) {
        Ok((batch, run)) => ran(batch, run),
        Err(rule) => WireReply::Refused { rule },
    }
}

/// Runs a package.
pub(crate) fn run<L: Named>(
    alloc: Global,
    session: &mut Session<'_, L>,
    path: &str,
    steps: u64,
) -> WireReply
    ensures { IsReply session.old path.now (IsRunAnswer path.now steps) TellsOutcome result session.new }
{
    match session.look() {
        Ok(look) => told_run(alloc, &look, path, steps),
        Err(rule) => WireReply::Refused { rule },
    }
}
