//! What a line asks.
ghost use Rattle.std.specs.Prelude.{◌≡◌, ◌∷◌, IfOk, Some, codes, option_map};
ghost use Rattle.serde_json.specs.View.{members_view, view};
ghost use Rattle.serde_json.specs.Find.{as_object};
ghost use Rattle.go_wire_core.specs.Requests.{as_session, asked, asked_by, asked_of, docs, docs_of, edits, finished, known, lists, object_of, opens, places, read_as, reading_of, runs, session_of, step_of, without};

use crate::given::{Given, count_at, is_over, steps_at, taken, text_at, text_or_null_at};
use crate::request::{Command, Request};
use crate::step::Step;
use crate::text::Text;
use go_text_core::Rule;
use serde_json::Value;
use std::alloc::{AllocError, Global};

fn open(given: &mut Given) -> Option<Command>
    ensures { option_map (λ c. (c, members_view given.new.entries)) result ≡ opens (members_view given.old.entries) }
{
    let module = text_at(given, "module")?;
    Some(Command::Open { module })
}

fn edit(given: &mut Given) -> Option<Command>
    ensures { option_map (λ c. (c, members_view given.new.entries)) result ≡ edits (members_view given.old.entries) }
{
    let file = text_at(given, "file")?;
    let path = text_at(given, "path")?;
    let text = text_or_null_at(given, "text")?;
    Some(Command::Edit { path, file, text })
}

fn list(given: &mut Given) -> Option<Command>
    ensures { option_map (λ c. (c, members_view given.new.entries)) result ≡ lists (members_view given.old.entries) }
{
    let from = text_at(given, "from")?;
    Some(Command::List { from })
}

// The type may be left out.
fn doc_of(from: Text, path: Text, given: &mut Given) -> Option<Command>
    ensures { option_map (λ c. (c, members_view given.new.entries)) result ≡ docs_of from path (members_view given.old.entries) }
{
    if is_over(given) {
        return Some(Command::Doc {
            from,
            path,
            type_name: None,
        });
    }
    let name = text_at(given, "type")?;
    Some(Command::Doc {
        from,
        path,
        type_name: Some(name),
    })
}

fn doc(given: &mut Given) -> Option<Command>
    ensures { option_map (λ c. (c, members_view given.new.entries)) result ≡ docs (members_view given.old.entries) }
{
    let from = text_at(given, "from")?;
    let path = text_at(given, "path")?;
    doc_of(from, path, given)
}

fn complete(given: &mut Given) -> Option<Command>
    ensures { option_map (λ c. (c, members_view given.new.entries)) result ≡ places Command.Complete (members_view given.old.entries) }
{
    let file = text_at(given, "file")?;
    let offset = count_at(given, "offset")?;
    let path = text_at(given, "path")?;
    Some(Command::Complete { path, file, offset })
}

fn define(given: &mut Given) -> Option<Command>
    ensures { option_map (λ c. (c, members_view given.new.entries)) result ≡ places Command.Define (members_view given.old.entries) }
{
    let file = text_at(given, "file")?;
    let offset = count_at(given, "offset")?;
    let path = text_at(given, "path")?;
    Some(Command::Define { path, file, offset })
}

fn run(given: &mut Given) -> Option<Command>
    ensures { option_map (λ c. (c, members_view given.new.entries)) result ≡ runs (members_view given.old.entries) }
{
    let path = text_at(given, "path")?;
    let steps = steps_at(given, "steps")?;
    Some(Command::Run { path, steps })
}

// The command of a name by its members, or None where they are not its own.
fn command_of(name: &str, given: &mut Given) -> Result<Option<Command>, Rule>
    ensures { read_as result (members_view given.new.entries) ≡ reading_of name.now (members_view given.old.entries) }
{
    match name {
        "open" => Ok(open(given)),
        "edit" => Ok(edit(given)),
        "build" => Ok(Some(Command::Build)),
        "list" => Ok(list(given)),
        "doc" => Ok(doc(given)),
        "complete" => Ok(complete(given)),
        "define" => Ok(define(given)),
        "run" => Ok(run(given)),
        "close" => Ok(Some(Command::Close)),
        _ => Err(Rule::V3),
    }
}

// No members may be over.
fn finished(session: Option<u8>, command: Option<Command>, given: &Given) -> Step
    ensures { result ≡ finished session (option_map (λ c. (c, members_view given.now.entries)) command) }
{
    match command {
        Some(command) if is_over(given) => Step::Ask {
            request: Request { session, command },
        },
        _ => Step::Refuse {
            session,
            rule: Rule::V2,
        },
    }
}

fn named(session: Option<u8>, name: &str, mut given: Given) -> Step
    ensures { result ≡ known session (reading_of name.now (members_view given.entries)) }
{
    match command_of(name, &mut given) {
        Ok(command) => finished(session, command, &given),
        Err(_) => Step::Refuse {
            session,
            rule: Rule::V3,
        },
    }
}

fn asked(session: Option<u8>, mut given: Given) -> Step
    ensures { result ≡ asked session (members_view given.entries) }
{
    match taken(&mut given, "cmd") {
        Some(Value::String(name)) => named(session, name.as_str(), given),
        _ => Step::Refuse {
            session,
            rule: Rule::V2,
        },
    }
}

// The session that a value names.
fn session_in(value: Value) -> Option<u8>
    ensures { result ≡ as_session (view value) }
{
    match value.as_u64() {
        Some(number) if 1 <= number && number <= 32 => Some(number as u8),
        _ => None,
    }
}

// Where lines are numbered.
fn asked_by(mut given: Given) -> Step
    ensures { result ≡ asked_by (without (codes "s") (members_view given.entries)) (session_of (members_view given.entries)) }
{
    let Some(value) = taken(&mut given, "s") else {
        return Step::Refuse {
            session: None,
            rule: Rule::V2,
        };
    };
    match session_in(value) {
        Some(number) => asked(Some(number), given),
        None => Step::Refuse {
            session: None,
            rule: Rule::V2,
        },
    }
}

// The members of the object that a value is.
fn members_in(value: Value) -> Option<Given>
    ensures { option_map (λ m. members_view m.entries) result ≡ as_object (view value) }
{
    match value {
        Value::Object(members) => Some(members),
        _ => None,
    }
}

// The members of the object that a line is.
fn object_in(alloc: Global, line: &[u8]) -> Result<Option<Given>, AllocError>
    ensures { IfOk result (λ found. option_map (λ m. members_view m.entries) found ≡ object_of line.now) }
{
    match Value::from_slice(alloc, line) {
        Ok(value) => Ok(members_in(value)),
        Err(error) => {
            if error.is_memory() {
                Err(AllocError)
            } else {
                Ok(None)
            }
        }
    }
}

/// What a line asks that is not blank.
///
/// # Errors
///
/// `AllocError` where memory is wanting.
pub(crate) fn step_of(alloc: Global, numbered: bool, line: &[u8]) -> Result<Step, AllocError>
    ensures { IfOk result (λ step. step ≡ step_of numbered line.now) }
{
    match object_in(alloc, line)? {
        Some(given) if numbered => Ok(asked_by(given)),
        Some(given) => Ok(asked(None, given)),
        None => Ok(Step::Refuse {
            session: None,
            rule: Rule::V2,
        }),
    }
}
