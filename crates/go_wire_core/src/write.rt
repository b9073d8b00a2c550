//! The lines of replies.
ghost use Rattle.std.specs.Prelude.{◌≡◌, ◌++◌, ◌∷◌, [], map, IfOk, codes, string_bytes};
ghost use Rattle.serde_json.specs.Data.{array, member, no_members, object, string};
ghost use Rattle.serde_json.specs.View.{view};
ghost use Rattle.go_text_core.specs.Rules.{rule_number};
ghost use Rattle.go_wire_core.specs.Replies.{built_data, completed_data, defined_data, done_data, entry_data, fault_data, line_data, line_of, list, listed_data, opened_data, place_text, ran_data, reply_data, session_members, symbol_data, texts, described_data};

use crate::reply::{FaultPlace, PackageEntry, RunEnd, Symbol, WireReply};
use crate::text::Text;
use go_text_core::{Name, Rule};
use serde_json::{Map, Value, json};
use std::alloc::{AllocError, Global};

// Texts as an array.
fn texts(alloc: Global, all: &[Text]) -> Result<Value, AllocError>
    ensures { IfOk result (λ v. view v ≡ texts all.now) }
{
    let mut list = Vec::new(alloc);
    for text in all {
        list.push(Value::try_from_str(alloc, text.as_str())?)?;
    }
    Ok(Value::Array(list))
}

// Names as an array.
fn names(alloc: Global, all: &[Name]) -> Result<Value, AllocError>
    ensures { IfOk result (λ v. view v ≡ texts all.now) }
{
    let mut list = Vec::new(alloc);
    for name in all {
        list.push(Value::try_from_str(alloc, name.as_str())?)?;
    }
    Ok(Value::Array(list))
}

// Where a fault stands, as PATH/FILE:OFFSET.
fn place_of(alloc: Global, fault: &FaultPlace) -> Result<String, AllocError>
    ensures { IfOk result (λ s. string_bytes s ≡ place_text fault.now) }
{
    let mut place = String::from_str(alloc, fault.path.as_str())?;
    place.push_str("/")?;
    place.push_str(fault.file.as_str())?;
    place.push_str(":")?;
    let offset = fault.offset.to_string(alloc)?;
    place.push_str(offset.as_str())?;
    Ok(place)
}

fn fault_value(alloc: Global, fault: &FaultPlace) -> Result<Value, AllocError>
    ensures { IfOk result (λ v. view v ≡ fault_data fault.now) }
{
    let place = place_of(alloc, fault)?;
    json!(in alloc; {"at": place, "rule": fault.rule.number()})
}

fn entry_value(alloc: Global, entry: &PackageEntry) -> Result<Value, AllocError>
    ensures { IfOk result (λ v. view v ≡ entry_data entry.now) }
{
    let deps = texts(alloc, &entry.deps)?;
    let files = texts(alloc, &entry.files)?;
    let imports = texts(alloc, &entry.imports)?;
    json!(in alloc; {
        "Deps": deps,
        "GoFiles": files,
        "ImportPath": entry.path.as_str(),
        "Imports": imports,
        "Name": entry.name.as_str()
    })
}

fn symbol_value(alloc: Global, symbol: &Symbol) -> Result<Value, AllocError>
    ensures { IfOk result (λ v. view v ≡ symbol_data symbol.now) }
{
    let doc = symbol.doc.as_str();
    let kind = symbol.kind.word();
    let name = symbol.name.as_str();
    match &symbol.through {
        None => json!(in alloc; {"doc": doc, "kind": kind, "name": name}),
        Some(fields) => {
            let path = names(alloc, fields)?;
            json!(in alloc; {"doc": doc, "kind": kind, "name": name, "path": path})
        }
    }
}

fn faults(alloc: Global, all: &[FaultPlace]) -> Result<Value, AllocError>
    ensures { IfOk result (λ v. view v ≡ list fault_data all.now) }
{
    let mut list = Vec::new(alloc);
    for fault in all {
        list.push(fault_value(alloc, fault)?)?;
    }
    Ok(Value::Array(list))
}

fn entries(alloc: Global, all: &[PackageEntry]) -> Result<Value, AllocError>
    ensures { IfOk result (λ v. view v ≡ list entry_data all.now) }
{
    let mut list = Vec::new(alloc);
    for entry in all {
        list.push(entry_value(alloc, entry)?)?;
    }
    Ok(Value::Array(list))
}

fn symbols(alloc: Global, all: &[Symbol]) -> Result<Value, AllocError>
    ensures { IfOk result (λ v. view v ≡ list symbol_data all.now) }
{
    let mut list = Vec::new(alloc);
    for symbol in all {
        list.push(symbol_value(alloc, symbol)?)?;
    }
    Ok(Value::Array(list))
}

fn opened(alloc: Global, path: &str) -> Result<Value, AllocError>
    ensures { IfOk result (λ v. view v ≡ opened_data path.now) }
{
    json!(in alloc; {"module": path})
}

fn done(alloc: Global) -> Value
    ensures { view result ≡ done_data }
{
    Value::Object(Map::new(alloc))
}

fn built(alloc: Global, batch: u64, all: &[FaultPlace]) -> Result<Value, AllocError>
    ensures { IfOk result (λ v. view v ≡ built_data batch all.now) }
{
    let faults = faults(alloc, all)?;
    json!(in alloc; {"batch": batch, "faults": faults})
}

fn listed(
    alloc: Global,
    batch: u64,
    own: &PackageEntry,
    all: &[PackageEntry],
) -> Result<Value, AllocError>
    ensures { IfOk result (λ v. view v ≡ listed_data batch own.now all.now) }
{
    let own = entry_value(alloc, own)?;
    let importable = entries(alloc, all)?;
    json!(in alloc; {"batch": batch, "importable": importable, "self": own})
}

fn described(
    alloc: Global,
    batch: u64,
    name: &str,
    path: &str,
    all: &[Symbol],
) -> Result<Value, AllocError>
    ensures { IfOk result (λ v. view v ≡ described_data batch name.now path.now all.now) }
{
    let symbols = symbols(alloc, all)?;
    json!(in alloc; {"batch": batch, "name": name, "path": path, "symbols": symbols})
}

fn completed(alloc: Global, batch: u64, all: &[Name]) -> Result<Value, AllocError>
    ensures { IfOk result (λ v. view v ≡ completed_data batch all.now) }
{
    let names = names(alloc, all)?;
    json!(in alloc; {"batch": batch, "names": names})
}

fn defined(alloc: Global, batch: u64, declaration: &str) -> Result<Value, AllocError>
    ensures { IfOk result (λ v. view v ≡ defined_data batch declaration.now) }
{
    json!(in alloc; {"batch": batch, "decl": declaration})
}

fn ran(alloc: Global, batch: u64, end: RunEnd, output: &str) -> Result<Value, AllocError>
    ensures { IfOk result (λ v. view v ≡ ran_data batch end output.now) }
{
    json!(in alloc; {"batch": batch, "end": end.word(), "output": output})
}

fn reply_value(alloc: Global, reply: &WireReply) -> Result<Value, AllocError>
    ensures { IfOk result (λ v. view v ≡ reply_data reply.now) }
{
    match reply {
        WireReply::Opened { module } => opened(alloc, module.as_str()),
        WireReply::Done => Ok(done(alloc)),
        WireReply::Built { batch, faults } => built(alloc, *batch, faults),
        WireReply::Listed {
            batch,
            own,
            importable,
        } => listed(alloc, *batch, own, importable),
        WireReply::Described {
            batch,
            name,
            path,
            symbols,
        } => described(alloc, *batch, name.as_str(), path.as_str(), symbols),
        WireReply::Completed { batch, names } => completed(alloc, *batch, names),
        WireReply::Defined { batch, declaration } => {
            defined(alloc, *batch, declaration.as_str())
        }
        WireReply::Ran { batch, end, output } => ran(alloc, *batch, *end, output.as_str()),
        WireReply::Refused { rule } => Value::try_from_str(alloc, rule.number()),
    }
}

// The object of an answer.
fn accepted(alloc: Global, session: Option<u8>, answer: Value) -> Result<Value, AllocError>
    ensures { IfOk result (λ v. view v ≡ object (member (codes "ok") (view answer) (session_members session))) }
{
    match session {
        Some(number) => json!(in alloc; {"ok": answer, "s": number}),
        None => json!(in alloc; {"ok": answer}),
    }
}

// The object of a refusal.
fn refused(alloc: Global, session: Option<u8>, answer: Value) -> Result<Value, AllocError>
    ensures { IfOk result (λ v. view v ≡ object (member (codes "err") (view answer) (session_members session))) }
{
    match session {
        Some(number) => json!(in alloc; {"err": answer, "s": number}),
        None => json!(in alloc; {"err": answer}),
    }
}

fn line_value(alloc: Global, session: Option<u8>, reply: &WireReply) -> Result<Value, AllocError>
    ensures { IfOk result (λ v. view v ≡ line_data session reply.now) }
{
    let answer = reply_value(alloc, reply)?;
    match reply {
        WireReply::Refused { rule: _ } => refused(alloc, session, answer),
        _ => accepted(alloc, session, answer),
    }
}

/// The line of a reply, with the number of the session where the request had one.
///
/// # Errors
///
/// `AllocError` where memory is wanting.
pub(crate) fn line_of(
    alloc: Global,
    session: Option<u8>,
    reply: &WireReply,
) -> Result<Vec<u8>, AllocError>
    ensures { IfOk result (λ line. line.items ≡ line_of session reply.now) }
{
    let value = line_value(alloc, session, reply)?;
    let mut line = value.to_vec(alloc)?;
    line.push(b'\n')?;
    Ok(line)
}
