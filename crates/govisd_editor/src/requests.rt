//! What messages ask.

use crate::answers::answer;
use crate::serving::settle;
use govisd_documents::{
    Disk, Phase, Session, can_watch, changed, closed, encoding_in, encoding_name, open_around,
    open_module, opened, watched_all,
};
use govisd_protocol::{
    ErrorCode, Stop, refuse_with, send_refusal, send_request, send_result, text_at,
};
use govisd_requests::legend;
use serde_json::{Map, Value, json};
use std::alloc::{AllocError, Global};
use std::io::Write;

/// What is answered, and no more is told of it.
const PLAIN: [&str; 6] = [
    "definitionProvider",
    "referencesProvider",
    "documentHighlightProvider",
    "documentSymbolProvider",
    "workspaceSymbolProvider",
    "hoverProvider",
];

/// The patterns of the files that are watched.
const WATCHED: [&str; 3] = ["**/*.go", "**/go.mod", "**/go.work"];

/// The name under which they are.
const WATCH_NAME: &str = "govisd.files";

// Puts a value that was made under a name.
fn put(
    alloc: Global,
    all: &mut Map<String, Value>,
    name: &str,
    made: Result<Value, AllocError>,
) -> Result<(), AllocError> {
    let Ok(value) = made else {
        return Err(AllocError);
    };
    let Ok(name) = String::from_str(alloc, name) else {
        return Err(AllocError);
    };
    match all.insert(name, value) {
        Ok(_) => Ok(()),
        Err(_) => Err(AllocError),
    }
}

// How texts that the editor has open are told.
fn text_options(alloc: Global) -> Result<Value, AllocError> {
    json!(in alloc; {"openClose": true, "change": 2u8, "save": {"includeText": false}})
}

// At which characters completions are asked for.
fn completion_options(alloc: Global) -> Result<Value, AllocError> {
    json!(in alloc; {"triggerCharacters": ["."], "resolveProvider": true})
}

// What the semantic tokens are numbers of.
fn token_options(alloc: Global) -> Result<Value, AllocError> {
    let legend = legend(alloc)?;
    json!(in alloc; {"legend": legend, "full": true})
}

// Adds what the server answers, and no more is told of it.
fn add_plain(alloc: Global, all: &mut Map<String, Value>) -> Result<(), AllocError> {
    for name in &PLAIN {
        put(alloc, all, *name, Ok(Value::Bool(true)))?;
    }
    Ok(())
}

// Adds what the server can do.
fn add_capabilities(session: &Session, all: &mut Map<String, Value>) -> Result<(), AllocError> {
    let alloc = session.alloc;
    let encoding = encoding_name(session.encoding);
    put(alloc, all, "positionEncoding", json!(in alloc; encoding))?;
    put(alloc, all, "textDocumentSync", text_options(alloc))?;
    add_plain(alloc, all)?;
    put(alloc, all, "completionProvider", completion_options(alloc))?;
    put(
        alloc,
        all,
        "codeActionProvider",
        json!(in alloc; {"codeActionKinds": ["quickfix"]}),
    )?;
    put(alloc, all, "semanticTokensProvider", token_options(alloc))?;
    put(
        alloc,
        all,
        "renameProvider",
        json!(in alloc; {"prepareProvider": true}),
    )?;
    put(
        alloc,
        all,
        "signatureHelpProvider",
        json!(in alloc; {"triggerCharacters": ["(", ","]}),
    )
}

// What the server can do, and what it is called.
fn capabilities(session: &Session) -> Result<Value, AllocError> {
    let alloc = session.alloc;
    let mut all = Map::new(alloc);
    if add_capabilities(session, &mut all).is_err() {
        return Err(AllocError);
    }
    let capabilities = Value::Object(all);
    json!(in alloc; {"capabilities": capabilities, "serverInfo": {"name": "govisd"}})
}

// Answers `initialize`.
fn initialize<D: Disk, W: Write>(
    disk: &D,
    writer: &mut W,
    session: &mut Session,
    id: &Value,
    params: &Value,
) -> Result<(), Stop> {
    if session.phase != Phase::Begun {
        return refuse(
            writer,
            session,
            id,
            ErrorCode::InvalidRequest,
            "initialize came before",
        );
    }
    session.encoding = encoding_in(params);
    session.can_watch = can_watch(params);
    open_module(disk, session, params)?;
    session.phase = Phase::Open;
    let result = capabilities(session)?;
    send_result(session.alloc, writer, id, result)
}

// Refuses a request.
fn refuse<W: Write>(
    writer: &mut W,
    session: &Session,
    id: &Value,
    code: ErrorCode,
    text: &str,
) -> Result<(), Stop> {
    let why = refuse_with(session.alloc, code, text)?;
    send_refusal(session.alloc, writer, id, &why)
}

// Answers a request that comes after `initialize` and before `shutdown`.
fn ask<W: Write>(
    writer: &mut W,
    session: &mut Session,
    id: &Value,
    method: &str,
    params: &Value,
) -> Result<(), Stop> {
    if method == "shutdown" {
        session.phase = Phase::Shut;
        return send_result(session.alloc, writer, id, Value::Null);
    }
    settle(writer, session)?;
    match answer(session, method, params)? {
        Ok(result) => send_result(session.alloc, writer, id, result),
        Err(why) => send_refusal(session.alloc, writer, id, &why),
    }
}

// Answers a request.
fn request<D: Disk, W: Write>(
    disk: &D,
    writer: &mut W,
    session: &mut Session,
    id: &Value,
    method: &str,
    params: &Value,
) -> Result<(), Stop> {
    if method == "initialize" {
        return initialize(disk, writer, session, id, params);
    }
    match session.phase {
        Phase::Begun => refuse(
            writer,
            session,
            id,
            ErrorCode::NotInitialized,
            "initialize has not come yet",
        ),
        Phase::Shut => refuse(
            writer,
            session,
            id,
            ErrorCode::InvalidRequest,
            "shutdown came before",
        ),
        Phase::Open => ask(writer, session, id, method, params),
    }
}

// Follows a notification that comes after `initialize` and before `shutdown`.
fn follow<D: Disk>(
    disk: &D,
    session: &mut Session,
    method: &str,
    params: &Value,
) -> Result<(), AllocError> {
    match method {
        "textDocument/didOpen" => {
            open_around(disk, session, params)?;
            opened(session, params)
        }
        "textDocument/didChange" => changed(session, params),
        "textDocument/didClose" => closed(disk, session, params),
        "workspace/didChangeWatchedFiles" => watched_all(disk, session, params),
        _ => Ok(()),
    }
}

// Follows a notification.
fn note<D: Disk, W: Write>(
    disk: &D,
    writer: &mut W,
    session: &mut Session,
    method: &str,
    params: &Value,
) -> Result<(), Stop> {
    if method == "exit" {
        return Err(Stop::Exit);
    }
    if session.phase != Phase::Open {
        return Ok(());
    }
    if method == "initialized" {
        return watch(writer, session);
    }
    follow(disk, session, method, params)?;
    Ok(())
}

// Files of a pattern, as they are watched.
fn watcher(alloc: Global, pattern: &str) -> Result<Value, AllocError> {
    json!(in alloc; {"globPattern": pattern})
}

// The files that are watched.
fn watchers(alloc: Global) -> Result<Value, AllocError> {
    let mut all = Vec::new(alloc);
    for pattern in &WATCHED {
        all.push(watcher(alloc, *pattern)?)?;
    }
    Ok(Value::Array(all))
}

// That changes of the files that are watched are to be told.
fn registration(alloc: Global) -> Result<Value, AllocError> {
    let options = watchers(alloc)?;
    json!(in alloc; {"registerOptions": {"watchers": options}, "id": WATCH_NAME, "method": "workspace/didChangeWatchedFiles"})
}

// Asks the editor to say where Go files of the folder and what names modules change, where it can be asked.
fn watch<W: Write>(writer: &mut W, session: &Session) -> Result<(), Stop> {
    if !session.can_watch {
        return Ok(());
    }
    let alloc = session.alloc;
    let registration = registration(alloc)?;
    let params = json!(in alloc; {"registrations": [registration]})?;
    send_request(
        alloc,
        writer,
        WATCH_NAME,
        "client/registerCapability",
        params,
    )
}

// Handles a message with a method.
fn called<D: Disk, W: Write>(
    disk: &D,
    writer: &mut W,
    session: &mut Session,
    message: &Value,
    method: &str,
) -> Result<(), Stop> {
    let none = Value::Null;
    let params = match message.get("params") {
        Some(params) => params,
        None => &none,
    };
    match message.get("id") {
        Some(id) => request(disk, writer, session, id, method, params),
        None => note(disk, writer, session, method, params),
    }
}

// Handles a message that is JSON: one with a method is a request or a notification, one without is an answer of the editor, which is passed over.
fn handle_value<D: Disk, W: Write>(
    disk: &D,
    writer: &mut W,
    session: &mut Session,
    message: &Value,
) -> Result<(), Stop> {
    if let Some(method) = text_at(message, "/method") {
        return called(disk, writer, session, message, method);
    }
    let is_answer = message.get("result").is_some() || message.get("error").is_some();
    if is_answer {
        return Ok(());
    }
    let none = Value::Null;
    let id = message.get("id").unwrap_or(&none);
    refuse(
        writer,
        session,
        id,
        ErrorCode::InvalidRequest,
        "this is no request",
    )
}

/// Handles a message.
///
/// # Errors
///
/// A [`Stop`] at `exit`, and where memory is wanting or the writer fails.
pub(crate) fn handle<D: Disk, W: Write>(
    disk: &D,
    writer: &mut W,
    session: &mut Session,
    message: &[u8],
) -> Result<(), Stop> {
    match Value::from_slice(session.alloc, message) {
        Ok(value) => handle_value(disk, writer, session, &value),
        Err(error) => {
            if error.is_memory() {
                return Err(Stop::Memory);
            }
            refuse(
                writer,
                session,
                &Value::Null,
                ErrorCode::Parse,
                "this is no JSON",
            )
        }
    }
}
