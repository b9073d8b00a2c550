//! Answers to requests.

use govisd_diagnostics::{code_actions, prepare_rename, rename};
use govisd_documents::{AskedPlace, Session, asked_place};
use govisd_protocol::{ErrorCode, Refusal, position_at, refuse_with, text_at};
use govisd_requests::{
    completion, definition, document_symbols, highlights, hover, references, resolved,
    semantic_tokens, signature_help, workspace_symbols,
};
use serde_json::Value;
use std::alloc::AllocError;

// Answers what is asked of a place of a file.
fn answer_at(
    session: &Session,
    method: &str,
    params: &Value,
    at: &AskedPlace,
) -> Result<Value, AllocError> {
    match method {
        "textDocument/definition" => definition(session, at),
        "textDocument/references" => references(session, at, wants_declaration(params)),
        "textDocument/documentHighlight" => highlights(session, at),
        "textDocument/hover" => hover(session, at),
        "textDocument/completion" => completion(session, at),
        "textDocument/signatureHelp" => signature_help(session, at),
        _ => Ok(Value::Null),
    }
}

// Whether references are asked for with the declaration among them.
fn wants_declaration(params: &Value) -> bool {
    match params.pointer("/context/includeDeclaration") {
        Some(value) => value.as_bool().unwrap_or(false),
        None => false,
    }
}

// Whether a request of this method asks of a place of a file.
fn is_of_place(method: &str) -> bool {
    matches!(
        method,
        "textDocument/definition"
            | "textDocument/references"
            | "textDocument/documentHighlight"
            | "textDocument/hover"
            | "textDocument/completion"
            | "textDocument/signatureHelp"
            | "textDocument/prepareRename"
            | "textDocument/rename"
    )
}

// Whether the parameters name a place of a file.
fn names_place(params: &Value) -> bool {
    text_at(params, "/textDocument/uri").is_some() && position_at(params, "/position").is_some()
}

// Answers a request of a place of a file.
fn answer_place(
    session: &Session,
    method: &str,
    params: &Value,
) -> Result<Result<Value, Refusal>, AllocError> {
    if !names_place(params) {
        let why = refuse_with(
            session.alloc,
            ErrorCode::InvalidParams,
            "a text document and a position are wanted",
        )?;
        return Ok(Err(why));
    }
    match asked_place(session, params)? {
        Some(at) if method == "textDocument/rename" => rename(session, &at, params),
        Some(at) if method == "textDocument/prepareRename" => prepare_rename(session, &at),
        Some(at) => Ok(Ok(answer_at(session, method, params, &at)?)),
        None => Ok(Ok(Value::Null)),
    }
}

/// The answer to a request, or why there is none.
///
/// # Errors
///
/// `AllocError` where memory is wanting.
pub(crate) fn answer(
    session: &Session,
    method: &str,
    params: &Value,
) -> Result<Result<Value, Refusal>, AllocError> {
    if is_of_place(method) {
        return answer_place(session, method, params);
    }
    match method {
        "textDocument/documentSymbol" => Ok(Ok(document_symbols(session, params)?)),
        "textDocument/semanticTokens/full" => Ok(Ok(semantic_tokens(session, params)?)),
        "textDocument/codeAction" => Ok(Ok(code_actions(session, params)?)),
        "completionItem/resolve" => Ok(Ok(resolved(session, params)?)),
        "workspace/symbol" => Ok(Ok(workspace_symbols(session, params)?)),
        _ => Ok(Err(refuse_with(session.alloc, ErrorCode::MethodNotFound, method)?)),
    }
}
