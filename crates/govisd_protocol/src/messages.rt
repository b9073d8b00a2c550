//! Messages that go out.

use go_lsp_core::frames::{SendFault, write_message};
use serde_json::{Value, json};
use std::alloc::{AllocError, Global};
use std::io::Write;

/// Why serving stops.
#[derive(Clone, Copy, Debug, PartialEq, Eq)]
pub enum Stop {
    /// The editor said `exit`.
    Exit,
    /// The writer failed.
    WriteFault,
    /// Memory ran out.
    Memory,
}

impl From<AllocError> for Stop {
    fn from(_error: AllocError) -> Stop {
        Stop::Memory
    }
}

/// The codes of JSON-RPC and of the protocol.
#[derive(Clone, Copy)]
pub enum ErrorCode {
    /// The message is no JSON.
    Parse,
    /// The message is no request, or comes after `shutdown`.
    InvalidRequest,
    /// There is no such method.
    MethodNotFound,
    /// The parameters do not fit the method.
    InvalidParams,
    /// The request comes before `initialize`.
    NotInitialized,
    /// The request is refused.
    RequestFailed,
}

impl ErrorCode {
    // The number of the code.
    fn number(self) -> i64 {
        match self {
            ErrorCode::Parse => -32700,
            ErrorCode::InvalidRequest => -32600,
            ErrorCode::MethodNotFound => -32601,
            ErrorCode::InvalidParams => -32602,
            ErrorCode::NotInitialized => -32002,
            ErrorCode::RequestFailed => -32803,
        }
    }
}

/// Why a request has no result: its code, and what is said of it.
#[derive(Drop)]
pub struct Refusal {
    pub code: ErrorCode,
    pub text: String,
}

/// Why a request has no result.
pub fn refuse_with(alloc: Global, code: ErrorCode, text: &str) -> Result<Refusal, AllocError> {
    let text = String::from_str(alloc, text)?;
    Ok(Refusal { code, text })
}

// Sends a message that was made.
fn send<W: Write>(
    alloc: Global,
    writer: &mut W,
    message: Result<Value, AllocError>,
) -> Result<(), Stop> {
    let Ok(message) = message else {
        return Err(Stop::Memory);
    };
    let Ok(body) = message.to_vec(alloc) else {
        return Err(Stop::Memory);
    };
    match write_message(alloc, writer, body.as_slice()) {
        Ok(()) => Ok(()),
        Err(SendFault::Memory) => Err(Stop::Memory),
        Err(SendFault::Writer(_)) => Err(Stop::WriteFault),
    }
}

/// Sends the result of a request.
pub fn send_result<W: Write>(
    alloc: Global,
    writer: &mut W,
    id: &Value,
    found: Value,
) -> Result<(), Stop> {
    let message = json!(in alloc; {"jsonrpc": "2.0", "id": id, "result": found});
    send(alloc, writer, message)
}

/// Sends that a request has no result, and why.
pub fn send_refusal<W: Write>(
    alloc: Global,
    writer: &mut W,
    id: &Value,
    refusal: &Refusal,
) -> Result<(), Stop> {
    let code = refusal.code.number();
    let text = refusal.text.as_str();
    let message =
        json!(in alloc; {"jsonrpc": "2.0", "id": id, "error": {"code": code, "message": text}});
    send(alloc, writer, message)
}

/// Sends a notification.
pub fn send_note<W: Write>(
    alloc: Global,
    writer: &mut W,
    method: &str,
    params: Value,
) -> Result<(), Stop> {
    let message = json!(in alloc; {"jsonrpc": "2.0", "method": method, "params": params});
    send(alloc, writer, message)
}

/// Sends a request to the editor, whose answer is passed over.
pub fn send_request<W: Write>(
    alloc: Global,
    writer: &mut W,
    id: &str,
    method: &str,
    params: Value,
) -> Result<(), Stop> {
    let message = json!(in alloc; {"jsonrpc": "2.0", "id": id, "method": method, "params": params});
    send(alloc, writer, message)
}
