//! What the server sends: answers, errors, and notifications.
ghost use Rattle.std.specs.Prelude.{◌≡◌, IfOk};
ghost use Rattle.std.specs.Option.{option_map};
ghost use Rattle.serde_json.specs.View.{view};
ghost use Rattle.lab_server.specs.Replies.{answer_data, notice_data, published_data, cleared_data, or_null, IsAnswer, IsError, IsLog};

use lab_documents::Object;
use serde_json::{Value, json};
use std::alloc::{AllocError, Global};

/// The protocol's numbers of errors.
pub(crate) const NO_JSON: i64 = -32_700;

pub(crate) const NO_REQUEST: i64 = -32_600;

pub(crate) const NO_METHOD: i64 = -32_601;

pub(crate) const BAD_PARAMS: i64 = -32_602;

pub(crate) const NOT_INITIALIZED: i64 = -32_002;

pub(crate) const FAILED: i64 = -32_803;

const PROTOCOL: &str = "2.0";

/// The answer to the request of this id.
pub(crate) fn answer(alloc: Global, id: &Value, told: Value) -> Result<Value, AllocError>
    ensures value { IfOk result (λ v. view v ≡ answer_data (view id.now) (view told)) }
    ensures answer { IfOk result (λ v. IsAnswer (view id.now) (view v)) }
{
    Ok(
        Object::new(alloc)
            .with("result", told)?
            .with_text("jsonrpc", PROTOCOL)?
            .with("id", id.clone()?)?
            .value(),
    )
}

fn id_value(id: Option<&Value>) -> Result<Value, AllocError>
    ensures id { IfOk result (λ v. view v ≡ or_null (option_map (λ v. view v.now) id.entry)) }
{
    match id {
        Some(id) => id.clone(),
        None => Ok(Value::Null),
    }
}

/// That the request of this id, if it has one, is refused.
pub(crate) fn error(
    alloc: Global,
    id: Option<&Value>,
    code: i64,
    text: &str,
) -> Result<Value, AllocError>
    ensures error { IfOk result (λ v. IsError
        (or_null (option_map (λ v. view v.now) id.entry)) code (view v)) }
{
    let error = Object::new(alloc)
        .with("code", Value::from(code))?
        .with_text("message", text)?;
    let reply = Object::new(alloc).with("error", error.value())?;
    let reply = reply.with_text("jsonrpc", PROTOCOL)?;
    Ok(reply.with("id", id_value(id)?)?.value())
}

fn notice(alloc: Global, method: &str, params: Value) -> Result<Value, AllocError>
    ensures notice { IfOk result (λ v. view v ≡ notice_data method.now (view params)) }
{
    Ok(
        Object::new(alloc)
            .with("params", params)?
            .with_text("jsonrpc", PROTOCOL)?
            .with_text("method", method)?
            .value(),
    )
}

/// A line for the editor's log, about a notification.
pub(crate) fn log(alloc: Global, method: &str, text: &str) -> Result<Value, AllocError>
    ensures log { IfOk result (λ v. IsLog (view v)) }
{
    let line = format!(in alloc; "{method}: {text}")?;
    let params = Object::new(alloc)
        .with_text("message", &line)?
        .with("type", Value::from(1u8))?;
    notice(alloc, "window/logMessage", params.value())
}

/// What is said of a document.
pub(crate) fn published(
    alloc: Global,
    uri: &str,
    version: i64,
    diagnostics: Value,
) -> Result<Value, AllocError>
    ensures published { IfOk result (λ v. view v
        ≡ published_data uri.now version (view diagnostics)) }
{
    let params = Object::new(alloc)
        .with("diagnostics", diagnostics)?
        .with_text("uri", uri)?
        .with("version", Value::from(version))?;
    notice(alloc, "textDocument/publishDiagnostics", params.value())
}

/// That nothing is said of a document any more.
pub(crate) fn cleared(alloc: Global, uri: &str) -> Result<Value, AllocError>
    ensures cleared { IfOk result (λ v. view v ≡ cleared_data uri.now) }
{
    let params = json!(in alloc; {"uri": uri, "diagnostics": []})?;
    notice(alloc, "textDocument/publishDiagnostics", params)
}
