//! What a notification does to the documents.
ghost use Rattle.std.specs.Prelude.{◌≡◌, codes};
ghost use Rattle.std.specs.Option.{option_map};
ghost use Rattle.std.specs.Result.{result_ok};
ghost use Rattle.serde_json.specs.View.{view};
ghost use Rattle.lab_server.specs.Members.{object_of, text_at, integer_at};
ghost use Rattle.lab_server.specs.Edits.{opened, changed, closed, edit_of};
ghost use Rattle.lab_server.specs.Private.Seen.{edit_seen};

use crate::members::{changed_text, integer_at, text_at};
use crate::message::Call;
use serde_json::Value;

/// This member of a message is missing, or has another type.
#[derive(Clone, Copy)]
pub(crate) struct Missing(pub &'static str);

/// What a notification does to the documents.
#[derive(Clone, Copy)]
pub(crate) enum Edit<'a> {
    Open {
        uri: &'a str,
        version: i64,
        text: &'a str,
    },
    /// The document becomes this text, if there is one.
    Change {
        uri: &'a str,
        version: i64,
        text: Option<&'a str>,
    },
    Close {
        uri: &'a str,
    },
    Nothing,
}

const DOCUMENT: &str = "textDocument";

/// The parameters of a message, which are an object.
pub(crate) fn params_of<'a>(call: Call<'a>) -> Result<&'a Value, Missing>
    ensures params { option_map (λ v. view v.now) (result_ok result)
        ≡ object_of (option_map (λ v. view v.now) call.entry.params) }
{
    match call.params {
        Some(params) if params.is_object() => Ok(params),
        _ => Err(Missing("params")),
    }
}

/// The name of the document that a message is about.
pub(crate) fn uri_of(params: &Value) -> Result<&str, Missing>
    ensures uri { option_map (λ s. s.now) (result_ok result)
        ≡ text_at (codes "textDocument") (codes "uri") (view params.now) }
{
    text_at(params, DOCUMENT, "uri").ok_or(Missing(DOCUMENT))
}

fn version_of(params: &Value) -> Result<i64, Missing>
    ensures version { result_ok result
        ≡ integer_at (codes "textDocument") (codes "version") (view params.now) }
{
    integer_at(params, DOCUMENT, "version").ok_or(Missing("textDocument.version"))
}

#[tactic(auto, unfolding(crate::specs::Edits::opened))]
fn opening_of<'a>(call: Call<'a>) -> Result<Edit<'a>, Missing>
    ensures edit { edit_seen result ≡ opened (option_map (λ v. view v.now) call.entry.params) }
{
    let params = params_of(call)?;
    let uri = uri_of(params)?;
    let version = version_of(params)?;
    let text = text_at(params, DOCUMENT, "text").ok_or(Missing("textDocument.text"))?;
    Ok(Edit::Open { uri, version, text })
}

#[tactic(auto, unfolding(crate::specs::Edits::changed))]
fn change_of<'a>(call: Call<'a>) -> Result<Edit<'a>, Missing>
    ensures edit { edit_seen result ≡ changed (option_map (λ v. view v.now) call.entry.params) }
{
    let params = params_of(call)?;
    let uri = uri_of(params)?;
    let version = version_of(params)?;
    let text = changed_text(params).ok_or(Missing("contentChanges"))?;
    Ok(Edit::Change { uri, version, text })
}

#[tactic(auto, unfolding(crate::specs::Edits::closed))]
fn closing_of<'a>(call: Call<'a>) -> Result<Edit<'a>, Missing>
    ensures edit { edit_seen result ≡ closed (option_map (λ v. view v.now) call.entry.params) }
{
    let uri = uri_of(params_of(call)?)?;
    Ok(Edit::Close { uri })
}

/// What a notification does to the documents.
#[tactic(auto, unfolding(crate::specs::Edits::edit_of))]
pub(crate) fn edit_of<'a>(call: Call<'a>) -> Result<Edit<'a>, Missing>
    ensures edit { edit_seen result ≡ edit_of call.entry.method.now
        (option_map (λ v. view v.now) call.entry.params) }
{
    match call.method {
        "textDocument/didOpen" => opening_of(call),
        "textDocument/didChange" => change_of(call),
        "textDocument/didClose" => closing_of(call),
        _ => Ok(Edit::Nothing),
    }
}
