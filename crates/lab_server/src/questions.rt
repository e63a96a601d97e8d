//! Questions about documents, read of what a message asks for.
ghost use Rattle.std.specs.Prelude.{◌≡◌, IfOk, Some};
ghost use Rattle.std.specs.Option.{option_map};
ghost use Rattle.serde_json.specs.View.{view};
ghost use Rattle.lab_server.specs.Edits.{uri_asked};
ghost use Rattle.lab_server.specs.Questions.{is_question};

use crate::edits::{Missing, params_of, uri_of};
use crate::members::{position_in, range_in, takes_fixes, with_definition};
use crate::message::Call;
use lab_documents::{Question, Range};
use serde_json::Value;

/// What is asked about a document.
#[derive(Clone, Copy)]
pub(crate) enum Query<'a> {
    Question(Question<'a>),
    /// The quick fixes in a range, or none where others are asked for.
    Fixes(Range, bool),
}

/// Whether a method asks about a document; hints may be asked for or not.
#[tactic(auto, unfolding(crate::specs::Questions::is_question))]
pub(crate) fn is_question(method: &str, hints: bool) -> bool
    ensures value { result ≡ is_question hints method.now }
{
    method == "textDocument/hover"
        || method == "textDocument/definition"
        || method == "textDocument/references"
        || method == "textDocument/documentHighlight"
        || method == "textDocument/documentSymbol"
        || method == "textDocument/prepareRename"
        || method == "textDocument/rename"
        || method == "textDocument/completion"
        || method == "textDocument/codeAction"
        || method == "textDocument/inlayHint" && hints
}

fn query_in_range(method: &str, params: &Value) -> Result<Query<'static>, Missing> {
    let range = range_in(params).ok_or(Missing("range"))?;
    if method == "textDocument/inlayHint" {
        return Ok(Query::Question(Question::Hints(range)));
    }
    let takes = takes_fixes(params).ok_or(Missing("context"))?;
    Ok(Query::Fixes(range, takes))
}

fn question_at<'a>(method: &str, params: &'a Value) -> Result<Question<'a>, Missing> {
    let position = position_in(params).ok_or(Missing("position"))?;
    Ok(match method {
        "textDocument/hover" => Question::Hover(position),
        "textDocument/definition" => Question::Definition(position),
        "textDocument/references" => {
            let with = with_definition(params).ok_or(Missing("context"))?;
            Question::References(position, with)
        }
        "textDocument/documentHighlight" => Question::Highlights(position),
        "textDocument/prepareRename" => Question::PrepareRename(position),
        "textDocument/rename" => {
            let name = params.get("newName").and_then(Value::as_str);
            Question::Rename(position, name.ok_or(Missing("newName"))?)
        }
        _ => Question::Completion(position),
    })
}

/// The document and the question of a request.
pub(crate) fn query_of<'a>(call: Call<'a>) -> Result<(&'a str, Query<'a>), Missing>
    ensures uri { IfOk result (λ asked. Some asked.0.now
        ≡ uri_asked (option_map (λ v. view v.now) call.entry.params)) }
{
    let params = params_of(call)?;
    let uri = uri_of(params)?;
    let query = match call.method {
        "textDocument/codeAction" | "textDocument/inlayHint" => query_in_range(
            call.method,
            params,
        )?,
        "textDocument/documentSymbol" => Query::Question(Question::Symbols),
        _ => Query::Question(question_at(call.method, params)?),
    };
    Ok((uri, query))
}
