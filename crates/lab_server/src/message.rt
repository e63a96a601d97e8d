//! A message of JSON-RPC 2.0.
ghost use Rattle.std.specs.Prelude.{◌≡◌};
ghost use Rattle.std.specs.Option.{option_map};
ghost use Rattle.serde_json.specs.View.{view};
ghost use Rattle.lab_server.specs.Messages.{is_id, known_id, message_of, is_text, is_of_protocol, kind_of};
ghost use Rattle.lab_server.specs.Private.Seen.{message_seen};

use serde_json::Value;

/// A message, as what is read of it.
#[derive(Clone, Copy)]
pub(crate) enum Message<'a> {
    /// It is to be answered.
    Request { id: &'a Value, call: Call<'a> },
    /// It is not answered.
    Notification(Call<'a>),
    /// It answers something that nobody asked for.
    Answer,
    /// It is no message; its id, if it has one.
    Bad(Option<&'a Value>),
}

/// What a message asks for.
#[derive(Clone, Copy)]
pub(crate) struct Call<'a> {
    pub method: &'a str,
    pub params: Option<&'a Value>,
}

/// What a request does to a session.
#[derive(Clone, Copy, Debug, PartialEq, Eq)]
pub(crate) enum Kind {
    /// It begins it.
    Begin,
    /// It shuts it down.
    ShutDown,
    /// It asks something.
    Ask,
}

fn is_id(value: &Value) -> bool
    ensures value { result ≡ is_id (view value.now) }
{
    value.is_string() || value.is_i64()
}

/// Whether a value, if there is one, is this text.
pub(crate) fn is_text(value: Option<&Value>, text: &str) -> bool
    ensures value { result
        ≡ is_text (option_map (λ v. view v.now) value.entry) text.now }
{
    match value {
        Some(value) => match value.as_str() {
            Some(word) => word == text,
            None => false,
        },
        None => false,
    }
}

#[tactic(auto, unfolding(crate::specs::Messages::is_of_protocol))]
fn is_of_protocol(value: &Value) -> bool
    ensures value { result ≡ is_of_protocol (view value.now) }
{
    is_text(value.get("jsonrpc"), "2.0")
}

fn known_id(id: Option<&Value>) -> Option<&Value>
    ensures id { option_map (λ v. view v.now) result
        ≡ known_id (option_map (λ v. view v.now) id.entry) }
{
    match id {
        Some(id) if is_id(id) => Some(id),
        _ => None,
    }
}

/// What a value is as a message.
#[tactic(auto, unfolding(crate::specs::Messages::message_of))]
pub(crate) fn message_of(value: &Value) -> Message<'_>
    ensures message { message_seen result ≡ message_of (view value.now) }
{
    let id = value.get("id");
    let known = known_id(id);
    if !is_of_protocol(value) || id.is_some() && known.is_none() {
        return Message::Bad(known);
    }
    let Some(method) = value.get("method") else {
        if value.get("result").is_some() || value.get("error").is_some() {
            return Message::Answer;
        }
        return Message::Bad(known);
    };
    let Some(method) = method.as_str() else {
        return Message::Bad(known);
    };
    let params = value.get("params");
    let call = Call { method, params };
    match known {
        Some(id) => Message::Request { id, call },
        None => Message::Notification(call),
    }
}

/// What a request of this method does.
#[tactic(auto, unfolding(crate::specs::Messages::kind_of))]
pub(crate) fn kind_of(method: &str) -> Kind
    ensures kind { result ≡ kind_of method.now }
{
    if method == "initialize" {
        Kind::Begin
    } else if method == "shutdown" {
        Kind::ShutDown
    } else {
        Kind::Ask
    }
}
