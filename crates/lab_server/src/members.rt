//! Members of a message: each of its type, or none.
ghost use Rattle.std.specs.Prelude.{◌≡◌, is_some, map};
ghost use Rattle.std.specs.List.{list_all};
ghost use Rattle.std.specs.Option.{option_map};
ghost use Rattle.serde_json.specs.View.{view};
ghost use Rattle.lab_server.specs.Members.{member_at, text_at, integer_at, list_of, whole_text, last_text, changed_text};

use lab_documents::{Position, Range};
use serde_json::Value;

/// The member of an object that a value has as this member.
fn member_at<'a>(value: &'a Value, object: &str, name: &str) -> Option<&'a Value>
    ensures value { option_map (λ v. view v.now) result
        ≡ member_at object.now name.now (view value.now) }
{
    value.get(object)?.get(name)
}

/// The text of this name in an object of this name.
pub(crate) fn text_at<'a>(value: &'a Value, object: &str, name: &str) -> Option<&'a str>
    ensures value { option_map (λ s. s.now) result
        ≡ text_at object.now name.now (view value.now) }
{
    member_at(value, object, name)?.as_str()
}

/// The integer of this name in an object of this name.
pub(crate) fn integer_at(value: &Value, object: &str, name: &str) -> Option<i64>
    ensures value { result ≡ integer_at object.now name.now (view value.now) }
{
    member_at(value, object, name)?.as_i64()
}

/// A number of lines or of characters.
fn count_of(value: &Value) -> Option<usize> {
    usize::try_from(value.as_u64()?).ok()
}

/// The position that a value is.
fn position_of(value: &Value) -> Option<Position> {
    Some(Position {
        line: count_of(value.get("line")?)?,
        character: count_of(value.get("character")?)?,
    })
}

/// The position of a question.
pub(crate) fn position_in(params: &Value) -> Option<Position> {
    position_of(params.get("position")?)
}

/// The range of a question.
pub(crate) fn range_in(params: &Value) -> Option<Range> {
    let range = params.get("range")?;
    Some(Range {
        start: position_of(range.get("start")?)?,
        end: position_of(range.get("end")?)?,
    })
}

/// Whether a question about references asks for the definition too.
pub(crate) fn with_definition(params: &Value) -> Option<bool> {
    member_at(params, "context", "includeDeclaration")?.as_bool()
}

/// Whether a question about actions takes quick fixes.
pub(crate) fn takes_fixes(params: &Value) -> Option<bool> {
    let context = params.get("context")?.as_object()?;
    let Some(only) = context.get("only") else {
        return Some(true);
    };
    let mut takes = false;
    for kind in only.as_array()? {
        let kind = kind.as_str()?;
        takes = takes || kind == "quickfix" || kind.is_empty();
    }
    Some(takes)
}

/// The text of a change that has the whole text.
#[tactic(auto, unfolding(crate::specs::Members::whole_text))]
fn whole_text(change: &Value) -> Option<&str>
    ensures text { option_map (λ s. s.now) result ≡ whole_text (view change.now) }
{
    match change.get("range") {
        Some(_) => None,
        None => change.get("text")?.as_str(),
    }
}

/// The values of a list.
#[tactic(auto, using(crate::proofs::ValueLemmas::all_of_seen))]
pub(crate) fn values_of(value: &Value) -> Option<&[Value]>
    ensures values { option_map (λ vs. map view vs.now) result ≡ list_of (view value.now) }
{
    match value.as_array() {
        Some(values) => Some(values.as_slice()),
        None => None,
    }
}

fn is_whole(change: &Value) -> bool
    ensures value { result ≡ is_some (whole_text (view change.now)) }
{
    whole_text(change).is_some()
}

fn are_whole(changes: &[Value]) -> bool
    ensures value { result ≡ list_all (λ d. is_some (whole_text d)) (map view changes.now) }
{
    changes.iter().all(|change| is_whole(change))
}

fn last_text(changes: &[Value]) -> Option<Option<&str>>
    ensures text { option_map (option_map (λ s. s.now)) result
        ≡ last_text (map view changes.now) }
{
    if !are_whole(changes) {
        return None;
    }
    match changes.last() {
        Some(change) => Some(whole_text(change)),
        None => Some(None),
    }
}

/// The text that a document becomes by changes, if it changes: that of the last one. Each has the whole text.
#[tactic(auto, unfolding(crate::specs::Members::changed_text))]
pub(crate) fn changed_text(params: &Value) -> Option<Option<&str>>
    ensures text { option_map (option_map (λ s. s.now)) result ≡ changed_text (view params.now) }
{
    last_text(values_of(params.get("contentChanges")?)?)
}
