//! What a session is begun with, and what the server can do.
ghost use Rattle.std.specs.Prelude.{◌≡◌, IfOk, map, bytes_eq};
ghost use Rattle.std.specs.List.{list_any, list_all};
ghost use Rattle.std.specs.Option.{option_map};
ghost use Rattle.std.specs.Result.{result_ok};
ghost use Rattle.serde_json.specs.View.{view};
ghost use Rattle.lab_server.specs.Settings.{first_settings, options_in, options_of, profile_of, addresses_of, is_name, left_out, has_name, allowed_of, flag, shows_of, settings_of};
ghost use Rattle.lab_server.specs.Private.Seen.{settings_seen, options_seen};

use crate::edits::Missing;
use crate::members::values_of;
use crate::message::is_text;
use lab_documents::{Object, Shows};
use lc3_messages::Wish;
use lc3_table::Profile;
use serde_json::{Value, put};
use std::alloc::{AllocError, Global};

/// The names of warnings, of which a session may leave some out.
pub(crate) type Names = &'static [&'static str];

/// What a session was begun with.
#[derive(Drop)]
pub(crate) struct Settings {
    pub profile: Profile,
    /// The names of the warnings that are left out.
    pub allowed: Vec<&'static str>,
    /// Whether addresses are asked for, as hints.
    pub addresses: bool,
    pub shows: Shows,
}

impl Settings {
    /// Those of a session that isn't begun.
    pub fn new(alloc: Global) -> Settings
        ensures first { settings_seen result ≡ first_settings }
    {
        Settings {
            profile: Profile::A,
            allowed: Vec::new(alloc),
            addresses: false,
            shows: Shows {
                markdown: false,
                trees: false,
                snippets: false,
            },
        }
    }

    pub fn wish(&self) -> Wish<'_>
        ensures profile { result.profile ≡ self.now.profile }
        ensures allowed { result.allowed.now ≡ self.now.allowed.items }
    {
        Wish {
            profile: self.profile,
            allowed: self.allowed.as_slice(),
        }
    }
}

#[tactic(auto, unfolding(crate::specs::Settings::profile_of))]
fn profile_of(options: &Value) -> Result<Profile, Missing>
    ensures profile { result_ok result ≡ profile_of (view options.now) }
{
    let Some(profile) = options.get("profile") else {
        return Ok(Profile::A);
    };
    match profile.as_str() {
        Some("a") => Ok(Profile::A),
        Some("b") => Ok(Profile::B),
        _ => Err(Missing("profile")),
    }
}

#[tactic(auto, unfolding(crate::specs::Settings::addresses_of))]
fn addresses_of(options: &Value) -> Result<bool, Missing>
    ensures addresses { result_ok result ≡ addresses_of (view options.now) }
{
    match options.get("addresses") {
        None => Ok(false),
        Some(addresses) => addresses.as_bool().ok_or(Missing("addresses")),
    }
}

fn is_among(names: &[&str], word: &str) -> bool
    ensures value { result ≡ list_any (bytes_eq word.now) (map (λ name. name.now) names.now) }
{
    names.iter().any(|name| word == *name)
}

/// Whether a value is the name of a warning.
#[tactic(auto, unfolding(crate::specs::Settings::is_name))]
fn is_name(names: &[&str], value: &Value) -> bool
    ensures value { result ≡ is_name (map (λ name. name.now) names.now) (view value.now) }
{
    match value.as_str() {
        Some(word) => is_among(names, word),
        None => false,
    }
}

fn are_names(names: &[&str], values: &[Value]) -> bool
    ensures value { result
        ≡ list_all (is_name (map (λ name. name.now) names.now)) (map view values.now) }
{
    values.iter().all(|value| is_name(names, value))
}

/// The values that name warnings to leave out.
#[tactic(auto, unfolding(crate::specs::Settings::left_out))]
fn left_out<'a>(names: &[&str], options: &'a Value) -> Result<&'a [Value], Missing>
    ensures values { option_map (λ vs. map view vs.now) (result_ok result)
        ≡ left_out (map (λ name. name.now) names.now) (view options.now) }
{
    let Some(allow) = options.get("allow") else {
        return Ok(&[]);
    };
    match values_of(allow) {
        Some(values) if are_names(names, values) => Ok(values),
        _ => Err(Missing("allow")),
    }
}

/// Whether values have a name.
#[tactic(auto, unfolding(crate::specs::Settings::has_name))]
fn has_name(values: &[Value], name: &str) -> bool
    ensures value { result ≡ has_name name.now (map view values.now) }
{
    values.iter().any(|value| is_text(Some(value), name))
}

#[tactic(auto, unfolding(crate::specs::Settings::flag))]
fn flag(params: &Value, path: &str) -> bool
    ensures value { result ≡ flag path.now (view params.now) }
{
    match params.pointer(path).and_then(Value::as_bool) {
        Some(flag) => flag,
        None => false,
    }
}

#[tactic(auto, unfolding(crate::specs::Settings::shows_of))]
fn shows_of(params: &Value) -> Shows
    ensures shows { result ≡ shows_of (view params.now) }
{
    let format = params.pointer("/capabilities/textDocument/hover/contentFormat/0");
    Shows {
        markdown: is_text(format, "markdown"),
        trees: flag(
            params,
            "/capabilities/textDocument/documentSymbol/hierarchicalDocumentSymbolSupport",
        ),
        snippets: flag(
            params,
            "/capabilities/textDocument/completion/completionItem/snippetSupport",
        ),
    }
}

/// The options of a session.
#[derive(Clone, Copy)]
struct Options<'a> {
    profile: Profile,
    /// The names of the warnings to leave out.
    left_out: &'a [Value],
    addresses: bool,
}

#[tactic(auto, unfolding(crate::specs::Settings::options_in))]
fn options_in<'a>(names: &[&str], options: &'a Value) -> Result<Options<'a>, Missing>
    ensures options { option_map options_seen (result_ok result)
        ≡ options_in (map (λ name. name.now) names.now) (view options.now) }
{
    let profile = profile_of(options)?;
    let left_out = left_out(names, options)?;
    let addresses = addresses_of(options)?;
    Ok(Options {
        profile,
        left_out,
        addresses,
    })
}

/// The options of a session; `null` is as good as none.
#[tactic(auto, unfolding(crate::specs::Settings::options_of))]
fn options_of<'a>(names: &[&str], params: &'a Value) -> Result<Options<'a>, Missing>
    ensures options { option_map options_seen (result_ok result)
        ≡ options_of (map (λ name. name.now) names.now) (view params.now) }
{
    match params.get("initializationOptions") {
        Some(options) if options.is_object() => options_in(names, options),
        Some(options) if !options.is_null() => Err(Missing("initializationOptions")),
        _ => Ok(Options {
            profile: Profile::A,
            left_out: &[],
            addresses: false,
        }),
    }
}

/// The names of the warnings that values leave out.
fn allowed_of(
    alloc: Global,
    names: Names,
    left_out: &[Value],
) -> Result<Vec<&'static str>, AllocError>
    ensures names { IfOk result (λ allowed. map (λ name. name.now) allowed.items
        ≡ allowed_of (map (λ name. name.now) names.now) (map view left_out.now)) }
{
    let mut allowed = Vec::new(alloc);
    for name in names {
        if has_name(left_out, name) {
            allowed.push(*name)?;
        }
    }
    Ok(allowed)
}

/// The settings that a session is begun with.
pub(crate) fn settings_of(
    alloc: Global,
    names: Names,
    params: &Value,
) -> Result<Result<Settings, Missing>, AllocError>
    ensures settings { IfOk result (λ found. option_map settings_seen (result_ok found)
        ≡ settings_of (map (λ name. name.now) names.now) (view params.now)) }
{
    let options = match options_of(names, params) {
        Ok(options) => options,
        Err(missing) => return Ok(Err(missing)),
    };
    Ok(Ok(Settings {
        profile: options.profile,
        allowed: allowed_of(alloc, names, options.left_out)?,
        addresses: options.addresses,
        shows: shows_of(params),
    }))
}

/// What the server can do, but for hints.
const CAPABILITIES: &str =
    "{\"positionEncoding\":\"utf-16\",\"textDocumentSync\":{\"openClose\":true,\"change\":1},\
\"hoverProvider\":true,\"definitionProvider\":true,\"referencesProvider\":true,\"documentHighlightProvider\":true,\
\"documentSymbolProvider\":true,\"renameProvider\":{\"prepareProvider\":true},\
\"codeActionProvider\":{\"codeActionKinds\":[\"quickfix\"]},\"completionProvider\":{\"triggerCharacters\":[\".\"]}}";

/// What the server can do.
fn capabilities(alloc: Global, hints: bool) -> Result<Value, AllocError> {
    let mut can = Value::from_str(alloc, CAPABILITIES).map_err(|_| AllocError)?;
    if let Some(members) = can.as_object_mut()
        && hints
    {
        put(members, alloc, "inlayHintProvider", Value::from(true))?;
    }
    Ok(can)
}

/// What the server tells of itself.
pub(crate) fn introduction(alloc: Global, hints: bool) -> Result<Value, AllocError> {
    let server = Object::new(alloc).with_text("name", "lc3lab")?;
    let introduction = Object::new(alloc).with("serverInfo", server.value())?;
    let introduction = introduction.with("capabilities", capabilities(alloc, hints)?)?;
    Ok(introduction.value())
}
