//! A session: its stage, its settings and its documents, and what each message does to them.
ghost use Rattle.std.specs.Prelude.{◌≡◌, IfOk, OnErr, map, Some, None, nat_lt, length};
ghost use Rattle.std.specs.Option.{option_map};
ghost use Rattle.serde_json.specs.View.{view};
ghost use Rattle.lab_server.specs.Messages.{message_of};
ghost use Rattle.lab_server.specs.Members.{object_of};
ghost use Rattle.lab_server.specs.Documents.{text_of};
ghost use Rattle.lab_server.specs.Questions.{is_question};
ghost use Rattle.lab_server.specs.Replies.{IsLog, IsError};
ghost use Rattle.lab_server.specs.Sessions.{first, Begins, AsksOf, Asks, Answers, IsSaidOf, Publishes, Puts, Changes, Closes, NotesAt, Leads, GivesUp, ends, bad_params, document_limit};
ghost use Rattle.lab_server.specs.Turns.{is_over};
ghost use Rattle.lab_server.specs.Private.Seen.{message_seen, session_of};

use crate::documents::Documents;
use crate::edits::{Edit, Missing, edit_of, params_of};
use crate::message::{Call, Kind, Message, kind_of, message_of};
use crate::questions::{Query, is_question, query_of};
use crate::replies::{
    BAD_PARAMS, FAILED, NO_METHOD, NO_REQUEST, NOT_INITIALIZED, answer, cleared, error, log,
    published,
};
use crate::settings::{Names, Settings, introduction, settings_of};
use lab_documents::{Answer, Document, answer_to, diagnostics, fixes};
use serde_json::Value;
use std::alloc::{AllocError, Global};

/// The most bytes of a document about which questions are answered.
const DOCUMENT_LIMIT: usize = 4_000_000;

/// How far a session is.
#[derive(Clone, Copy, Debug, PartialEq, Eq)]
pub(crate) enum Stage {
    /// It isn't begun.
    Fresh,
    /// Questions are answered.
    Ready,
    /// It is shut down.
    Over,
}

/// A session with an editor.
#[derive(Drop)]
pub(crate) struct Session {
    names: Names,
    stage: Stage,
    settings: Settings,
    documents: Documents,
}

/// Whether a message ends the session.
pub(crate) fn is_exit(value: &Value) -> bool
    ensures value { result ≡ ends (message_of (view value.now)) }
{
    match message_of(value) {
        Message::Notification(call) => call.method == "exit",
        _ => false,
    }
}

/// That a member of the parameters is missing, or has another type.
fn missing_text(alloc: Global, missing: Missing) -> Result<String, AllocError> {
    let name = missing.0;
    format!(in alloc; "bad params: {name}")
}

fn bad_params(alloc: Global, id: &Value, missing: Missing) -> Result<Value, AllocError>
    ensures error { IfOk result (λ r. IsError (view id.now) bad_params (view r)) }
{
    error(alloc, Some(id), BAD_PARAMS, &missing_text(alloc, missing)?)
}

/// What is said of a document that is too large.
const TOO_LARGE: &str =
    "[{\"code\":\"TooLarge\",\"message\":\"the source has over 4,000,000 bytes\",\
\"range\":{\"end\":{\"character\":0,\"line\":0},\"start\":{\"character\":0,\"line\":0}},\"severity\":1,\
\"source\":\"lc3lab\"}]";

fn too_large(alloc: Global) -> Result<Value, AllocError> {
    Value::from_str(alloc, TOO_LARGE).map_err(|_| AllocError)
}

fn not_open(alloc: Global, method: &str, uri: &str) -> Result<Value, AllocError>
    ensures log { IfOk result (λ r. IsLog (view r)) }
{
    log(alloc, method, &format!(in alloc; "not open: {uri}")?)
}

impl Session {
    /// A session that isn't begun; it may leave out warnings of these names.
    pub fn new(alloc: Global, names: Names) -> Session
        ensures first { session_of result ≡ first (map (λ name. name.now) names.now) }
    {
        Session {
            names,
            stage: Stage::Fresh,
            settings: Settings::new(alloc),
            documents: Documents::new(alloc),
        }
    }

    pub fn is_over(&self) -> bool
        ensures value { result ≡ is_over self.now.stage }
    {
        self.stage == Stage::Over
    }

    /// What is sent for a message, if anything is. If memory is refused, the session stays as it is.
    pub fn take(&mut self, alloc: Global, value: &Value) -> Result<Option<Value>, AllocError>
        ensures leads { IfOk result (λ sent. Leads (message_of (view value.now))
            (session_of self.old) (option_map view sent) (session_of self.new)) }
        ensures kept { OnErr result (session_of self.new ≡ session_of self.old) }
    {
        match message_of(value) {
            Message::Request { id, call } => Ok(Some(self.request(alloc, id, call)?)),
            Message::Notification(call) => self.notification(alloc, call),
            Message::Answer => Ok(None),
            Message::Bad(id) => {
                Ok(Some(error(alloc, id, NO_REQUEST, "no request of JSON-RPC 2.0")?))
            }
        }
    }

    fn request(&mut self, alloc: Global, id: &Value, call: Call<'_>) -> Result<Value, AllocError>
        ensures answers { IfOk result (λ r. Answers (session_of self.old) (view id.now)
            call.entry.method.now (option_map (λ v. view v.now) call.entry.params)
            (view r) (session_of self.new)) }
        ensures kept { OnErr result (session_of self.new ≡ session_of self.old) }
    {
        match (self.stage, kind_of(call.method)) {
            (Stage::Over, _) => error(alloc, Some(id), NO_REQUEST, "shut down"),
            (Stage::Fresh, Kind::Begin) => self.begin(alloc, id, call),
            (Stage::Fresh, _) => error(alloc, Some(id), NOT_INITIALIZED, "not initialized"),
            (Stage::Ready, Kind::Begin) => error(
                alloc,
                Some(id),
                NO_REQUEST,
                "initialized already",
            ),
            (Stage::Ready, Kind::ShutDown) => {
                let value = answer(alloc, id, Value::Null)?;
                self.stage = Stage::Over;
                Ok(value)
            }
            (Stage::Ready, Kind::Ask) => self.ask(alloc, id, call),
        }
    }

    /// Begins a session, unless its settings are refused.
    fn begin(&mut self, alloc: Global, id: &Value, call: Call<'_>) -> Result<Value, AllocError>
        ensures begins { IfOk result (λ r. Begins (session_of self.old) (view id.now)
            (option_map (λ v. view v.now) call.entry.params) (view r) (session_of self.new)) }
        ensures kept { OnErr result (session_of self.new ≡ session_of self.old) }
    {
        let params = match params_of(call) {
            Ok(params) => params,
            Err(missing) => return bad_params(alloc, id, missing),
        };
        match settings_of(alloc, self.names, params)? {
            Ok(settings) => {
                let value = answer(alloc, id, introduction(alloc, settings.addresses)?)?;
                self.settings = settings;
                self.stage = Stage::Ready;
                Ok(value)
            }
            Err(missing) => bad_params(alloc, id, missing),
        }
    }

    /// The answer to a question.
    #[tactic(auto, using(crate::proofs::SessionLemmas::asks_of))]
    fn ask(&self, alloc: Global, id: &Value, call: Call<'_>) -> Result<Value, AllocError>
        ensures asks { IfOk result (λ r. Asks
            (is_question (session_of self.now).settings.addresses call.entry.method.now)
            (session_of self.now) (view id.now) (option_map (λ v. view v.now) call.entry.params) (view r)) }
    {
        let method = call.method;
        if !is_question(method, self.settings.addresses) {
            let text = format!(in alloc; "no such method: {method}")?;
            return error(alloc, Some(id), NO_METHOD, &text);
        }
        let (uri, query) = match query_of(call) {
            Ok(asked) => asked,
            Err(missing) => return bad_params(alloc, id, missing),
        };
        let Some(text) = self.documents.text_of(uri) else {
            let why = format!(in alloc; "not open: {uri}")?;
            return error(alloc, Some(id), BAD_PARAMS, &why);
        };
        let shows = self.settings.shows;
        self.ask_about(alloc, id, Document { uri, text, shows }, query)
    }

    /// The answer to a question about a document.
    fn ask_about(
        &self,
        alloc: Global,
        id: &Value,
        document: Document<'_>,
        query: Query<'_>,
    ) -> Result<Value, AllocError>
        ensures asks { IfOk result (λ r. AsksOf
            (nat_lt document_limit (length document.entry.text.now)) (view id.now) (view r)) }
    {
        if document.text.len() > DOCUMENT_LIMIT {
            return error(alloc, Some(id), FAILED, "too large");
        }
        match self.answer_of(alloc, document, query)? {
            Answer::Value(value) => answer(alloc, id, value),
            Answer::Refused(why) => error(alloc, Some(id), FAILED, &why),
        }
    }

    fn answer_of(
        &self,
        alloc: Global,
        document: Document<'_>,
        query: Query<'_>,
    ) -> Result<Answer, AllocError> {
        match query {
            Query::Question(question) => answer_to(alloc, document, question),
            Query::Fixes(range, true) => {
                let wish = self.settings.wish();
                let found = fixes(alloc, document.uri, document.text, wish, range)?;
                Ok(Answer::Value(found))
            }
            Query::Fixes(_, false) => Ok(Answer::Value(Value::Array(Vec::new(alloc)))),
        }
    }

    fn notification(&mut self, alloc: Global, call: Call<'_>) -> Result<Option<Value>, AllocError>
        ensures notes { IfOk result (λ sent. NotesAt (session_of self.old).stage
            (session_of self.old) call.entry.method.now
            (option_map (λ v. view v.now) call.entry.params)
            (option_map view sent) (session_of self.new)) }
        ensures kept { OnErr result (session_of self.new ≡ session_of self.old) }
    {
        if self.stage != Stage::Ready {
            return Ok(None);
        }
        let method = call.method;
        match edit_of(call) {
            Ok(Edit::Nothing) => Ok(None),
            Ok(Edit::Open { uri, version, text }) => {
                Ok(Some(self.put(alloc, uri, version, text)?))
            }
            Ok(Edit::Change { uri, version, text }) => {
                Ok(Some(self.change(alloc, method, uri, version, text)?))
            }
            Ok(Edit::Close { uri }) => Ok(Some(self.close(alloc, method, uri)?)),
            Err(missing) => Ok(Some(log(alloc, method, &missing_text(alloc, missing)?)?)),
        }
    }

    /// What is said of a text.
    fn diagnostics_of(&self, alloc: Global, text: &str) -> Result<Value, AllocError>
        ensures said { IfOk result (λ v. IsSaidOf (nat_lt document_limit (length text.now))
            (session_of self.now).settings text.now (view v)) }
    {
        if text.len() > DOCUMENT_LIMIT {
            too_large(alloc)
        } else {
            diagnostics(alloc, text, self.settings.wish())
        }
    }

    /// What is said of a text, as it is sent.
    fn publish(
        &self,
        alloc: Global,
        uri: &str,
        version: i64,
        text: &str,
    ) -> Result<Value, AllocError>
        ensures published { IfOk result (λ r. Publishes (session_of self.now) uri.now version
            text.now (view r)) }
    {
        let found = self.diagnostics_of(alloc, text)?;
        published(alloc, uri, version, found)
    }

    fn put(
        &mut self,
        alloc: Global,
        uri: &str,
        version: i64,
        text: &str,
    ) -> Result<Value, AllocError>
        ensures puts { IfOk result (λ r. Puts (session_of self.old) uri.now version text.now
            (view r) (session_of self.new)) }
        ensures kept { OnErr result (session_of self.new ≡ session_of self.old) }
    {
        let value = self.publish(alloc, uri, version, text)?;
        self.documents.put(alloc, uri, text)?;
        Ok(value)
    }

    fn change(
        &mut self,
        alloc: Global,
        method: &str,
        uri: &str,
        version: i64,
        text: Option<&str>,
    ) -> Result<Value, AllocError>
        ensures changes { IfOk result (λ r. Changes (session_of self.old) uri.now version
            (option_map (λ s. s.now) text.entry)
            (text_of uri.now (session_of self.old).documents) (view r) (session_of self.new)) }
        ensures kept { OnErr result (session_of self.new ≡ session_of self.old) }
    {
        match (text, self.documents.text_of(uri)) {
            (_, None) => not_open(alloc, method, uri),
            (None, Some(old)) => self.publish(alloc, uri, version, old),
            (Some(text), Some(_)) => self.put(alloc, uri, version, text),
        }
    }

    fn close(&mut self, alloc: Global, method: &str, uri: &str) -> Result<Value, AllocError>
        ensures closes { IfOk result (λ r. Closes (session_of self.old) uri.now
            (text_of uri.now (session_of self.old).documents) (view r) (session_of self.new)) }
        ensures kept { OnErr result (session_of self.new ≡ session_of self.old) }
    {
        if self.documents.text_of(uri).is_none() {
            return not_open(alloc, method, uri);
        }
        let value = cleared(alloc, uri)?;
        self.documents.close(uri);
        Ok(value)
    }
}

/// That memory was refused for what a message asks for.
pub(crate) fn refused_memory(alloc: Global, value: &Value) -> Result<Option<Value>, AllocError>
    ensures given_up { IfOk result (λ sent. GivesUp (message_of (view value.now))
        (option_map view sent)) }
{
    let text = "out of memory";
    Ok(match message_of(value) {
        Message::Request { id, .. } => Some(error(alloc, Some(id), FAILED, text)?),
        Message::Notification(call) => Some(log(alloc, call.method, text)?),
        Message::Answer => None,
        Message::Bad(id) => Some(error(alloc, id, FAILED, text)?),
    })
}
