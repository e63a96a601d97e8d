//! What may stand at each place of the words that ask something of a run.
use crate::labels::{ends_of, is_labelled};
use ipc_errors::error_named;
use ipc_traps::Service;
use lab_questions::call_count;
use lc3_word::unsigned;

/// Where a word stands. Behind which words a place is, if no comment says what begins there, `STEPS` tells.
#[derive(Clone, Copy)]
pub(crate) enum Place {
    /// At the beginning of a condition.
    Start,
    Part,
    Name,
    Sign,
    Number,
    First,
    State,
    Address,
    Anywhere,
    Many,
    And,
    Error,
    Nothing,
    /// At the beginning of the words for a process that may wait.
    Waiter,
    At,
    WaitsAt,
    /// At the beginning of what must be so of calls.
    Caller,
    Verb,
    Calls,
    Order,
    Call,
    List,
    Listed,
    Called,
    On,
    Count,
    Held,
    HeldAnd,
    Counted,
    /// At the beginning of what must never be called.
    NeverCaller,
    NeverVerb,
    NeverCalls,
    Than,
    Another,
    Or,
    OrOn,
    /// At the beginning of what is required of an output.
    Output,
    Writer,
    Relation,
    Text,
    Joint,
}

#[derive(Clone, Copy)]
enum Kind {
    Word(&'static str),
    OneOf(&'static [&'static str]),
    Process,
    /// The name of an object.
    Name,
    /// A number up to 65,535.
    Number,
    /// An address or a label, or two with a `-` between them. The first of two addresses isn't above the second.
    Range,
    /// The name of an error.
    Error,
    Call,
    /// How many calls there are at least.
    Count,
}

const OBJECTS: &[&str] = &["sem", "mq"];

const STATES: &[&str] = &["blocked", "ended", "crashed"];

/// What may stand at each place, and the place behind it.
const STEPS: &[(Place, Kind, Place)] = &[
    (Place::Start, Kind::Word("lost"), Place::Nothing),
    (Place::Start, Kind::Word("refused"), Place::Error),
    (Place::Start, Kind::OneOf(OBJECTS), Place::Name),
    (Place::Start, Kind::OneOf(STATES), Place::Many),
    (Place::Start, Kind::Word("at"), Place::Anywhere),
    (Place::Start, Kind::Process, Place::First),
    (Place::Part, Kind::OneOf(OBJECTS), Place::Name),
    (Place::Part, Kind::OneOf(STATES), Place::Many),
    (Place::Part, Kind::Word("at"), Place::Anywhere),
    (Place::Part, Kind::Process, Place::State),
    (Place::Name, Kind::Name, Place::Sign),
    (Place::Sign, Kind::OneOf(&[">", "<", "="]), Place::Number),
    (Place::Number, Kind::Number, Place::And),
    (Place::First, Kind::Word("refused"), Place::Error),
    (Place::First, Kind::OneOf(STATES), Place::And),
    (Place::First, Kind::Word("at"), Place::Address),
    (Place::State, Kind::OneOf(STATES), Place::And),
    (Place::State, Kind::Word("at"), Place::Address),
    (Place::Address, Kind::Range, Place::And),
    (Place::Anywhere, Kind::Range, Place::Many),
    (Place::Many, Kind::Word(">"), Place::Number),
    (Place::Many, Kind::Word("and"), Place::Part),
    (Place::And, Kind::Word("and"), Place::Part),
    (Place::Error, Kind::Error, Place::Nothing),
    (Place::Waiter, Kind::Process, Place::At),
    (Place::At, Kind::Word("at"), Place::WaitsAt),
    (Place::WaitsAt, Kind::Range, Place::Nothing),
    (Place::Caller, Kind::Process, Place::Verb),
    (Place::Caller, Kind::Word("calls"), Place::Calls),
    (Place::Caller, Kind::Word("holds"), Place::Held),
    (Place::Verb, Kind::Word("calls"), Place::Calls),
    (Place::Verb, Kind::Word("holds"), Place::Held),
    (Place::Calls, Kind::Word("in"), Place::Order),
    (Place::Calls, Kind::Call, Place::Called),
    (Place::Order, Kind::Word("order"), Place::Call),
    (Place::Call, Kind::Call, Place::List),
    (Place::List, Kind::Word(","), Place::Call),
    (Place::List, Kind::Name, Place::Listed),
    (Place::Listed, Kind::Word(","), Place::Call),
    (Place::Called, Kind::Name, Place::On),
    (Place::Called, Kind::Word(">="), Place::Count),
    (Place::On, Kind::Word(">="), Place::Count),
    (Place::Count, Kind::Count, Place::Counted),
    (Place::Held, Kind::Name, Place::HeldAnd),
    (Place::HeldAnd, Kind::Word("and"), Place::Held),
    (Place::NeverCaller, Kind::Process, Place::NeverVerb),
    (Place::NeverCaller, Kind::Word("calls"), Place::NeverCalls),
    (Place::NeverVerb, Kind::Word("calls"), Place::NeverCalls),
    (Place::NeverCalls, Kind::Word("other"), Place::Than),
    (Place::NeverCalls, Kind::Call, Place::Or),
    (Place::Than, Kind::Word("than"), Place::Call),
    (Place::Another, Kind::Call, Place::Or),
    (Place::Or, Kind::Word("or"), Place::Another),
    (Place::Or, Kind::Name, Place::OrOn),
    (Place::OrOn, Kind::Word("or"), Place::Another),
    (Place::Output, Kind::Word("out"), Place::Writer),
    (Place::Writer, Kind::Process, Place::Relation),
    (Place::Relation, Kind::OneOf(&["=", "has"]), Place::Text),
    (Place::Joint, Kind::OneOf(&["and", "or"]), Place::Output),
];

impl Place {
    pub(crate) fn text(self) -> &'static str {
        match self {
            Place::Start => {
                "expected sem, mq, a process, blocked, ended, crashed, at, lost or refused"
            }
            Place::Part => "expected sem, mq, a process, blocked, ended, crashed or at",
            Place::Name => "a name begins with / and has no other one",
            Place::Sign => "expected >, < or =, between blanks",
            Place::Number => "expected a number from 0 to 65535",
            Place::First => "expected blocked, ended, crashed, at or refused",
            Place::State => "expected blocked, ended, crashed or at",
            Place::Address | Place::Anywhere | Place::WaitsAt => {
                "expected an address or a label, or two, as x3000-x3008"
            }
            Place::Many => "expected and, or > with a number after it",
            Place::And => "expected and",
            Place::Error => "expected the name of an error, as EBADF",
            Place::Nothing | Place::Counted => "expected nothing more",
            Place::Waiter | Place::Writer => "expected a process, as 0",
            Place::At => "expected at, and an address after it, as x3000",
            Place::Caller | Place::Verb => "expected calls or holds",
            Place::Calls => "expected a call, as sem_wait, or in order",
            Place::Order => "expected order",
            Place::Call | Place::Another => "expected a call, as sem_wait",
            Place::List => "expected the name of an object, as /a, or a comma",
            Place::Listed => "expected a comma",
            Place::Called => "expected the name of an object, as /a, or >= and a number",
            Place::On => "expected >= and a number, between blanks",
            Place::Count => "expected a number from 1 to 1000",
            Place::Held => "expected the name of a semaphore, as /a",
            Place::HeldAnd => "expected and; there may be up to eight names",
            Place::NeverCaller | Place::NeverVerb => "expected calls",
            Place::NeverCalls => "expected a call, as sem_wait, or other than",
            Place::Than => "expected than",
            Place::Or => "expected the name of an object, as /a, or or",
            Place::OrOn => "expected or",
            Place::Output | Place::Joint => "expected out, and a process after it",
            Place::Relation => "expected = or has, between blanks",
            Place::Text => {
                "expected a text between double quotes, with the escapes of .STRINGZ, and nothing after it"
            }
        }
    }

    /// Whether words that begin at this place ask of calls.
    pub(crate) fn asks_of_calls(self) -> bool {
        matches!(self, Place::Caller | Place::NeverCaller)
    }

    /// The place behind a word that stands at this one, if it may stand here.
    pub(crate) fn behind(self, word: &str) -> Option<Place> {
        STEPS
            .iter()
            .find(|step| step.0 as u8 == self as u8 && step.1.is_of(word))
            .map(|step| step.2)
    }
}

impl Kind {
    fn is_of(self, word: &str) -> bool {
        match self {
            Kind::Word(one) => word == one,
            Kind::OneOf(words) => words.iter().any(|one| word == *one),
            Kind::Process => unsigned(10, word.as_bytes()).is_some(),
            Kind::Name => word
                .strip_prefix('/')
                .is_some_and(|rest| !rest.is_empty() && !rest.contains('/')),
            Kind::Number => unsigned(10, word.as_bytes()).is_some_and(|number| number <= 65_535),
            Kind::Range if is_labelled(word) => true,
            Kind::Range => {
                let (first, last) = ends_of(word);
                matches!((address(first), address(last)), (Some(first), Some(last)) if first <= last)
            }
            Kind::Error => error_named(word).is_some(),
            Kind::Call => Service::of_name(word.as_bytes()).is_some(),
            Kind::Count => call_count(word.as_bytes()).is_some(),
        }
    }
}

pub(crate) fn address(word: &str) -> Option<u32> {
    let digits = word.strip_prefix('x').filter(|digits| digits.len() <= 4)?;
    unsigned(16, digits.as_bytes())
}
