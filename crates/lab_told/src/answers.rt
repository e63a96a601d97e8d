//! What became of a call.
ghost use Rattle.std.specs.Prelude.{◌≡◌};
ghost use Rattle.lab_told.specs.Answers.{error_in, outcome_of, wanted_of, result_in};

use ipc_kernel::Reply;
use ipc_names::Errno;
use lab_sched::Stepped;

/// What became of a call.
#[derive(Drop)]
pub enum Outcome {
    /// The process waits.
    Waits,
    Refused(Errno),
    /// It had this reply, which tells no error.
    Replied(Reply),
}

#[tactic(auto, unfolding(crate::specs::Answers::error_in))]
fn error_in(word: u16) -> Option<Errno>
    ensures error { result ≡ error_in word }
{
    match word.wrapping_neg() {
        2 => Some(Errno::NoEntry),
        9 => Some(Errno::BadDescriptor),
        11 => Some(Errno::Again),
        14 => Some(Errno::Fault),
        17 => Some(Errno::Exists),
        22 => Some(Errno::Invalid),
        24 => Some(Errno::TooManyOpen),
        28 => Some(Errno::NoSpace),
        36 => Some(Errno::NameTooLong),
        75 => Some(Errno::Overflow),
        90 => Some(Errno::MessageSize),
        _ => None,
    }
}

/// What became of the call that a step made, if it made one, by what is told of the step.
pub fn outcome_of(stepped: Stepped) -> Option<Outcome>
    ensures outcome { result ≡ outcome_of stepped }
{
    match stepped {
        Stepped::Refused(error) => Some(Outcome::Refused(error)),
        Stepped::Called(reply) => {
            let error = match reply {
                Reply::Plain(word) => error_in(word),
                _ => None,
            };
            match error {
                Some(error) => Some(Outcome::Refused(error)),
                None => Some(Outcome::Replied(reply)),
            }
        }
        Stepped::Waits => Some(Outcome::Waits),
        Stepped::Moved | Stepped::Same => None,
    }
}

/// The same without the attributes that a call doesn't want.
pub fn wanted_of(wants_attributes: bool, outcome: Outcome) -> Outcome
    ensures outcome { result ≡ wanted_of wants_attributes outcome }
{
    match outcome {
        Outcome::Replied(Reply::Attr(_)) if !wants_attributes => Outcome::Replied(Reply::Plain(0)),
        outcome => outcome,
    }
}

/// The result that a reply leaves in R0.
pub fn result_in(reply: &Reply) -> usize
    ensures value { result ≡ result_in reply.now }
{
    match reply {
        Reply::Plain(word) => *word as usize,
        Reply::Message { words, .. } => words.len(),
        Reply::Attr(_) | Reply::Value(_) => 0,
    }
}
