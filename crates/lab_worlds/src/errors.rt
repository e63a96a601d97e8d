//! The errors with which calls are refused.
ghost use Rattle.std.specs.Prelude.{ℕ, ◌≡◌, false};
ghost use Rattle.lab_sched.specs.declared.stepped.Stepped.{Stepped as Said};
ghost use Rattle.lab_conditions.specs.Refusals.{is_refused};
ghost use Rattle.lab_worlds.specs.Errors.{IsAmong, HasErrorAmong};

use lab_conditions::{Refusal, error_told};
use lab_sched::Stepped;

/// The errors with which calls of some steps are refused, by their numbers.
#[derive(Clone, Copy, Debug, PartialEq, Eq, Drop)]
pub enum Errors {
    /// No call is refused.
    No,
    /// With this one alone.
    Only(u16),
    /// Maybe with any.
    Any,
}

impl Errors {
    /// The error of a step, by what is told of it.
    pub fn of(stepped: &Stepped) -> Errors
        ensures among { HasErrorAmong result stepped.now }
    {
        match error_told(stepped) {
            Some(number) => Errors::Only(number),
            None => Errors::No,
        }
    }

    /// These errors and others.
    pub fn and(self, other: Errors) -> Errors
        ensures these { (n : ℕ) → IsAmong n self → IsAmong n result }
        ensures others { (n : ℕ) → IsAmong n other → IsAmong n result }
    {
        match (self, other) {
            (Errors::No, errors) | (errors, Errors::No) => errors,
            (Errors::Only(one), Errors::Only(two)) if one == two => self,
            _ => Errors::Any,
        }
    }

    /// Whether a call that is refused with one of them may be refused so.
    #[tactic(auto, using(crate::proofs::ErrorLemmas::free_refused, crate::proofs::ErrorLemmas::only_refused))]
    pub fn may_be(self, refusal: &Refusal) -> bool
        ensures no { result ≡ false → (told : Said) → HasErrorAmong self told
            → is_refused refusal.now told ≡ false }
    {
        match self {
            Errors::No => false,
            Errors::Only(number) => refusal.is_error(number),
            Errors::Any => true,
        }
    }
}
