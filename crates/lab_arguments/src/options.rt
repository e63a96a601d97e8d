//! Options of several commands, and what the words give them.
ghost use Rattle.std.specs.Prelude.{◌≡◌, ◌≤◌, None, Some, IfOk, codes, map};
ghost use Rattle.std.specs.List.{count_by};
ghost use Rattle.clap.specs.Words.{first_value, found_of, one_text};
ghost use Rattle.lc3_table.specs.declared.profile.Profile.TheVariants.{A, B};
ghost use Rattle.lab_arguments.specs.Private.Options.{most_inputs, IsNumberOf, IsNumberOr};
ghost use Rattle.lab_arguments.specs.Programs.{takes_input};
ghost use Rattle.lab_arguments.specs.declared.request.Notes.TheVariants.{Shown, Hidden};

use crate::misuse::Misuse;
use crate::programs::takes_input;
use crate::request::{Notes, Refusal, Setup};
use clap::ArgMatches;
use lc3_table::Profile;
use std::alloc::{AllocError, Global};

/// The number that the words give to an option of this name, where they give one.
pub(crate) fn number_of(words: &ArgMatches<'_>, name: &str) -> Option<u32>
    ensures number { IsNumberOf (found_of words.now) name.now result }
{
    words.get_one::<u32>(name)
}

/// The number that the words give to an option of this name, or the usual one where they give none.
pub(crate) fn number_or(words: &ArgMatches<'_>, name: &str, usual: u32) -> u32
    ensures number { IsNumberOr (found_of words.now) name.now usual result }
{
    number_of(words, name).unwrap_or(usual)
}

/// The values that the words give to an option or a place of this name, in their order.
pub(crate) fn values_of<'a>(
    alloc: Global,
    words: &ArgMatches<'a>,
    name: &str,
) -> Result<Vec<&'a str>, AllocError> {
    words.get_strs(name).unwrap_or_default().to_vec(alloc)
}

pub(crate) fn profile_of(words: &ArgMatches<'_>) -> Profile
    ensures a { first_value (found_of words.now) (codes "profile") ≡ Some (codes "a")
        → result ≡ A }
    ensures b { first_value (found_of words.now) (codes "profile") ≡ Some (codes "b")
        → result ≡ B }
{
    match words.get_str("profile") {
        Some("b") => Profile::B,
        _ => Profile::A,
    }
}

/// The programs and the profile that the words of a command name, which finds that in standard input, or nothing of its own.
pub(crate) fn setup_of<'a>(
    alloc: Global,
    words: &ArgMatches<'a>,
    held: Option<&'static str>,
) -> Result<Setup<'a>, Refusal>
    ensures inputs { IfOk result (λ s.
        count_by takes_input (map (λ w. w.now) s.programs.items) ≤ most_inputs held.entry) }
    ensures profile_a { IfOk result (λ s.
        first_value (found_of words.now) (codes "profile") ≡ Some (codes "a") → s.profile ≡ A) }
    ensures profile_b { IfOk result (λ s.
        first_value (found_of words.now) (codes "profile") ≡ Some (codes "b") → s.profile ≡ B) }
    ensures shown { IfOk result (λ s.
        one_text (found_of words.now) (codes "notes") ≡ Some (codes "true") → s.notes ≡ Shown) }
    ensures hidden { IfOk result (λ s.
        one_text (found_of words.now) (codes "quiet") ≡ Some (codes "true") → s.notes ≡ Hidden) }
{
    let notes = match (words.get_flag("notes"), words.get_flag("quiet")) {
        (true, true) => {
            return Err(Misuse::Options("--notes and --quiet exclude each other").refusal(alloc));
        }
        (true, false) => Notes::Shown,
        (false, true) => Notes::Hidden,
        (false, false) => Notes::AtTerminal,
    };
    let programs = values_of(alloc, words, "PROGRAM")?;
    let mut taking = programs.iter().copied().filter(|word| takes_input(word));
    match taking.nth(usize::from(held.is_none())) {
        Some(word) => Err(Misuse::Input(word, held).refusal(alloc)),
        None => Ok(Setup {
            programs,
            profile: profile_of(words),
            notes,
        }),
    }
}
