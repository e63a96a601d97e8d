//! What the words of the commands ask for.
ghost use Rattle.std.specs.Prelude.{◌≡◌, codes, ℕ, List, None, Some, false, IfOk, map};
ghost use Rattle.clap.specs.Words.{found_of, first_value};
ghost use Rattle.lab_arguments.specs.Private.Options.{ForNumber, IsNumberOf, usual_worlds, values_in, IsNumberOr};
ghost use Rattle.lab_arguments.specs.Pieces.{words_in};
ghost use Rattle.lab_arguments.specs.Private.Requirements.{nothing, outputs_in, words_of, AreRequired, AreShown};
ghost use Rattle.lab_arguments.specs.declared.question.Choice.TheVariants.{End};

use crate::misuse::Misuse;
use crate::options::{number_of, number_or, profile_of, setup_of, values_of};
use crate::pieces::{outputs_in, required_words};
use crate::question::{Choice, Question};
use crate::request::{Manner, Page, Refusal, Request};
use crate::requirements::{Requirements, refused_in, required_by, shown_by, words_of};
use crate::{MOST_LOCAL_STEPS, MOST_MEMORY, MOST_STEPS_EACH, MOST_WORLDS};
use clap::ArgMatches;
use std::alloc::{AllocError, Global};

const NO_COMMAND: Misuse<'static> = Misuse::Options("no such command");

/// What the parser's matches ask for. It has made sure that there is a command, and each required word.
pub(crate) fn request_of<'a>(
    alloc: Global,
    matches: &ArgMatches<'a>,
) -> Result<Request<'a>, Refusal> {
    let Some((name, words)) = matches.subcommand() else {
        return Err(NO_COMMAND.refusal(alloc));
    };
    Ok(match name {
        "asm" => Request::Assemble {
            source: words.get_str("SOURCE").unwrap_or_default(),
            object: words.get_str("OBJECT").unwrap_or_default(),
            list: words.get_flag("list"),
            explain: words.get_flag("explain"),
            profile: profile_of(words),
        },
        "check" => Request::Check {
            sources: values_of(alloc, words, "SOURCE")?,
            profile: profile_of(words),
            strict: words.get_flag("werror"),
            allowed: values_of(alloc, words, "allow")?,
        },
        "dis" => Request::Disassemble {
            object: words.get_str("OBJECT").unwrap_or_default(),
        },
        "step" => Request::Step {
            setup: setup_of(alloc, words, Some("the schedule"))?,
        },
        "trace" => Request::Trace {
            setup: setup_of(alloc, words, Some("the schedule"))?,
            page: page_of(alloc, words)?,
        },
        "run" => Request::Run {
            setup: setup_of(alloc, words, None)?,
            manner: manner_of(words),
        },
        "explore" => return explore_request(alloc, words),
        "debug" => Request::Debug {
            setup: setup_of(alloc, words, Some("the commands"))?,
        },
        "lsp" => Request::Serve,
        _ => return Err(NO_COMMAND.refusal(alloc)),
    })
}

fn page_of<'a>(alloc: Global, words: &ArgMatches<'a>) -> Result<Option<Page<'a>>, AllocError> {
    let Some(file) = words.get_str("page") else {
        return Ok(None);
    };
    let sources = values_of(alloc, words, "source")?;
    Ok(Some(Page { file, sources }))
}

fn manner_of<'a>(words: &ArgMatches<'a>) -> Manner<'a>
    ensures limit { ForNumber (found_of words.now) (codes "limit") (λ n. result.limit ≡ n) }
    ensures pauses { IsNumberOf (found_of words.now) (codes "mix") result.mix }
{
    Manner {
        limit: number_or(words, "limit", MOST_STEPS_EACH),
        mix: number_of(words, "mix"),
        plain: words.get_flag("plain"),
        page: words.get_str("page"),
    }
}

/// The most worlds to visit where the words don't say, or those of a walk, if so many are taken.
fn usual_worlds(random: Option<u32>) -> u32
    ensures worlds { result ≡ usual_worlds random }
{
    match random {
        Some(_) => 10_000,
        None => 10_000_000,
    }
}

fn required_of<'a>(alloc: Global, words: &ArgMatches<'a>) -> Result<Requirements, Refusal>
    ensures any { IfOk result (λ r.
        first_value (found_of words.now) (codes "require") ≡ None → r ≡ nothing) }
    ensures required { IfOk result (λ r.
        AreRequired (words_in (values_in (found_of words.now) (codes "require"))) r) }
{
    let values = words.get_strs("require").unwrap_or_default();
    match required_by(&required_words(alloc, values)?) {
        Some(required) => Ok(required),
        None => {
            Err(Misuse::Value(refused_in(alloc, values)?, "require", "WORDS").refusal(alloc))
        }
    }
}

/// Which schedule the words name at an option of this name, if they name one.
fn choice_of<'a>(
    alloc: Global,
    words: &ArgMatches<'a>,
    name: &'static str,
) -> Result<Option<Choice>, Refusal>
    ensures end { IfOk result (λ choice.
        ForNumber (found_of words.now) name.now (λ n. choice ≡ Some (End n))) }
{
    match (number_of(words, name), words.get_str(name)) {
        (Some(number @ 1..=MOST_WORLDS), _) => Ok(Some(Choice::End(number))),
        (None, None) => Ok(None),
        (None, Some("bad")) => Ok(Some(Choice::Bad)),
        (_, text) => Err(Misuse::Value(text.unwrap_or_default(), name, "K|bad").refusal(alloc)),
    }
}

fn question_of<'a>(alloc: Global, words: &ArgMatches<'a>) -> Result<Question<'a>, Refusal>
    ensures worlds { IfOk result (λ q.
        IsNumberOr (found_of words.now) (codes "worlds") (usual_worlds q.random) q.worlds) }
    ensures memory { IfOk result (λ q.
        ForNumber (found_of words.now) (codes "memory") (λ n. q.memory ≡ n)) }
    ensures steps { IfOk result (λ q.
        ForNumber (found_of words.now) (codes "limit") (λ n. q.steps ≡ n)) }
    ensures threads { IfOk result (λ q.
        IsNumberOf (found_of words.now) (codes "threads") q.threads) }
    ensures walks { IfOk result (λ q.
        IsNumberOf (found_of words.now) (codes "random") q.random) }
    ensures seed { IfOk result (λ q.
        IsNumberOr (found_of words.now) (codes "seed") 1 q.seed) }
    ensures schedule { IfOk result (λ q.
        ForNumber (found_of words.now) (codes "schedule") (λ n. q.schedule ≡ Some (End n))) }
    ensures trace { IfOk result (λ q.
        ForNumber (found_of words.now) (codes "trace") (λ n. q.trace ≡ Some (End n))) }
    ensures any { IfOk result (λ q.
        first_value (found_of words.now) (codes "require") ≡ None → q.required ≡ nothing) }
    ensures required { IfOk result (λ q.
        AreRequired (words_in (values_in (found_of words.now) (codes "require"))) q.required) }
    ensures outputs { IfOk result (λ q. map (λ o. o.now) q.outputs.items
        ≡ outputs_in (values_in (found_of words.now) (codes "require"))) }
    ensures report { IfOk result (λ q.
        first_value (found_of words.now) (codes "show") ≡ None
        → (q.out ≡ false) × (q.left ≡ false)) }
    ensures shown { IfOk result (λ q. (text : List ℕ)
        → first_value (found_of words.now) (codes "show") ≡ Some text
        → AreShown (words_of text) q.out q.left) }
{
    let required = required_of(alloc, words)?;
    let (out, left) = match words.get_str("show") {
        Some(text) => match shown_by(&words_of(alloc, text)?) {
            Some(shown) => shown,
            None => return Err(Misuse::Value(text, "show", "WORDS").refusal(alloc)),
        },
        None => (false, false),
    };
    let random = number_of(words, "random");
    let schedule = choice_of(alloc, words, "schedule")?;
    let trace = choice_of(alloc, words, "trace")?;
    Ok(Question {
        worlds: number_or(words, "worlds", usual_worlds(random)),
        memory: number_or(words, "memory", MOST_MEMORY),
        steps: number_or(words, "limit", MOST_LOCAL_STEPS),
        threads: number_of(words, "threads"),
        required,
        outputs: outputs_in(alloc, words.get_strs("require").unwrap_or_default())?,
        waiters: values_of(alloc, words, "may-wait")?,
        never: values_of(alloc, words, "never")?,
        fair: words.get_flag("fair"),
        out,
        left,
        first: words.get_flag("first"),
        random,
        seed: number_or(words, "seed", 1),
        schedule,
        trace,
        json: words.get_flag("json"),
        page: words.get_str("page"),
    })
}

fn explore_request<'a>(alloc: Global, words: &ArgMatches<'a>) -> Result<Request<'a>, Refusal> {
    let question = question_of(alloc, words)?;
    if let Some(misuse) = misuse_in(&question, words.get_str("seed").is_some()) {
        return Err(misuse.refusal(alloc));
    }
    Ok(Request::Explore {
        setup: setup_of(alloc, words, None)?,
        question,
    })
}

/// Which options don't go together, if some don't: of a question that has a seed.
fn misuse_in(question: &Question<'_>, has_seed: bool) -> Option<Misuse<'static>> {
    let walks = question.random.is_some();
    let unjudged = !question.judges();
    let waits = !question.waiters.is_empty();
    let text = match (question.schedule, question.trace) {
        _ if has_seed && !walks => "--seed needs --random",
        _ if walks && question.page.is_some() => "--page and --random exclude each other",
        _ if waits && !question.required.lets_wait() => {
            "--may-wait needs --require ended or --require halted"
        }
        (Some(Choice::Bad), _) if unjudged => "--schedule bad needs --require or --never",
        (_, Some(Choice::Bad)) if unjudged => "--trace bad needs --require or --never",
        _ if unjudged && question.first => "--first needs --require or --never",
        _ if walks && !question.never.is_empty() => "--never and --random exclude each other",
        _ if walks && question.fair => "--fair and --random exclude each other",
        (Some(_), _) if question.json => "--json and --schedule exclude each other",
        (_, Some(_)) if question.json => "--json and --trace exclude each other",
        _ => return None,
    };
    Some(Misuse::Options(text))
}
