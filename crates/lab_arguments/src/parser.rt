//! The words of the command line, read by a parser of commands.
ghost use Rattle.std.specs.Prelude.{◌≡◌, String};
ghost use Rattle.clap.specs.Values.{kind_of};
ghost use Rattle.std.specs.declared.alloc.Global.{Global};
ghost use Rattle.clap.specs.declared.error.kind.ErrorKind.TheVariants.{InvalidSubcommand};
ghost use Rattle.lab_arguments.specs.declared.request.Refusal.TheVariants.{NoCommand};

use crate::commands::request_of;
use crate::misuse::Shown;
use crate::request::{Refusal, Request};
use crate::rows::{CommandRow, ProgramRow, Row, Takes};
use clap::builder::ValueParser;
use clap::error::ErrorKind;
use clap::{Arg, ArgAction, Command, Error};
use std::alloc::{AllocError, Global};

/// What the words ask for of a program with these texts, or the text of help or of what is wrong with them.
pub fn read_words<'a>(
    alloc: Global,
    row: &ProgramRow,
    words: &'a [String],
) -> Result<Request<'a>, Refusal> {
    match program(alloc, row)?.try_get_matches_from(words) {
        Ok(matches) => request_of(alloc, &matches),
        Err(error) => {
            // the error repeats the words in its text: here as messages show them
            let shown: Vec<String> = words
                .iter()
                .map(|word| Shown(word).to_string(alloc))
                .try_collect(alloc)?;
            let again = program(alloc, row)?.try_get_matches_from(shown.as_slice());
            Err(refusal_of(alloc, &again.err().unwrap_or(error)))
        }
    }
}

fn refusal_of(alloc: Global, error: &Error) -> Refusal
    ensures no_command { (text : String Global) → result ≡ NoCommand text
        → kind_of error.now ≡ InvalidSubcommand }
{
    let Ok(text) = error.to_string(alloc) else {
        return Refusal::NoMemory;
    };
    match error.kind() {
        ErrorKind::OutOfMemory => Refusal::NoMemory,
        ErrorKind::DisplayHelp => Refusal::Help(text),
        ErrorKind::DisplayVersion => Refusal::Version(text),
        ErrorKind::InvalidSubcommand => Refusal::NoCommand(text),
        _ => Refusal::Usage(text),
    }
}

fn program<'a>(alloc: Global, row: &ProgramRow) -> Result<Command<'a>, AllocError> {
    let mut program = Command::new(alloc, "lc3lab")
        .about(row.about)
        .version(row.version)
        .after_help(row.example)
        .bin_name("lc3lab")?
        .no_binary_name(true)
        .subcommand_required(true)
        .override_usage("lc3lab [COMMAND]");
    for command in row.commands {
        program = program.subcommand(command_of(alloc, command)?)?;
    }
    Ok(program)
}

/// The names of warnings.
pub const WARNINGS: &[&str] = &[
    "wraps",
    "unknown-trap",
    "decimal-origin",
    "misspelt",
    "call-name",
    "unused-label",
    "starts-in-data",
    "runs-into-data",
    "runs-past-end",
    "falls-into",
    "r7",
    "stale-codes",
    "loaded-string",
    "after-end",
];

fn place<'a>(alloc: Global, row: &Row) -> Arg<'a> {
    Arg::new(alloc, row.name).required(true).help(row.help)
}

fn option<'a>(alloc: Global, row: &Row, value: &'a str) -> Arg<'a> {
    Arg::new(alloc, row.name)
        .long(row.name)
        .value_name(value)
        .help(row.help)
}

/// An option with a number from 1 to the most that there can be.
fn up_to<'a>(alloc: Global, row: &Row, value: &'a str, most: u32) -> Arg<'a> {
    option(alloc, row, value).value_parser(clap::value_parser!(u32).range(1..=i64::from(most)))
}

fn arg_of<'a>(alloc: Global, row: &Row) -> Result<Arg<'a>, AllocError> {
    Ok(match row.takes {
        Takes::Place => place(alloc, row),
        Takes::Places => place(alloc, row).num_args(1..),
        Takes::Nothing => Arg::new(alloc, row.name)
            .long(row.name)
            .action(ArgAction::SetTrue)
            .help(row.help),
        Takes::Text(value) => option(alloc, row, value),
        Takes::Texts(value) => option(alloc, row, value).action(ArgAction::Append),
        Takes::Sources => option(alloc, row, "P=FILE")
            .action(ArgAction::Append)
            .requires_arg("page")?,
        Takes::UpTo(value, most) => up_to(alloc, row, value, most),
        Takes::Usually(value, most, usual) => up_to(alloc, row, value, most).default_value(usual),
        Takes::Number(value) => option(alloc, row, value).value_parser(clap::value_parser!(u32)),
        Takes::Profile => option(alloc, row, "PROFILE")
            .value_parser(ValueParser::Names(&["a", "b"]))
            .default_value("a"),
        Takes::Warnings => option(alloc, row, "WARNING")
            .value_parser(ValueParser::Names(WARNINGS))
            .action(ArgAction::Append),
    })
}

fn command_of<'a>(alloc: Global, row: &CommandRow) -> Result<Command<'a>, AllocError> {
    let mut command = Command::new(alloc, row.name)
        .about(row.about)
        .after_help(row.example);
    for option in row.options {
        command = command.arg(arg_of(alloc, option)?)?;
    }
    Ok(command)
}
