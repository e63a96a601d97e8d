//! The program, its commands and their options.
use lab_arguments::{
    CommandRow, MOST_LOCAL_STEPS, MOST_MEMORY, MOST_STEPS_EACH, MOST_THREADS, MOST_WALKS,
    MOST_WORLDS, ProgramRow, Row, Takes,
};

/// The program; CHANGELOG.md says what each version brings.
pub(crate) const PROGRAM: ProgramRow = ProgramRow {
    about: "A laboratory of LC-3 processes",
    version: "1.0.0",
    example: "\
Without a command it reads an image as hexadecimal words from standard input, the origin first, runs it for at most \
100,000 steps and prints a report.

Example:
  printf '3000 2002 F021 F025 0048\\n' | lc3lab",
    commands: COMMANDS,
};

/// The commands, in the order of help. Each example works as it stands.
pub(crate) const COMMANDS: &[CommandRow] = &[
    CommandRow {
        name: "asm",
        about: "Assembles a source and writes its object file",
        example: "\
Example:
  printf '.ORIG x3000\\nHALT\\n' > halt.asm
  lc3lab asm halt.asm halt.obj --list",
        options: ASM,
    },
    CommandRow {
        name: "check",
        about: "Reports everything that is wrong with sources, and warnings",
        example: "\
Example:
  printf '.ORIG x3000\\nHALT\\n' > halt.asm
  lc3lab check halt.asm --werror",
        options: CHECK,
    },
    CommandRow {
        name: "dis",
        about: "Prints the words of an object file, or of a source (.asm), as instructions",
        example: "\
Example:
  printf '.ORIG x3000\\nHALT\\n' > halt.asm
  lc3lab asm halt.asm halt.obj && lc3lab dis halt.obj",
        options: DIS,
    },
    CommandRow {
        name: "step",
        about: "Runs programs by the schedule on standard input and prints a report",
        example: "\
Example:
  printf '.ORIG x3000\\nHALT\\n' > halt.asm
  lc3lab asm halt.asm halt.obj
  echo '0 1' | lc3lab step halt.obj halt.obj",
        options: PROGRAMS,
    },
    CommandRow {
        name: "trace",
        about: "Runs programs by the schedule on standard input and prints what happened",
        example: "\
Example:
  printf '.ORIG x3000\\nHALT\\n' > halt.asm
  lc3lab asm halt.asm halt.obj
  echo '0 1' | lc3lab trace halt.obj halt.obj",
        options: TRACE,
    },
    CommandRow {
        name: "run",
        about: "Runs programs on threads and prints a report and an interleaving that leads to it",
        example: "\
Example:
  printf '.ORIG x3000\\nHALT\\n' > halt.asm
  lc3lab asm halt.asm halt.obj
  lc3lab run halt.obj halt.obj",
        options: RUN,
    },
    CommandRow {
        name: "explore",
        about: "Visits every interleaving of programs and prints the ends that they can have",
        example: "\
Example:
  printf '.ORIG x3000\\nHALT\\n' > halt.asm
  lc3lab asm halt.asm halt.obj
  lc3lab explore halt.obj halt.obj",
        options: EXPLORE,
    },
    CommandRow {
        name: "debug",
        about: "Runs programs step by step, by commands on standard input",
        example: "\
Example:
  printf '.ORIG x3000\\nHALT\\n' > halt.asm
  lc3lab asm halt.asm halt.obj
  printf 'step 0 1\\nprocs\\n' | lc3lab debug halt.obj",
        options: PROGRAMS,
    },
    CommandRow {
        name: "lsp",
        about: "Answers an editor's questions about sources, by the Language Server Protocol",
        example: "\
An editor starts it once, and talks with it on standard input and standard output; editors/ has configurations.

Example:
  lc3lab lsp </dev/null || true",
        options: &[],
    },
];

/// The machine of a source.
const MACHINE: &str =
    "The machine that the warnings are about: a is the book's second edition; in b, that of its third edition and of lc3tools, \
LEA sets no codes and a trap leaves R7";

/// The programs of a laboratory.
const GIVEN: &str =
    "A source (.asm) or an object file; =INPUT after it names a file of console input";

/// The programs of a laboratory that finds nothing else in standard input.
const GIVEN_OR_TYPED: &str =
    "A source (.asm) or an object file; =INPUT after it names a file of console input, or - for standard input";

/// The page of a run.
const PAGE: &str = "Also writes FILE, a page that shows the run step by step in a browser";

/// Options, each by its name, what words give to it and what help says of it.
macro_rules! rows {
    ($($name:literal, $takes:expr, $help:expr;)*) => {
        &[$(Row {
            name: $name,
            takes: $takes,
            help: $help,
        }),*]
    };
}

/// The options of a command on such programs: those that all these commands have, and then its own.
macro_rules! rows_of {
    ($given:expr; $($own:tt)*) => {
        rows! {
            "PROGRAM", Takes::Places, $given;
            "profile", Takes::Profile,
                "The machine: a is the book's second edition; in b, that of its third edition and of lc3tools, \
LEA sets no codes and a trap leaves R7";
            "notes", Takes::Nothing,
                "Prints refused calls and warnings of sources on standard error, as at a terminal";
            "quiet", Takes::Nothing, "Prints no notes and no advice, even at a terminal";
            $($own)*
        }
    };
}

const ASM: &[Row] = rows! {
    "SOURCE", Takes::Place, "A source text, as UTF-8";
    "OBJECT", Takes::Place, "The object file to write";
    "list", Takes::Nothing, "Prints the listing";
    "explain", Takes::Nothing,
        "Shows the source line of a fault, the place, and what could be there instead";
    "profile", Takes::Profile, MACHINE;
};

const CHECK: &[Row] = rows! {
    "SOURCE", Takes::Places, "A source text, as UTF-8";
    "profile", Takes::Profile, MACHINE;
    "werror", Takes::Nothing, "Fails if there is a warning";
    "allow", Takes::Warnings, "Leaves out a warning of this name";
};

const DIS: &[Row] = rows! {
    "OBJECT", Takes::Place, "The object file or the source to read";
};

const PROGRAMS: &[Row] = rows_of!(GIVEN;);

const TRACE: &[Row] = rows_of! {
    GIVEN;
    "page", Takes::Text("FILE"), PAGE;
    "source", Takes::Sources, "On the page, shows the lines of FILE, the source of process P";
};

const RUN: &[Row] = rows_of! {
    GIVEN_OR_TYPED;
    "limit", Takes::Usually("N", MOST_STEPS_EACH, "100000"), "The most steps of each process";
    "mix", Takes::Number("SEED"),
        "Pauses before calls, by random numbers from SEED, which does not fix the interleaving";
    "plain", Takes::Nothing,
        "After the report, also prints what each process has written, as it is";
    "page", Takes::Text("FILE"), PAGE;
};

const EXPLORE: &[Row] = rows_of! {
    GIVEN_OR_TYPED;
    "limit", Takes::Usually("N", MOST_LOCAL_STEPS, "100000"),
        "The most steps of a process without a call";
    "memory", Takes::Usually("MB", MOST_MEMORY, "2048"), "The most memory to take, in megabytes";
    "threads", Takes::UpTo("N", MOST_THREADS),
        "How many threads judge conditions [default: as many as processors]";
    "worlds", Takes::UpTo("M", MOST_WORLDS),
        "The most worlds to visit, or those of a walk [default: 10000000, and 10000 of a walk]";
    "random", Takes::UpTo("N", MOST_WALKS),
        "Takes N random walks instead, which never show that there is no other end";
    "seed", Takes::Number("S"), "With --random: the seed of the random numbers [default: 1]";
    "require", Takes::Texts("WORDS"),
        "Fails unless the search is complete and each end satisfies these: \
            ended, stuck, halted, empty, same, out P = \"TEXT\", out P has \"TEXT\", with commas between them; \
            or, with P calls CALL, each way to an end has this call";
    "may-wait", Takes::Texts("P"),
        "With ended or halted: process P may wait for ever; \
            'P at A' or 'P at A-B' only if its program counter is there";
    "never", Takes::Texts("CONDITION"),
        "Fails unless the search is complete and this condition never holds, \
            or, with lost, no message is lost with its queue, \
            or, with refused, no call is answered with an error except EAGAIN, \
            or, with P calls CALL, no such call is made";
    "fair", Takes::Nothing, "Prints only rounds in which each process that can go on takes a step";
    "show", Takes::Text("WORDS"),
        "What is printed of each end: out, what the processes have written, in place of the report; \
            left, also the messages that are left; or both, with a comma between them";
    "first", Takes::Nothing, "Ends the search at the first failure";
    "schedule", Takes::Text("K|bad"),
        "Prints only the schedule of end K, or of the first failure";
    "trace", Takes::Text("K|bad"),
        "Also prints what happens in the run to end K, or to the first failure";
    "json", Takes::Nothing, "Prints the answers as JSON";
    "page", Takes::Text("FILE"),
        "Also writes FILE, a page that shows the ends and the run of each in a browser";
};
