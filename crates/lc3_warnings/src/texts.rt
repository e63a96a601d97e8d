//! The names and the texts of warnings.
ghost use Rattle.std.specs.Prelude.{◌≡◌, ◌++◌, Some, OnOk, string_bytes};
ghost use Rattle.lc3_warnings.specs.Texts.{warning_name, field_text, warning_text};

use lc3_table::{Form, Instr};
use lc3_word::Hex;
use std::alloc::AllocError;
use std::fmt;
use std::fmt::Write;

impl Kind {
    /// The name of the warning.
    pub fn name(self) -> &'static str
        ensures name { result.now ≡ warning_name self }
    {
        match self {
            Kind::Wraps { .. } => "wraps",
            Kind::UnknownTrap => "unknown-trap",
            Kind::DecimalOrigin { .. } => "decimal-origin",
            Kind::Misspelt => "misspelt",
            Kind::CallName { .. } => "call-name",
            Kind::UnusedLabel => "unused-label",
            Kind::StartsInData => "starts-in-data",
            Kind::RunsIntoData { .. } => "runs-into-data",
            Kind::RunsPastEnd => "runs-past-end",
            Kind::FallsInto => "falls-into",
            Kind::LostReturn { .. } => "r7",
            Kind::StaleCodes { .. } => "stale-codes",
            Kind::LoadedString { .. } => "loaded-string",
            Kind::AfterEnd { .. } => "after-end",
        }
    }
}

fn field_text(form: Form) -> &'static str
    ensures text { result.now ≡ field_text form }
{
    match form {
        Form::RegisterOrImmediate => "a number from -16 to 15",
        Form::Offset => "a number from -32 to 31",
        Form::Target => "a number from -256 to 255",
        Form::FarTarget => "a number from -1,024 to 1,023",
        _ => "a number",
    }
}

/// The text of a warning about a word, as it is shown: the one that is marked, of a return the operation of the line that
/// has written R7, and of a branch that of the trap.
#[derive(Clone, Copy)]
struct WarningText<'a>(pub Kind, pub &'a str);

impl fmt::Display for WarningText<'_> {
    ghost output = { λ t. Some (warning_text t.0 t.1.now) };

    fn fmt<W: fmt::Write>(&self, f: &mut fmt::Formatter<W>) -> fmt::Result {
        let word = self.1;
        match self.0 {
            Kind::Wraps { form, value } => {
                let field = field_text(form);
                write!(f, "{word} is taken as #{value}; expected {field}")
            }
            Kind::UnknownTrap => write!(
                f,
                "this trap ends the process as badtrap; the traps are x20 to x25, x40 to x46 and x50 to x56"
            ),
            Kind::DecimalOrigin { address } => write!(
                f,
                "{word} is decimal, the address {}; did you mean x{address}?",
                Hex(address)
            ),
            Kind::Misspelt => write!(f, "{word} is read as a label"),
            Kind::CallName { vector } => {
                let call = Instr::Trap { vector };
                write!(f, "{word} is read as a label; the call is {call}")
            }
            Kind::UnusedLabel => write!(f, "no line names the label {word}"),
            Kind::StartsInData => write!(f, "execution begins here, and this is data"),
            Kind::RunsIntoData { next } => write!(
                f,
                "execution goes on into the data of line {next}; is a HALT missing?"
            ),
            Kind::RunsPastEnd => write!(
                f,
                "execution goes on after this last word; is a HALT missing?"
            ),
            Kind::FallsInto => write!(
                f,
                "execution goes on from above into the subroutine {word}; is a RET or a HALT missing?"
            ),
            Kind::LostReturn { writer } => write!(
                f,
                "{word} in line {writer} has written R7, so this goes back to just after it; store R7 before it and load it again"
            ),
            Kind::StaleCodes { trap } => write!(
                f,
                "{word} in line {trap} sets no condition codes, so this reads those from before it; ADD R0,R0,#0 between them sets them by R0"
            ),
            Kind::LoadedString { next } => write!(
                f,
                "{word} loads a word into R0, and line {next} prints the string at the address in R0; LEA loads the address of a string"
            ),
            Kind::AfterEnd { end } => write!(f, "nothing after the .END of line {end} is read"),
        }
    }
}

/// Adds the text of a warning about a word.
pub fn push_text(text: &mut String, kind: Kind, word: &str) -> Result<(), AllocError>
    ensures text { OnOk result (string_bytes text.new
        ≡ string_bytes text.old ++ warning_text kind word.now) }
{
    write!(text, "{}", WarningText(kind, word))
}

/// What a warning says.
#[derive(Clone, Copy)]
pub enum Kind {
    /// The number of an instruction's field means another one, this value; the form says which field it is.
    Wraps { form: Form, value: i16 },
    /// The vector of a TRAP is none of those that are known.
    UnknownTrap,
    /// `.ORIG` has this address as a decimal number.
    DecimalOrigin { address: u16 },
    /// The label that stands alone in the line was meant as an operation.
    Misspelt,
    /// The label that stands alone in the line is the name of the call with this vector.
    CallName { vector: u8 },
    /// No line names the label that the line defines.
    UnusedLabel,
    /// Execution begins at data.
    StartsInData,
    /// Execution goes on into the data of the line of this number, from 1.
    RunsIntoData { next: usize },
    /// Execution goes on behind the last word.
    RunsPastEnd,
    /// Execution goes on from above into the subroutine that begins in the line.
    FallsInto,
    /// A subroutine goes back, and the line of this number, from 1, has written R7.
    LostReturn { writer: usize },
    /// A branch reads the condition codes from before the trap in the line of this number, from 1.
    StaleCodes { trap: usize },
    /// A word of a string is loaded, and the line of this number, from 1, takes the address of a string.
    LoadedString { next: usize },
    /// The line stands behind the `.END` of the line of this number, from 1.
    AfterEnd { end: usize },
}

/// A warning about a line of a text.
#[derive(Clone, Copy)]
pub struct Warning {
    /// The number of the line, from 1.
    pub line: usize,
    /// What is said.
    pub kind: Kind,
}
