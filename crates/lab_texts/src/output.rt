//! What processes have written.
ghost use Rattle.std.specs.Prelude.{◌≡◌, Some, IfOk, string_bytes};
ghost use Rattle.lab_texts.specs.Texts.{escape_text, out_text};

use lab_sched::World;
use std::alloc::{AllocError, Global};
use std::fmt;

/// A byte by its two hexadecimal digits.
#[derive(Clone, Copy)]
pub struct Escape(pub u8);

impl fmt::Display for Escape {
    ghost output = { λ e. Some (escape_text e.0) };

    #[tactic(auto, using(std::proofs::lemmas::Fmt::hex_byte))]
    fn fmt<W: fmt::Write>(&self, f: &mut fmt::Formatter<W>) -> fmt::Result {
        let byte = self.0;
        write!(f, "\\x{byte:02X}")
    }
}

/// The output line of process `pid`, where the process is there.
#[derive(Clone, Copy)]
pub(crate) struct OutputLine<'a>(pub &'a World, pub usize);

impl fmt::Display for OutputLine<'_> {
    ghost output = { λ o. Some (out_text o.1 o.0.now) };

    #[tactic(auto, unfolding(crate::specs::Texts::out_line, crate::specs::Texts::escape_of, crate::specs::Texts::is_plain))]
    fn fmt<W: fmt::Write>(&self, f: &mut fmt::Formatter<W>) -> fmt::Result {
        let OutputLine(world, pid) = *self;
        let Some(process) = world.process(pid) else {
            return Ok(());
        };
        let output = process.machine().output();
        write!(f, "out {pid}")?;
        if !output.is_empty() {
            write!(f, " ")?;
        }
        for byte in output {
            let byte = *byte;
            if b' ' <= byte && byte <= b'~' && byte != b'\\' {
                let character = char::from(byte);
                write!(f, "{character}")?;
                continue;
            }
            let escape = Escape(byte);
            write!(f, "{escape}")?;
        }
        write!(f, "\n")
    }
}

/// What process `pid` has written, on one line; a byte that can't be printed, and a backslash, is
/// written `\\x` and two digits.
pub fn out_text(alloc: Global, world: &World, pid: usize) -> Result<String, AllocError>
    ensures text { IfOk result (λ s. string_bytes s ≡ out_text pid world.now) }
{
    let line = OutputLine(world, pid);
    format!(in alloc; "{line}")
}
