//! The traps, by their vectors: the console's and the kernel's.

ghost use Rattle.std.specs.Prelude.{◌≡◌};
ghost use Rattle.lc3_table.specs.Text.{trap_text};
ghost use Rattle.lc3_table.specs.Traps.{console_vector, console_trap, is_kernel_vector};

/// A console trap (Patt and Patel, 2nd edition, table A.2).
#[derive(Clone, Copy, Debug, PartialEq, Eq)]
pub enum ConsoleTrap {
    /// Reads a character, without an echo.
    Getc,
    /// Writes a character.
    Out,
    /// Writes a string with a character in each word.
    Puts,
    /// Asks for a character, and reads it with an echo.
    In,
    /// Writes a string with two characters in each word.
    Putsp,
    /// Ends the process.
    Halt,
}

impl ConsoleTrap {
    /// The vector of the trap.
    #[inline(always)]
    pub fn vector(self) -> u8
        ensures vector { result ≡ console_vector self }
    {
        match self {
            ConsoleTrap::Getc => 0x20,
            ConsoleTrap::Out => 0x21,
            ConsoleTrap::Puts => 0x22,
            ConsoleTrap::In => 0x23,
            ConsoleTrap::Putsp => 0x24,
            ConsoleTrap::Halt => 0x25,
        }
    }

    /// The console trap with this vector.
    #[inline(always)]
    pub fn of_vector(vector: u8) -> Option<ConsoleTrap>
        ensures trap { result ≡ console_trap vector }
    {
        match vector {
            0x20 => Some(ConsoleTrap::Getc),
            0x21 => Some(ConsoleTrap::Out),
            0x22 => Some(ConsoleTrap::Puts),
            0x23 => Some(ConsoleTrap::In),
            0x24 => Some(ConsoleTrap::Putsp),
            0x25 => Some(ConsoleTrap::Halt),
            _ => None,
        }
    }

    /// The name by which a line of a source calls the trap, and by which its word is shown.
    pub fn name(self) -> &'static str
        ensures text { result.now ≡ trap_text (console_vector self) }
    {
        match self {
            ConsoleTrap::Getc => "GETC",
            ConsoleTrap::Out => "OUT",
            ConsoleTrap::Puts => "PUTS",
            ConsoleTrap::In => "IN",
            ConsoleTrap::Putsp => "PUTSP",
            ConsoleTrap::Halt => "HALT",
        }
    }
}

/// Whether a trap with this vector is a call of the kernel.
#[inline(always)]
pub fn is_kernel_vector(vector: u8) -> bool
    ensures value { result ≡ is_kernel_vector vector }
{
    matches!(vector, 0x40..=0x46 | 0x50..=0x56)
}
