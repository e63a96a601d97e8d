//! The profiles of the machine.

ghost use Rattle.std.specs.Prelude.{Some};
ghost use Rattle.lc3_table.specs.Profiles.{profile_letter};

use std::fmt;

/// Which machine it is, where LEA and TRAP leave a choice. All else is the same in both.
#[derive(Clone, Copy, PartialEq, Eq, Debug)]
pub enum Profile {
    /// The machine of Patt and Patel, Introduction to Computing Systems, 2nd edition, appendix A: LEA sets the
    /// condition codes, and a TRAP puts the incremented PC into R7.
    A,
    /// This laboratory's own: LEA leaves the condition codes as they were, and a TRAP leaves R7 so, HALT included.
    B,
}

impl fmt::Display for Profile {
    ghost output = { λ p. Some (profile_letter p) };

    fn fmt<W: fmt::Write>(&self, f: &mut fmt::Formatter<W>) -> fmt::Result {
        match *self {
            Profile::A => write!(f, "a"),
            Profile::B => write!(f, "b"),
        }
    }
}
