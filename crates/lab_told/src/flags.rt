//! Flags by their names.
ghost use Rattle.std.specs.Prelude.{◌≡◌, Some, if◌then◌else◌, []};
ghost use Rattle.ipc_names.specs.Flags.{has_flag};
ghost use Rattle.lab_told.specs.Flags.{rest_part, mq_flags, sem_flags, flag_word};

use ipc_names::{O_ACCMODE, O_CREAT, O_EXCL, O_NONBLOCK};
use lc3_word::Hex;
use std::fmt;

/// Whether a word has a one in some of these bits.
pub fn has_flag(flag: u16, word: u16) -> bool
    ensures value { result ≡ has_flag flag word }
{
    word & flag != 0
}

fn where_set(flag: u16, word: u16, text: &'static str) -> &'static str
    ensures text { result.now ≡ (if has_flag flag word then text.now else []) }
{
    if has_flag(flag, word) { text } else { "" }
}

/// The bits of a word that have no name, where there are any, behind a bar where a flag stands before them.
#[derive(Clone, Copy)]
struct Rest {
    begun: bool,
    unnamed: u16,
    word: u16,
}

impl fmt::Display for Rest {
    ghost output = { λ r. Some (rest_part r.begun r.unnamed r.word) };

    #[tactic(auto, unfolding(crate::specs::Flags::rest_part))]
    fn fmt<W: fmt::Write>(&self, f: &mut fmt::Formatter<W>) -> fmt::Result {
        if !has_flag(self.unnamed, self.word) {
            return Ok(());
        }
        let bar = if self.begun { "|" } else { "" };
        let bits = Hex(self.word & self.unnamed);
        write!(f, "{bar}{bits}")
    }
}

/// The flags of mq_open.
#[derive(Clone, Copy)]
pub struct MqFlags(pub u16);

impl fmt::Display for MqFlags {
    ghost output = { λ x. Some (mq_flags x.0) };

    #[tactic(auto, unfolding(crate::specs::Flags::mq_flags, crate::specs::Flags::flag_part))]
    fn fmt<W: fmt::Write>(&self, f: &mut fmt::Formatter<W>) -> fmt::Result {
        let word = self.0;
        let access = match word & O_ACCMODE {
            0 => "O_RDONLY",
            1 => "O_WRONLY",
            2 => "O_RDWR",
            _ => "x0003",
        };
        let create = where_set(O_CREAT, word, "|O_CREAT");
        let exclusive = where_set(O_EXCL, word, "|O_EXCL");
        let nonblock = where_set(O_NONBLOCK, word, "|O_NONBLOCK");
        let rest = Rest {
            begun: true,
            unnamed: 0xFFFF - O_ACCMODE - O_CREAT - O_EXCL - O_NONBLOCK,
            word,
        };
        write!(f, "{access}{create}{exclusive}{nonblock}{rest}")
    }
}

/// The flags of sem_open.
#[derive(Clone, Copy)]
pub struct SemFlags(pub u16);

impl fmt::Display for SemFlags {
    ghost output = { λ x. Some (sem_flags x.0) };

    #[tactic(auto, unfolding(crate::specs::Flags::sem_flags, crate::specs::Flags::flag_part))]
    fn fmt<W: fmt::Write>(&self, f: &mut fmt::Formatter<W>) -> fmt::Result {
        let word = self.0;
        if word == 0 {
            return write!(f, "0");
        }
        let create = where_set(O_CREAT, word, "O_CREAT");
        let bar = if has_flag(O_CREAT, word) {
            "|O_EXCL"
        } else {
            "O_EXCL"
        };
        let exclusive = where_set(O_EXCL, word, bar);
        let rest = Rest {
            begun: has_flag(O_CREAT | O_EXCL, word),
            unnamed: 0xFFFF - O_CREAT - O_EXCL,
            word,
        };
        write!(f, "{create}{exclusive}{rest}")
    }
}

/// mq_flags of the attributes of a queue.
#[derive(Clone, Copy)]
pub struct AttributeFlags(pub u16);

impl fmt::Display for AttributeFlags {
    ghost output = { λ x. Some (flag_word x.0) };

    #[tactic(auto, unfolding(crate::specs::Flags::flag_word, crate::specs::Flags::flag_part))]
    fn fmt<W: fmt::Write>(&self, f: &mut fmt::Formatter<W>) -> fmt::Result {
        let word = self.0;
        if word == 0 {
            return write!(f, "0");
        }
        let nonblock = where_set(O_NONBLOCK, word, "O_NONBLOCK");
        let rest = Rest {
            begun: has_flag(O_NONBLOCK, word),
            unnamed: 0xFFFF - O_NONBLOCK,
            word,
        };
        write!(f, "{nonblock}{rest}")
    }
}
