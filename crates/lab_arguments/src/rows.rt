//! The program, its commands and their options, as rows that say what help says of them.

/// What words give to an option.
#[derive(Clone, Copy)]
pub enum Takes {
    /// A word at a place of its own, which must be there.
    Place,
    /// Such words, one or more.
    Places,
    /// Nothing: the option is there or not.
    Nothing,
    /// A text, and what it is called.
    Text(&'static str),
    /// A text, each time that the option is there, and what it is called.
    Texts(&'static str),
    /// A process and its source for a page, each time that the option is there.
    Sources,
    /// A number, from 1 to this one, and what it is called.
    UpTo(&'static str, u32),
    /// Such a number, and the one where words give none.
    Usually(&'static str, u32, &'static str),
    /// A number, and what it is called.
    Number(&'static str),
    /// The name of a profile.
    Profile,
    /// The name of a warning, each time that the option is there.
    Warnings,
}

/// An option of a command.
pub struct Row {
    /// What it is called.
    pub name: &'static str,
    /// What words give to it.
    pub takes: Takes,
    /// What help says of it.
    pub help: &'static str,
}

/// A command.
pub struct CommandRow {
    /// What it is called.
    pub name: &'static str,
    /// What help says of it.
    pub about: &'static str,
    /// What help shows behind its options.
    pub example: &'static str,
    /// Its options, in the order of help.
    pub options: &'static [Row],
}

/// The program.
pub struct ProgramRow {
    /// What help says of it.
    pub about: &'static str,
    /// Its version.
    pub version: &'static str,
    /// What help shows behind its commands.
    pub example: &'static str,
    /// Its commands, in the order of help.
    pub commands: &'static [CommandRow],
}
