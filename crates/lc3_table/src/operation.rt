//! Operations and directives, and what each takes.

ghost use Rattle.std.specs.Prelude.{◌≡◌};
ghost use Rattle.lc3_table.specs.Words.{name, operations};
ghost use Rattle.lc3_table.specs.declared.operation.Operation.TheVariants as op;

use crate::trap::ConsoleTrap;

/// An operation or directive, as a line names it.
#[derive(Clone, Copy, Debug, PartialEq, Eq)]
pub enum Operation {
    Add,
    And,
    Not,
    Branch {
        negative: bool,
        zero: bool,
        positive: bool,
    },
    Jump,
    JumpSubroutine,
    JumpSubroutineRegister,
    Load,
    LoadIndirect,
    LoadBaseOffset,
    LoadAddress,
    Return,
    ReturnInterrupt,
    Store,
    StoreIndirect,
    StoreBaseOffset,
    Trap,
    Getc,
    Out,
    Puts,
    In,
    Putsp,
    Halt,
    NoOperation,
    Origin,
    Fill,
    Block,
    Text,
    End,
}

/// What may stand as an operand.
#[derive(Clone, Copy, Debug, PartialEq, Eq)]
pub enum Form {
    Register,
    /// A register, or a number of 5 bits.
    RegisterOrImmediate,
    /// A number of 6 bits.
    Offset,
    /// A label, or a number of 9 bits.
    Target,
    /// A label, or a number of 11 bits.
    FarTarget,
    /// A number from 0 to 255.
    Vector,
    /// A number from 0 to `FIRST_DEVICE`.
    Address,
    /// A number from 1 to `FIRST_DEVICE`.
    Count,
    /// A label, or a number from -32,768 to 65,535.
    Value,
    Characters,
}

/// What is wrong with a text.
#[derive(Clone, Copy, Debug, PartialEq, Eq)]
pub enum Fault {
    NoOrig,
    SecondOrig,
    BadToken,
    BadOperation,
    BadOperands,
    BadNumber,
    Range,
    BadString,
    BadLabel,
    DuplicateLabel,
    TooLong,
    Undefined,
    OffsetRange,
}

const OPERATIONS: [Operation; 35] = [
    Operation::Add,
    Operation::And,
    Operation::Not,
    Operation::Branch {
        negative: true,
        zero: false,
        positive: false,
    },
    Operation::Branch {
        negative: false,
        zero: true,
        positive: false,
    },
    Operation::Branch {
        negative: false,
        zero: false,
        positive: true,
    },
    Operation::Branch {
        negative: true,
        zero: true,
        positive: false,
    },
    Operation::Branch {
        negative: false,
        zero: true,
        positive: true,
    },
    Operation::Branch {
        negative: true,
        zero: false,
        positive: true,
    },
    Operation::Branch {
        negative: true,
        zero: true,
        positive: true,
    },
    Operation::Jump,
    Operation::JumpSubroutine,
    Operation::JumpSubroutineRegister,
    Operation::Load,
    Operation::LoadIndirect,
    Operation::LoadBaseOffset,
    Operation::LoadAddress,
    Operation::Return,
    Operation::ReturnInterrupt,
    Operation::Store,
    Operation::StoreIndirect,
    Operation::StoreBaseOffset,
    Operation::Trap,
    Operation::NoOperation,
    Operation::Getc,
    Operation::Out,
    Operation::Puts,
    Operation::In,
    Operation::Putsp,
    Operation::Halt,
    Operation::Origin,
    Operation::Fill,
    Operation::Block,
    Operation::Text,
    Operation::End,
];

/// Each operation and directive, a branch by each choice of codes but none: what a line's word can name (Patt and
/// Patel, appendix A and section 7.2).
pub fn operations() -> &'static [Operation]
    ensures list { result.now ≡ operations }
{
    &OPERATIONS
}

#[tactic(auto, unfolding(crate::specs::Words::name))]
fn branch_name(negative: bool, zero: bool, positive: bool) -> &'static str
    ensures value { result.now ≡ name (op.Branch negative zero positive) }
{
    match (negative, zero, positive) {
        (true, true, true) => "BRnzp",
        (true, true, false) => "BRnz",
        (true, false, true) => "BRnp",
        (true, false, false) => "BRn",
        (false, true, true) => "BRzp",
        (false, true, false) => "BRz",
        (false, false, true) => "BRp",
        (false, false, false) => "BR",
    }
}

impl Operation {
    ghost use Rattle.lc3_table.specs.Statements.{forms};

    /// The operation's name, in upper case but for the letters of a branch.
    #[tactic(auto, unfolding(crate::specs::Words::name))]
    pub fn name(self) -> &'static str
        ensures name { result.now ≡ name self }
    {
        match self {
            Operation::Add => "ADD",
            Operation::And => "AND",
            Operation::Not => "NOT",
            Operation::Branch {
                negative,
                zero,
                positive,
            } => branch_name(negative, zero, positive),
            Operation::Jump => "JMP",
            Operation::JumpSubroutine => "JSR",
            Operation::JumpSubroutineRegister => "JSRR",
            Operation::Load => "LD",
            Operation::LoadIndirect => "LDI",
            Operation::LoadBaseOffset => "LDR",
            Operation::LoadAddress => "LEA",
            Operation::Return => "RET",
            Operation::ReturnInterrupt => "RTI",
            Operation::Store => "ST",
            Operation::StoreIndirect => "STI",
            Operation::StoreBaseOffset => "STR",
            Operation::Trap => "TRAP",
            Operation::NoOperation => "NOP",
            Operation::Getc => ConsoleTrap::Getc.name(),
            Operation::Out => ConsoleTrap::Out.name(),
            Operation::Puts => ConsoleTrap::Puts.name(),
            Operation::In => ConsoleTrap::In.name(),
            Operation::Putsp => ConsoleTrap::Putsp.name(),
            Operation::Halt => ConsoleTrap::Halt.name(),
            Operation::Origin => ".ORIG",
            Operation::Fill => ".FILL",
            Operation::Block => ".BLKW",
            Operation::Text => ".STRINGZ",
            Operation::End => ".END",
        }
    }

    /// What may stand as each operand, from the left.
    pub fn forms(self) -> &'static [Form]
        ensures forms { result.now ≡ forms self }
    {
        match self {
            Operation::Add | Operation::And => {
                &[Form::Register, Form::Register, Form::RegisterOrImmediate]
            }
            Operation::Not => &[Form::Register, Form::Register],
            Operation::Jump | Operation::JumpSubroutineRegister => &[Form::Register],
            Operation::Branch { .. } => &[Form::Target],
            Operation::JumpSubroutine => &[Form::FarTarget],
            Operation::Load
            | Operation::LoadIndirect
            | Operation::LoadAddress
            | Operation::Store
            | Operation::StoreIndirect => &[Form::Register, Form::Target],
            Operation::LoadBaseOffset | Operation::StoreBaseOffset => {
                &[Form::Register, Form::Register, Form::Offset]
            }
            Operation::Trap => &[Form::Vector],
            Operation::Origin => &[Form::Address],
            Operation::Fill => &[Form::Value],
            Operation::Block => &[Form::Count],
            Operation::Text => &[Form::Characters],
            _ => &[],
        }
    }
}

impl Form {
    ghost use Rattle.lc3_table.specs.Statements.{takes_register, takes_label};

    /// Whether a register may stand there.
    pub fn takes_register(self) -> bool
        ensures answer { result ≡ takes_register self }
    {
        matches!(self, Form::Register | Form::RegisterOrImmediate)
    }

    /// Whether a label may stand there.
    pub fn takes_label(self) -> bool
        ensures answer { result ≡ takes_label self }
    {
        matches!(self, Form::Target | Form::FarTarget | Form::Value)
    }
}
