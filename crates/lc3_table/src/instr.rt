//! The instructions of the LC-3 (Patt and Patel, appendix A.3), one variant for each row of the instruction table.

use lc3_word::{Off, Reg};

/// The second operand of ADD and AND.
#[derive(Clone, Copy, Debug, PartialEq, Eq)]
pub enum Operand {
    Register(Reg),
    /// An immediate of 5 bits.
    Number(Off<5>),
}

/// An instruction. `dr` is the destination register, `sr`, `sr1` and the operand's are source registers, `base` is the
/// base register, and an offset counts words, from the incremented PC where no base stands beside it.
#[derive(Clone, Copy, Debug, PartialEq, Eq)]
pub enum Instr {
    /// Sum.
    Add {
        dr: Reg,
        sr1: Reg,
        operand: Operand,
    },
    /// Bitwise and.
    And {
        dr: Reg,
        sr1: Reg,
        operand: Operand,
    },
    /// Bitwise complement.
    Not {
        dr: Reg,
        sr: Reg,
    },
    /// Branch where the condition code that is set is among `n`, `z` and `p`.
    Br {
        n: bool,
        z: bool,
        p: bool,
        offset: Off<9>,
    },
    /// Jump to the address in a register. `RET` is `base` 7.
    Jmp {
        base: Reg,
    },
    /// Jump to a subroutine by an offset.
    Jsr {
        offset: Off<11>,
    },
    /// Jump to the subroutine whose address is in a register.
    Jsrr {
        base: Reg,
    },
    /// Load.
    Ld {
        dr: Reg,
        offset: Off<9>,
    },
    /// Load indirect: through a pointer in memory.
    Ldi {
        dr: Reg,
        offset: Off<9>,
    },
    /// Load from a base register and an offset.
    Ldr {
        dr: Reg,
        base: Reg,
        offset: Off<6>,
    },
    /// Load effective address.
    Lea {
        dr: Reg,
        offset: Off<9>,
    },
    /// Store.
    St {
        sr: Reg,
        offset: Off<9>,
    },
    /// Store indirect: through a pointer in memory.
    Sti {
        sr: Reg,
        offset: Off<9>,
    },
    /// Store to a base register and an offset.
    Str {
        sr: Reg,
        base: Reg,
        offset: Off<6>,
    },
    /// Return from interrupt.
    Rti,
    /// System call by a vector of 8 bits.
    Trap {
        vector: u8,
    },
}
