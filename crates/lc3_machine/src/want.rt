/// How a process ends.
#[derive(Clone, Copy, PartialEq, Eq, Debug)]
pub enum How {
    /// By the trap HALT.
    Halt,
    /// Before a word that is no instruction, or RTI.
    Illegal,
    /// Before a fetch, a load, a store or a string that reaches the device registers, xFE00 and above.
    Device,
    /// Before a trap whose vector is neither a console trap's nor the kernel's.
    BadTrap,
    /// Before GETC or IN, with no input left.
    NoInput,
}

/// What a process that stands before a call wants.
#[derive(Clone, Copy, PartialEq, Eq, Debug)]
pub enum Want {
    /// The answer of a kernel trap with this vector: x40 to x46 for queues, x50 to x56 for semaphores.
    Trap(u8),
    /// Its end.
    End(How),
}
