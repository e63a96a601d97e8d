//! What help says of operations, directives and calls: one table for what is shown and what is completed.

/// An operation, a directive, a trap of the console or a call of the kernel.
#[derive(Clone, Copy)]
pub(crate) struct Word {
    pub name: &'static str,
    /// That of a trap or a call.
    pub vector: Option<u8>,
    /// How it is written; of a call, what it takes by registers.
    pub form: &'static str,
    /// What it does; of a call, and what stands in R0 after it.
    pub about: &'static str,
    /// The errors that a call may answer with, with a blank between.
    pub errors: &'static str,
    /// The lines that fill the registers of a call and make it, with places to fill in.
    pub lines: &'static str,
}

/// The table, each entry by its members in their order.
macro_rules! table {
    ($($name:literal, $vector:expr, $form:literal, $about:literal, $errors:literal, $lines:literal;)*) => {
        &[$(Word {
            name: $name,
            vector: $vector,
            form: $form,
            about: $about,
            errors: $errors,
            lines: $lines,
        }),*]
    };
}

/// Operations and directives.
const INSTRUCTIONS: &[Word] = table! {
    "ADD", None, "ADD DR,SR1,SR2 or imm5",
        "DR = SR1 + SR2, or SR1 + imm5; sets the codes", "", "";
    "AND", None, "AND DR,SR1,SR2 or imm5",
        "DR = SR1 and SR2, bit by bit, or SR1 and imm5; sets the codes", "", "";
    "NOT", None, "NOT DR,SR",
        "DR = the complement of SR; sets the codes", "", "";
    "BR", None, "BR LABEL",
        "goes to LABEL, or where n, z or p are given if the code that is set is among them", "", "";
    "JMP", None, "JMP BaseR",
        "goes to the address in BaseR", "", "";
    "JSR", None, "JSR LABEL",
        "R7 = the address of the next instruction; goes to LABEL", "", "";
    "JSRR", None, "JSRR BaseR",
        "R7 = the address of the next instruction; goes to the address that was in BaseR", "", "";
    "LD", None, "LD DR,LABEL",
        "DR = the word at LABEL; sets the codes", "", "";
    "LDI", None, "LDI DR,LABEL",
        "DR = the word at the address that stands at LABEL; sets the codes", "", "";
    "LDR", None, "LDR DR,BaseR,offset6",
        "DR = the word at BaseR + offset6; sets the codes", "", "";
    "LEA", None, "LEA DR,LABEL",
        "DR = the address LABEL; sets the codes in profile a", "", "";
    "ST", None, "ST SR,LABEL",
        "the word at LABEL = SR", "", "";
    "STI", None, "STI SR,LABEL",
        "the word at the address that stands at LABEL = SR", "", "";
    "STR", None, "STR SR,BaseR,offset6",
        "the word at BaseR + offset6 = SR", "", "";
    "TRAP", None, "TRAP vector",
        "a call of the console (x20 to x25) or of the kernel (x40 to x46, x50 to x56)", "", "";
    "RET", None, "RET",
        "goes to the address in R7", "", "";
    "RTI", None, "RTI",
        "ends the process: illegal", "", "";
    "NOP", None, "NOP",
        "does nothing", "", "";
    ".ORIG", None, ".ORIG address",
        "the address of the first word; comes first", "", "";
    ".FILL", None, ".FILL number or LABEL",
        "one word", "", "";
    ".BLKW", None, ".BLKW count",
        "so many words x0000", "", "";
    ".STRINGZ", None, ".STRINGZ \"text\"",
        "a word for each character, then x0000", "", "";
    ".END", None, ".END",
        "ends the source", "", "";
};

/// Traps of the console and calls of the kernel, by their vectors.
const TRAPS: &[Word] = table! {
    "GETC", Some(0x20), "GETC, TRAP x20",
        "R0 = the next character of the input; none left ends the process: noinput", "", "";
    "OUT", Some(0x21), "OUT, TRAP x21",
        "writes the character in R0", "", "";
    "PUTS", Some(0x22), "PUTS, TRAP x22",
        "writes the words from the address in R0 on, up to x0000", "", "LEA R0,${1:TEXT}\nPUTS";
    "IN", Some(0x23), "IN, TRAP x23",
        "writes a prompt, then R0 = the next character, which is written too", "", "";
    "PUTSP", Some(0x24), "PUTSP, TRAP x24",
        "writes the words from the address in R0 on, two characters each, up to x0000", "", "";
    "HALT", Some(0x25), "HALT, TRAP x25",
        "ends the process", "", "";
    "mq_open", Some(0x40), "mq_open(R0 name, R1 flags, R2 attributes or 0)",
        "R0 = a descriptor", "EFAULT ENAMETOOLONG EINVAL EEXIST ENOENT EMFILE ENOSPC", "LEA R0,${1:NAME}\nLD R1,${2:FLAGS}\nAND R2,R2,#0\nTRAP x40";
    "mq_close", Some(0x41), "mq_close(R0 descriptor)",
        "R0 = 0", "EBADF", "LD R0,${1:QUEUE}\nTRAP x41";
    "mq_unlink", Some(0x42), "mq_unlink(R0 name)",
        "the queue loses its name; R0 = 0", "EFAULT ENAMETOOLONG EINVAL ENOENT", "LEA R0,${1:NAME}\nTRAP x42";
    "mq_send", Some(0x43), "mq_send(R0 descriptor, R1 buffer, R2 length, R3 priority)",
        "waits while the queue is full; R0 = 0", "EFAULT EBADF EINVAL EMSGSIZE EAGAIN", "LD R0,${1:QUEUE}\nLEA R1,${2:BUFFER}\nLD R2,${3:LENGTH}\nAND R3,R3,#0\nTRAP x43";
    "mq_receive", Some(0x44), "mq_receive(R0 descriptor, R1 buffer, R2 its length, R3 address for the priority or 0)",
        "waits while the queue is empty; R0 = the length of the message", "EFAULT EBADF EMSGSIZE EAGAIN", "LD R0,${1:QUEUE}\nLEA R1,${2:BUFFER}\nLD R2,${3:LENGTH}\nAND R3,R3,#0\nTRAP x44";
    "mq_getattr", Some(0x45), "mq_getattr(R0 descriptor, R1 address)",
        "four words at R1; R0 = 0", "EFAULT EBADF", "LD R0,${1:QUEUE}\nLEA R1,${2:ATTRIBUTES}\nTRAP x45";
    "mq_setattr", Some(0x46), "mq_setattr(R0 descriptor, R1 new attributes, R2 address for the old ones or 0)",
        "sets or clears O_NONBLOCK; R0 = 0", "EFAULT EBADF EINVAL", "LD R0,${1:QUEUE}\nLEA R1,${2:ATTRIBUTES}\nAND R2,R2,#0\nTRAP x46";
    "sem_open", Some(0x50), "sem_open(R0 name, R1 flags, R2 value)",
        "R0 = a slot", "EFAULT ENAMETOOLONG EINVAL EEXIST ENOENT EMFILE ENOSPC", "LEA R0,${1:NAME}\nLD R1,${2:FLAGS}\nLD R2,${3:VALUE}\nTRAP x50";
    "sem_close", Some(0x51), "sem_close(R0 slot)",
        "R0 = 0", "EINVAL", "LD R0,${1:SLOT}\nTRAP x51";
    "sem_unlink", Some(0x52), "sem_unlink(R0 name)",
        "the semaphore loses its name; R0 = 0", "EFAULT ENAMETOOLONG EINVAL ENOENT", "LEA R0,${1:NAME}\nTRAP x52";
    "sem_wait", Some(0x53), "sem_wait(R0 slot)",
        "waits while the value is 0, then takes one; R0 = 0", "EINVAL", "LD R0,${1:SLOT}\nTRAP x53";
    "sem_trywait", Some(0x54), "sem_trywait(R0 slot)",
        "takes one; R0 = 0", "EINVAL EAGAIN", "LD R0,${1:SLOT}\nTRAP x54";
    "sem_post", Some(0x55), "sem_post(R0 slot)",
        "adds one to the value; R0 = 0", "EINVAL EOVERFLOW", "LD R0,${1:SLOT}\nTRAP x55";
    "sem_getvalue", Some(0x56), "sem_getvalue(R0 slot, R1 address)",
        "the value at R1; R0 = 0", "EFAULT EINVAL", "LD R0,${1:SLOT}\nLEA R1,${2:VALUE}\nTRAP x56";
};

impl Word {
    /// The vector, if the kernel answers it.
    pub fn call(&self) -> Option<u8> {
        self.vector.filter(|vector| *vector >= 0x40)
    }
}

fn instructions() -> &'static [Word] {
    INSTRUCTIONS
}

/// Traps of the console and calls of the kernel.
pub(crate) fn traps() -> &'static [Word] {
    TRAPS
}

/// The entry of this name, in capital letters; each `BR` is one.
pub(crate) fn word_of(name: &str) -> Option<&'static Word> {
    let name = if name.starts_with("BR") { "BR" } else { name };
    let instruction = instructions().iter().find(|word| word.name == name);
    instruction.or(traps().iter().find(|word| word.name == name))
}

/// The trap or call with this vector.
pub(crate) fn word_at(number: i64) -> Option<&'static Word> {
    let vector = u8::try_from(number).ok()?;
    traps().iter().find(|word| word.vector == Some(vector))
}
