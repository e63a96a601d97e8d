//! Programs for tests, as the words that the assembler makes of the repository's examples, and worlds of them.
use lab_debug::Session;
use lab_sched::{Fresh, FreshFault, Program, World};
use lc3_table::Profile;
use lc3_word::Image;
use std::alloc::{AllocError, Global};

/// HALT.
pub const HALT: &[u16] = &[0xf025];

/// `examples/waiter.asm`: makes a semaphore with the value 0 and waits for it; five steps.
pub const WAITER: &[u16] = &[
    0xe005, 0x2207, 0x54a0, 0xf050, 0xf053, 0xf025, 0x2f, 0x73, 0, 0x40,
];

/// `examples/two-semaphores-1.asm`: waits for the semaphores /a and then /b, each of value 1, and posts them in turn; 18
/// steps.
pub const FIRST: &[u16] = &[
    0xe011, 0x2216, 0x54a0, 0x14a1, 0xf050, 0x1820, 0xe00e, 0xf050, 0x1a20, 0x1120, 0xf053, 0x1160,
    0xf053, 0x1160, 0xf055, 0x1120, 0xf055, 0xf025, 0x2f, 0x61, 0, 0x2f, 0x62, 0, 0x40,
];

/// `examples/two-semaphores-2.asm`: the same with /b first.
pub const SECOND: &[u16] = &[
    0xe011, 0x2216, 0x54a0, 0x14a1, 0xf050, 0x1820, 0xe00e, 0xf050, 0x1a20, 0x1120, 0xf053, 0x1160,
    0xf053, 0x1160, 0xf055, 0x1120, 0xf055, 0xf025, 0x2f, 0x62, 0, 0x2f, 0x61, 0, 0x40,
];

/// `examples/producer.asm`: opens the queue /q and sends six messages; eight calls with its end.
pub const PRODUCER: &[u16] = &[
    0xe010, 0x2212, 0x54a0, 0xf040, 0x3010, 0xe810, 0x200e, 0x1320, 0x54a0, 0x14a1, 0x56e0, 0xf043,
    0x6b00, 0x0402, 0x1921, 0x0ff6, 0xf025, 0x2f, 0x71, 0, 0x41, 0, 1, 2, 3, 4, 5, 0,
];

/// `examples/consumer.asm` without the zeros of its buffer: opens /q and receives until a message is zero.
pub const CONSUMER: &[u16] = &[
    0xe010, 0x2212, 0x54a0, 0xf040, 0x3012, 0x2011, 0xe211, 0x240d, 0x56e0, 0xf044, 0x200d, 0x0404,
    0x2209, 0x1001, 0xf021, 0x0ff5, 0xf025, 0x2f, 0x71, 0, 0x40, 0x10, 0x30,
];

fn program(alloc: Global, words: &[u16]) -> Result<Program, AllocError> {
    match Image::new(0x3000, words.to_vec(alloc)?) {
        Ok(image) => Ok(Program {
            image,
            input: Vec::new(alloc),
        }),
        Err(_) => Err(AllocError),
    }
}

fn listed(alloc: Global, programs: &[&[u16]]) -> Result<Vec<Program>, AllocError> {
    let mut list = Vec::new(alloc);
    for words in programs {
        list.push(program(alloc, words)?)?;
    }
    Ok(list)
}

fn fresh_once(alloc: Global, programs: &[&[u16]]) -> Result<Fresh, FreshFault> {
    let list = listed(alloc, programs)?;
    Fresh::new(alloc, list.as_slice(), Profile::A)
}

fn session_once(alloc: Global, programs: &[&[u16]]) -> Result<Session, FreshFault> {
    Session::new(
        alloc,
        listed(alloc, programs)?,
        Vec::new(alloc),
        "the commands\n",
        Profile::A,
    )
}

/// A session of these programs in profile A. What is refused for memory is tried once more.
pub fn start_session(alloc: Global, programs: &[&[u16]]) -> Result<Session, FreshFault> {
    match session_once(alloc, programs) {
        Err(FreshFault::NoMemory) => session_once(alloc, programs),
        made => made,
    }
}

/// The laboratory of these programs in profile A. What is refused for memory is tried once more.
pub fn fresh(alloc: Global, programs: &[&[u16]]) -> Result<Fresh, FreshFault> {
    match fresh_once(alloc, programs) {
        Err(FreshFault::NoMemory) => fresh_once(alloc, programs),
        made => made,
    }
}

/// The world of these programs at their starts.
pub fn world(alloc: Global, programs: &[&[u16]]) -> Result<World, FreshFault> {
    Ok(World::from(fresh(alloc, programs)?))
}
