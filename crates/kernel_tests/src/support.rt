//! Kernels, names and calls for the tests.
ghost use Rattle.std.specs.Prelude.{◌≤◌};

use ipc_kernel::{Answer, Call, Kernel, Reply};
use ipc_names::Name;
use ipc_objects::Words;
use std::alloc::Global;
use std::process::Abort;

/// Names of one letter: `/q` and `/s`.
pub(crate) const Q: [u16; 2] = [0x2f, 0x71];

pub(crate) const S: [u16; 2] = [0x2f, 0x73];

pub(crate) fn kernel_of(rt: &impl Abort, alloc: Global, count: usize) -> Kernel
    requires at_least { 1 ≤ count }
    requires at_most { count ≤ 64 }
{
    match Kernel::new(alloc, count) {
        Ok(kernel) => kernel,
        Err(_) => Kernel::new(alloc, count).expect(rt, "memory"),
    }
}

pub(crate) fn name(rt: &impl Abort, alloc: Global, text: &[u16]) -> Name {
    let read = match Name::read(alloc, text) {
        Ok(read) => read,
        Err(_) => Name::read(alloc, text).expect(rt, "memory"),
    };
    read.expect(rt, "a name")
}

pub(crate) fn vector(rt: &impl Abort, alloc: Global, items: &[u16]) -> Vec<u16> {
    match Vec::from_slice(alloc, items) {
        Ok(items) => items,
        Err(_) => Vec::from_slice(alloc, items).expect(rt, "memory"),
    }
}

/// These words, which calls share.
pub(crate) fn words_of(rt: &impl Abort, alloc: Global, items: &[u16]) -> Words {
    match Words::from_vec(vector(rt, alloc, items)) {
        Ok(words) => words,
        Err(_) => Words::from_vec(vector(rt, alloc, items)).expect(rt, "memory"),
    }
}

/// mq_open of `/q` with these flags, for 4 messages of 2 words.
pub(crate) fn mq_open(rt: &impl Abort, alloc: Global, flags: u16) -> Call {
    Call::MqOpen {
        name: name(rt, alloc, &Q),
        flags,
        attr: Some([0, 4, 2, 0]),
    }
}

/// mq_send on descriptor 0.
pub(crate) fn mq_send(rt: &impl Abort, alloc: Global, items: &[u16], prio: u16) -> Call {
    Call::MqSend {
        mqd: 0,
        words: words_of(rt, alloc, items),
        prio,
    }
}

/// sem_open of `/s` with O_CREAT and the value 1.
pub(crate) fn sem_open(rt: &impl Abort, alloc: Global) -> Call {
    Call::SemOpen {
        name: name(rt, alloc, &S),
        flags: 0x40,
        value: 1,
    }
}

pub(crate) fn copy_of(rt: &impl Abort, alloc: Global, kernel: &Kernel) -> Kernel {
    match kernel.copy(alloc) {
        Ok(copy) => copy,
        Err(_) => kernel.copy(alloc).expect(rt, "memory"),
    }
}

/// The answer of a call. Where memory is refused the kernel is as before, and the same call then succeeds.
fn answer(rt: &impl Abort, alloc: Global, kernel: &mut Kernel, pid: usize, call: &Call) -> Answer {
    assert!(rt; pid < kernel.count(), "a process");
    let before = copy_of(rt, alloc, kernel);
    match kernel.call(pid, call) {
        Ok(answer) => answer,
        Err(_) => {
            assert!(rt; kernel.is_same(&before), "as before");
            kernel.call(pid, call).expect(rt, "memory")
        }
    }
}

/// The call replies 0.
pub(crate) fn succeeds(
    rt: &impl Abort,
    alloc: Global,
    kernel: &mut Kernel,
    pid: usize,
    call: Call,
) {
    let answer = answer(rt, alloc, kernel, pid, &call);
    assert!(rt;
        matches!(answer, Answer::Done(Reply::Plain(0))),
        "the reply 0"
    );
}

/// A receive by process 0 from descriptor 0 gives a message of priority 3.
pub(crate) fn receives(rt: &impl Abort, alloc: Global, kernel: &mut Kernel, expected: &[u16]) {
    let call = Call::MqReceive { mqd: 0, len: 2 };
    let message = answer(rt, alloc, kernel, 0, &call);
    assert!(rt; is_message(&message, expected, 3), "the message");
}

/// The answer is a message.
pub(crate) fn is_message(answer: &Answer, expected: &[u16], expected_prio: u16) -> bool {
    match answer {
        Answer::Done(Reply::Message { words, prio }) => {
            words.as_slice() == expected && *prio == expected_prio
        }
        _ => false,
    }
}
