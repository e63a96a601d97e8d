//! The answers that calls would be given.
use crate::support::{is_message, kernel_of, mq_open, mq_send, succeeds};
use ipc_kernel::{Answer, Call, Kernel};
use std::process::Abort;

fn preview(rt: &impl Abort, kernel: &Kernel, call: &Call) -> Answer {
    assert!(rt; 0 < kernel.count(), "a process");
    kernel.answer(0, call).expect(rt, "it takes no memory")
}

/// A receive would wait, and then would be given the message, which stays.
#[test]
fn previews_of_a_receive(rt: HostRuntime) {
    let alloc = rt.alloc();
    let receive = Call::MqReceive { mqd: 0, len: 2 };
    let mut kernel = kernel_of(&rt, alloc, 1);
    succeeds(&rt, alloc, &mut kernel, 0, mq_open(&rt, alloc, 0x42));
    assert!(rt;
        matches!(preview(&rt, &kernel, &receive), Answer::Wait),
        "a wait"
    );
    succeeds(&rt, alloc, &mut kernel, 0, mq_send(&rt, alloc, &[7], 3));
    let first = preview(&rt, &kernel, &receive);
    let second = preview(&rt, &kernel, &receive);
    assert!(rt;
        is_message(&first, &[7], 3) && is_message(&second, &[7], 3),
        "the message"
    );
}
