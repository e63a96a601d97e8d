//! Calls whose growths are refused.
use crate::support::{kernel_of, mq_open, mq_send, receives, sem_open, succeeds};
use std::process::Abort;

/// What is made and sent is there, whichever growth was refused at first.
#[test]
fn calls_that_take_memory(rt: HostRuntime) {
    let alloc = rt.alloc();
    let mut kernel = kernel_of(&rt, alloc, 1);
    succeeds(&rt, alloc, &mut kernel, 0, mq_open(&rt, alloc, 0x42));
    succeeds(&rt, alloc, &mut kernel, 0, sem_open(&rt, alloc));
    succeeds(&rt, alloc, &mut kernel, 0, mq_send(&rt, alloc, &[5, 6], 3));
    receives(&rt, alloc, &mut kernel, &[5, 6]);
    assert!(rt;
        matches!(kernel.semaphore_at(1), Some((Some(_), 1))),
        "the semaphore"
    );
}
