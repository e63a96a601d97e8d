//! Copies of queues, and pairs of queues that differ in one part alone.
use crate::support::words_of;
use ipc_objects::{MQ_PRIO_MAX, Queue, Words};
use std::alloc::Global;
use std::process::Abort;

/// A queue for 4 messages of 2 words with these messages, whose words are one each.
fn queue_of(rt: &impl Abort, alloc: Global, messages: &[(u16, u16)]) -> Queue {
    let mut queue = match Queue::new(alloc, 4, 2) {
        Ok(queue) => queue,
        Err(_) => Queue::new(alloc, 4, 2).expect(rt, "memory"),
    };
    for (priority, word) in messages {
        send(rt, &mut queue, *priority, words_of(rt, alloc, &[*word]));
    }
    queue
}

/// Sends to a queue that has room. Where memory is refused the words come back, and are sent once more.
fn send(rt: &impl Abort, queue: &mut Queue, priority: u16, words: Words) {
    let (max, size, count) = queue.attr();
    assert!(rt;
        count < max && priority < MQ_PRIO_MAX && words.len() <= size as usize,
        "it can be sent"
    );
    if let Err(back) = queue.send(priority, words) {
        assert!(rt; queue.send(priority, back).is_ok(), "the second time");
    }
}

/// Neither of two queues is the other, and their digests differ.
fn differ(rt: &impl Abort, one: &Queue, other: &Queue) {
    assert!(rt; one != other && other != one, "not the same");
    assert!(rt; one.digest() != other.digest(), "the digests");
}

/// A queue of these messages is another.
fn differs_from(rt: &impl Abort, alloc: Global, queue: &Queue, messages: &[(u16, u16)]) {
    let other = queue_of(rt, alloc, messages);
    differ(rt, queue, &other);
}

#[test]
fn a_copy_of_a_queue(rt: HostRuntime) {
    let alloc = rt.alloc();
    let mut queue = queue_of(&rt, alloc, &[(0, 7), (32767, 8), (0, 9)]);
    let copy = match queue.copy(alloc) {
        Ok(copy) => copy,
        Err(_) => queue.copy(alloc).expect(&rt, "memory"),
    };
    assert!(rt;
        queue == copy && queue.digest() == copy.digest(),
        "the same"
    );
    let (_, _, count) = queue.attr();
    assert!(rt; count > 0, "a message");
    let (priority, words) = queue.receive();
    assert!(rt;
        priority == 32767 && words.as_slice() == [8].as_slice(),
        "the first message"
    );
    differ(&rt, &queue, &copy);
    send(&rt, &mut queue, 32767, words);
    assert!(rt;
        queue == copy && queue.digest() == copy.digest(),
        "the same again"
    );
}

/// The order of two messages, a priority, a word, and the number of messages.
#[test]
fn queues_that_differ(rt: HostRuntime) {
    let alloc = rt.alloc();
    let queue = queue_of(&rt, alloc, &[(1, 7), (1, 8)]);
    differs_from(&rt, alloc, &queue, &[(1, 8), (1, 7)]);
    differs_from(&rt, alloc, &queue, &[(1, 7), (0, 8)]);
    differs_from(&rt, alloc, &queue, &[(1, 7), (1, 9)]);
    differs_from(&rt, alloc, &queue, &[(1, 7)]);
}
