//! The calls of two processes on a queue for one message, through a book. A call for which memory is refused leaves the
//! book as it was, and is made once more.
use ipc_kernel::{Answer, Call, Reply};
use ipc_names::Name;
use ipc_objects::Words;
use lab_threads::Book;
use std::alloc::{AllocError, Global};
use std::process::Abort;

fn name(rt: &impl Abort, alloc: Global) -> Name {
    match (
        Name::read(alloc, &[0x2f, 0x71]),
        Name::read(alloc, &[0x2f, 0x71]),
    ) {
        (Ok(Ok(name)), _) => name,
        (_, Ok(Ok(name))) => name,
        _ => panic!(rt; "a name"),
    }
}

fn open(rt: &impl Abort, alloc: Global, flags: u16, attr: Option<[u16; 4]>) -> Call {
    let name = name(rt, alloc);
    Call::MqOpen { name, flags, attr }
}

fn one_word(alloc: Global, word: u16) -> Result<Words, AllocError> {
    Words::from_vec(Vec::from_slice(alloc, &[word])?)
}

fn send(rt: &impl Abort, alloc: Global, word: u16) -> Call {
    let words = match one_word(alloc, word) {
        Ok(words) => words,
        Err(_) => one_word(alloc, word).expect(rt, "memory"),
    };
    Call::MqSend {
        mqd: 0,
        words,
        prio: 0,
    }
}

/// Makes a call that fits the book.
fn make(rt: &impl Abort, book: &mut Book, pid: usize, call: &Call) {
    assert!(rt; book.fits(pid, call), "a call that fits");
    let entries = book.history().len();
    if book.call(pid, call).is_err() {
        assert_eq!(rt; book.history().len(), entries);
        assert!(rt; book.fits(pid, call), "a call that still fits");
        assert!(rt; book.call(pid, call).is_ok(), "memory");
    }
}

fn is_plain(answer: &Answer, word: u16) -> bool {
    match answer {
        Answer::Done(Reply::Plain(reply)) => *reply == word,
        _ => false,
    }
}

fn is_message(answer: &Answer, word: u16) -> bool {
    match answer {
        Answer::Done(Reply::Message { words, .. }) => words.as_slice() == [word].as_slice(),
        _ => false,
    }
}

fn book(rt: &impl Abort, alloc: Global) -> Book {
    match Book::new(alloc, 2) {
        Ok(book) => book,
        Err(_) => Book::new(alloc, 2).expect(rt, "memory"),
    }
}

/// Process 0 opens the queue without waiting, sends 7, and tries to send it again.
fn fill(rt: &impl Abort, alloc: Global, book: &mut Book) {
    make(rt, book, 0, &open(rt, alloc, 0x0842, Some([0, 1, 1, 0])));
    let seven = send(rt, alloc, 7);
    make(rt, book, 0, &seven);
    make(rt, book, 0, &seven);
}

/// Process 1 opens the queue and tries twice to send 8, which process 0's receive lets it do. While it waits it may make no
/// other call.
fn wait(rt: &impl Abort, alloc: Global, book: &mut Book) {
    make(rt, book, 1, &open(rt, alloc, 0x0002, None));
    let eight = send(rt, alloc, 8);
    make(rt, book, 1, &eight);
    make(rt, book, 1, &eight);
    let receive = Call::MqReceive { mqd: 0, len: 1 };
    assert!(rt; !book.fits(1, &receive), "it waits for another call");
    make(rt, book, 0, &receive);
    make(rt, book, 1, &eight);
}

/// The second send is refused (EAGAIN); of the two tries that must wait the first alone has an entry.
fn is_right(at: usize, answer: &Answer) -> bool {
    match at {
        2 => is_plain(answer, 0xfff5),
        4 => matches!(answer, Answer::Wait),
        5 => is_message(answer, 7),
        _ => is_plain(answer, 0),
    }
}

#[test]
fn a_queue_for_one_message(rt: HostRuntime) {
    let mut book = book(&rt, rt.alloc());
    fill(&rt, rt.alloc(), &mut book);
    wait(&rt, rt.alloc(), &mut book);
    let pids: [usize; 7] = [0, 0, 0, 1, 1, 0, 1];
    assert_eq!(rt; book.history().len(), 7);
    for (at, entry) in book.history().iter().enumerate() {
        assert_eq!(rt; Some(&entry.pid), pids.get(at));
        assert!(rt; is_right(at, &entry.answer), "answer {at}");
    }
}
