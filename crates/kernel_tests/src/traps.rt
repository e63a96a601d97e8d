//! What a trap asks for, and the memory that is made ready for its reply.
ghost use Rattle.lc3_machine.specs.Steps.{AsksTrap};

use crate::support::vector;
use ipc_kernel::Call;
use ipc_traps::{Asked, prepare, read_call};
use lc3_machine::{AtCall, Effect, Local, Running, Want};
use lc3_table::Profile;
use lc3_word::{Image, Reg};
use std::alloc::Global;
use std::process::Abort;

/// A process that loads these words into R0 to R3 and stands before the trap.
fn asking(rt: &impl Abort, alloc: Global, trap: u16, r: [u16; 4]) -> AtCall
    ensures trap { AsksTrap result.process }
{
    let words = [0x2004, 0x2204, 0x2404, 0x2604, trap, r[0], r[1], r[2], r[3]];
    let image = Image::new(0x3000, vector(rt, alloc, &words)).expect(rt, "an image");
    let process = match Running::load(alloc, &image, b"", Profile::A) {
        Ok(process) => process,
        Err(_) => Running::load(alloc, &image, b"", Profile::A).expect(rt, "memory"),
    };
    let Local::AtCall(call) = process.run_local(5).0 else {
        panic!(rt; "the process stands before a call");
    };
    match call.want() {
        Want::Trap(_) => call,
        Want::End(_) => panic!(rt; "the process stands before its trap"),
    }
}

/// Of a buffer of 0xBDFF words the 256 that a message can have are made ready, with the place of the priority, and no more.
#[test]
fn a_receive_into_a_long_buffer(rt: HostRuntime) {
    let alloc = rt.alloc();
    let mut process = asking(&rt, alloc, 0xf044, [0, 0x4001, 0xbdff, 0x5000]);
    let asked = match read_call(alloc, &process) {
        Ok(asked) => asked,
        Err(_) => read_call(alloc, &process).expect(&rt, "memory"),
    };
    let long = Call::MqReceive {
        mqd: 0,
        len: 0xbdff,
    };
    match &asked {
        Asked::Kernel(call) => assert!(rt; *call == long, "the call"),
        Asked::Refused(_) => panic!(rt; "it is a call"),
    }
    assert!(rt; !process.ready(0x4001, 256), "not yet");
    if prepare(&mut process).is_err() {
        prepare(&mut process).expect(&rt, "memory");
    }
    assert!(rt;
        process.ready(0x4001, 256) && process.ready(0x5000, 1),
        "ready"
    );
    assert!(rt; !process.ready(0x4200, 1), "no more");
}

/// sem_getvalue with the value 7: the word stands where R1 says, and the process goes on behind its trap with 0 in R0.
#[test]
fn a_value_is_told(rt: HostRuntime) {
    let alloc = rt.alloc();
    let mut call = asking(&rt, alloc, 0xf056, [2, 0x4001, 0, 0]);
    if prepare(&mut call).is_err() {
        prepare(&mut call).expect(&rt, "memory");
    }
    assert!(rt; call.ready(0x4001, 1), "ready");
    let running = call.wait().finish(Effect::One {
        at: 0x4001,
        word: 7,
    });
    assert!(rt;
        running.word(0x4001) == 7
            && running.pc() == 0x3005
            && running.reg(Reg::of_low_bits(0)) == 0,
        "the value"
    );
}
