//! The run over hexadecimal words, over devices that fail.
ghost use Rattle.std.specs.Prelude.{◌≤◌};

use lab_hex::{CliFault, hex_run};
use lab_io::{Input, Output, SlowIn, SlowOut};
use std::alloc::Global;
use std::process::Abort;

const HI: &[u8] = b"3000 2002 F021 F025 0048\n";

const H: &[u8] = b"0 ended x3003 halt\nout 0 H\nverdict ended\n";

/// The answer over an input that moves so many bytes, which failed and left the output empty unless memory was refused.
fn answer_of_input(
    rt: &impl Abort,
    alloc: Global,
    per_call: usize,
    moved: usize,
) -> Result<(), CliFault>
    requires moves { 1 ≤ per_call }
{
    let mut room = [0u8; 48];
    let mut input = Input::new(SlowIn::new(HI, per_call, moved));
    let mut output = Output::new(SlowOut::new(&mut room, 48, 48));
    let answer = hex_run(alloc, &mut input, &mut output);
    assert!(rt; input.failed() || answer == Err(CliFault::NoMemory));
    assert!(rt; room == [0u8; 48]);
    answer
}

#[test]
fn answers_a_failing_input(rt: HostRuntime) {
    for per_call in 1..3usize {
        for moved in 0..26usize {
            let answer = match answer_of_input(&rt, rt.alloc(), per_call, moved) {
                Err(CliFault::NoMemory) => answer_of_input(&rt, rt.alloc(), per_call, moved),
                answer => answer,
            };
            assert_eq!(rt; answer, Err(CliFault::Read));
        }
    }
}

/// The answer over an output that moves so many bytes, which holds a beginning of the report that long, or nothing where
/// memory was refused.
fn answer_of_output(
    rt: &impl Abort,
    alloc: Global,
    per_call: usize,
    moved: usize,
) -> Result<(), CliFault>
    requires per_call { 1 ≤ per_call }
    requires moved { moved ≤ 41 }
{
    let mut room = [0u8; 48];
    let mut output = Output::new(SlowOut::new(&mut room, per_call, moved));
    let answer = hex_run(alloc, &mut Input::new(HI), &mut output);
    if answer == Err(CliFault::NoMemory) {
        assert!(rt; room == [0u8; 48]);
    } else {
        assert!(rt; output.failed());
        assert!(rt; room[..moved] == H[..moved]);
    }
    answer
}

#[test]
fn answers_a_failing_output(rt: HostRuntime) {
    for per_call in 1..3usize {
        for moved in 0..41usize {
            let answer = match answer_of_output(&rt, rt.alloc(), per_call, moved) {
                Err(CliFault::NoMemory) => answer_of_output(&rt, rt.alloc(), per_call, moved),
                answer => answer,
            };
            assert_eq!(rt; answer, Err(CliFault::Write));
        }
    }
}
