//! Readers and writers that move few bytes and fail.

use lab_io::{Failed, Input, Output, SlowIn, SlowOut};

#[test]
fn reads_few_bytes_and_fails(rt: HostRuntime) {
    let bytes = [1, 2, 3, 4, 5];
    let mut input = Input::new(SlowIn::new(&bytes, 2, 3));
    let mut buf = [0u8; 4];
    assert_eq!(rt; input.read(&mut buf), Ok(2));
    assert_eq!(rt; buf, [1, 2, 0, 0]);
    assert_eq!(rt; input.read(&mut buf), Ok(1));
    assert_eq!(rt; buf, [3, 2, 0, 0]);
    assert!(rt; !input.failed());
    assert_eq!(rt; input.read(&mut buf), Err(Failed));
    assert!(rt; input.failed());
}

#[test]
fn writing_fails_at_each_place(rt: HostRuntime) {
    let bytes = [1u8, 2, 3, 4, 5];
    for before_failure in 0..5usize {
        let mut room = [0u8; 6];
        let mut output = Output::new(SlowOut::new(&mut room, 2, before_failure));
        assert_eq!(rt; output.write_all(&bytes), Err(Failed));
        assert!(rt; output.failed());
        assert!(rt; room[..before_failure] == bytes[..before_failure]);
        assert_eq!(rt; room[before_failure], 0);
    }
}
