//! Object files on writers that fail.

use lab_io::{Output, SlowOut};
use lc3_obj::{ObjFault, read_image, write_image};
use lc3_word::Image;
use std::alloc::Global;
use std::test::Fail;

/// LEA R0,#2, PUTS, HALT and the string "Hi", at x3000.
const HI: [u8; 14] = [
    0x30, 0x00, 0xE0, 0x02, 0xF0, 0x22, 0xF0, 0x25, 0x00, 0x48, 0x00, 0x69, 0x00, 0x00,
];

fn image(alloc: Global) -> Result<Image, ObjFault> {
    Ok(again!(read_image(alloc, &HI)))
}

/// At each place a write may fail, and what was written before is a beginning of the file.
#[test]
fn leaves_a_beginning(rt: HostRuntime) -> Result<(), Fail> {
    let image = image(rt.alloc())?;
    for taken in 0..14usize {
        let mut room = [0xFFu8; 16];
        let mut output = Output::new(SlowOut::new(&mut room, 1 + taken % 3, taken));
        assert_eq!(rt; write_image(&image, &mut output), Err(ObjFault::Write));
        assert!(rt; output.failed());
        assert!(rt; room[..taken] == HI[..taken]);
        assert_eq!(rt; room[taken], 0xFF);
    }
    Ok(())
}

/// A writer without room takes no byte, which is a fault.
#[test]
fn refuses_a_writer_that_takes_no_byte(rt: HostRuntime) -> Result<(), Fail> {
    let image = image(rt.alloc())?;
    let mut room = [0xFFu8; 5];
    let mut output = Output::new(SlowOut::new(&mut room, 2, 99));
    assert_eq!(rt; write_image(&image, &mut output), Err(ObjFault::Write));
    assert!(rt; output.failed());
    assert_eq!(rt; room, [0x30, 0x00, 0xE0, 0x02, 0xF0]);
    Ok(())
}
