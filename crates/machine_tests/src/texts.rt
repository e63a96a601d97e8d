//! Numbers and words as texts, and texts as programs.

use lc3_asm::{AsmFault, Assembled, assemble, listing};
use lc3_table::{image_text, text};
use lc3_word::{Image, read_number};
use std::alloc::{AllocError, Global};
use std::test::Fail;

#[test]
fn numbers_as_written(rt: HostRuntime) {
    let rows = [
        ("#-5", -5),
        ("x-1F", -31),
        ("0x1F", 31),
        ("X7f", 127),
        ("B101", 5),
        ("2000000000", 1_000_000_000),
        ("-2000000000", -1_000_000_000),
    ];
    for (text, number) in rows {
        assert_eq!(rt; read_number(text), Some(number), "at {text}");
    }
    for text in ["x", "#", "-", "--5", "#x1", "b2", ""] {
        assert!(rt; read_number(text).is_none(), "at {text}");
    }
}

fn text_of_word(alloc: Global, word: u16) -> Result<String, AllocError> {
    Ok(again!(text(alloc, word)))
}

#[test]
fn the_text_of_a_word(rt: HostRuntime) -> Result<(), Fail> {
    for (word, expected) in [(0x1008u16, ".FILL x1008"), (0, "NOP"), (5, ".FILL x0005")] {
        assert!(rt; text_of_word(rt.alloc(), word)?.as_str() == expected);
    }
    Ok(())
}

/// A text with each kind of growth: a label, a string, a block, rows and symbols.
const SOURCE: &str =
    ".ORIG x3000\nFIRST: LEA R0,TEXT\n BR first\nTEXT .STRINGZ \"\\n\"\n.BLKW 2\n.FILL first\n.END";

const LISTED: &str = "x3000 xE001 2 LEA R0,#1
x3001 x0FFE 3 BRnzp #-2
x3002 x000A 4 .FILL x000A
x3003 x0000 4 NOP
x3004 x0000 5 NOP
x3005 x0000 5 NOP
x3006 x3000 6 ST R0,#0
FIRST x3000
TEXT x3002
";

const SHOWN: &str = "x3000 xE001 LEA R0,#1
x3001 x0FFE BRnzp #-2
x3002 x000A .FILL x000A
x3003 x0000 NOP
x3004 x0000 NOP
x3005 x0000 NOP
x3006 x3000 ST R0,#0
";

fn assembled(alloc: Global) -> Result<Assembled, AsmFault> {
    Ok(again!(assemble(alloc, SOURCE)))
}

fn listed(alloc: Global, assembled: &Assembled) -> Result<String, AllocError> {
    Ok(again!(listing(alloc, assembled)))
}

fn shown(alloc: Global, image: &Image) -> Result<String, AllocError> {
    Ok(again!(image_text(alloc, image)))
}

#[test]
fn a_source_under_refused_growths(rt: HostRuntime) -> Result<(), Fail> {
    let assembled = assembled(rt.alloc())?;
    assert!(rt; listed(rt.alloc(), &assembled)?.as_str() == LISTED);
    assert!(rt; shown(rt.alloc(), assembled.image())?.as_str() == SHOWN);
    Ok(())
}
