//! The warnings of texts.

ghost use Rattle.std.specs.Prelude.{◌≡◌, IfOk};
ghost use Rattle.lc3_warnings.specs.Warnings.{warnings};

use lc3_asm::reading;
use lc3_table::Profile;
use lc3_warnings::{Warning, warnings};
use std::alloc::{AllocError, Global};
use std::process::Abort;
use std::test::Fail;

/// A warning by its line, from 1, and its name.
type Told = (usize, &'static str);

fn warned(alloc: Global, text: &str, profile: Profile) -> Result<Vec<Warning>, AllocError>
    ensures told { IfOk result (λ found. found.items ≡ warnings profile text.now) }
{
    let reader = reading(alloc, text)?;
    warnings(alloc, text, profile, &reader)
}

/// These warnings and no others are told.
fn are_told(rt: &impl Abort, found: &[Warning], expected: &[Told]) {
    assert_eq!(rt; found.len(), expected.len());
    for (i, warning) in found.iter().enumerate() {
        let Some((line, name)) = expected.get(i) else {
            return;
        };
        assert_eq!(rt; warning.line, *line);
        assert_eq!(rt; warning.kind.name(), *name);
    }
}

#[test]
fn a_number_that_wraps_is_told(rt: HostRuntime) -> Result<(), Fail> {
    let text = ".ORIG x3000\n\
        ADD R0,R0,#16 ; comment\n\
        ADD R0,R0,x1F\n\
        LOOP: LDR R1, R0, #63\n\
        LD R0,#300\n\
        JSR 2047\n\
        HALT\n";
    let found = again!(warned(rt.alloc(), text, Profile::A));
    are_told(
        &rt,
        &found,
        &[(2, "wraps"), (4, "wraps"), (5, "wraps"), (6, "wraps")],
    );
    Ok(())
}

#[test]
fn data_and_ends_are_told(rt: HostRuntime) -> Result<(), Fail> {
    let text =
        ".ORIG x3000\nMSG .STRINGZ \"Hi\"\nMAIN LEA R0,MSG\n  PUTS\nN .FILL 1\n  TRAP x26\n  OUT";
    let found = again!(warned(rt.alloc(), text, Profile::A));
    are_told(
        &rt,
        &found,
        &[
            (2, "starts-in-data"),
            (3, "unused-label"),
            (4, "runs-into-data"),
            (5, "unused-label"),
            (6, "unknown-trap"),
            (7, "runs-past-end"),
        ],
    );
    Ok(())
}

#[test]
fn the_first_word_behind_end_is_told(rt: HostRuntime) -> Result<(), Fail> {
    let text = ".ORIG x3000\nHALT\n.END\n\n; a comment is fine\n  EXTRA .FILL 5\nADD R0\n";
    let found = again!(warned(rt.alloc(), text, Profile::A));
    are_told(&rt, &found, &[(6, "after-end")]);
    Ok(())
}

#[test]
fn a_refused_text_has_no_warning_of_its_execution(rt: HostRuntime) -> Result<(), Fail> {
    let text = ".ORIG x3000\nADD R0,R0,#16\nLD R0,NOWHERE\n.FILL 1\n";
    let found = again!(warned(rt.alloc(), text, Profile::A));
    are_told(&rt, &found, &[(2, "wraps")]);
    Ok(())
}

#[test]
fn a_label_and_a_return_are_told(rt: HostRuntime) -> Result<(), Fail> {
    let text = ".ORIG x3000\nJSR SAY\nHALT\n SAY: OUT\n BACK RET\n OLD: .FILL 1\n";
    let found = again!(warned(rt.alloc(), text, Profile::A));
    are_told(&rt, &found, &[(5, "r7"), (6, "unused-label")]);
    let found = again!(warned(rt.alloc(), text, Profile::B));
    are_told(&rt, &found, &[(6, "unused-label")]);
    Ok(())
}

#[test]
fn what_was_meant_otherwise_is_told(rt: HostRuntime) -> Result<(), Fail> {
    let text = ".ORIG 3000\n\
        LD R0,MSG\n\
        PUTS\n\
        GETC\n\
        BRz DONE\n\
        DONE HALT\n\
        MSG .STRINGZ \"Hi\"\n";
    let found = again!(warned(rt.alloc(), text, Profile::A));
    are_told(
        &rt,
        &found,
        &[
            (1, "decimal-origin"),
            (2, "loaded-string"),
            (5, "stale-codes"),
        ],
    );
    Ok(())
}
