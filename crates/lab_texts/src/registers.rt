//! Registers, program counter and condition code.
ghost use Rattle.std.specs.Prelude.{◌≡◌, ◌++◌, OnOk, IfOk, string_bytes};
ghost use Rattle.lab_sched.specs.Held.{process_view};
ghost use Rattle.lab_sched.specs.Worlds.{machine_of};
ghost use Rattle.lab_texts.specs.Texts.{code_text, register_part, regs_text};

use lab_sched::{Process, World};
use lc3_word::{Cc, Hex, Reg};
use std::alloc::{AllocError, Global};

/// A condition code by its letter, as `Z`.
pub fn code_name(code: Cc) -> &'static str
    ensures text { result.now ≡ code_text code }
{
    match code {
        Cc::N => "N",
        Cc::Z => "Z",
        Cc::P => "P",
    }
}

#[tactic(auto, unfolding(crate::specs::Texts::register_part))]
fn push_register(text: &mut String, process: &Process, r: Reg) -> Result<(), AllocError>
    ensures text { OnOk result (string_bytes text.new ≡ string_bytes text.old
        ++ register_part (machine_of (process_view process.now)) r) }
{
    let word = Hex(process.machine().reg(r));
    write!(text, "{r} {word} ")?;
    Ok(())
}

/// The registers of process `pid`, its program counter and its condition code, on one line.
#[tactic(auto, using(crate::proofs::RowLemmas::texts_below_none, crate::proofs::RowLemmas::texts_below_more), unfolding(crate::specs::Texts::counter_part))]
pub fn regs_text(alloc: Global, world: &World, pid: usize) -> Result<String, AllocError>
    ensures text { IfOk result (λ s. string_bytes s ≡ regs_text pid world.now) }
{
    let mut text = String::new(alloc);
    let Some(process) = world.process(pid) else {
        return Ok(text);
    };
    for number in 0..8u16 {
        push_register(&mut text, process, Reg::of_low_bits(number))?;
    }
    let pc = Hex(process.machine().pc());
    let code = code_name(process.machine().cc());
    write!(text, "PC {pc} CC {code}\n")?;
    Ok(text)
}
