//! The messages that are left in queues.
ghost use Rattle.std.specs.Prelude.{◌≡◌, ◌++◌, OnOk, IfOk, flat_map, string_bytes};
ghost use Rattle.std.specs.Option.{option_copied};
ghost use Rattle.ipc_kernel.specs.Limits.{object_places};
ghost use Rattle.lab_questions.specs.Left.{left_line, left_text};
ghost use Rattle.lab_questions.specs.Private.Lefts.{AreLeft};

use ipc_kernel::{Kernel, OBJECT_PLACES};
use ipc_names::Name;
use ipc_objects::Queue;
use lab_texts::{NameText, push_message};
use std::alloc::{AllocError, Global};
use std::fmt::Write;

/// The lines of the messages in a queue of this name, or of none, each `left NAME PRIORITY WORDS`, in the order in which they would be received.
fn left_lines(alloc: Global, name: Option<&Name>, queue: &Queue) -> Result<String, AllocError>
    ensures lines { IfOk result (λ text. string_bytes text
        ≡ flat_map (left_line (option_copied name.entry)) queue.now.messages) }
{
    let (_, _, count) = queue.attr();
    let mut text = String::new(alloc);
    for i in 0..count {
        let Some((priority, words)) = queue.entry(i as usize) else {
            return Ok(text);
        };
        write!(text, "left {}", NameText(name))?;
        push_message(&mut text, priority, words)?;
    }
    Ok(text)
}

/// A queue with messages, its name, if it has one, and their lines.
#[derive(Drop)]
pub(crate) struct Left<'a> {
    pub lines: String,
    pub name: Option<&'a Name>,
    pub queue: &'a Queue,
}

/// The queues in which messages are left, in the order of their lines.
pub(crate) fn lefts_of(alloc: Global, kernel: &Kernel) -> Result<Vec<Left<'_>>, AllocError>
    ensures lefts { IfOk result (λ lefts. AreLeft kernel.now object_places lefts.items) }
{
    let mut lefts: Vec<Left<'_>> = Vec::new(alloc);
    for place in 0..OBJECT_PLACES as u8 {
        let Some((name, queue)) = kernel.queue_at(place) else {
            continue;
        };
        let lines = left_lines(alloc, name, queue)?;
        if lines.is_empty() {
            continue;
        }
        let at = lefts
            .iter()
            .position(|left| lines.as_str() < left.lines.as_str())
            .unwrap_or(lefts.len());
        lefts.insert(at, Left { lines, name, queue })?;
    }
    Ok(lefts)
}

/// Adds the lines of all messages that are left in the queues of a kernel: queues in the order of the bytes of their lines.
#[tactic(auto, unfolding(crate::specs::Left::left_text))]
pub(crate) fn push_left(alloc: Global, text: &mut String, kernel: &Kernel) -> Result<(), AllocError>
    ensures text { OnOk result (string_bytes text.new
        ≡ string_bytes text.old ++ left_text kernel.now) }
{
    let lefts = lefts_of(alloc, kernel)?;
    for left in &lefts {
        text.push_str(&left.lines)?;
    }
    Ok(())
}
