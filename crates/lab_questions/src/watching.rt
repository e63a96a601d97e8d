//! The worlds that have what conditions rest on.
ghost use Rattle.std.specs.Prelude.{◌≡◌, ◌++◌, ◌≤◌, false, [], IfOk, IsTrue, List, OnOk, drop, length, take};
ghost use Rattle.lab_conditions.specs.declared.never.Never.{Never as Asking};
ghost use Rattle.lab_worlds.specs.Calls.{Alongside};
ghost use Rattle.lab_questions.specs.Bases.{all_bases};
ghost use Rattle.lab_questions.specs.Private.Presences.{AreNamed, AsksFor, unseen};

use crate::Basis;
use crate::bases::all_bases;
use lab_conditions::{Condition, Never};
use lab_sched::Schedule;
use std::alloc::{AllocError, Global};

/// Adds, behind conditions, one for each basis of theirs, which holds of each world that has it; the bases, each once, in the order
/// in which the conditions first name them.
pub(crate) fn watch(alloc: Global, conditions: &mut Vec<Never>) -> Result<Vec<Basis>, AllocError>
    ensures asks { IfOk result (λ bases. (presences : List Asking)
        × (conditions.new.items ≡ conditions.old.items ++ presences)
        × Alongside AsksFor bases.items presences) }
    ensures named { IfOk result (λ bases.
        AreNamed (all_bases conditions.old.items) (all_bases conditions.old.items) bases.items) }
{
    let bases = named_in(alloc, conditions)?;
    for basis in &bases {
        let part = basis.presence()?;
        let parts = vec![in alloc; part]?;
        let text = String::new(alloc);
        conditions.push(Never::Holds(Condition { text, parts }))?;
    }
    Ok(bases)
}

fn unseen(
    alloc: Global,
    bases: &[Basis],
    seen: &[Option<Schedule>],
) -> Result<Vec<Basis>, AllocError>
    ensures unseen { IfOk result (λ found. found.items ≡ unseen bases.now seen.now) }
{
    let mut unseen = Vec::new(alloc);
    for number in 0..bases.len().min(seen.len()) {
        let basis = &bases[number];
        match &seen[number] {
            Some(_) => {}
            None => unseen.push(basis.clone()?)?,
        }
    }
    Ok(unseen)
}

/// Takes the schedules behind the first ones, which are those of bases; the bases without one, if everything was visited.
pub(crate) fn empty_in(
    alloc: Global,
    complete: bool,
    bases: Vec<Basis>,
    reached: &mut Vec<Option<Schedule>>,
    asked: usize,
) -> Result<Vec<Basis>, AllocError>
    requires there { asked ≤ length reached.old.items }
    ensures first { OnOk result (reached.new.items ≡ take asked reached.old.items) }
    ensures whole { IfOk result (λ empty. IsTrue complete
        → empty.items ≡ unseen bases.items (drop asked reached.old.items)) }
    ensures unknown { IfOk result (λ empty. complete ≡ false → empty.items ≡ []) }
{
    let seen = reached.split_off(asked)?;
    if complete {
        unseen(alloc, &bases, &seen)
    } else {
        Ok(Vec::new(alloc))
    }
}

/// What conditions rest on, each once, in the order in which they first name it.
fn named_in(alloc: Global, conditions: &[Never]) -> Result<Vec<Basis>, AllocError>
    ensures named { IfOk result (λ bases.
        AreNamed (all_bases conditions.now) (all_bases conditions.now) bases.items) }
{
    let repeated = all_bases(alloc, conditions)?;
    let mut bases = Vec::new(alloc);
    for basis in &repeated {
        if bases.contains(basis) {
            continue;
        }
        bases.push(basis.clone()?)?;
    }
    Ok(bases)
}
