//! What is noted of a run that is told.
ghost use Rattle.std.specs.Prelude.{◌≡◌, ⊤, IfOk, OnOk, slice_get};
ghost use Rattle.lab_sched.specs.Schedules.{steps_of};
ghost use Rattle.lab_told.specs.Answers.{call_done};
ghost use Rattle.lab_told.specs.Tellings.{AreThere};
ghost use Rattle.lab_notes.specs.Notes.{notes, waits_after, new_notes, notes_by, notes_next, objects_by, objects_when, registers_of};

use crate::objects::{Made, keep_made, keep_present};
use crate::openers::{Opened, keep_opened};
use crate::remarks::{Remark, keep_remark, remark_of};
use crate::rows::{Noted, keep, new_rows, registers_of};
use crate::waiting::{Waiting, waits_of};
use ipc_kernel::Kernel;
use lab_sched::{Schedule, World};
use lab_told::{Act, Called, Event, Taken, Tally, Telling, Told, tell_run};
use std::alloc::{AllocError, Global};
use std::marker::Model;

/// What is noted of a run.
#[derive(Drop)]
pub struct Notes {
    /// Of each process its refused calls.
    rows: Vec<Noted>,
    /// What is there, and who made it.
    made: Vec<Made>,
    remarks: Vec<Remark>,
    /// The names that were opened.
    opened: Vec<Opened>,
}

impl Model for Notes {
    ghost use Rattle.lab_notes.specs.Notes.{NotesState};

    ghost Value = { NotesState };

    ghost view = { λ n. record {
      rows = n.rows.items;
      made = n.made.items;
      remarks = n.remarks.items;
      opened = n.opened.items;
    } };
}

impl Notes {
    /// Of so many processes, before the first step.
    fn new(alloc: Global, count: usize) -> Result<Notes, AllocError>
        ensures empty { IfOk result (λ n. n ≡ new_notes count) }
    {
        Ok(Notes {
            rows: new_rows(alloc, count)?,
            made: Vec::new(alloc),
            remarks: Vec::new(alloc),
            opened: Vec::new(alloc),
        })
    }

    /// Of each process its refused calls.
    pub fn rows(&self) -> &[Noted]
        ensures value { result.now ≡ self.now.rows }
    {
        self.rows.as_slice()
    }

    /// What is remarked of objects, in the order of the steps.
    pub fn remarks(&self) -> &[Remark]
        ensures value { result.now ≡ self.now.remarks }
    {
        self.remarks.as_slice()
    }

    /// The names that were opened, in the order of the steps.
    pub fn opened(&self) -> &[Opened]
        ensures value { result.now ≡ self.now.opened }
    {
        self.opened.as_slice()
    }

    /// Keeps what a call of process `pid` did to objects, by the kernel after it.
    fn keep_call(
        &mut self,
        alloc: Global,
        kernel: &Kernel,
        pid: usize,
        event: &Event,
        call: &Called,
    ) -> Result<(), AllocError>
        ensures kept { OnOk result (self.new ≡ objects_when kernel.now pid event.now call.now
            (call_done call.now) self.old) }
    {
        let Some((service, place)) = call.done() else {
            return Ok(());
        };
        let remark = remark_of(alloc, kernel, pid, event, call, place, &self.made)?;
        keep_remark(&mut self.remarks, remark)?;
        if service.is_open() {
            keep_made(&mut self.made, alloc, pid, call, place)?;
            keep_opened(&mut self.opened, alloc, pid, call)?;
        }
        Ok(())
    }

    /// Keeps what is told of a step of process `pid` as far as it is about objects, by the kernel after it.
    fn keep_objects(
        &mut self,
        alloc: Global,
        kernel: &Kernel,
        pid: usize,
        told: &Told,
    ) -> Result<(), AllocError>
        ensures kept { OnOk result (self.new ≡ objects_by kernel.now pid told.now self.old) }
    {
        let Told::Shown(event) = told else {
            return Ok(());
        };
        if let Act::Calls(call) = &event.act {
            self.keep_call(alloc, kernel, pid, event, call)?;
        }
        keep_present(&mut self.made, kernel);
        Ok(())
    }

    /// Keeps what is told of a step of process `pid`, by the world after it.
    fn keep_step(
        &mut self,
        alloc: Global,
        world: &World,
        pid: usize,
        told: &Told,
    ) -> Result<(), AllocError>
        ensures kept { OnOk result (self.new ≡ notes_by world.now.kernel pid
            (registers_of (slice_get world.now.processes pid)) told.now self.old) }
    {
        keep(&mut self.rows, alloc, pid, told, registers_of(world, pid))?;
        self.keep_objects(alloc, world.kernel(), pid, told)
    }
}

/// Notes the steps of a run.
struct Noting;

impl Telling<Notes> for Noting {
    type Fault = AllocError;

    ghost tells = { λ _ s p old new. new ≡ notes_next s p old };

    ghost fails = { λ _ _ _ _ _ _. ⊤ };

    ghost refused = { λ _ _ _ _ _ _. tt };

    fn tell_step(
        &self,
        alloc: Global,
        notes: &mut Notes,
        taken: &Taken<'_>,
    ) -> Result<(), AllocError> {
        notes.keep_step(alloc, taken.world, taken.pid, taken.told)?;
        Ok(())
    }
}

/// Takes the steps of a schedule, and notes of each process its first refused call and how many more were, what is remarked of
/// objects, and, beside these, what the processes wait for at the end.
pub fn noted(
    alloc: Global,
    world: &mut World,
    schedule: &Schedule,
) -> Result<(Notes, Vec<Waiting>), AllocError>
    requires there { AreThere world.old schedule.now }
    ensures noted { IfOk result (λ n. n.0 ≡ notes world.old (steps_of schedule.now)) }
    ensures waits { IfOk result (λ n. n.1.items ≡ waits_after world.old (steps_of schedule.now)) }
{
    let mut tally = Tally::new(alloc, world.count())?;
    let mut notes = Notes::new(alloc, world.count())?;
    tell_run(&Noting, &mut notes, world, &mut tally, schedule.blocks())?;
    let waits = waits_of(alloc, world, &tally)?;
    Ok((notes, waits))
}
