//! What a trace keeps of each process beside the world.
ghost use Rattle.std.specs.Prelude.{◌≡◌, IfOk, OnOk, slice_set, ◌<◌, IfSome, length, position};
ghost use Rattle.lab_told.specs.Givers.{giver_at};
ghost use Rattle.lab_told.specs.Origins.{first};
ghost use Rattle.lab_told.specs.Units.{units_of, balance, is_of, units_with, units_after};
ghost use Rattle.lab_told.specs.Tallies.{new_tally, account_of, tally_after};
ghost use Rattle.std.specs.List.{find};
ghost use Rattle.lab_told.specs.Answers.{act_done};

use crate::answers::Outcome;
use crate::origins::{Origin, keep_origins};
use crate::told::{Act, Told};
use ipc_kernel::{Kernel, OBJECT_PLACES};
use ipc_traps::Service;
use std::alloc::{AllocError, Global};
use std::marker::Model;

/// What a trace keeps of a process.
#[derive(Clone, Copy, Debug, PartialEq, Eq)]
pub struct Account {
    /// The counted steps since its last line.
    pub local: u32,
    /// The step since which it waits.
    pub since: Option<u32>,
}

/// An account of each process, where the messages in queues come from, who took and gave units of semaphores, and which
/// step last gave to each object.
#[derive(Drop)]
pub struct Tally {
    accounts: Vec<Account>,
    origins: Vec<Origin>,
    units: Vec<UnitCount>,
    givers: Vec<Option<u32>>,
}

impl Model for Tally {
    ghost use Rattle.lab_told.specs.Tallies.{TallyState};

    ghost Value = { TallyState };

    ghost view = { λ t. record {
      accounts = t.accounts.items;
      origins = t.origins.items;
      units = t.units.items;
      givers = t.givers.items;
    } };
}

/// An account before the first step.
const NEW_ACCOUNT: Account = Account {
    local: 0,
    since: None,
};

/// Sets the item at a position, where there is one.
fn set<T: Copy>(items: &mut Vec<T>, at: usize, item: T)
    ensures set { items.new.items ≡ slice_set items.old.items at item }
{
    if let Some(kept) = items.get_mut(at) {
        *kept = item;
    }
}

impl Tally {
    /// The tally of so many processes before the first step.
    pub fn new(alloc: Global, count: usize) -> Result<Tally, AllocError>
        ensures empty { IfOk result (λ t. t ≡ new_tally count) }
    {
        Ok(Tally {
            accounts: vec![in alloc; NEW_ACCOUNT; count]?,
            givers: Vec::from_array(alloc, [None; OBJECT_PLACES])?,
            origins: Vec::new(alloc),
            units: Vec::new(alloc),
        })
    }

    pub(crate) fn allocator(&self) -> Global {
        *self.accounts.allocator()
    }

    /// The account of a process.
    pub fn account(&self, pid: usize) -> Account
        ensures value { result ≡ account_of self.now pid }
    {
        self.accounts.get(pid).copied().unwrap_or(NEW_ACCOUNT)
    }

    /// Where the message comes from that is first to be received from the queue in a place.
    #[tactic(auto, unfolding(crate::specs::Origins::first))]
    pub fn first_origin(&self, place: u8) -> Option<Origin>
        ensures value { result ≡ first place self.now.origins }
    {
        self.origins
            .iter()
            .copied()
            .find(|origin| origin.place == place)
    }

    /// Where the messages in queues come from, those of one queue in the order of receive.
    pub fn origins(&self) -> &[Origin]
        ensures value { result.now ≡ self.now.origins }
    {
        self.origins.as_slice()
    }

    /// How many units more of the semaphore in a place process `pid` took than it gave.
    pub fn balance(&self, place: u8, pid: usize) -> u32
        ensures value { result ≡ balance (units_of place pid self.now.units) }
    {
        let UnitCount { taken, given, .. } = units_of(&self.units, place, pid);
        taken.saturating_sub(given)
    }

    /// The step that last posted to the semaphore in a place, or last received from the queue there.
    pub fn giver(&self, place: u8) -> Option<u32>
        ensures value { result ≡ giver_at place self.now.givers }
    {
        *self.givers.get(place as usize)?
    }

    /// Keeps what is told of step `number`, of process `pid`, by the kernel after it.
    pub fn keep(
        &mut self,
        kernel: &Kernel,
        number: u32,
        pid: usize,
        told: &Told,
    ) -> Result<(), AllocError>
        ensures kept { OnOk result (self.new
            ≡ tally_after kernel.now number pid told.now self.old) }
    {
        match told {
            Told::Nothing => Ok(()),
            Told::Counted => {
                let Account { local, since } = self.account(pid);
                let local = local.checked_add(1).ok_or(AllocError)?;
                set(&mut self.accounts, pid, Account { local, since });
                Ok(())
            }
            Told::Shown(event) => {
                let act = &event.act;
                let since = match act {
                    Act::Calls(call) if matches!(call.outcome, Outcome::Waits) => Some(number),
                    _ => None,
                };
                set(&mut self.accounts, pid, Account { local: 0, since });
                if let Some((Service::SemPost | Service::MqReceive, place)) = act.done() {
                    set(&mut self.givers, place as usize, Some(number));
                }
                keep_origins(&mut self.origins, kernel, number, pid, act)?;
                keep_units(&mut self.units, kernel, pid, act)
            }
        }
    }
}

/// How many units of a semaphore a process took and gave since the semaphore was made.
#[derive(Clone, Copy, Debug, PartialEq, Eq)]
pub struct UnitCount {
    /// The place of the semaphore.
    pub place: u8,
    /// The process.
    pub pid: usize,
    /// How often sem_wait or sem_trywait gave it a unit.
    pub taken: u32,
    /// How often it posted.
    pub given: u32,
}

fn is_of(count: &UnitCount, place: u8, pid: usize) -> bool
    ensures value { result ≡ is_of place pid count.now }
{
    count.place == place && count.pid == pid
}

fn index_of(counts: &[UnitCount], place: u8, pid: usize) -> Option<usize>
    ensures value { result ≡ position (is_of place pid) counts.now }
    ensures within { IfSome result (λ i. i < length counts.now) }
{
    counts.iter().position(|count| is_of(count, place, pid))
}

fn found(counts: &[UnitCount], place: u8, pid: usize) -> Option<UnitCount>
    ensures value { result ≡ find (is_of place pid) counts.now }
{
    counts
        .iter()
        .copied()
        .find(|count| is_of(count, place, pid))
}

/// The count of process `pid` for the semaphore in a place.
#[tactic(auto, unfolding(crate::specs::Units::units_of))]
pub fn units_of(counts: &[UnitCount], place: u8, pid: usize) -> UnitCount
    ensures value { result ≡ units_of place pid counts.now }
{
    match found(counts, place, pid) {
        Some(count) => count,
        None => UnitCount {
            place,
            pid,
            taken: 0,
            given: 0,
        },
    }
}

/// Counts so many units more that process `pid` took of the semaphore in a place, and gave to it.
#[tactic(auto, unfolding(crate::specs::Units::units_with))]
fn count_units(
    counts: &mut Vec<UnitCount>,
    place: u8,
    pid: usize,
    taken: u32,
    given: u32,
) -> Result<(), AllocError>
    ensures kept { OnOk result (counts.new.items
        ≡ units_with place pid taken given counts.old.items) }
{
    let was = units_of(counts, place, pid);
    let taken = was.taken.checked_add(taken).ok_or(AllocError)?;
    let given = was.given.checked_add(given).ok_or(AllocError)?;
    let count = UnitCount {
        taken,
        given,
        ..was
    };
    match index_of(counts, place, pid) {
        Some(index) => counts[index] = count,
        None => counts.push(count)?,
    }
    Ok(())
}

/// Counts the units that process `pid` took or gave by what it did, and lets go of those of semaphores that are no more, by
/// the kernel after it.
pub fn keep_units(
    counts: &mut Vec<UnitCount>,
    kernel: &Kernel,
    pid: usize,
    act: &Act,
) -> Result<(), AllocError>
    ensures kept { OnOk result (counts.new.items
        ≡ units_after kernel.now pid (act_done act.now) counts.old.items) }
{
    match act.done() {
        Some((Service::SemWait | Service::SemTrywait, place)) => {
            count_units(counts, place, pid, 1, 0)?;
        }
        Some((Service::SemPost, place)) => count_units(counts, place, pid, 0, 1)?,
        _ => {}
    }
    counts.retain(|count| kernel.semaphore_at(count.place).is_some());
    Ok(())
}
