//! Schedules: which process takes how many steps, in order.
ghost use Rattle.std.specs.Prelude.{◌≡◌, ◌+◌, ◌<◌, ◌≤◌, [], ◌∷◌, ◌++◌, ◌^◌, length, map, replicate, ℕ, Ok, Err, OnOk, OnErr, IfOk, IfErr, string_bytes, position, IfSome, Some, List};
ghost use Rattle.lab_sched.specs.Schedules.{block, steps_of, total_of, joined_blocks, AreApart, IsSchedule, most_steps, IsBlock};
ghost use Rattle.lab_sched.specs.declared.schedule.SchedFault.TheVariants.{BadBlock, TooLong, NoMemory};
ghost use Rattle.lab_sched.specs.ScheduleTexts.{schedule_text, words, reading, reading_of_words, Fails, is_star, in_range, process_in, block_in, blocks_of_words, schedule_of_blocks};
ghost use Rattle.lab_sched.specs.ScheduleLaws.{IsFirstBad, IsFirstTooLong};
ghost use Rattle.ipc_kernel.specs.Limits.{process_max};
ghost use Rattle.std.specs.List.{All};
ghost use Rattle.lc3_word.specs.Numbers.{unsigned_number};
ghost use Rattle.lab_sched.specs.Private.Reading.{Gives};
ghost use Rattle.lab_sched.specs.declared.schedule.Block.{Block};
ghost use Rattle.lab_sched.specs.Private.Blocks.{IsResized};

use ipc_kernel::PROCESS_MAX;
use lc3_word::{WHITE_SPACE, unsigned, words_between};
use std::alloc::{AllocError, AllocFailed, Global};
use std::fmt;
use std::marker::Model;
use thiserror::Error;

/// A schedule: blocks of steps in order, at most 999,999,999 steps in all. Neighbouring blocks have
/// different processes, so that schedules of the same steps are equal.
#[derive(Debug, Drop)]
pub struct Schedule {
    blocks: Vec<Block>,
    total: u32,
}

impl Model for Schedule {
    ghost use Rattle.std.specs.Prelude.{◌≡◌, List};
    ghost use Rattle.lab_sched.specs.declared.schedule.Block.{Block};
    ghost use Rattle.lab_sched.specs.Schedules.{IsSchedule, total_of};

    ghost Value = { List Block };

    ghost view = { λ s. s.blocks.items };

    ghost invariant = { λ s. IsSchedule s.blocks.items × (s.total ≡ total_of s.blocks.items) };
}

impl fmt::Display for Schedule {
    ghost use Rattle.std.specs.Prelude.{Some};
    ghost use Rattle.lab_sched.specs.ScheduleTexts.{schedule_text};

    ghost output = { λ s. Some (schedule_text s) };

    fn fmt<W: fmt::Write>(&self, f: &mut fmt::Formatter<W>) -> fmt::Result {
        Steps(&self.blocks).fmt(f)
    }
}

/// Adds a block at the end; where the last block has the same process, it takes the steps.
fn append(blocks: &mut Vec<Block>, block: Block) -> Result<(), AllocError>
    requires apart { AreApart blocks.old.items }
    requires room { total_of blocks.old.items + block.count < 2 ^ 32 }
    ensures ok { OnOk result (blocks.new.items ≡ joined_blocks (blocks.old.items ++ block ∷ [])) }
    ensures err { OnErr result (blocks.new.items ≡ blocks.old.items) }
{
    let len = blocks.len();
    if len > 0 && blocks[len - 1].pid == block.pid {
        blocks[len - 1].count += block.count;
    } else {
        blocks.push(block)?;
    }
    Ok(())
}

impl Schedule {
    /// The schedule without steps.
    pub fn new(alloc: Global) -> Schedule
        ensures empty { result ≡ [] }
    {
        Schedule {
            blocks: Vec::new(alloc),
            total: 0,
        }
    }

    /// The number of steps.
    pub fn total(&self) -> u32
        ensures value { result ≡ total_of self.now }
        ensures within { result ≤ most_steps }
        ensures steps { result ≡ length (steps_of self.now) }
    {
        self.total
    }

    /// The blocks in order.
    pub fn blocks(&self) -> &[Block]
        ensures value { result.now ≡ self.now }
        ensures schedule { IsSchedule self.now }
    {
        self.blocks.as_slice()
    }

    /// Adds `n` steps of process `pid` at the end; they join the last block where that has the same
    /// process.
    pub fn push(&mut self, pid: usize, n: u32) -> Result<(), AllocError>
        requires process { pid < process_max }
        requires some { 1 ≤ n }
        requires room { total_of self.old + n ≤ most_steps }
        ensures blocks { OnOk result (self.new ≡ joined_blocks (self.old ++ block pid n ∷ [])) }
        ensures steps { OnOk result (steps_of self.new ≡ steps_of self.old ++ replicate n pid) }
        ensures total { OnOk result (total_of self.new ≡ total_of self.old + n) }
        ensures err { OnErr result (self.new ≡ self.old) }
    {
        append(&mut self.blocks, Block { pid, count: n })?;
        self.total += n;
        Ok(())
    }

    /// The text: each block as `P*N`, without leading zeros, and one blank between each two.
    pub fn text(&self, alloc: Global) -> Result<String, AllocError>
        ensures text { IfOk result (λ s. string_bytes s ≡ schedule_text self.now) }
        ensures reads_back { IfOk result (λ s. reading (string_bytes s) ≡ Ok self.now) }
    {
        let steps = Steps(self.blocks());
        format!(in alloc; "{steps}")
    }

    /// The schedule that a text writes. Its words stand between blanks, tabs, carriage returns and
    /// line feeds; each is `P*N` or `P`, which means `P*1`, with P from 0 to 63 and N from 1 to
    /// 999,999,999 in one or more decimal digits.
    pub fn read(alloc: Global, text: &str) -> Result<Schedule, SchedFault>
        ensures ok { IfOk result (λ schedule. reading text.now ≡ Ok schedule) }
        ensures err { IfErr result (λ fault. Fails fault (reading text.now)) }
        ensures bad_block { (at : ℕ)
            → result ≡ Err (BadBlock at) → IsFirstBad (words text.now) at }
        ensures too_long { (at : ℕ)
            → result ≡ Err (TooLong at) → IsFirstTooLong (words text.now) at }
    {
        schedule_of(alloc, text.as_bytes())
    }

    /// The schedule that words write, as [`Schedule::read`] a text of these words.
    pub fn read_words(alloc: Global, words: &[&[u8]]) -> Result<Schedule, SchedFault>
        ensures ok { IfOk result
            (λ schedule. reading_of_words (map (λ word. word.now) words.now) ≡ Ok schedule) }
        ensures err { IfErr result
            (λ fault. Fails fault (reading_of_words (map (λ word. word.now) words.now))) }
    {
        schedule_of_words(alloc, words)
    }
}

/// The number that digits write, from low to high.
fn in_range(low: u32, high: u32, digits: &[u8]) -> Option<u32>
    requires within { high ≤ most_steps }
    ensures value { result ≡ in_range low high (unsigned_number 10 digits.now) }
    ensures bounds { IfSome result (λ n. (low ≤ n) × (n ≤ high)) }
{
    let value = unsigned(10, digits)?;
    if low <= value && value <= high {
        Some(value)
    } else {
        None
    }
}

#[tactic(auto, unfolding(crate::specs::ScheduleTexts::process_in))]
fn process_in(digits: &[u8]) -> Option<usize>
    ensures value { result ≡ process_in digits.now }
    ensures bounds { IfSome result (λ pid. pid < process_max) }
{
    let pid = in_range(0, PROCESS_MAX as u32 - 1, digits)?;
    Some(pid as usize)
}

fn star(word: &[u8]) -> Option<usize>
    ensures place { result ≡ position is_star word.now }
    ensures within { IfSome result (λ i. i < length word.now) }
{
    word.iter().position(|byte| *byte == b'*')
}

/// The block that a word writes, `P*N`, or `P` for one step.
#[tactic(auto, unfolding(crate::specs::ScheduleTexts::block_in, crate::specs::ScheduleTexts::count_in))]
fn block_in(word: &[u8]) -> Option<Block>
    ensures value { result ≡ block_in word.now }
    ensures valid { IfSome result IsBlock }
{
    let Some(star) = star(word) else {
        let pid = process_in(word)?;
        return Some(Block { pid, count: 1 });
    };
    let pid = process_in(&word[..star])?;
    let count = in_range(1, MOST_STEPS, &word[star + 1..])?;
    Some(Block { pid, count })
}

fn blocks_of_words(alloc: Global, words: &[&[u8]]) -> Result<Vec<Block>, SchedFault>
    ensures exact { Gives (λ v. v.items) result
        (blocks_of_words (map (λ word. word.now) words.now)) }
    ensures valid { IfOk result (λ v. All IsBlock v.items) }
{
    let mut blocks = Vec::new(alloc);
    for (i, word) in words.iter().enumerate() {
        let Some(block) = block_in(word) else {
            return Err(SchedFault::BadBlock { at: i + 1 });
        };
        blocks.push(block)?;
    }
    Ok(blocks)
}

fn schedule_of_blocks(alloc: Global, blocks: &[Block]) -> Result<Schedule, SchedFault>
    requires valid { All IsBlock blocks.now }
    ensures exact { Gives (λ s. s) result (schedule_of_blocks blocks.now) }
{
    let mut schedule = Schedule::new(alloc);
    for (i, block) in blocks.iter().enumerate() {
        if block.count > MOST_STEPS - schedule.total() {
            return Err(SchedFault::TooLong { at: i + 1 });
        }
        schedule.push(block.pid, block.count)?;
    }
    Ok(schedule)
}

/// The schedule that words write. A word that isn't a block goes before a total that is too large.
fn schedule_of_words(alloc: Global, words: &[&[u8]]) -> Result<Schedule, SchedFault>
    ensures exact { Gives (λ s. s) result (reading_of_words (map (λ word. word.now) words.now)) }
{
    let blocks = blocks_of_words(alloc, words)?;
    schedule_of_blocks(alloc, blocks.as_slice())
}

fn schedule_of(alloc: Global, text: &[u8]) -> Result<Schedule, SchedFault>
    ensures exact { Gives (λ s. s) result (reading text.now) }
{
    let words = words_between(alloc, WHITE_SPACE, text)?;
    schedule_of_words(alloc, words.as_slice())
}

/// The greatest number of steps of a schedule.
pub const MOST_STEPS: u32 = 999_999_999;

/// Steps of one process in a row, shown as `P*N`.
#[derive(Clone, Copy, Debug, PartialEq, Eq)]
pub struct Block {
    /// The process, below `PROCESS_MAX`.
    pub pid: usize,
    /// The number of steps, from 1.
    pub count: u32,
}

impl fmt::Display for Block {
    ghost use Rattle.std.specs.Prelude.{Some};
    ghost use Rattle.lab_sched.specs.ScheduleTexts.{block_text};

    ghost output = { λ b. Some (block_text b) };

    #[tactic(auto, unfolding(crate::specs::ScheduleTexts::block_text))]
    fn fmt<W: fmt::Write>(&self, f: &mut fmt::Formatter<W>) -> fmt::Result {
        let pid = self.pid;
        let count = self.count;
        write!(f, "{pid}*{count}")
    }
}

/// Why a text is read as no schedule. Blocks are counted from 1, as they are written, before any
/// are joined.
#[derive(Clone, Copy, Debug, PartialEq, Eq, Error)]
pub enum SchedFault {
    /// The first word that isn't a block. It goes before `TooLong`, wherever it is.
    #[error("block {at}: BadBlock")]
    BadBlock { at: usize },
    /// The block with which the total passes 999,999,999 steps, where each word is a block.
    #[error("block {at}: TooLong")]
    TooLong { at: usize },
    /// Memory was refused.
    #[error("out of memory")]
    NoMemory,
}

impl From<AllocError> for SchedFault {
    ghost from_gives = { λ _ e. e ≡ NoMemory };

    fn from(_refused: AllocError) -> SchedFault {
        SchedFault::NoMemory
    }
}

impl<T: Drop> From<AllocFailed<T>> for SchedFault {
    ghost from_gives = { λ _ e. e ≡ NoMemory };

    fn from(_refused: AllocFailed<T>) -> SchedFault {
        SchedFault::NoMemory
    }
}

/// Blocks, shown with one blank between each two.
#[derive(Clone, Copy)]
pub struct Steps<'a>(pub &'a [Block]);

impl fmt::Display for Steps<'_> {
    ghost use Rattle.std.specs.Prelude.{Some};
    ghost use Rattle.lab_sched.specs.ScheduleTexts.{schedule_text};

    ghost output = { λ s. Some (schedule_text s.0.now) };

    #[tactic(auto, unfolding(crate::specs::ScheduleTexts::schedule_text))]
    fn fmt<W: fmt::Write>(&self, f: &mut fmt::Formatter<W>) -> fmt::Result {
        let Some((first, rest)) = self.0.split_first() else {
            return Ok(());
        };
        write!(f, "{first}")?;
        for block in rest {
            write!(f, " {block}")?;
        }
        Ok(())
    }
}

fn resize_last(blocks: &mut Vec<Block>, n: u32)
    requires schedule { IsSchedule blocks.old.items }
    requires some { 1 ≤ total_of blocks.old.items }
    requires room { total_of blocks.old.items + n ≤ most_steps + 1 }
    ensures resized { IsResized blocks.old.items blocks.new.items n }
{
    let Some(last) = blocks.pop() else {
        unreachable!();
    };
    let count = last.count - 1 + n;
    if count > 0 {
        blocks.push_reserved(Block {
            pid: last.pid,
            count,
        });
    }
}

impl Schedule {
    /// Puts `n` steps of the same process in the place of the last step.
    pub(crate) fn replace_last(&mut self, n: u32)
        requires some { 1 ≤ total_of self.old }
        requires room { total_of self.old + n ≤ most_steps + 1 }
        ensures steps { (ps : List ℕ) (pid : ℕ)
            → steps_of self.old ≡ ps ++ pid ∷ [] → steps_of self.new ≡ ps ++ replicate n pid }
        ensures total { total_of self.new + 1 ≡ total_of self.old + n }
    {
        resize_last(&mut self.blocks, n);
        self.total = self.total - 1 + n;
    }
}
