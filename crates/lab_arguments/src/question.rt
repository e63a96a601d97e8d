//! What is asked of an exploration.
use crate::requirements::Requirements;

/// What is asked of an exploration.
#[derive(Drop)]
pub struct Question<'a> {
    /// The most worlds to visit, or those of a walk.
    pub worlds: u32,
    /// The most memory to take, in megabytes.
    pub memory: u32,
    /// The most local steps of a process in a row.
    pub steps: u32,
    /// How many threads judge conditions; none stands for as many as there are processors.
    pub threads: Option<u32>,
    /// What each end must be like.
    pub required: Requirements,
    /// What is required of outputs at each end, and of calls on every way, each as it is written.
    pub outputs: Vec<&'a str>,
    /// The words that name processes which may wait for ever, each `P`, `P at A` or `P at A-B`.
    pub waiters: Vec<&'a str>,
    /// The conditions that must never be so.
    pub never: Vec<&'a str>,
    /// Whether only rounds that are fair are told.
    pub fair: bool,
    /// Whether what the processes have written, and the verdict, are told of an end in place of the report.
    pub out: bool,
    /// Whether the messages that are left in queues are told of an end, too.
    pub left: bool,
    /// Whether the search ends where something is found that isn't as it has to be.
    pub first: bool,
    /// How many walks are taken in place of every interleaving, if walks are.
    pub random: Option<u32>,
    /// The number that the random numbers of walks begin with.
    pub seed: u32,
    /// Which schedule is printed alone.
    pub schedule: Option<Choice>,
    /// The run of which schedule is traced, too.
    pub trace: Option<Choice>,
    /// Whether the answers are printed as JSON.
    pub json: bool,
    /// The file of the page to write, where one is asked for.
    pub page: Option<&'a str>,
}

/// A schedule of an exploration.
#[derive(Clone, Copy)]
pub enum Choice {
    /// That of the end with this number, from 1.
    End(u32),
    /// That of the first thing that isn't as it has to be.
    Bad,
}

impl Question<'_> {
    /// Whether something has to be so.
    pub fn judges(&self) -> bool {
        self.required.is_some() || !self.outputs.is_empty() || !self.never.is_empty()
    }
}
