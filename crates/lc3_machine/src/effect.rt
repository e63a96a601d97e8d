/// What the answer of a call writes into the process that made it.
#[derive(Drop)]
pub enum Effect<'a> {
    /// A word for R0.
    Plain(u16),
    /// The words of a message from `at` on, and then its priority where `prio_at` says; their number for R0.
    Message {
        at: u16,
        words: &'a [u16],
        prio_at: Option<u16>,
        prio: u16,
    },
    /// Four words from `at` on, if it is given; 0 for R0.
    Four {
        at: Option<u16>,
        words: [u16; 4],
    },
    /// A word at `at`; 0 for R0.
    One {
        at: u16,
        word: u16,
    },
}
