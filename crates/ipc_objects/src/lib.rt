//! Message queues and semaphores of POSIX.1-2017, each by itself: no names, no descriptors.
#![tactic(auto)]

mod buckets;
mod few_words;
mod limits;
mod messages;
mod queue;
mod semaphore;
mod words;

pub use few_words::{FEW_WORDS, FewWords};
pub use limits::{
    MQ_MAXMSG_DEFAULT, MQ_MAXMSG_MAX, MQ_MSGSIZE_DEFAULT, MQ_MSGSIZE_MAX, MQ_PRIO_MAX,
    SEM_VALUE_MAX, limits_are_defined,
};
pub use queue::{Message, Queue};
pub use semaphore::Semaphore;
pub use words::Words;
