//! The limits of message queues and semaphores that POSIX.1-2017 leaves to the system.

ghost use Rattle.std.specs.Prelude.{◌≡◌};
ghost use Rattle.ipc_objects.specs.Limits.{mq_prio_max, mq_maxmsg_max, mq_maxmsg_default, mq_msgsize_max, mq_msgsize_default, sem_value_max, few_words};

use crate::few_words::FEW_WORDS;

/// Priorities are below this (MQ_PRIO_MAX, limits.h).
pub const MQ_PRIO_MAX: u16 = 32768;

/// How many messages a queue can be made to hold (mq_maxmsg, mqueue.h), at most.
pub const MQ_MAXMSG_MAX: u16 = 1024;

/// How many messages a queue holds where no attributes are given.
pub const MQ_MAXMSG_DEFAULT: u16 = 10;

/// How many words a message can be allowed to have (mq_msgsize, mqueue.h), at most.
pub const MQ_MSGSIZE_MAX: u16 = 256;

/// How many words a message can have where no attributes are given.
pub const MQ_MSGSIZE_DEFAULT: u16 = 16;

/// The greatest value of a semaphore (SEM_VALUE_MAX, limits.h).
pub const SEM_VALUE_MAX: u16 = 32767;

/// Each of these constants is the number that the definitions give by this name.
pub fn limits_are_defined()
    ensures priorities { MQ_PRIO_MAX ≡ mq_prio_max }
    ensures most_messages { MQ_MAXMSG_MAX ≡ mq_maxmsg_max }
    ensures messages { MQ_MAXMSG_DEFAULT ≡ mq_maxmsg_default }
    ensures longest_message { MQ_MSGSIZE_MAX ≡ mq_msgsize_max }
    ensures message { MQ_MSGSIZE_DEFAULT ≡ mq_msgsize_default }
    ensures greatest_value { SEM_VALUE_MAX ≡ sem_value_max }
    ensures few_words { FEW_WORDS ≡ few_words }
{}
