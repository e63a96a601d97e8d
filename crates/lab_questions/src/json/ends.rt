//! Ends as JSON.
ghost use Rattle.std.specs.Prelude.{Some, map};
ghost use Rattle.lab_sched.specs.Held.{process_view};
ghost use Rattle.lab_questions.specs.Findings.{ends_told, number_or_null, limit_json};
ghost use Rattle.lab_questions.specs.ProcessMembers.{process_json, stop_member, name_or_null, word_json, message_json};
ghost use Rattle.std.specs.Option.{option_copied};
ghost use Rattle.lab_questions.specs.LeftMembers.{place_json, left_member};
ghost use Rattle.lab_questions.specs.Private.Lefts.{place_of};

use crate::LimitMet;
use crate::json::Found;
use crate::json::values::{Array, Listed, StepsValue, Text, Values};
use crate::left::{Left, lefts_of};
use ipc_kernel::Kernel;
use ipc_names::Name;
use ipc_objects::Queue;
use lab_sched::{Process, Steps, World};
use lab_texts::{Standing, how_name};
use lc3_word::Hex;
use std::alloc::Global;
use std::fmt;
use std::fmt::Display;

/// The member for how a process ended, or else for what stands at its program counter.
#[derive(Clone, Copy)]
struct Stop<'a>(&'a Process);

impl fmt::Display for Stop<'_> {
    ghost output = { λ s. Some (stop_member (process_view s.0.now)) };

    fn fmt<W: fmt::Write>(&self, f: &mut fmt::Formatter<W>) -> fmt::Result {
        if let Process::Ended(ended) = self.0 {
            return write!(f, "\"how\":\"{}\"", how_name(ended.how()));
        }
        write!(f, "\"text\":\"{}\"", Standing(self.0.machine()))
    }
}

/// The processes of a world, or what they have written alone.
#[derive(Clone, Copy)]
struct Processes<'a> {
    world: &'a World,
    out: bool,
}

impl Values for Processes<'_> {
    ghost values = { λ p. map (process_json p.out) p.world.now.processes };

    fn count(&self) -> usize {
        self.world.count()
    }

    #[tactic(auto, using(crate::proofs::ValueLemmas::value_found, crate::proofs::ValueLemmas::output_told, crate::proofs::ValueLemmas::process_told))]
    fn write<W: fmt::Write>(&self, place: usize, f: &mut fmt::Formatter<W>) -> fmt::Result {
        let Some(process) = self.world.process(place) else {
            return Ok(());
        };
        let machine = process.machine();
        let output = Text(machine.output());
        if self.out {
            return write!(f, "{{\"out\":{output}}}");
        }
        let status = match process {
            Process::Running(_) => "running",
            Process::Waiting(_, _) => "waiting",
            Process::Ended(_) => "ended",
        };
        let pc = Hex(machine.pc());
        let stop = Stop(process);
        write!(
            f,
            "{{\"status\":\"{status}\",\"pc\":\"{pc}\",{stop},\"out\":{output}}}"
        )
    }
}

/// The ends that are told, under the numbers 1, 2 and so on; `null` for one that isn't there.
#[derive(Clone, Copy)]
pub(crate) struct Ends<'a>(pub Found<'a>);

impl Values for Ends<'_> {
    ghost values = { λ e. ends_told e.0.answers.now.show
        e.0.answers.now.exploration.ends.items e.0.answers.now.told.items };

    #[tactic(auto, using(crate::proofs::ValueLemmas::ends_count))]
    fn count(&self) -> usize {
        self.0.answers.told.len()
    }

    #[tactic(auto, using(crate::proofs::ValueLemmas::ends_count))]
    fn write<W: fmt::Write>(&self, place: usize, f: &mut fmt::Formatter<W>) -> fmt::Result {
        let Found { alloc, answers } = self.0;
        let Some(end) = answers.exploration.ends.get(answers.told[place]) else {
            return write!(f, "null");
        };
        let show = answers.show;
        let number = place + 1;
        let processes = Array(Processes {
            world: &end.world,
            out: show.out,
        });
        let verdict = end.verdict.word();
        let left = LeftMember {
            alloc,
            kernel: end.world.kernel(),
            left: show.left,
        };
        let schedule = StepsValue(Steps(end.schedule.blocks()));
        write!(
            f,
            "{{\"end\":{number},\"processes\":{processes},\"verdict\":\"{verdict}\"{left},\"schedule\":{schedule}}}"
        )
    }
}

/// The name of a queue, or `null`.
#[derive(Clone, Copy)]
struct QueueName<'a>(Option<&'a Name>);

impl fmt::Display for QueueName<'_> {
    ghost output = { λ n. Some (name_or_null (option_copied n.0)) };

    fn fmt<W: fmt::Write>(&self, f: &mut fmt::Formatter<W>) -> fmt::Result {
        match self.0 {
            Some(name) => write!(f, "{}", Text(name.text().as_bytes())),
            None => write!(f, "null"),
        }
    }
}

/// The words of a message.
#[derive(Clone, Copy)]
struct Words<'a>(&'a [u16]);

impl Values for Words<'_> {
    ghost values = { λ w. map word_json w.0.now };

    fn count(&self) -> usize {
        self.0.len()
    }

    #[tactic(auto, using(crate::proofs::ValueLemmas::value_at))]
    fn write<W: fmt::Write>(&self, place: usize, f: &mut fmt::Formatter<W>) -> fmt::Result {
        write!(f, "\"{}\"", Hex(self.0[place]))
    }
}

/// The messages in a queue of this name, or of none, in the order in which they would be received.
#[derive(Clone, Copy)]
struct Messages<'a> {
    name: Option<&'a Name>,
    queue: &'a Queue,
}

impl Values for Messages<'_> {
    ghost values = { λ m. map (message_json (option_copied m.name)) m.queue.now.messages };

    fn count(&self) -> usize {
        let (_, _, count) = self.queue.attr();
        usize::from(count)
    }

    #[tactic(auto, using(crate::proofs::ValueLemmas::value_found), unfolding(crate::specs::ProcessMembers::message_json))]
    fn write<W: fmt::Write>(&self, place: usize, f: &mut fmt::Formatter<W>) -> fmt::Result {
        let Some((priority, words)) = self.queue.entry(place) else {
            return Ok(());
        };
        let name = QueueName(self.name);
        let words = Array(Words(words));
        write!(
            f,
            "{{\"queue\":{name},\"priority\":{priority},\"words\":{words}}}"
        )
    }
}

#[derive(Clone, Copy)]
struct Queues<'a>(&'a [Left<'a>]);

impl Values for Queues<'_> {
    ghost values = { λ q. map (λ l. place_json (place_of l)) q.0.now };

    fn count(&self) -> usize {
        self.0.len()
    }

    #[tactic(auto, using(crate::proofs::ValueLemmas::value_at))]
    fn write<W: fmt::Write>(&self, place: usize, f: &mut fmt::Formatter<W>) -> fmt::Result {
        let left = &self.0[place];
        let (name, queue) = (left.name, left.queue);
        Listed(Messages { name, queue }).fmt(f)
    }
}

/// The member for the messages that are left, behind others, if these are told.
#[derive(Clone, Copy)]
struct LeftMember<'a> {
    pub alloc: Global,
    pub kernel: &'a Kernel,
    pub left: bool,
}

impl fmt::Display for LeftMember<'_> {
    ghost output = { λ l. Some (left_member l.left l.kernel.now) };

    fn fmt<W: fmt::Write>(&self, f: &mut fmt::Formatter<W>) -> fmt::Result {
        if !self.left {
            return Ok(());
        }
        let lefts = lefts_of(self.alloc, self.kernel)?;
        write!(f, ",\"left\":{}", Array(Queues(&lefts)))
    }
}

/// A number, or `null`.
#[derive(Clone, Copy)]
struct Number(Option<usize>);

impl fmt::Display for Number {
    ghost output = { λ n. Some (number_or_null n.0) };

    fn fmt<W: fmt::Write>(&self, f: &mut fmt::Formatter<W>) -> fmt::Result {
        match self.0 {
            Some(number) => write!(f, "{number}"),
            None => write!(f, "null"),
        }
    }
}

/// The limit that a search met, or `null`.
#[derive(Clone, Copy)]
pub(crate) struct Limit<'a>(pub Option<&'a LimitMet>);

impl fmt::Display for Limit<'_> {
    ghost output = { λ l. Some (limit_json (option_copied l.0)) };

    #[tactic(auto, unfolding(crate::specs::Findings::standing_json))]
    fn fmt<W: fmt::Write>(&self, f: &mut fmt::Formatter<W>) -> fmt::Result {
        match self.0 {
            None => write!(f, "null"),
            Some(LimitMet::Worlds { .. }) => write!(f, "{{\"met\":\"worlds\"}}"),
            Some(
                LimitMet::Steps {
                    process,
                    standing,
                    ..
                },
            ) => {
                let place = Text(standing.place.as_bytes());
                let line = Number(standing.line);
                write!(
                    f,
                    "{{\"met\":\"steps\",\"process\":{process},\"place\":{place},\"line\":{line}}}"
                )
            }
            Some(LimitMet::Memory { .. }) => write!(f, "{{\"met\":\"memory\"}}"),
        }
    }
}
