//! Tests of the machine's crates that the built program can't show: devices that fail, refused memory, copies and
//! comparisons, memory in pages beside a plain vector, and numbers that no command prints.
//!
//! Each growth that is refused is tried once more, so that every test passes whichever allocation fails.
#![tactic(auto)]

/// What a call makes; where memory is refused to it, what the same call makes next.
macro_rules! again {
    ($call:expr) => {
        match $call {
            Ok(made) => made,
            Err(_) => $call?,
        }
    };
}

#[cfg(test)]
mod copies;
#[cfg(test)]
mod devices;
#[cfg(test)]
mod memory;
#[cfg(test)]
mod objects;
#[cfg(test)]
mod processes;
#[cfg(test)]
mod texts;
#[cfg(test)]
mod warnings;
