//! Tests of names, objects, the kernel and its traps that no case of `tests/` can show: growths that are refused, copies
//! and comparisons, and what only callers in Rust see. Each growth that is refused is tried once more, so that every test
//! passes whichever allocation fails.
#![tactic(auto)]

#[cfg(test)]
mod alike;
#[cfg(test)]
mod copies;
#[cfg(test)]
mod kept;
#[cfg(test)]
mod memory;
#[cfg(test)]
mod objects;
#[cfg(test)]
mod previews;
#[cfg(test)]
mod support;
#[cfg(test)]
mod traps;
