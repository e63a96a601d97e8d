//! Tests of worlds, sessions, traces and runs on threads, of what no clause says and no command of the program shows:
//! devices that fail, gates that hold threads back, and values that only calls of the libraries give.
#![tactic(auto)]

#[cfg(test)]
mod books;
#[cfg(test)]
mod devices;
#[cfg(test)]
mod gates;
#[cfg(test)]
mod hexadecimal;
#[cfg(test)]
mod programs;
#[cfg(test)]
mod schedules;
#[cfg(test)]
mod traces;
#[cfg(test)]
mod worlds;
