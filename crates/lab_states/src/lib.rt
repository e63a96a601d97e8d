//! What a search keeps: states of processes, rows of numbers, and edges; and what edges alone show.
#![tactic(auto)]

mod collapsed_states;
mod edges;
mod fair_sets;
mod graph;
mod outputs;
mod parents;
mod row;
mod states;

pub use collapsed_states::CollapsedState;
pub use edges::{Edge, Edges};
pub use fair_sets::{Sets, going_from, only};
pub use graph::{
    Cycle, are_falling, are_near, cycle_of, depth_of, is_order, is_order_by_number, number_at,
    order_of, put, rank_at, shortest_path, starved_at,
};
pub use parents::{Parent, Parents};
pub use row::{Rows, digest_after, digest_of, place_of};
pub use states::States;
