// Conflict graphs: what every graph means, its laws and its calls.
#![tactic(auto)]

pub mod graph;
pub mod laws;
pub mod memory;

pub use graph::{ALL_PAIRS, ConflictGraph};
pub use memory::check_memory;
