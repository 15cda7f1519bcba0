// Conflict graphs as adjacency lists, over cells that the caller lends.
#![tactic(auto)]

pub mod cell;
mod chains;
pub mod graph;
pub mod lists;
mod neighbours;
mod pairs;
mod setup;

pub use cell::Cell;
pub use lists::CellLists;
