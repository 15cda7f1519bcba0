// Which of two lifts stands before the other.
#![tactic(auto)]

pub mod order;
pub mod rules;

pub use order::Precedence;
pub use rules::{ByClass, ByDue, ByNumber};
