// Lifts, their states, and how a call is refused.
#![tactic(auto)]

pub mod fault;
pub mod lift;
pub mod state;

pub use fault::{Fault, Layer, Refusal};
pub use lift::{Lift, LiftNumber, LiftPair};
pub use state::State;
