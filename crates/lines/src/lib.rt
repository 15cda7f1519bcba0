// Change lines: bytes to the change that they mean.
#![tactic(auto)]

pub mod change;
pub mod kind;
pub mod laws;
pub mod line;
mod number;
mod reader;

pub use change::{Change, ClashArguments, ClearArguments, EnterArguments, LapseArguments};
pub use line::{Line, check_line_number, read_change, read_line};
