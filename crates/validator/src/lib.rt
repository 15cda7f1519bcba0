// Checks a change file: reports the lines that no board could take.
#![tactic(auto)]

pub mod file;
pub mod line;

pub use file::{Summary, Validator, has_room, write_header};
pub use line::check_line;
