// A text that grows row by row in the caller's bytes: fields with commas between them, CRLF at the end.
#![tactic(auto)]

pub mod field;
pub mod row;

pub use field::{Field, Word};
pub use row::{Cursor, Row, write_row};
