// A conflict graph as a matrix of bits, over words that the caller lends.
#![tactic(auto)]

mod bits;
pub mod matrix;

pub use matrix::BitMatrix;
