// Tests of the libraries: each is proved, and then run.
#![tactic(auto)]

#[cfg(test)]
mod of_framing;
#[cfg(test)]
mod of_lifts;
#[cfg(test)]
mod of_lines;
#[cfg(test)]
mod of_lists;
#[cfg(test)]
mod of_rows;
#[cfg(test)]
mod of_validator;

#[cfg(test)]
use lifts::{Fault, Layer, Refusal};

#[cfg(test)]
fn board_fault(refusal: Refusal, lift: u32) -> Fault {
    Fault::about(refusal, Layer::Board, lift)
}
