// Lift numbers, lift records and pairs of lifts: no value outside their ranges exists.
ghost use Rattle.std.specs.Prelude.{◌≡◌, ◌≤◌, Some, None, MatchResult, ◌≢◌};
ghost use Rattle.lifts.specs.Faults.{number_refusal, pair_refusal, record_refusal};

use super::fault::{Fault, Layer, Refusal};

const LAST_NUMBER: u32 = 511;

const LAST_DUE: u32 = 10079;

const LAST_CLASS: u32 = 15;

#[derive(Clone, Copy, PartialEq, Eq, PartialOrd, Ord, Debug)]
pub struct LiftNumber {
    value: u32,
    ghost in_range: { value ≤ 511 },
}

impl LiftNumber {
    // `layer` is whose call is refused.
    pub fn new(value: u32, layer: Layer) -> Result<LiftNumber, Fault>
        ensures { MatchResult result
            (λ n. (number_refusal layer value ≡ None) × (n.value ≡ value))
            (λ fault. number_refusal layer value ≡ Some fault) }
    {
        if value > LAST_NUMBER {
            return Err(Fault::about(Refusal::NumberTooLarge, layer, value));
        }
        Ok(LiftNumber { value })
    }

    pub fn get(self) -> u32
        ensures { (result ≡ self.value) × (result ≤ 511) }
    {
        self.value
    }
}

// A lift's record: its number, its due minute of the week and its duty class.
#[derive(Clone, Copy, PartialEq, Eq, Debug)]
pub struct Lift {
    number: LiftNumber,
    due: u16,
    class: u8,
    ghost due_in_range: { due ≤ 10079 },
    ghost class_in_range: { class ≤ 15 },
}

impl Lift {
    pub fn new(number: u32, due: u32, class: u32) -> Result<Lift, Fault>
        ensures { MatchResult result
            (λ l. (record_refusal number due class ≡ None) × (l.number.value ≡ number) × (l.due ≡ due) × (l.class ≡ class))
            (λ fault. record_refusal number due class ≡ Some fault) }
    {
        let number = LiftNumber::new(number, Layer::Board)?;
        // Within these limits the casts below lose nothing.
        if due > LAST_DUE || class > LAST_CLASS {
            return Err(Fault::about(Refusal::DueOrClassTooLarge, Layer::Board, number.get()));
        }
        Ok(Lift {
            number,
            due: due as u16,
            class: class as u8,
        })
    }

    pub fn number(self) -> LiftNumber
        ensures { result ≡ self.number }
    {
        self.number
    }

    pub fn due(self) -> u16
        ensures { result ≡ self.due }
    {
        self.due
    }

    pub fn class(self) -> u8
        ensures { result ≡ self.class }
    {
        self.class
    }
}

// Two different lifts, in the order in which they were named.
#[derive(Clone, Copy, PartialEq, Eq, Debug)]
pub struct LiftPair {
    first: LiftNumber,
    second: LiftNumber,
    ghost different: { first.value ≢ second.value },
}

impl LiftPair {
    // `layer` is whose call is refused.
    pub fn new(first: u32, second: u32, layer: Layer) -> Result<LiftPair, Fault>
        ensures { MatchResult result
            (λ p. (pair_refusal layer first second ≡ None) × (p.first.value ≡ first) × (p.second.value ≡ second))
            (λ fault. pair_refusal layer first second ≡ Some fault) }
    {
        let one = LiftNumber::new(first, layer)?;
        let other = LiftNumber::new(second, layer)?;
        if first == second {
            return Err(Fault::about(Refusal::SameLiftTwice, layer, first));
        }
        Ok(LiftPair {
            first: one,
            second: other,
        })
    }

    pub fn first(self) -> LiftNumber
        ensures { result ≡ self.first }
    {
        self.first
    }

    pub fn second(self) -> LiftNumber
        ensures { result ≡ self.second }
    {
        self.second
    }
}
