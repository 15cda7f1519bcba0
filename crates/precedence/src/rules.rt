// The three rules of precedence. Between equals the smaller number stands first.
ghost use Rattle.std.specs.Prelude.{◌≡◌};
ghost use Rattle.precedence.specs.Orders.{by_class, by_due, by_number, rank_in};
ghost use Rattle.std.proofs.Common.{rules};

use super::order::Precedence;
use lifts::Lift;

// The smaller number first.
#[derive(Clone, Copy, PartialEq, Eq, Debug)]
pub struct ByNumber;

impl Precedence for ByNumber {
    ghost earlier = { λ _. by_number };

    ghost irreflexive = { Prim.search rules };

    ghost connected = { Prim.search rules };

    ghost transitive = { Prim.search rules };

    fn before(&self, first: Lift, second: Lift) -> bool {
        first.number() < second.number()
    }
}

// The earlier due minute first.
#[derive(Clone, Copy, PartialEq, Eq, Debug)]
pub struct ByDue;

impl Precedence for ByDue {
    ghost earlier = { λ _. by_due };

    ghost irreflexive = { Prim.search rules };

    ghost connected = { Prim.search rules };

    ghost transitive = { Prim.search rules };

    fn before(&self, first: Lift, second: Lift) -> bool {
        (first.due(), first.number()) < (second.due(), second.number())
    }
}

// The smaller rank of the duty class first. Classes may share a rank.
#[derive(Clone, Copy, PartialEq, Eq, Debug)]
pub struct ByClass {
    ranks: [u8; 16],
}

impl ByClass {
    // The rank of class `c` is `ranks[c]`.
    pub fn new(ranks: [u8; 16]) -> ByClass
        ensures { result.ranks ≡ ranks }
    {
        ByClass { ranks }
    }

    fn rank(&self, lift: Lift) -> u8
        ensures { result ≡ rank_in self.now.ranks lift }
    {
        self.ranks[usize::from(lift.class())]
    }
}

impl Precedence for ByClass {
    ghost earlier = { λ order. by_class order.ranks };

    ghost irreflexive = { Prim.search rules };

    ghost connected = { Prim.search rules };

    ghost transitive = { Prim.search rules };

    fn before(&self, first: Lift, second: Lift) -> bool {
        (self.rank(first), first.number()) < (self.rank(second), second.number())
    }
}
