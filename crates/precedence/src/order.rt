// What a rule of precedence says: an order in which no two lifts of different numbers share a place.
ghost use Rattle.std.specs.Prelude.{◌≡◌, ◌≢◌, Bool, true, false, not};
ghost use Rattle.lifts.specs.declared.lift.Lift.{Lift};

use lifts::Lift;

pub trait Precedence {
    // the first record stands before the second
    ghost earlier: { Self → Lift → Lift → Bool };

    fn before(&self, first: Lift, second: Lift) -> bool
        ensures { result ≡ earlier self.now first second };

    ghost irreflexive: { (order : Self) (r : Lift) → earlier order r r ≡ false };

    // of two records with different numbers exactly one stands before the other
    ghost connected: { (order : Self) (r s : Lift) → r.number.value ≢ s.number.value → earlier order s r ≡ not (earlier order r s) };

    ghost transitive: { (order : Self) (r s t : Lift) → earlier order r s ≡ true → earlier order s t ≡ true → earlier order r t ≡ true };
}
