// A conflict graph: a set of unordered pairs of two different numbers below 512, and a capacity.
ghost use Rattle.std.specs.Prelude.{◌≡◌, ℕ, ◌<◌, ◌≤◌, Bool, true, false, not, ◌&&◌, ◌||◌, Some, None, IfOk, IfErr, MatchResult};
ghost use Rattle.lifts.specs.Faults.{number_refusal, unless_refused};
ghost use Rattle.lifts.specs.declared.fault.Layer.TheVariants.{Book};
ghost use Rattle.conflicts.specs.Graphs.{Below, SmallestFrom, degree, edge_count, joins, touches};
ghost use Rattle.conflicts.specs.Refusals.{insert_refusal, numbers_refusal, remove_refusal};

use lifts::{Fault, Layer, LiftPair, Refusal};

// As many pairs as 512 numbers have.
pub const ALL_PAIRS: u32 = 130_816;

pub trait ConflictGraph {
    // the set of pairs that the graph means: whether two numbers are neighbours
    ghost adjacent: { Self → ℕ → ℕ → Bool };

    // the capacity
    ghost limit: { Self → ℕ };

    // the second graph stands on the same memory as the first, and what of it is not the graph's own is as it was
    ghost framed: { Self → Self → Type 0 };

    ghost symmetric: { (g : Self) (x y : ℕ) → adjacent g x y ≡ adjacent g y x };

    ghost loopless: { (g : Self) (x : ℕ) → adjacent g x x ≡ false };

    ghost bounded: { (g : Self) (x y : ℕ) → 511 < x → adjacent g x y ≡ false };

    // never more pairs stand than the capacity
    ghost fitting: { (g : Self) → edge_count (adjacent g) ≤ limit g };

    // `framed` carries over any number of calls
    ghost unmoved: { (g : Self) → framed g g };

    ghost onward: { (f g h : Self) → framed f g → framed g h → framed f h };

    fn edge_count(&self) -> u32
        ensures { result ≡ edge_count (adjacent self.now) };

    fn capacity(&self) -> u32
        ensures { result ≡ limit self.now };

    fn contains(&self, a: u32, b: u32) -> Result<bool, Fault>
        ensures { result ≡ unless_refused (numbers_refusal a b) (adjacent self.now a b) };

    fn degree(&self, a: u32) -> Result<u32, Fault>
        ensures { result ≡ unless_refused (number_refusal Book a) (degree (adjacent self.now) a) };

    // The smallest neighbour of at least `from`.
    fn next_neighbour(&self, a: u32, from: u32) -> Result<Option<u32>, Fault>
        ensures { MatchResult result
            (λ next. (number_refusal Book a ≡ None) × SmallestFrom (adjacent self.now a) from next × Below 512 next)
            (λ fault. number_refusal Book a ≡ Some fault) };

    // What refuses the pair to `insert`, if anything does.
    fn check_insert(&self, a: u32, b: u32) -> Result<LiftPair, Fault>
        ensures taken { IfOk result (λ pair. (insert_refusal (adjacent self.now) (limit self.now) a b ≡ None) × (pair.first.value ≡ a) × (pair.second.value ≡ b)) }
        ensures refused { IfErr result (λ fault. insert_refusal (adjacent self.now) (limit self.now) a b ≡ Some fault) }
    {
        let pair = LiftPair::new(a, b, Layer::Book)?;
        if self.contains(a, b)? {
            return Err(Fault::about(Refusal::ClashStands, Layer::Book, a));
        }
        if self.edge_count() >= self.capacity() {
            return Err(Fault::about(Refusal::GraphFull, Layer::Book, a));
        }
        Ok(pair)
    }

    // What refuses the pair to `remove`, if anything does.
    fn check_remove(&self, a: u32, b: u32) -> Result<LiftPair, Fault>
        ensures taken { IfOk result (λ pair. (remove_refusal (adjacent self.now) a b ≡ None) × (pair.first.value ≡ a) × (pair.second.value ≡ b)) }
        ensures refused { IfErr result (λ fault. remove_refusal (adjacent self.now) a b ≡ Some fault) }
    {
        let pair = LiftPair::new(a, b, Layer::Book)?;
        if !self.contains(a, b)? {
            return Err(Fault::about(Refusal::NoSuchClash, Layer::Book, a));
        }
        Ok(pair)
    }

    fn insert(&mut self, a: u32, b: u32) -> Result<(), Fault>
        ensures verdict { result ≡ unless_refused (insert_refusal (adjacent self.old) (limit self.old) a b) tt }
        ensures after { MatchResult result (λ _. (x y : ℕ) → adjacent self.new x y ≡ (adjacent self.old x y || joins a b x y)) (λ _. self.new ≡ self.old) }
        ensures fixed { limit self.new ≡ limit self.old }
        ensures frame { framed self.old self.new };

    fn remove(&mut self, a: u32, b: u32) -> Result<(), Fault>
        ensures verdict { result ≡ unless_refused (remove_refusal (adjacent self.old) a b) tt }
        ensures after { MatchResult result (λ _. (x y : ℕ) → adjacent self.new x y ≡ (adjacent self.old x y && not (joins a b x y))) (λ _. self.new ≡ self.old) }
        ensures fixed { limit self.new ≡ limit self.old }
        ensures frame { framed self.old self.new };

    // Removes every pair of `a`. The graph changes under way, so each neighbour is asked for anew.
    fn isolate(&mut self, a: u32) -> Result<(), Fault>
        ensures verdict { result ≡ unless_refused (number_refusal Book a) tt }
        ensures after { MatchResult result (λ _. (x y : ℕ) → adjacent self.new x y ≡ (adjacent self.old x y && not (touches a x y))) (λ _. self.new ≡ self.old) }
        ensures fixed { limit self.new ≡ limit self.old }
        ensures frame { framed self.old self.new }
    {
        let mut from = 0;
        while let Some(b) = self.next_neighbour(a, from)? {
            // A neighbour is never refused.
            let _ = self.remove(a, b);
            from = b + 1;
        }
        Ok(())
    }
}
