// The steps behind the graph's calls, over numbers that are in range.
ghost use Rattle.std.specs.Prelude.{◌≡◌, ℕ, ◌+◌, ◌<◌, true, false, not, ◌&&◌, ◌||◌, MatchBool, IfSome, IfNone, nat_le};
ghost use Rattle.conflicts.specs.Graphs.{Below, SmallestFrom, joins, touches};
ghost use Rattle.cell_lists.specs.Chains.{Located};
ghost use Rattle.cell_lists.specs.Lists.{Framed, standing};
ghost use Rattle.cell_lists.specs.Memory.{chain, view};
ghost use Rattle.cell_lists.specs.Walks.{ahead};

use super::chains::Chain;
use super::lists::CellLists;
use super::neighbours::Neighbours;
use lifts::{Layer, LiftNumber, LiftPair};

impl CellLists<'_> {
    // The chain of `a`, from its top.
    fn neighbours(&self, a: LiftNumber) -> Neighbours<'_>
        ensures { ahead result ≡ chain self.now.memory a.value }
    {
        let Chain { head, len } = self.memory.chains[a.get() as usize];
        Neighbours {
            cells: &self.memory.cells,
            cell: head,
            left: len,
        }
    }

    // The cell of the chain of `a` that names `b`, where the pair stands.
    pub(crate) fn find(&self, a: LiftNumber, b: LiftNumber) -> Option<u32>
        ensures { Located (view self.now.memory) a.value b.value result }
    {
        let b = b.get();
        self.neighbours(a)
            .find(|&(_, neighbour)| neighbour == b)
            .map(|(cell, _)| cell)
    }

    // The smallest neighbour of `a` that is at least `from`.
    pub(crate) fn smallest_from(&self, a: LiftNumber, from: u32) -> Option<u32>
        ensures next { SmallestFrom (standing self.now a.value) from result }
        ensures within { Below 512 result }
    {
        self.neighbours(a)
            .map(|(_, neighbour)| neighbour)
            .filter(|&neighbour| from <= neighbour)
            .min()
    }

    // Adds a pair that does not stand, where there are cells for it.
    pub(crate) fn join(&mut self, pair: LiftPair)
        requires missing { standing self.old pair.first.value pair.second.value ≡ false }
        requires spare { self.old.pairs < self.old.capacity }
        ensures after { (x y : ℕ) → standing self.new x y ≡ (standing self.old x y || joins pair.first.value pair.second.value x y) }
        ensures frame { Framed self.old self.new }
    {
        let a = pair.first();
        let b = pair.second();
        let CellLists { memory, pairs, .. } = self;
        memory.add(a, b);
        memory.add(b, a);
        *pairs += 1;
    }

    // Removes a pair, and says whether it stood.
    pub(crate) fn part(&mut self, a: LiftNumber, b: LiftNumber) -> bool
        ensures stood { result ≡ standing self.old a.value b.value }
        ensures after { MatchBool result
            ((x y : ℕ) → standing self.new x y ≡ (standing self.old x y && not (joins a.value b.value x y)))
            (self.new ≡ self.old) }
        ensures fewer { result ≡ true → self.old.pairs ≡ self.new.pairs + 1 }
        ensures frame { Framed self.old self.new }
    {
        let Some(first) = self.find(a, b) else {
            return false;
        };
        // Where the one cell is, the other is too.
        let Some(second) = self.find(b, a) else {
            return false;
        };
        let CellLists { memory, pairs, .. } = self;
        memory.cut(a, first);
        memory.cut(b, second);
        *pairs -= 1;
        true
    }

    // The neighbour that the top cell of the chain of `a` names.
    fn top_neighbour(&self, a: LiftNumber) -> Option<LiftNumber>
        ensures found { IfSome result (λ b. standing self.now a.value b.value ≡ true) }
        ensures none { IfNone result ((y : ℕ) → standing self.now a.value y ≡ false) }
    {
        let (_, neighbour) = self.neighbours(a).next()?;
        LiftNumber::new(neighbour, Layer::Book).ok()
    }

    // Removes every pair of `a`. Taken from the top, each is found at once in the chain of `a`.
    pub(crate) fn clear(&mut self, a: LiftNumber)
        ensures after { (x y : ℕ) → standing self.new x y ≡ (standing self.old x y && not (touches a.value x y)) }
        ensures frame { Framed self.old self.new }
    {
        while let Some(b) = self.top_neighbour(a) {
            self.part(a, b);
        }
    }
}
