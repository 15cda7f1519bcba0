// The lists as a conflict graph.
ghost use Rattle.cell_lists.specs.Lists.{Framed, framed_on, framed_same, standing};

use super::lists::CellLists;
use conflicts::ConflictGraph;
use lifts::{Fault, Layer, LiftNumber, LiftPair, Refusal};

impl ConflictGraph for CellLists<'_> {
    ghost adjacent = { standing };

    ghost limit = { λ l. l.capacity };

    ghost framed = { Framed };

    ghost symmetric = { λ l. l.symmetric };

    ghost loopless = { λ l. l.loopless };

    ghost bounded = { λ l. l.bounded };

    ghost fitting = { λ l. l.fitting };

    ghost unmoved = { framed_same };

    ghost onward = { framed_on };

    fn edge_count(&self) -> u32 {
        self.pairs
    }

    fn capacity(&self) -> u32 {
        self.capacity
    }

    fn contains(&self, a: u32, b: u32) -> Result<bool, Fault> {
        let a = LiftNumber::new(a, Layer::Book)?;
        let b = LiftNumber::new(b, Layer::Book)?;
        Ok(self.find(a, b).is_some())
    }

    fn degree(&self, a: u32) -> Result<u32, Fault> {
        let a = LiftNumber::new(a, Layer::Book)?;
        Ok(self.memory.chains[a.get() as usize].len)
    }

    fn next_neighbour(&self, a: u32, from: u32) -> Result<Option<u32>, Fault> {
        let a = LiftNumber::new(a, Layer::Book)?;
        Ok(self.smallest_from(a, from))
    }

    fn insert(&mut self, a: u32, b: u32) -> Result<(), Fault> {
        let pair = self.check_insert(a, b)?;
        self.join(pair);
        Ok(())
    }

    fn remove(&mut self, a: u32, b: u32) -> Result<(), Fault> {
        let pair = LiftPair::new(a, b, Layer::Book)?;
        if !self.part(pair.first(), pair.second()) {
            return Err(Fault::about(Refusal::NoSuchClash, Layer::Book, a));
        }
        Ok(())
    }

    // Only the chains of `a` and of its neighbours are walked.
    fn isolate(&mut self, a: u32) -> Result<(), Fault> {
        let a = LiftNumber::new(a, Layer::Book)?;
        self.clear(a);
        Ok(())
    }
}
