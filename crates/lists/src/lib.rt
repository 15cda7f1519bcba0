// A list over places that the caller lends.
#![tactic(auto)]

ghost use Rattle.std.specs.Prelude.{◌≡◌, ◌-◌, ◌<◌, ◌≤◌, [], ◌∷◌, length, take, MatchOption, MatchResult, slice_index_or};
ghost use Rattle.lifts.specs.Faults.{without_lift};
ghost use Rattle.lifts.specs.declared.fault.Layer.TheVariants.{Board};
ghost use Rattle.lifts.specs.declared.fault.Refusal.TheVariants.{ListFull};

use lifts::{Fault, Layer, Refusal};

// The entries are the first `len` places: nothing is allocated.
#[derive(Drop)]
pub struct List<'a, T> {
    places: &'a mut [T],
    len: usize,
    ghost fits: { len ≤ length places.now },
}

impl<'a, T: Drop> List<'a, T> {
    ghost use Rattle.lists.specs.Entries.{Added, Kept, entries};

    pub fn new(places: &'a mut [T]) -> List<'a, T>
        ensures empty { result.len ≡ 0 }
        ensures lent { result.places.now ≡ places.old }
        ensures named { result.places.ghost_name ≡ places.entry.ghost_name }
    {
        List { places, len: 0 }
    }

    pub fn len(&self) -> usize
        ensures { result ≡ self.now.len }
    {
        self.entries().len()
    }

    // How many places are free.
    pub fn free(&self) -> usize
        ensures { result ≡ length self.now.places.now - self.now.len }
    {
        self.places.len() - self.len
    }

    fn entries(&self) -> &[T]
        ensures { result.now ≡ entries self.now }
    {
        &self.places[0..self.len]
    }

    pub fn get(&self, i: usize) -> Option<&T>
        ensures { MatchOption result (self.now.len ≤ i)
            (λ e. (i < self.now.len) × (e.now ≡ slice_index_or (entries self.now) i e.now)) }
    {
        self.entries().get(i)
    }

    pub fn append(&mut self, entry: T) -> Result<(), Fault>
        ensures outcome { MatchResult result
            (λ _. (self.old.len < length self.old.places.now) × Added self.old self.new (entry ∷ []))
            (λ fault. (self.old.len ≡ length self.old.places.now) × (fault ≡ without_lift ListFull Board) × Kept self.old self.new) }
        ensures named { self.new.places.ghost_name ≡ self.old.places.ghost_name }
    {
        if self.len == self.places.len() {
            return Err(Fault::without_lift(Refusal::ListFull, Layer::Board));
        }
        self.places[self.len] = entry;
        self.len += 1;
        Ok(())
    }

    // The places keep what they hold.
    pub fn clear(&mut self)
        ensures empty { self.new.len ≡ 0 }
        ensures lent { self.new.places.now ≡ self.old.places.now }
        ensures named { self.new.places.ghost_name ≡ self.old.places.ghost_name }
    {
        self.len = 0;
    }
}
