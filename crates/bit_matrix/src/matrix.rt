// An adjacency matrix: bit y of row x and bit x of row y say that x and y are neighbours.
ghost use Rattle.std.specs.Prelude.{◌≡◌, ℕ, ◌+◌, ◌*◌, ◌/◌, ◌%◌, ◌<◌, ◌≤◌, true, false, not, ◌&&◌, ◌||◌, length, refl};
ghost use Rattle.std.proofs.Common.{◌∙◌};
ghost use Rattle.lifts.specs.Faults.{unless_refused};
ghost use Rattle.conflicts.specs.Graphs.{Below, Loopless, SmallestFrom, Symmetric, edge_count, joins};
ghost use Rattle.conflicts.specs.Refusals.{memory_refusal};
ghost use Rattle.bit_matrix.specs.Matrix.{Cleared, Framed, capacity_of, marked, row_of, suffices, weight_of, with_entry, with_pair};
ghost use Rattle.bit_matrix.specs.Laws.{framed_on, framed_same, marked_bounded};

use super::bits::{has_bit, lowest_bit, next_bit, weight, with_bit};
use conflicts::{ALL_PAIRS, ConflictGraph, check_memory};
use lifts::{Fault, Layer, LiftNumber, LiftPair};

const WORDS: usize = 4096;

const ROW_WORDS: usize = 8;

#[derive(Drop)]
pub struct BitMatrix<'a> {
    words: &'a mut [u64],
    edges: u32,
    ghost symmetric: { Symmetric (marked words.now) },
    ghost loopless: { Loopless (marked words.now) },
    ghost counted: { edges ≡ edge_count (marked words.now) },
    ghost fitting: { edge_count (marked words.now) ≤ capacity_of words.now },
}

// The word with the bit in row `a` and column `b`, and which of its bits that is.
fn place(a: LiftNumber, b: LiftNumber) -> (usize, u32)
    ensures word { (result.0 ≡ a.value * 8 + b.value / 64) × (result.0 < 4096) }
    ensures bit { result.1 ≡ b.value % 64 }
{
    let a = a.get() as usize;
    let b = b.get();
    (a * ROW_WORDS + (b / 64) as usize, b % 64)
}

// Writes one bit, and not the one that mirrors it.
fn put_entry(words: &mut [u64], a: LiftNumber, b: LiftNumber, stands: bool)
    requires { suffices words.old ≡ true }
    ensures bits { (x y : ℕ) → marked words.new x y ≡ with_entry (marked words.old) a.value b.value stands x y }
    ensures frame { Framed words.old words.new }
{
    let (word, bit) = place(a, b);
    words[word] = with_bit(words[word], bit, stands);
}

fn put_pair(words: &mut [u64], pair: LiftPair, stands: bool)
    requires { suffices words.old ≡ true }
    ensures bits { (x y : ℕ) → marked words.new x y ≡ with_pair (marked words.old) pair.first.value pair.second.value stands x y }
    ensures frame { Framed words.old words.new }
{
    put_entry(words, pair.first(), pair.second(), stands);
    put_entry(words, pair.second(), pair.first(), stands);
}

// Too few words are no matrix, and are left as they are.
fn clear_matrix(words: &mut [u64])
    ensures empty { (x y : ℕ) → marked words.new x y ≡ false }
    ensures cleared { Cleared words.old words.new }
{
    if words.len() >= WORDS {
        words[..WORDS].fill(0);
    }
}

impl<'a> BitMatrix<'a> {
    // Whether a graph with room for every pair can stand on the words.
    pub fn check(words: &[u64]) -> Result<(), Fault>
        ensures { result ≡ unless_refused (memory_refusal 4096 (length words.now)) tt }
    {
        check_memory(words.len(), WORDS)
    }

    // A graph without pairs. Over too few words its capacity is 0.
    pub fn new(words: &'a mut [u64]) -> BitMatrix<'a>
        ensures empty { (x y : ℕ) → marked result.words.now x y ≡ false }
        ensures cleared { Cleared words.old result.words.now }
        ensures named { result.words.ghost_name ≡ words.entry.ghost_name }
    {
        clear_matrix(words);
        BitMatrix::over(words)
    }

    // Over words that have no bit set in the matrix.
    #[tactic(auto, using(conflicts::proofs::Edges::edges_none))]
    fn over(words: &'a mut [u64]) -> BitMatrix<'a>
        requires { (x y : ℕ) → marked words.old x y ≡ false }
        ensures lent { result.words.now ≡ words.old }
        ensures named { result.words.ghost_name ≡ words.entry.ghost_name }
    {
        BitMatrix { words, edges: 0 }
    }

    // Whether the words suffice for a matrix.
    fn suffices(&self) -> bool
        ensures { result ≡ suffices self.now.words.now }
    {
        self.words.len() >= WORDS
    }

    #[tactic(auto, unfolding(crate::specs::Matrix::marked))]
    fn has(&self, a: LiftNumber, b: LiftNumber) -> bool
        ensures { result ≡ marked self.now.words.now a.value b.value }
    {
        let (word, bit) = place(a, b);
        self.suffices() && has_bit(self.words[word], bit)
    }

    // The words of row `a`, none where they are too few for a matrix.
    fn row(&self, a: LiftNumber) -> &[u64]
        ensures words { result.now ≡ row_of self.now.words.now a.value }
        ensures short { length result.now ≤ 8 }
    {
        if !self.suffices() {
            return &[];
        }
        let start = a.get() as usize * ROW_WORDS;
        &self.words[start..start + ROW_WORDS]
    }

    fn row_weight(&self, a: LiftNumber) -> u32
        ensures { result ≡ weight_of (row_of self.now.words.now a.value) }
    {
        self.row(a).iter().copied().map(weight).sum()
    }

    fn next_in_row(&self, a: LiftNumber, from: u32) -> Option<u32>
        ensures next { SmallestFrom (marked self.now.words.now a.value) from result }
        ensures within { Below 512 result }
    {
        // The words before this one have no column of at least `from`, and those after it no other.
        let start = from / 64;
        let (word, later) = self.row(a).get(start as usize..)?.split_first()?;
        if let Some(i) = next_bit(*word, from % 64) {
            return Some(start * 64 + i);
        }
        for (k, word) in later.iter().enumerate() {
            if let Some(i) = lowest_bit(*word) {
                return Some((start + 1 + k as u32) * 64 + i);
            }
        }
        None
    }

    // Adds a pair that does not stand, where there is room for it.
    fn join(&mut self, pair: LiftPair)
        requires missing { marked self.old.words.now pair.first.value pair.second.value ≡ false }
        requires room { edge_count (marked self.old.words.now) < capacity_of self.old.words.now }
        ensures after { (x y : ℕ) → marked self.new.words.now x y ≡ (marked self.old.words.now x y || joins pair.first.value pair.second.value x y) }
        ensures frame { Framed self.old.words.now self.new.words.now }
        ensures named { self.new.words.ghost_name ≡ self.old.words.ghost_name }
    {
        let BitMatrix { words, edges, .. } = self;
        put_pair(words, pair, true);
        *edges += 1;
    }

    // Removes a pair that stands. Its premise and its count are other than those of `join`.
    fn part(&mut self, pair: LiftPair)
        requires { marked self.old.words.now pair.first.value pair.second.value ≡ true }
        ensures after { (x y : ℕ) → marked self.new.words.now x y ≡ (marked self.old.words.now x y && not (joins pair.first.value pair.second.value x y)) }
        ensures frame { Framed self.old.words.now self.new.words.now }
        ensures named { self.new.words.ghost_name ≡ self.old.words.ghost_name }
    {
        let BitMatrix { words, edges, .. } = self;
        put_pair(words, pair, false);
        *edges -= 1;
    }
}

impl ConflictGraph for BitMatrix<'_> {
    ghost adjacent = { λ g x y. marked g.words.now x y };

    ghost limit = { λ g. capacity_of g.words.now };

    ghost framed = { λ g h. (h.words.ghost_name ≡ g.words.ghost_name) × Framed g.words.now h.words.now };

    ghost symmetric = { λ g. g.symmetric };

    ghost loopless = { λ g. g.loopless };

    ghost bounded = { λ g. marked_bounded g.words.now };

    ghost fitting = { λ g. g.fitting };

    ghost unmoved = { λ g. (refl, framed_same g.words.now) };

    ghost onward = { λ f g h p q. (q.0 ∙ p.0, framed_on f.words.now g.words.now h.words.now p.1 q.1) };

    fn edge_count(&self) -> u32 {
        self.edges
    }

    fn capacity(&self) -> u32 {
        if self.suffices() { ALL_PAIRS } else { 0 }
    }

    fn contains(&self, a: u32, b: u32) -> Result<bool, Fault> {
        let a = LiftNumber::new(a, Layer::Book)?;
        let b = LiftNumber::new(b, Layer::Book)?;
        Ok(self.has(a, b))
    }

    #[tactic(auto, using(crate::proofs::Scan::row_degree))]
    fn degree(&self, a: u32) -> Result<u32, Fault> {
        let a = LiftNumber::new(a, Layer::Book)?;
        Ok(self.row_weight(a))
    }

    fn next_neighbour(&self, a: u32, from: u32) -> Result<Option<u32>, Fault> {
        let a = LiftNumber::new(a, Layer::Book)?;
        Ok(self.next_in_row(a, from))
    }

    fn insert(&mut self, a: u32, b: u32) -> Result<(), Fault> {
        let pair = self.check_insert(a, b)?;
        self.join(pair);
        Ok(())
    }

    fn remove(&mut self, a: u32, b: u32) -> Result<(), Fault> {
        let pair = self.check_remove(a, b)?;
        self.part(pair);
        Ok(())
    }
}
