// Lines out of a stream of bytes, cut at CRLF only.
#![tactic(auto)]

pub mod laws;

ghost use Rattle.std.specs.Prelude.{◌≡◌, ◌≢◌, ℕ, ◌-◌, ◌<◌, ◌≤◌, false, ◌||◌, List, [], ◌∷◌, ◌++◌, length, get_or, take, drop, IfSome, MatchOption, ◌==◌, nat_lt};
ghost use Rattle.framing.specs.Buffer.{Ended, Keeps, Opens, Takes, body_after, ends, held};

use arrayvec::ArrayVec;
use memchr::memchr;
use std::mem;

const CR: u8 = b'\r';

const LF: u8 = b'\n';

// A change line's end is about so near.
const NEAR: usize = 16;

// The line that is being read: its first bytes, one more than a line may have, so that a reader knows that it is too long.
#[derive(Drop)]
pub struct LineBuffer {
    bytes: ArrayVec<u8, 65>,
    // a CR is held back, since it may begin the line's end: no other byte ever is
    cr: bool,
}

impl LineBuffer {
    pub fn new() -> LineBuffer
        ensures fields { (result.bytes.items ≡ []) × (result.cr ≡ false) }
        ensures line { Opens result [] }
    {
        LineBuffer {
            bytes: ArrayVec::new(),
            cr: false,
        }
    }

    // Bytes past the 65th are dropped.
    #[tactic(auto, using(crate::proofs::Bytes::keeps_all, std::proofs::lemmas::Grind::common_steps))]
    fn push_all(&mut self, bytes: &[u8])
        ensures keeps { (body : List ℕ) → Keeps self.old body → Keeps self.new (body ++ bytes.now) }
        ensures cr { self.new.cr ≡ self.old.cr }
    {
        let kept = self.bytes.remaining_capacity().min(bytes.len());
        let _ = self.bytes.try_extend_from_slice(&bytes[..kept]);
    }

    #[tactic(auto, using(crate::proofs::Bytes::keeps_one, crate::proofs::Bytes::keeps_full, std::proofs::lemmas::Grind::common_steps))]
    fn push(&mut self, b: u8)
        ensures keeps { (body : List ℕ) → Keeps self.old body → Keeps self.new (body ++ (b ∷ [])) }
        ensures cr { self.new.cr ≡ self.old.cr }
    {
        if !self.bytes.is_full() {
            self.bytes.push(b);
        }
    }

    // Does the line end with this byte?
    pub fn feed(&mut self, b: u8) -> bool
        ensures ends { result ≡ ends self.old.cr b }
        ensures keeps { (body : List ℕ) → Keeps self.old body → Keeps self.new (body_after self.old.cr b body) }
        ensures cr { self.new.cr ≡ (b == 13) }
    {
        let ends = self.cr && b == LF;
        if !ends {
            if self.cr {
                self.push(CR);
            }
            if b != CR {
                self.push(b);
            }
        }
        self.cr = b == CR;
        ends
    }

    // Takes the bytes that cannot end the line, up to a CR, and answers the rest. Where a CR is held back it takes none, and where one comes next there is none to copy.
    fn take_plain<'b>(&mut self, bytes: &'b [u8]) -> &'b [u8]
        ensures { Takes self.old self.new bytes.now result.now }
    {
        if self.cr || bytes.first() == Some(&CR) {
            return bytes;
        }
        let (plain, rest) = bytes.split_at(plain_len(bytes));
        self.push_all(plain);
        rest
    }

    // Takes bytes of the block from a place on until a line ends, and answers the place after it.
    pub fn take_line(&mut self, block: &[u8], at: usize) -> Option<usize>
        ensures place { IfSome result (λ p. (at < p) × (p ≤ length block.now)) }
        ensures line { (xs : List ℕ) → Opens self.old xs → MatchOption result
            (Opens self.new (xs ++ drop at block.now))
            (λ p. Ended self.new (xs ++ take (p - at) (drop at block.now))) }
    {
        let mut rest = block.get(at..)?;
        while let Some((b, after)) = rest.split_first() {
            if self.feed(*b) {
                return Some(block.len() - after.len());
            }
            rest = self.take_plain(after);
        }
        None
    }

    // Has a line begun that is not ended?
    pub fn is_open(&self) -> bool
        ensures fields { result ≡ (nat_lt 0 (length self.now.bytes.items) || self.now.cr) }
        ensures line { (xs : List ℕ) → Opens self.now xs → (result ≡ false → xs ≡ []) × (xs ≡ [] → result ≡ false) }
    {
        self.cr || !self.bytes.is_empty()
    }

    // The input has ended: a CR that is held back belongs to the line.
    pub fn end(&mut self)
        ensures keeps { (body : List ℕ) → Keeps self.old body → Keeps self.new (body ++ held self.old.cr) }
        ensures line { (xs : List ℕ) → Opens self.old xs → Keeps self.new xs }
        ensures cr { self.new.cr ≡ false }
    {
        if mem::take(&mut self.cr) {
            self.push(CR);
        }
    }

    // On to the next line. A new buffer is made in a few steps, and to blank the old one is a call.
    pub fn clear(&mut self)
        ensures fields { (self.new.bytes.items ≡ []) × (self.new.cr ≡ false) }
        ensures line { Opens self.new [] }
    {
        self.bytes = ArrayVec::new();
        self.cr = false;
    }

    // The line so far, its first 65 bytes.
    pub fn get(&self) -> &[u8]
        ensures bytes { result.now ≡ self.now.bytes.items }
        ensures line { (body : List ℕ) → Keeps self.now body → result.now ≡ take 65 body }
        ensures short { length result.now ≤ 65 }
    {
        self.bytes.as_slice()
    }
}

// How many bytes stand before the first CR, or all of them. A near CR is found sooner one byte at a time, since a long search is slow to begin.
fn plain_len(bytes: &[u8]) -> usize
    ensures within { result ≤ length bytes.now }
    ensures plain { (k : ℕ) → k < result → get_or bytes.now k 0 ≢ 13 }
    ensures cr { result < length bytes.now → get_or bytes.now result 0 ≡ 13 }
{
    let (near, far) = bytes.split_at(bytes.len().min(NEAR));
    match near.iter().position(|b| *b == CR) {
        Some(n) => n,
        None => near.len() + memchr(CR, far).unwrap_or(far.len()),
    }
}
