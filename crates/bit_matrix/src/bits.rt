// The bits of a word.
ghost use Rattle.std.specs.Prelude.{◌≡◌, ℕ, ◌<◌, ◌≤◌, ◌&&◌, ◌==◌, if◌then◌else◌, nat_le};
ghost use Rattle.conflicts.specs.Counting.{count};
ghost use Rattle.conflicts.specs.Graphs.{Below, SmallestFrom};
ghost use Rattle.bit_matrix.specs.Matrix.{bit_of};

#[tactic(auto, using(std::proofs::lemmas::Nat::Bits::shr_and_one), unfolding(crate::specs::Matrix::bit_of))]
pub(crate) fn has_bit(word: u64, k: u32) -> bool
    requires { k < 64 }
    ensures { result ≡ bit_of word k }
{
    (word >> k) & 1 == 1
}

// The word with bit `k` set, or cleared where it is to stand no longer.
pub(crate) fn with_bit(word: u64, k: u32, stands: bool) -> u64
    requires { k < 64 }
    ensures { (i : ℕ) → i < 64 → bit_of result i ≡ (if i == k then stands else bit_of word i) }
{
    let bit = 1 << k;
    if stands { word | bit } else { word & !bit }
}

// Without the bits below `from`.
fn bits_from(word: u64, from: u32) -> u64
    ensures { (i : ℕ) → bit_of result i ≡ (bit_of word i && nat_le from i) }
{
    word & u64::MAX.unbounded_shl(from)
}

pub(crate) fn lowest_bit(word: u64) -> Option<u32>
    ensures lowest { SmallestFrom (bit_of word) 0 result }
    ensures within { Below 64 result }
{
    (word != 0).then_some(word.trailing_zeros())
}

// The lowest bit of at least `from` that is set.
pub(crate) fn next_bit(word: u64, from: u32) -> Option<u32>
    ensures next { SmallestFrom (bit_of word) from result }
    ensures within { Below 64 result }
{
    lowest_bit(bits_from(word, from))
}

// How many bits are set. The bound is what lets a row's sum fit.
#[tactic(auto, using(crate::proofs::Words::weight_is))]
pub(crate) fn weight(word: u64) -> u32
    ensures number { result ≡ count (bit_of word) 64 }
    ensures bound { result ≤ 64 }
{
    word.count_ones()
}
