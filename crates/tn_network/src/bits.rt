ghost use Rattle.std.specs.Prelude.{◌≡◌, ℕ, ◌*◌, ◌^◌, ◌<◌, ◌≤◌, ◌==◌, length, replicate, slice_index, IfOk, MatchOption, if◌then◌else◌};
ghost use Rattle.tn_network.specs.Inner.PickBits.{has_bit, with_bit, NoBit, IsFirstBit, IsLastBit, IsEdgeBit};

use std::alloc::{AllocError, Global};

/// How many bits a word has.
pub const WORD_BITS: usize = 64;

/// So many words with no bit set.
pub fn no_bits(alloc: Global, count: usize) -> Result<Vec<u64>, AllocError>
    ensures { IfOk result (λ words. words.items ≡ replicate count 0) }
{
    vec![in alloc; 0u64; count]
}

/// A bit of words.
pub fn has_bit(words: &[u64], k: usize) -> bool
    requires { k < 64 * length words.now }
    ensures { result ≡ has_bit words.now k }
{
    (words[k / WORD_BITS] >> (k % WORD_BITS)) & 1 == 1
}

/// Sets a bit of words, or clears it.
pub fn set_bit(words: &mut [u64], k: usize, on: bool)
    requires { k < 64 * length words.old }
    ensures { (j : ℕ) → j < 64 * length words.old → has_bit words.new j ≡ (if j == k then on else has_bit words.old j) }
{
    let word = words[k / WORD_BITS];
    words[k / WORD_BITS] = with_bit(word, (k % WORD_BITS) as u32, on);
}

/// A word with a bit set, or cleared.
fn with_bit(word: u64, k: u32, on: bool) -> u64
    requires { k < 64 }
    ensures { result ≡ with_bit word k on }
{
    if on {
        word | (1u64 << k)
    } else {
        word & !(1u64 << k)
    }
}

/// The first bit that is set, or with `back` the last.
pub fn edge_bit(words: &[u64], back: bool) -> Option<usize>
    requires { length words.now < 2 ^ 32 }
    ensures { MatchOption result (NoBit words.now) (λ k. IsEdgeBit back words.now k) }
{
    if back {
        last_bit(words)
    } else {
        first_bit(words)
    }
}

/// The first bit that is set.
pub fn first_bit(words: &[u64]) -> Option<usize>
    requires { length words.now < 2 ^ 32 }
    ensures { MatchOption result (NoBit words.now) (λ k. IsFirstBit words.now k) }
{
    match first_word(words) {
        Some(place) => Some(WORD_BITS * place + words[place].trailing_zeros() as usize),
        None => None,
    }
}

/// The last bit that is set.
fn last_bit(words: &[u64]) -> Option<usize>
    requires { length words.now < 2 ^ 32 }
    ensures { MatchOption result (NoBit words.now) (λ k. IsLastBit words.now k) }
{
    match last_word(words) {
        Some(place) => Some(WORD_BITS * place + words[place].ilog2() as usize),
        None => None,
    }
}

/// The first word that is not 0.
fn first_word(words: &[u64]) -> Option<usize>
    ensures { MatchOption result ((j : ℕ) → j < length words.now → slice_index words.now j ≡ 0)
        (λ k. (k < length words.now) × (0 < slice_index words.now k) × ((j : ℕ) → j < k → slice_index words.now j ≡ 0)) }
{
    for (place, word) in words.iter().enumerate() {
        if *word != 0 {
            return Some(place);
        }
    }
    None
}

/// The last word that is not 0.
fn last_word(words: &[u64]) -> Option<usize>
    ensures { MatchOption result ((j : ℕ) → j < length words.now → slice_index words.now j ≡ 0)
        (λ k. (k < length words.now) × (0 < slice_index words.now k)
        × ((j : ℕ) → k < j → j < length words.now → slice_index words.now j ≡ 0)) }
{
    let mut place = words.len();
    while place > 0 {
        place -= 1;
        if words[place] != 0 {
            return Some(place);
        }
    }
    None
}
