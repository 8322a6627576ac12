//! Single bits of a word, and words in a row as a set of numbers. A place is taken modulo 64:
//! number b of a row is at bit b mod 64 of word b / 64.
#![tactic(auto)]

ghost use Rattle.std.specs.Prelude.{◌≡◌, ℕ, ◌%◌, ◌≤◌, ◌<◌, ◌*◌, ◌^◌, not, ◌&&◌, ◌||◌, ◌==◌};
ghost use Rattle.std.specs.Prelude.{if◌then◌else◌, nat_eq, length, IfSome};
ghost use Rattle.graph.specs.Graph.{count, Next, NextBelow};
ghost use Rattle.bits.specs.Bit.{bit};
ghost use Rattle.bits.specs.Words.{member};

/// Whether the bit at `place`, modulo 64, is 1.
pub fn bit_of(word: u64, place: usize) -> bool
    ensures { result ≡ bit word (place % 64) }
{
    (word >> (place % 64)) & 1 == 1
}

/// The word with the bit at `place`, modulo 64, set to 1.
pub fn with_bit(word: u64, place: usize) -> u64
    ensures { (j : ℕ) → bit result j ≡ (bit word j || place % 64 == j) }
{
    word | (1 << (place % 64))
}

/// The word with the bit at `place`, modulo 64, set to 0.
pub fn without_bit(word: u64, place: usize) -> u64
    ensures { (j : ℕ) → bit result j ≡ (bit word j && not (place % 64 == j)) }
{
    word & !(1 << (place % 64))
}

/// The place of the lowest bit at or above `from` that is 1; `None` where there is none, as from
/// 64 on.
pub fn next_bit(word: u64, from: usize) -> Option<usize>
    ensures next { Next (bit word) from result }
    ensures bound { IfSome result (λ j. j < 64) }
{
    if from >= 64 {
        return None;
    }
    let rest = word & (u64::MAX << from);
    if rest == 0 {
        return None;
    }
    Some(rest.trailing_zeros() as usize)
}

/// How many bits are 1, 0 to 64.
pub fn count_bits(word: u64) -> usize
    ensures value { result ≡ count 64 (bit word) }
    ensures bound { result ≤ 64 }
{
    word.count_ones() as usize
}

/// The word with the bit at `place`, modulo 64, set to `on`.
pub fn put_bit(word: u64, place: usize, on: bool) -> u64
    ensures { (j : ℕ) → bit result j ≡ (if nat_eq (place % 64) j then on else bit word j) }
{
    if on {
        with_bit(word, place)
    } else {
        without_bit(word, place)
    }
}

// How many words have all the numbers that a usize can name.
const NAMED_WORDS: usize = 1 << 58;

/// The smallest member, at or above `from`, of the set that a row of words is; `None` where there
/// is none. Of a row so long that a usize cannot name all its numbers, those that it can are
/// searched. Reads each word from that of `from` to that of the member.
pub fn next_member(words: &[u64], from: usize) -> Option<usize>
    ensures named { NextBelow (member words.now) from (2 ^ 64) result }
    ensures next { length words.now ≤ 2 ^ 58 → Next (member words.now) from result }
    ensures bound { IfSome result (λ b. b < 64 * length words.now) }
{
    let first = from / 64;
    if first >= words.len() {
        return None;
    }
    // only this word has to be masked: the later ones have no number below `from`
    if let Some(j) = next_bit(words[first], from % 64) {
        return Some(64 * first + j);
    }
    for k in first + 1..words.len().min(NAMED_WORDS) {
        let word = words[k];
        if word != 0 {
            return Some(64 * k + word.trailing_zeros() as usize);
        }
    }
    None
}
