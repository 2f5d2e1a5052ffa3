ghost use Rattle.std.specs.Prelude.{◌≡◌, ◌+ℤ◌, ◌-ℤ◌, ◌*ℤ◌, ◌≤ℤ◌, neg_ℤ, pos};
ghost use Rattle.tn_alu.specs.SignedWords.{signed, word_of};
ghost use Rattle.tn_alu.specs.Checked.{checked};

use crate::answers::Answer;

/// The sum of two signed words, `add`. It wraps, and sets Error where the true sum is no signed
/// word.
pub fn add(b: u32, a: u32) -> Answer
    ensures { result ≡ checked (signed b +ℤ signed a) }
{
    checked_word(signed_word(b) + signed_word(a))
}

/// Register B less register A as signed words, `sub`. It wraps, and sets Error where the true
/// difference is no signed word.
pub fn sub(b: u32, a: u32) -> Answer
    ensures { result ≡ checked (signed b -ℤ signed a) }
{
    checked_word(signed_word(b) - signed_word(a))
}

/// The product of two signed words, `mul`. It wraps, and sets Error where the true product is no
/// signed word.
pub fn mul(b: u32, a: u32) -> Answer
    ensures { result ≡ checked (signed b *ℤ signed a) }
{
    checked_word(signed_word(b) * signed_word(a))
}

/// The signed number that a word stands for.
fn signed_word(word: u32) -> i64
    ensures value { result ≡ signed word }
    ensures low { neg_ℤ (pos 0x8000_0000) ≤ℤ result }
    ensures high { result ≤ℤ pos 0x7FFF_FFFF }
{
    i64::from(word.cast_signed())
}

/// The word that is left of a true result, and Error where the result is no signed word.
fn checked_word(number: i64) -> Answer
    ensures { result ≡ checked number }
{
    Answer {
        value: Some(low_word(number)),
        error: i32::try_from(number).is_err(),
    }
}

/// A number modulo 2^32.
fn low_word(number: i64) -> u32
    ensures { result ≡ word_of number }
{
    (number.cast_unsigned() % (1 << 32)) as u32
}
