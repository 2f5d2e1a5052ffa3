ghost use Rattle.std.specs.Prelude.{◌≡◌, false};
ghost use Rattle.tn_alu.specs.SignedWords.{word_of};
ghost use Rattle.tn_alu.specs.Divisions.{has_no_quotient, quotient, remainder};

use crate::answers::Answer;

/// MostNeg, the lowest signed word.
const MOST_NEG: u32 = 0x8000_0000;

/// The word that stands for -1.
const MINUS_ONE: u32 = 0xFFFF_FFFF;

/// What a division leaves that has no quotient.
const NO_QUOTIENT: Answer = Answer {
    value: None,
    error: true,
};

/// The quotient of register B by register A as signed words, rounded towards zero, `div`. A
/// division by 0, or of MostNeg by -1, sets Error and has no defined result.
pub fn div(b: u32, a: u32) -> Answer
    ensures { result ≡ quotient b a }
{
    if is_without_quotient(b, a) {
        return NO_QUOTIENT;
    }
    defined(b.cast_signed() / a.cast_signed())
}

/// The remainder of register B by register A as signed words, with the sign of B, `rem`. A
/// division by 0, or of MostNeg by -1, sets Error and has no defined result.
pub fn rem(b: u32, a: u32) -> Answer
    ensures { result ≡ remainder b a }
{
    if is_without_quotient(b, a) {
        return NO_QUOTIENT;
    }
    defined(b.cast_signed() % a.cast_signed())
}

/// Whether no signed word is the quotient of b by a.
fn is_without_quotient(b: u32, a: u32) -> bool
    ensures { result ≡ has_no_quotient b a }
{
    a == 0 || (b == MOST_NEG && a == MINUS_ONE)
}

/// The word of a signed number.
fn defined(number: i32) -> Answer
    ensures { result ≡ record { value = Some (word_of number); error = false } }
{
    Answer {
        value: Some(number.cast_unsigned()),
        error: false,
    }
}
