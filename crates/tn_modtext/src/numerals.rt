ghost use Rattle.std.specs.Prelude.{◌≡◌, ◌<◌, ◌≤◌, ◌^◌, IfSome, IfOk};
ghost use Rattle.tn_modtext.specs.Numerals.{has_leading_zero, plain_natural, natural_at, negative_at, positive_at, signed_at};

use tn_text::{Cause, FaultCode, natural};

/// The number that a token is: decimal digits without leading zeros, of a value up to `limit`.
/// `BadNumber` comes where it is none.
#[tactic(auto, unfolding(crate::specs::Numerals::natural_at))]
pub(crate) fn natural_at(token: &[u8], limit: u32) -> Result<u32, Cause>
    ensures value { result ≡ natural_at limit token.now }
    ensures bound { IfOk result (λ n. n ≤ limit) }
{
    match plain_natural(token) {
        Some(value) => {
            if value <= u64::from(limit) {
                Ok(value as u32)
            } else {
                Err(Cause::bare(FaultCode::BadNumber))
            }
        }
        None => Err(Cause::bare(FaultCode::BadNumber)),
    }
}

/// The signed word that a token is: an optional `-`, and decimal digits without leading zeros, but
/// not `-0`. `BadNumber` comes where it is none.
#[tactic(auto, unfolding(crate::specs::Numerals::signed_at))]
pub(crate) fn signed_at(token: &[u8]) -> Result<i32, Cause>
    ensures { result ≡ signed_at token.now }
{
    match token {
        [] => Err(Cause::bare(FaultCode::BadNumber)),
        [b'-', digits @ ..] => negative_at(plain_natural(digits)),
        [_, ..] => positive_at(plain_natural(token)),
    }
}

/// The negative of a value.
fn negative_at(value: Option<u64>) -> Result<i32, Cause>
    requires { IfSome value (λ n. n < 16 ^ 10) }
    ensures { result ≡ negative_at value }
{
    match value {
        Some(value) => {
            if 1 <= value && value <= 0x8000_0000 {
                Ok((-(value as i64)) as i32)
            } else {
                Err(Cause::bare(FaultCode::BadNumber))
            }
        }
        None => Err(Cause::bare(FaultCode::BadNumber)),
    }
}

/// The value itself.
fn positive_at(value: Option<u64>) -> Result<i32, Cause>
    requires { IfSome value (λ n. n < 16 ^ 10) }
    ensures { result ≡ positive_at value }
{
    match value {
        Some(value) => {
            if value < 0x8000_0000 {
                Ok(value as i32)
            } else {
                Err(Cause::bare(FaultCode::BadNumber))
            }
        }
        None => Err(Cause::bare(FaultCode::BadNumber)),
    }
}

/// The value of one to ten decimal digits without leading zeros.
#[tactic(auto, unfolding(crate::specs::Numerals::plain_natural))]
fn plain_natural(digits: &[u8]) -> Option<u64>
    ensures value { result ≡ plain_natural digits.now }
    ensures bound { IfSome result (λ n. n < 16 ^ 10) }
{
    if has_leading_zero(digits) {
        return None;
    }
    natural(digits, 10, 10)
}

/// Whether more digits stand behind a zero.
fn has_leading_zero(digits: &[u8]) -> bool
    ensures { result ≡ has_leading_zero digits.now }
{
    match digits {
        [] => false,
        [_] => false,
        [first, _, ..] => *first == b'0',
    }
}
