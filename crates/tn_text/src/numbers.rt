ghost use Rattle.std.specs.Prelude.{◌≡◌, ◌≤◌, ◌<◌, ◌^◌, IfSome};
ghost use Rattle.std.specs.Char.{digit_value};
ghost use Rattle.tn_text.specs.Numbers.{natural_of, number_of, begins_number, positive, negative};

/// The word of a number: an optional `-` with one to ten decimal digits, of a value from
/// -2147483648 to 2147483647, or `#` with one to eight hexadecimal digits of either case. `None`
/// exactly where the token is none.
#[tactic(auto, unfolding(crate::specs::Numbers::number_of))]
pub fn number(token: &[u8]) -> Option<u32>
    ensures { result ≡ number_of token.now }
{
    match token {
        [] => None,
        [b'#', digits @ ..] => hexadecimal(digits),
        [b'-', digits @ ..] => negative(natural(digits, 10, 10)?),
        [_, ..] => positive(natural(token, 10, 10)?),
    }
}

/// Whether a token is taken for a number where a name may stand too: it begins with a digit, `-`
/// or `#`.
pub fn begins_number(token: &[u8]) -> bool
    ensures { result ≡ begins_number token.now }
{
    match token {
        [] => false,
        [first, ..] => first.is_ascii_digit() || *first == b'-' || *first == b'#',
    }
}

/// The value of one to eight hexadecimal digits.
fn hexadecimal(digits: &[u8]) -> Option<u32>
    ensures { result ≡ natural_of 16 8 digits.now }
{
    u32::try_from(natural(digits, 16, 8)?).ok()
}

/// The word of a number that is not negative.
fn positive(value: u64) -> Option<u32>
    ensures { result ≡ positive value }
{
    if value < 0x8000_0000 {
        Some(value as u32)
    } else {
        None
    }
}

/// The word of a number's negative.
fn negative(value: u64) -> Option<u32>
    ensures { result ≡ negative value }
{
    if value <= 0x8000_0000 {
        Some(((0x1_0000_0000 - value) % 0x1_0000_0000) as u32)
    } else {
        None
    }
}

/// The value of one to `most` digits of a radix. `None` exactly where the bytes are none.
#[tactic(auto, unfolding(crate::specs::Numbers::natural_of))]
pub fn natural(digits: &[u8], radix: u8, most: usize) -> Option<u64>
    requires radix { radix ≤ 16 }
    requires most { most ≤ 10 }
    ensures value { result ≡ natural_of radix most digits.now }
    ensures bound { IfSome result (λ n. n < 16 ^ most) }
{
    if digits.is_empty() || digits.len() > most {
        return None;
    }
    let mut value = 0;
    for digit in digits {
        let unit = digit_value(*digit);
        if unit >= radix {
            return None;
        }
        value = value * u64::from(radix) + u64::from(unit);
    }
    Some(value)
}

/// The value of a digit or a letter, from 0 for `0` to 35 for `Z` and `z`, and 36 for any other
/// byte.
fn digit_value(byte: u8) -> u8
    ensures { result ≡ digit_value byte }
{
    match byte {
        b'0'..=b'9' => byte - b'0',
        b'A'..=b'Z' => byte - b'A' + 10,
        b'a'..=b'z' => byte - b'a' + 10,
        _ => 36,
    }
}
