ghost use Rattle.std.specs.Prelude.{◌≡◌, ◌<◌, ◌%◌, true};
ghost use Rattle.std.specs.Fmt.{digit_glyph};
ghost use Rattle.tn_text.specs.WordTexts.{word_text};

/// A word as texts print it: `#` and eight upper-case hexadecimal digits.
#[tactic(auto, unfolding(crate::specs::WordTexts::word_text))]
pub fn word_text(word: u32) -> [u8; 9]
    ensures { result ≡ word_text word }
{
    [
        b'#',
        low_digit(word / 0x1000_0000),
        low_digit(word / 0x100_0000),
        low_digit(word / 0x10_0000),
        low_digit(word / 0x1_0000),
        low_digit(word / 0x1000),
        low_digit(word / 0x100),
        low_digit(word / 0x10),
        low_digit(word),
    ]
}

/// The lowest hexadecimal digit of a number.
fn low_digit(number: u32) -> u8
    ensures { result ≡ digit_glyph true (number % 16) }
{
    let digit = (number % 16) as u8;
    if digit < 10 {
        b'0' + digit
    } else {
        b'A' + (digit - 10)
    }
}
