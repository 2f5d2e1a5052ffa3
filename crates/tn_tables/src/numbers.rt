use crate::stops::Stop;
use std::alloc::Global;

/// What `@` counts from: the lowest address of a T425.
const MOST_NEG: u32 = 0x8000_0000;

/// The number of a word of a line: decimal digits, `#` and hexadecimal digits, or `@` and
/// hexadecimal digits, which count from MostNeg.
pub fn number(text: &str) -> Result<u32, Stop> {
    if let Some(digits) = text.strip_prefix('#') {
        return hexadecimal(digits);
    }
    match text.strip_prefix('@') {
        Some(digits) => Ok(hexadecimal(digits)?.wrapping_add(MOST_NEG)),
        None => text.parse::<u32>().ok().ok_or(Stop::BadCase),
    }
}

fn hexadecimal(digits: &str) -> Result<u32, Stop> {
    u32::from_str_radix(digits, 16).ok().ok_or(Stop::BadCase)
}

/// The byte of one or two hexadecimal digits.
pub fn byte(text: &str) -> Result<u8, Stop> {
    u8::from_str_radix(text, 16).ok().ok_or(Stop::BadCase)
}

/// The value of decimal digits.
pub fn decimal(text: &str) -> Result<u64, Stop> {
    text.parse::<u64>().ok().ok_or(Stop::BadCase)
}

/// The words of a text, which blanks separate.
pub fn words_of<'a>(alloc: Global, text: &'a str) -> Result<Vec<&'a str>, Stop> {
    let mut words = Vec::new(alloc);
    for word in text.split_whitespace() {
        words.push(word)?;
    }
    Ok(words)
}

/// Numbers in decimal.
pub fn decimals(alloc: Global, words: &[&str]) -> Result<Vec<u64>, Stop> {
    let mut numbers = Vec::new(alloc);
    for word in words {
        numbers.push(decimal(word)?)?;
    }
    Ok(numbers)
}
