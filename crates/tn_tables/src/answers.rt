use crate::stops::Stop;
use std::alloc::Global;

/// A text as an answer.
pub fn said(alloc: Global, text: &str) -> Result<Vec<u8>, Stop> {
    Ok(Vec::from_slice(alloc, text.as_bytes())?)
}

/// What a file holds as an answer.
pub fn held(alloc: Global, file: Option<&[u8]>) -> Result<Vec<u8>, Stop> {
    match file {
        Some(bytes) => Ok(Vec::from_slice(alloc, bytes)?),
        None => said(alloc, "no file"),
    }
}

/// Bytes in hexadecimal as an answer, a blank between two.
pub fn spelled(alloc: Global, bytes: &[u8]) -> Result<Vec<u8>, Stop> {
    let mut text = String::new(alloc);
    for byte in bytes {
        if !text.is_empty() {
            text.push(' ')?;
        }
        push_hex(&mut text, *byte)?;
    }
    Ok(text.into_bytes())
}

/// Adds the two hexadecimal digits of a byte.
pub(crate) fn push_hex(text: &mut String, byte: u8) -> Result<(), Stop> {
    text.push(digit(byte / 16))?;
    text.push(digit(byte % 16))?;
    Ok(())
}

fn digit(value: u8) -> char {
    char::from_digit(u32::from(value % 16), 16)
        .unwrap_or('?')
        .to_ascii_uppercase()
}
