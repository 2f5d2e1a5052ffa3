use crate::numbers::{byte, decimal};
use crate::stops::Stop;

/// Adds the bytes of a line that begins with this mark.
pub fn add_bytes(bytes: &mut Vec<u8>, mark: &str, rest: &str) -> Result<(), Stop> {
    match mark {
        "|" => add_line(bytes, rest),
        "." => Ok(bytes.extend_from_slice(rest.as_bytes())?),
        "#" => add_hex(bytes, rest),
        _ => add_often(bytes, mark, rest),
    }
}

/// Adds bytes a number of times.
fn add_often(bytes: &mut Vec<u8>, mark: &str, rest: &str) -> Result<(), Stop> {
    let (count, rest) = rest.split_once(' ').ok_or(Stop::BadCase)?;
    for _ in 0..decimal(count)? {
        if mark == "*" {
            add_line(bytes, rest)?;
        } else {
            add_hex(bytes, rest)?;
        }
    }
    Ok(())
}

fn add_line(bytes: &mut Vec<u8>, text: &str) -> Result<(), Stop> {
    bytes.extend_from_slice(text.as_bytes())?;
    bytes.push(b'\n')?;
    Ok(())
}

fn add_hex(bytes: &mut Vec<u8>, text: &str) -> Result<(), Stop> {
    for word in text.split_whitespace() {
        bytes.push(byte(word)?)?;
    }
    Ok(())
}
