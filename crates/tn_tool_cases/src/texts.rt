use crate::faults::{fault_line, name_of};
use std::alloc::Global;
use std::str;
use tn_tables::{Line, Stop, said};
use tn_text::limits::NAME_LIMIT;
use tn_text::{
    Cause, FileName, Name, ReadFault, begins_number, file_name_at, is_ascii_line, is_name,
    is_name_spelling, name_at, next_line, number, number_at, read_tokens,
};

/// What a line of the table of numbers, names, lines and tokens gives.
pub fn answer(alloc: Global, line: &Line<'_>) -> Result<Vec<u8>, Stop> {
    let token = token_of(line);
    match line.words.as_slice() {
        ["same", one, two] => same(alloc, one, two),
        ["lines"] => lines(alloc, token),
        ["tokens"] => tokens(alloc, token),
        [kind, _] => answer_of(alloc, kind, token),
        [kind] => answer_of(alloc, kind, token),
        _ => Err(Stop::BadCase),
    }
}

/// Whether a copy of one name is the other.
fn same(alloc: Global, one: &str, two: &str) -> Result<Vec<u8>, Stop> {
    told(alloc, name_of(one)?.copied() == name_of(two)?)
}

/// The token that a line asks about: its second word, or the bytes below it.
fn token_of<'a>(line: &'a Line<'_>) -> &'a [u8] {
    match line.words.as_slice() {
        [_, token] => token.as_bytes(),
        _ => line.bytes.as_slice(),
    }
}

fn answer_of(alloc: Global, kind: &str, token: &[u8]) -> Result<Vec<u8>, Stop> {
    match kind {
        "number" => word(alloc, number(token)),
        "number-at" => match number_at(token) {
            Ok(found) => word(alloc, Some(found)),
            Err(cause) => cause_of(alloc, cause),
        },
        "begins-number" => told(alloc, begins_number(token)),
        "is-ascii-line" => told(alloc, is_ascii_line(token)),
        kind => name_answer(alloc, kind, token),
    }
}

fn name_answer(alloc: Global, kind: &str, token: &[u8]) -> Result<Vec<u8>, Stop> {
    match kind {
        "is-name" => told(alloc, is_name(token)),
        "spells-name" => told(alloc, is_name_spelling(token)),
        "name" => match Name::of(token) {
            Some(name) => Ok(Vec::from_slice(alloc, name.copied().bytes())?),
            None => said(alloc, "none"),
        },
        "name-at" => match name_at(token, NAME_LIMIT) {
            Ok(name) => Ok(Vec::from_slice(alloc, name.bytes())?),
            Err(cause) => cause_of(alloc, cause),
        },
        kind => file_name_answer(alloc, kind, token),
    }
}

fn file_name_answer(alloc: Global, kind: &str, token: &[u8]) -> Result<Vec<u8>, Stop> {
    match kind {
        "file-name" => {
            let text = str::from_utf8(token).ok().ok_or(Stop::BadCase)?;
            match FileName::of(text) {
                Some(name) => said(alloc, name.copied().text()),
                None => said(alloc, "none"),
            }
        }
        "is-file-name-at" if is_ascii_line(token) => told(alloc, file_name_at(token).is_ok()),
        "file-name-at" if is_ascii_line(token) => match file_name_at(token) {
            Ok(name) => said(alloc, name.text()),
            Err(cause) => cause_of(alloc, cause),
        },
        _ => Err(Stop::BadCase),
    }
}

fn told(alloc: Global, holds: bool) -> Result<Vec<u8>, Stop> {
    said(alloc, if holds { "yes" } else { "no" })
}

fn word(alloc: Global, word: Option<u32>) -> Result<Vec<u8>, Stop> {
    match word {
        Some(word) => Ok(format!(in alloc; "#{word:08X}")?.into_bytes()),
        None => said(alloc, "none"),
    }
}

/// The cause of a fault, as at line 1.
fn cause_of(alloc: Global, cause: Cause) -> Result<Vec<u8>, Stop> {
    fault_line(alloc, &cause.at(1))
}

/// The lines of a text, each with `|` behind it.
fn lines(alloc: Global, text: &[u8]) -> Result<Vec<u8>, Stop> {
    let mut lines = Vec::new(alloc);
    let mut rest = text;
    for _ in 0..text.len() {
        let Some((line, behind)) = next_line(rest) else {
            break;
        };
        push_line(&mut lines, line)?;
        rest = behind;
    }
    Ok(lines)
}

/// Adds a line and a `|`. A carriage return in it is `<0D>`, since a table has none.
fn push_line(lines: &mut Vec<u8>, line: &[u8]) -> Result<(), Stop> {
    for byte in line {
        match *byte {
            b'\r' => lines.extend_from_slice(b"<0D>")?,
            byte => lines.push(byte)?,
        }
    }
    lines.push(b'|')?;
    Ok(())
}

/// The tokens of line 4, each with `|` behind it.
fn tokens(alloc: Global, line: &[u8]) -> Result<Vec<u8>, Stop> {
    match read_tokens(alloc, line, 4) {
        Ok(tokens) => joined(alloc, &tokens),
        Err(ReadFault::Fault(fault)) => fault_line(alloc, &fault),
        Err(ReadFault::NoMemory) => Err(Stop::NoMemory),
    }
}

fn joined(alloc: Global, tokens: &[&[u8]]) -> Result<Vec<u8>, Stop> {
    let mut joined = Vec::new(alloc);
    for token in tokens {
        joined.extend_from_slice(token)?;
        joined.push(b'|')?;
    }
    Ok(joined)
}
