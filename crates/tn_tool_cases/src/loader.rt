use std::alloc::Global;
use tn_loader::{
    COMMAND_SIZE, FORWARD, LOAD, NOP, PRIMARY_SIZE, RUN, SECONDARY, SECONDARY_SIZE, command,
    primary, secondary,
};
use tn_tables::{Line, Stop, number, said, spelled};
use tn_word::{
    LOAD_BASE, MEM_START, MOST_NEG, NOT_PROCESS, in_channel, out_channel, word_at, word_bytes,
};

/// What a line of the table of words and of the loader's bytes gives.
pub fn answer(alloc: Global, line: &Line<'_>) -> Result<Vec<u8>, Stop> {
    match line.words.as_slice() {
        ["word-bytes", word] => bytes_of(alloc, word),
        ["word-at", place] => word(alloc, &line.bytes, place),
        ["address", name] => address(alloc, name),
        ["out-channel", link] => channel(alloc, link, false),
        ["in-channel", link] => channel(alloc, link, true),
        ["size", name] => size(alloc, name),
        ["primary", link] => primary_of(alloc, link),
        ["secondary"] => secondary_of(alloc),
        ["secondary-constant"] => bytes(alloc, &SECONDARY),
        ["command", name, x, n] => command_of(alloc, name, x, n),
        _ => Err(Stop::BadCase),
    }
}

fn bytes(alloc: Global, found: &[u8]) -> Result<Vec<u8>, Stop> {
    Ok(Vec::from_slice(alloc, found)?)
}

/// The bytes of a word.
fn bytes_of(alloc: Global, word: &str) -> Result<Vec<u8>, Stop> {
    spelled(alloc, &word_bytes(number(word)?))
}

/// The secondary bootstrap.
fn secondary_of(alloc: Global) -> Result<Vec<u8>, Stop> {
    bytes(alloc, &secondary())
}

/// A word as texts print it.
fn word_text(alloc: Global, word: u32) -> Result<Vec<u8>, Stop> {
    Ok(format!(in alloc; "#{word:08X}")?.into_bytes())
}

/// The word at a place of bytes.
fn word(alloc: Global, bytes: &[u8], place: &str) -> Result<Vec<u8>, Stop> {
    let place = place.parse::<usize>().ok().ok_or(Stop::BadCase)?;
    match word_at(bytes, place) {
        Some(word) => word_text(alloc, word),
        None => said(alloc, "none"),
    }
}

fn address(alloc: Global, name: &str) -> Result<Vec<u8>, Stop> {
    match name {
        "MostNeg" => word_text(alloc, MOST_NEG),
        "MemStart" => word_text(alloc, MEM_START),
        "LoadBase" => word_text(alloc, LOAD_BASE),
        "NotProcess" => word_text(alloc, NOT_PROCESS),
        _ => Err(Stop::BadCase),
    }
}

/// The channel word of a link.
fn channel(alloc: Global, link: &str, input: bool) -> Result<Vec<u8>, Stop> {
    let link = link_of(link)?;
    if link >= 4 {
        return Err(Stop::BadCase);
    }
    word_text(
        alloc,
        if input {
            in_channel(link)
        } else {
            out_channel(link)
        },
    )
}

fn link_of(text: &str) -> Result<u8, Stop> {
    text.parse::<u8>().ok().ok_or(Stop::BadCase)
}

fn size(alloc: Global, name: &str) -> Result<Vec<u8>, Stop> {
    let size = match name {
        "primary" => PRIMARY_SIZE,
        "secondary" => SECONDARY_SIZE,
        "command" => COMMAND_SIZE,
        _ => return Err(Stop::BadCase),
    };
    Ok(size.to_string(alloc)?.into_bytes())
}

/// The primary bootstrap for a boot link.
fn primary_of(alloc: Global, link: &str) -> Result<Vec<u8>, Stop> {
    let link = link_of(link)?;
    if link >= 4 {
        return Err(Stop::BadCase);
    }
    bytes(alloc, &primary(link))
}

fn command_of(alloc: Global, name: &str, x: &str, n: &str) -> Result<Vec<u8>, Stop> {
    let op = match name {
        "LOAD" => LOAD,
        "FORWARD" => FORWARD,
        "RUN" => RUN,
        "NOP" => NOP,
        _ => return Err(Stop::BadCase),
    };
    spelled(alloc, &command(op, number(x)?, number(n)?))
}
