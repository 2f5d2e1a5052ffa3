use crate::shown::{done, hexadecimal, refusal, word, word_of};
use std::alloc::Global;
use tn_mem::{CodeFree, Memory, Space, Touch};
use tn_tables::{Case, Line, Report, Stop, byte, said};

/// Where the blocks of `accesses` are copied from and to: nothing guards it.
const SPARE: u32 = 0x8000_0400;

/// Runs a case of the table of memories. Its first line says which memory it is of.
pub fn run_case(alloc: Global, case: &Case<'_>, report: &mut Report) -> Result<(), Stop> {
    let (first, lines) = case.lines.split_first().ok_or(Stop::BadCase)?;
    match first.words.as_slice() {
        ["memory"] => run_memory(alloc, case, lines, report),
        ["guarded", from, to] => {
            let guard = (hexadecimal(from)?, hexadecimal(to)?);
            run_guarded(alloc, case, lines, guard, report)
        }
        _ => Err(Stop::BadCase),
    }
}

/// A memory of 4,096 bytes, each the low byte of its address.
fn counted(alloc: Global) -> Result<Memory, Stop> {
    let mut bytes = Vec::new(alloc);
    for k in 0..4096_u32 {
        bytes.push((k % 256) as u8)?;
    }
    if bytes.len() != 4096 {
        return Err(Stop::NoMemory);
    }
    Ok(Memory::power_up(bytes))
}

fn run_memory(
    alloc: Global,
    case: &Case<'_>,
    lines: &[Line<'_>],
    report: &mut Report,
) -> Result<(), Stop> {
    let mut memory = counted(alloc)?;
    run_lines(alloc, case, lines, &mut memory, report)
}

fn run_lines(
    alloc: Global,
    case: &Case<'_>,
    lines: &[Line<'_>],
    memory: &mut Memory,
    report: &mut Report,
) -> Result<(), Stop> {
    for line in lines {
        let came = memory_answer(alloc, memory, line.words.as_slice());
        report.answer(alloc, case.name, line, came)?;
    }
    Ok(())
}

/// What a memory answers, by itself or as a space.
fn memory_answer(alloc: Global, memory: &mut Memory, words: &[&str]) -> Result<Vec<u8>, Stop> {
    match words {
        ["size"] => Ok(memory.size().to_string(alloc)?.into_bytes()),
        ["copied"] => copied(alloc, memory),
        words => answer(alloc, memory, words),
    }
}

fn run_guarded(
    alloc: Global,
    case: &Case<'_>,
    lines: &[Line<'_>],
    guard: (u32, u32),
    report: &mut Report,
) -> Result<(), Stop> {
    let mut space = CodeFree::around(counted(alloc)?, guard.0, guard.1);
    run_lines_around(alloc, case, lines, &mut space, report)
}

fn run_lines_around(
    alloc: Global,
    case: &Case<'_>,
    lines: &[Line<'_>],
    space: &mut CodeFree,
    report: &mut Report,
) -> Result<(), Stop> {
    for line in lines {
        let came = guarded_answer(alloc, space, line.words.as_slice());
        report.answer(alloc, case.name, line, came)?;
    }
    Ok(())
}

/// What a guarded memory answers, or the memory beneath it.
fn guarded_answer(alloc: Global, space: &mut CodeFree, words: &[&str]) -> Result<Vec<u8>, Stop> {
    match words {
        ["beneath", address] => word_of(alloc, space.memory(), address),
        words => answer(alloc, space, words),
    }
}

/// How many bytes a copy has, if it is equal.
fn copied(alloc: Global, memory: &Memory) -> Result<Vec<u8>, Stop> {
    let copy = memory.copied().ok().ok_or(Stop::NoMemory)?;
    if copy.bytes() == memory.bytes() {
        Ok(copy.bytes().len().to_string(alloc)?.into_bytes())
    } else {
        said(alloc, "other bytes")
    }
}

/// What a space answers to an access.
fn answer<S: Space>(alloc: Global, space: &mut S, words: &[&str]) -> Result<Vec<u8>, Stop> {
    match words {
        ["byte", a] => byte_of(alloc, space, a),
        ["set-byte", a, v] => set_byte(alloc, space, a, v),
        ["word", a] => word_of(alloc, space, a),
        ["set-word", a, v] => set_word(alloc, space, a, v),
        words => block_answer(alloc, space, words),
    }
}

fn byte_of<S: Space>(alloc: Global, space: &mut S, a: &str) -> Result<Vec<u8>, Stop> {
    match space.byte(hexadecimal(a)?) {
        Ok(byte) => word(alloc, Ok(u32::from(byte))),
        Err(touch) => said(alloc, refusal(touch)),
    }
}

fn set_byte<S: Space>(alloc: Global, space: &mut S, a: &str, v: &str) -> Result<Vec<u8>, Stop> {
    done(alloc, space.set_byte(hexadecimal(a)?, byte(v)?))
}

fn set_word<S: Space>(alloc: Global, space: &mut S, a: &str, v: &str) -> Result<Vec<u8>, Stop> {
    done(alloc, space.set_word(hexadecimal(a)?, hexadecimal(v)?))
}

fn block_answer<S: Space>(alloc: Global, space: &mut S, words: &[&str]) -> Result<Vec<u8>, Stop> {
    match words {
        ["block", a, n] => block(alloc, space, a, n),
        ["copy", from, to, n] => copy(alloc, space, from, to, n),
        ["fill", a, n, v] => filled(alloc, space, a, n, v),
        ["accesses", a] => accesses(alloc, space, a),
        _ => Err(Stop::BadCase),
    }
}

fn block<S: Space>(alloc: Global, space: &mut S, a: &str, n: &str) -> Result<Vec<u8>, Stop> {
    let (a, n) = two_of(a, n)?;
    done(alloc, space.block(a, n))
}

fn copy<S: Space>(
    alloc: Global,
    space: &mut S,
    from: &str,
    to: &str,
    n: &str,
) -> Result<Vec<u8>, Stop> {
    let ((from, to), n) = (two_of(from, to)?, hexadecimal(n)?);
    done(alloc, space.copy(from, to, n))
}

fn filled<S: Space>(
    alloc: Global,
    space: &mut S,
    a: &str,
    n: &str,
    v: &str,
) -> Result<Vec<u8>, Stop> {
    let ((a, n), v) = (two_of(a, n)?, byte(v)?);
    done(alloc, fill(space, a, n, v))
}

/// Two numbers in hexadecimal.
fn two_of(one: &str, two: &str) -> Result<(u32, u32), Stop> {
    Ok((hexadecimal(one)?, hexadecimal(two)?))
}

/// Stores a byte all over a block, if that is allowed.
fn fill<S: Space>(space: &mut S, a: u32, n: u32, byte: u8) -> Result<(), Touch> {
    space.block(a, n)?;
    for k in 0..n {
        space.set_byte(a.wrapping_add(k), byte)?;
    }
    Ok(())
}

/// The refusals at an address: of a byte and its store, a word and its store, a block of 4 bytes,
/// copies of 4 bytes from there and to there, and a block of 0 bytes.
fn accesses<S: Space>(alloc: Global, space: &mut S, a: &str) -> Result<Vec<u8>, Stop> {
    let touches = touches(space, hexadecimal(a)?);
    let mut text = String::new(alloc);
    put_touches(touches, &mut text)?;
    Ok(text.into_bytes())
}

fn touches<S: Space>(space: &mut S, a: u32) -> [Option<Touch>; 8] {
    [
        space.byte(a).err(),
        space.set_byte(a, 7).err(),
        space.word(a).err(),
        space.set_word(a, 7).err(),
        space.block(a, 4).err(),
        space.copy(a, SPARE, 4).err(),
        space.copy(SPARE, a, 4).err(),
        space.block(a, 0).err(),
    ]
}

fn put_touches(touches: [Option<Touch>; 8], text: &mut String) -> Result<(), Stop> {
    for found in touches {
        if !text.is_empty() {
            text.push(' ')?;
        }
        text.push_str(outcome_of(found))?;
    }
    Ok(())
}

/// Whether an access was made, or its refusal.
fn outcome_of(found: Option<Touch>) -> &'static str {
    match found {
        Some(touch) => refusal(touch),
        None => "done",
    }
}
