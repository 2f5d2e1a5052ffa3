use std::alloc::Global;
use tn_io::MemOut;
use tn_list::Printed;
use tn_tables::{Line, Stop, number, said};
use tn_text::{
    Cause, Detail, Fault, FaultCode, FileName, Lack, Name, Part, Put, PutRefused, Region,
    put_decimal, put_place, put_spaced, put_spaced_decimal, word_text,
};

/// The file that faults are told of.
const FILE: &str = "in.txt";

/// What a line of the table of printed lines gives.
pub fn answer(alloc: Global, line: &Line<'_>) -> Result<Vec<u8>, Stop> {
    match line.words.as_slice() {
        ["fault", code, number, details @ ..] => whole(alloc, code, number, details),
        ["front", writes, code, number, details @ ..] => {
            front(alloc, writes, code, number, details)
        }
        ["word", word] => word_answer(alloc, word),
        ["put", pieces @ ..] => put_pieces(alloc, pieces),
        _ => Err(Stop::BadCase),
    }
}

/// A word as texts print it.
fn word_answer(alloc: Global, word: &str) -> Result<Vec<u8>, Stop> {
    Ok(Vec::from_slice(alloc, &word_text(number(word)?))?)
}

/// The line of a fault, without its line feed.
pub fn fault_line(alloc: Global, fault: &Fault) -> Result<Vec<u8>, Stop> {
    let mut out = MemOut::new(Vec::new(alloc));
    put_fault(fault, &mut out)?.ok().ok_or(Stop::NoMemory)?;
    let mut bytes = out.into_bytes();
    if bytes.pop() != Some(b'\n') {
        return said(alloc, "no whole line");
    }
    Ok(bytes)
}

fn put_fault(fault: &Fault, out: &mut MemOut) -> Result<Result<(), PutRefused>, Stop> {
    let file = FileName::of(FILE).ok_or(Stop::BadCase)?;
    Ok(fault.write(&file, &mut Printed { out: &mut *out }))
}

/// The line of a fault that a line of the table spells.
fn whole(alloc: Global, code: &str, line: &str, details: &[&str]) -> Result<Vec<u8>, Stop> {
    match fault_of(code, line, details) {
        Ok(fault) => fault_line(alloc, &fault),
        Err(stop) => Err(stop),
    }
}

/// What stands of it where a write to the output fails.
fn front(
    alloc: Global,
    writes: &str,
    code: &str,
    line: &str,
    details: &[&str],
) -> Result<Vec<u8>, Stop> {
    let mut failing = Vec::new(alloc);
    failing.push(u64::from(number(writes)?))?;
    match fault_of(code, line, details) {
        Ok(fault) => refused(alloc, &fault, MemOut::new(failing)),
        Err(stop) => Err(stop),
    }
}

/// What an output has of a fault's line that refuses a piece of it.
fn refused(alloc: Global, fault: &Fault, mut out: MemOut) -> Result<Vec<u8>, Stop> {
    match put_fault(fault, &mut out)? {
        Ok(()) => said(alloc, "all was put"),
        Err(PutRefused) => Ok(out.into_bytes()),
    }
}

/// Pieces, one after the other: a number in decimal, a word behind a blank, a number behind a blank,
/// or the place of a line.
fn put_pieces(alloc: Global, pieces: &[&str]) -> Result<Vec<u8>, Stop> {
    let mut out = MemOut::new(Vec::new(alloc));
    put_all(pieces, &mut Printed { out: &mut out })?;
    Ok(out.into_bytes())
}

fn put_all<P: Put>(pieces: &[&str], out: &mut P) -> Result<(), Stop> {
    for piece in pieces {
        let (kind, piece) = piece.split_once('=').ok_or(Stop::BadCase)?;
        put_piece(kind, piece, out)?;
    }
    Ok(())
}

fn put_piece<P: Put>(kind: &str, piece: &str, out: &mut P) -> Result<(), Stop> {
    let put = match kind {
        "text" => out.put(piece.as_bytes()),
        "decimal" => put_decimal(long(piece)?, out),
        "spaced" => put_spaced(piece.as_bytes(), out),
        "spaced-decimal" => put_spaced_decimal(long(piece)?, out),
        "place" => put_line(piece, out)?,
        _ => return Err(Stop::BadCase),
    };
    put.ok().ok_or(Stop::NoMemory)
}

fn put_line<P: Put>(line: &str, out: &mut P) -> Result<Result<(), PutRefused>, Stop> {
    let file = FileName::of(FILE).ok_or(Stop::BadCase)?;
    Ok(put_place(&file, number(line)?, out))
}

fn long(text: &str) -> Result<u64, Stop> {
    text.parse::<u64>().ok().ok_or(Stop::BadCase)
}

/// The fault of a code, the number of its line and its details.
fn fault_of(code: &str, line: &str, details: &[&str]) -> Result<Fault, Stop> {
    let cause = Cause {
        code: code_of(code)?,
        detail: detail_of(details)?,
    };
    Ok(cause.at(number(line)?))
}

fn detail_of(details: &[&str]) -> Result<Detail, Stop> {
    match details {
        [] => Ok(Detail::Nothing),
        ["lacks", word] => Ok(Detail::Lacks(lack_of(word)?)),
        [name] => Ok(Detail::Named(name_of(name)?)),
        [name, link] => Ok(Detail::LinkEnd(name_of(name)?, link_of(link)?)),
        [name, region @ ..] => regions(name_of(name)?, region),
    }
}

fn regions(name: Name, words: &[&str]) -> Result<Detail, Stop> {
    match words {
        [part, from, to] => Ok(Detail::One(name, region_of(part, from, to)?)),
        [part, from, to, other, above, below] => Ok(Detail::Two(
            name,
            region_of(part, from, to)?,
            region_of(other, above, below)?,
        )),
        _ => Err(Stop::BadCase),
    }
}

fn region_of(part: &str, from: &str, to: &str) -> Result<Region, Stop> {
    Ok(Region {
        part: part_of(part)?,
        from: number(from)?,
        to: number(to)?,
    })
}

/// The name of a word.
pub fn name_of(word: &str) -> Result<Name, Stop> {
    Name::of(word.as_bytes()).ok_or(Stop::BadCase)
}

/// The link of a word.
pub fn link_of(word: &str) -> Result<u8, Stop> {
    word.parse::<u8>().ok().ok_or(Stop::BadCase)
}

fn part_of(word: &str) -> Result<Part, Stop> {
    match word {
        "code" => Ok(Part::Code),
        "cells" => Ok(Part::Cells),
        "workspace" => Ok(Part::Workspace),
        _ => Err(Stop::BadCase),
    }
}

fn lack_of(word: &str) -> Result<Lack, Stop> {
    match word {
        "module" => Ok(Lack::Module),
        "code" => Ok(Lack::Code),
        "data" => Ok(Lack::Data),
        "workspace" => Ok(Lack::Workspace),
        "entry" => Ok(Lack::Entry),
        "end" => Ok(Lack::End),
        "endlib" => Ok(Lack::Endlib),
        _ => Err(Stop::BadCase),
    }
}

fn code_of(word: &str) -> Result<FaultCode, Stop> {
    match word {
        "NotAscii" => Ok(FaultCode::NotAscii),
        "BadLine" => Ok(FaultCode::BadLine),
        "BadNumber" => Ok(FaultCode::BadNumber),
        "NameTooLong" => Ok(FaultCode::NameTooLong),
        "Missing" => Ok(FaultCode::Missing),
        "DuplicateName" => Ok(FaultCode::DuplicateName),
        "NoSuchName" => Ok(FaultCode::NoSuchName),
        "WrongKind" => Ok(FaultCode::WrongKind),
        "WrongOperand" => Ok(FaultCode::WrongOperand),
        "Misaligned" => Ok(FaultCode::Misaligned),
        "UndefinedSymbol" => Ok(FaultCode::UndefinedSymbol),
        "DuplicateSymbol" => Ok(FaultCode::DuplicateSymbol),
        "NoEntry" => Ok(FaultCode::NoEntry),
        "OutsideMemory" => Ok(FaultCode::OutsideMemory),
        "Overlap" => Ok(FaultCode::Overlap),
        "DuplicateProcessor" => Ok(FaultCode::DuplicateProcessor),
        "UnknownProcessor" => Ok(FaultCode::UnknownProcessor),
        "WireTwice" => Ok(FaultCode::WireTwice),
        "NoHost" => Ok(FaultCode::NoHost),
        "Unreachable" => Ok(FaultCode::Unreachable),
        _ => Err(Stop::BadCase),
    }
}
