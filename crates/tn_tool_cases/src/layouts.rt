ghost use Rattle.std.specs.Prelude.{◌≤◌, length, IsTrue};
ghost use Rattle.tn_layout.specs.Sizes.{NamesUpTo, AreNamed};

use std::alloc::Global;
use tn_layout::{LayoutFault, Piece, settle};
use tn_tables::{Case, Report, Stop, decimal, number};
use tn_text::limits::ITEM_LIMIT;

/// Runs a case of the table of layouts.
pub fn run_case(alloc: Global, case: &Case<'_>, report: &mut Report) -> Result<(), Stop> {
    let mut pieces = Vec::new(alloc);
    for line in case.lines.iter() {
        let came = answer(alloc, &mut pieces, line.words.as_slice());
        report.answer(alloc, case.name, line, came)?;
    }
    Ok(())
}

/// Adds the pieces of a line, or settles all.
fn answer(alloc: Global, pieces: &mut Vec<Piece>, words: &[&str]) -> Result<Vec<u8>, Stop> {
    match words {
        ["settle"] => settled(alloc, pieces, usize::MAX),
        ["settle", "first"] => settled(alloc, pieces, 1),
        ["settle", "count"] => settled(alloc, pieces, 0),
        [.., "times", count] => added(alloc, pieces, words, count),
        _ => added(alloc, pieces, words, "1"),
    }
}

/// Adds a piece so many times, which gives nothing.
fn added(
    alloc: Global,
    pieces: &mut Vec<Piece>,
    words: &[&str],
    count: &str,
) -> Result<Vec<u8>, Stop> {
    add(pieces, words, decimal(count)?)?;
    Ok(Vec::new(alloc))
}

/// Adds a piece so many times.
fn add(pieces: &mut Vec<Piece>, words: &[&str], count: u64) -> Result<(), Stop> {
    let piece = piece_of(words)?;
    for _ in 0..count {
        pieces.push(piece)?;
    }
    Ok(())
}

fn piece_of(words: &[&str]) -> Result<Piece, Stop> {
    match words {
        ["fixed", size, ..] => Ok(Piece::Fixed(size.parse::<u8>().ok().ok_or(Stop::BadCase)?)),
        ["rel", to, ..] => Ok(Piece::Rel { to: number(to)? }),
        ["diff", high, low, ..] => Ok(Piece::Diff {
            high: number(high)?,
            low: number(low)?,
        }),
        _ => Err(Stop::BadCase),
    }
}

/// The sizes of pieces, so many of them; where that is none, how many there are.
fn settled(alloc: Global, pieces: &[Piece], most: usize) -> Result<Vec<u8>, Stop> {
    if pieces.len() > ITEM_LIMIT || !are_named(pieces) {
        return Err(Stop::BadCase);
    }
    match settle(alloc, pieces) {
        Ok(sizes) if most == 0 => Ok(sizes.len().to_string(alloc)?.into_bytes()),
        Ok(sizes) => listed(alloc, &sizes, most),
        Err(LayoutFault::NoMemory) => Err(Stop::NoMemory),
        Err(fault) => Ok(fault.to_string(alloc)?.into_bytes()),
    }
}

/// The first sizes, so many of them at most.
fn listed(alloc: Global, sizes: &[u8], most: usize) -> Result<Vec<u8>, Stop> {
    let mut text = String::new(alloc);
    put_sizes(alloc, sizes, most, &mut text)?;
    Ok(text.into_bytes())
}

fn put_sizes(alloc: Global, sizes: &[u8], most: usize, text: &mut String) -> Result<(), Stop> {
    for size in sizes.iter().take(most) {
        let between = if text.is_empty() { "" } else { " " };
        text.push_str(format!(in alloc; "{between}{size}")?.as_str())?;
    }
    Ok(())
}

/// Whether each place that a piece names is one of the pieces or their end.
fn are_named(pieces: &[Piece]) -> bool
    ensures { IsTrue result → AreNamed pieces.now }
{
    for piece in pieces {
        if !names_up_to(pieces.len(), piece) {
            return false;
        }
    }
    true
}

fn names_up_to(n: usize, piece: &Piece) -> bool
    ensures { IsTrue result → NamesUpTo n piece.now }
{
    match *piece {
        Piece::Fixed(_) => true,
        Piece::Rel { to } => to as usize <= n,
        Piece::Diff { high, low } => high as usize <= n && low as usize <= n,
    }
}
