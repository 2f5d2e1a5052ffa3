ghost use Rattle.std.specs.Prelude.{◌≡◌, ◌++◌};
ghost use Rattle.std.specs.Fmt.{decimal};
ghost use Rattle.tn_text.specs.Puts.{Puts};
ghost use Rattle.tn_text.specs.WordTexts.{spaced};
ghost use Rattle.tn_text.specs.Faults.{fault_word, lack_word, part_word};
ghost use Rattle.tn_text.specs.FaultLines.{region_text, detail_text, place_text, fault_line};

use crate::faults::{Detail, Fault, FaultCode, Lack, Part, Region};
use crate::file_names::FileName;
use crate::names::Name;
use crate::puts::{Put, PutRefused, put_decimal, put_spaced, put_spaced_decimal};
use crate::words::word_text;

impl FaultCode {
    /// The word that a fault's line has.
    pub fn word(self) -> &'static str
        ensures { result.now ≡ fault_word self }
    {
        match self {
            FaultCode::NotAscii => "NotAscii",
            FaultCode::BadLine => "BadLine",
            FaultCode::BadNumber => "BadNumber",
            FaultCode::NameTooLong => "NameTooLong",
            FaultCode::Missing => "Missing",
            FaultCode::DuplicateName => "DuplicateName",
            FaultCode::NoSuchName => "NoSuchName",
            FaultCode::WrongKind => "WrongKind",
            FaultCode::WrongOperand => "WrongOperand",
            FaultCode::Misaligned => "Misaligned",
            FaultCode::UndefinedSymbol => "UndefinedSymbol",
            FaultCode::DuplicateSymbol => "DuplicateSymbol",
            FaultCode::NoEntry => "NoEntry",
            FaultCode::OutsideMemory => "OutsideMemory",
            FaultCode::Overlap => "Overlap",
            FaultCode::DuplicateProcessor => "DuplicateProcessor",
            FaultCode::UnknownProcessor => "UnknownProcessor",
            FaultCode::WireTwice => "WireTwice",
            FaultCode::NoHost => "NoHost",
            FaultCode::Unreachable => "Unreachable",
        }
    }
}

impl Lack {
    /// The word that a fault's line has.
    pub fn word(self) -> &'static str
        ensures { result.now ≡ lack_word self }
    {
        match self {
            Lack::Module => "module",
            Lack::Code => "code",
            Lack::Data => "data",
            Lack::Workspace => "workspace",
            Lack::Entry => "entry",
            Lack::End => "end",
            Lack::Endlib => "endlib",
        }
    }
}

impl Part {
    /// The word that a fault's line has.
    pub fn word(self) -> &'static str
        ensures { result.now ≡ part_word self }
    {
        match self {
            Part::Code => "code",
            Part::Cells => "cells",
            Part::Workspace => "workspace",
        }
    }
}

impl Fault {
    /// Puts the fault's line, `FILE:LINE: WORD` and its details, one blank before each, and a line
    /// feed. A refusal comes only where the sink's count rose, and leaves a prefix of the line put.
    #[tactic(auto, unfolding(crate::specs::FaultLines::fault_line))]
    pub fn write<P: Put>(&self, file: &FileName, out: &mut P) -> Result<(), PutRefused>
        ensures puts { Puts (fault_line file.now self.now) result (P.taken out.old) (P.taken out.new) }
        ensures goes_on { P.goes_on out.old out.new }
    {
        put_place(file, self.line, out)?;
        out.put(self.code.word().as_bytes())?;
        put_detail(&self.detail, out)?;
        out.put(b"\n")
    }
}

/// Puts the place that a printed line speaks of: `FILE:LINE: `.
#[tactic(auto, unfolding(crate::specs::FaultLines::place_text))]
pub fn put_place<P: Put>(file: &FileName, line: u32, out: &mut P) -> Result<(), PutRefused>
    ensures puts { Puts (place_text file.now line) result (P.taken out.old) (P.taken out.new) }
    ensures goes_on { P.goes_on out.old out.new }
{
    out.put(file.text().as_bytes())?;
    out.put(b":")?;
    put_decimal(u64::from(line), out)?;
    out.put(b": ")
}

/// Puts what a fault names, a blank before each.
#[tactic(auto, unfolding(crate::specs::FaultLines::detail_text))]
fn put_detail<P: Put>(detail: &Detail, out: &mut P) -> Result<(), PutRefused>
    ensures puts { Puts (detail_text detail.now) result (P.taken out.old) (P.taken out.new) }
    ensures goes_on { P.goes_on out.old out.new }
{
    match detail {
        Detail::Nothing => Ok(()),
        Detail::Named(name) => put_spaced(name.bytes(), out),
        Detail::Lacks(lack) => put_spaced(lack.word().as_bytes(), out),
        Detail::LinkEnd(name, link) => put_link_end(name, *link, out),
        Detail::One(name, region) => put_one(name, region, out),
        Detail::Two(name, first, second) => put_two(name, first, second, out),
    }
}

/// Puts a processor and the number of a link.
fn put_link_end<P: Put>(name: &Name, link: u8, out: &mut P) -> Result<(), PutRefused>
    ensures puts { Puts (spaced name.now ++ spaced (decimal link)) result (P.taken out.old) (P.taken out.new) }
    ensures goes_on { P.goes_on out.old out.new }
{
    put_spaced(name.bytes(), out)?;
    put_spaced_decimal(u64::from(link), out)
}

/// Puts a processor and a region.
fn put_one<P: Put>(name: &Name, region: &Region, out: &mut P) -> Result<(), PutRefused>
    ensures puts { Puts (spaced name.now ++ region_text region.now) result (P.taken out.old) (P.taken out.new) }
    ensures goes_on { P.goes_on out.old out.new }
{
    put_spaced(name.bytes(), out)?;
    put_region(region, out)
}

/// Puts a processor and two regions.
fn put_two<P: Put>(
    name: &Name,
    first: &Region,
    second: &Region,
    out: &mut P,
) -> Result<(), PutRefused>
    ensures puts { Puts (spaced name.now ++ region_text first.now ++ region_text second.now) result (P.taken out.old) (P.taken out.new) }
    ensures goes_on { P.goes_on out.old out.new }
{
    put_one(name, first, out)?;
    put_region(second, out)
}

/// Puts a region's part, its first address and the address after its last, a blank before each.
#[tactic(auto, unfolding(crate::specs::FaultLines::region_text))]
fn put_region<P: Put>(region: &Region, out: &mut P) -> Result<(), PutRefused>
    ensures puts { Puts (region_text region.now) result (P.taken out.old) (P.taken out.new) }
    ensures goes_on { P.goes_on out.old out.new }
{
    put_spaced(region.part.word().as_bytes(), out)?;
    put_spaced(&word_text(region.from), out)?;
    put_spaced(&word_text(region.to), out)
}
