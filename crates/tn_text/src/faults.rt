ghost use Rattle.std.specs.Prelude.{◌≡◌};
ghost use Rattle.tn_text.specs.Faults.{fault_at};

use crate::names::Name;
use std::alloc::{AllocError, AllocFailed};

/// What is wrong in a text, or in the modules, the configuration or the network that texts
/// describe. The numbers of the faults are 1 to 20 in this order.
#[derive(Clone, Copy)]
pub enum FaultCode {
    /// A byte that may not stand in a line.
    NotAscii,
    /// A line that is no line of its text, or not at this place.
    BadLine,
    /// A token in a number's place that is no number, or is out of the place's range.
    BadNumber,
    /// A name or a file name that is too long.
    NameTooLong,
    /// The text, or a block of it, ends without something that it has to have.
    Missing,
    /// A name that was defined before.
    DuplicateName,
    /// A name that nothing defines.
    NoSuchName,
    /// A name of another kind than its use wants.
    WrongKind,
    /// An operand that its instruction may not have.
    WrongOperand,
    /// An address that is no multiple of 4.
    Misaligned,
    /// An import that no chosen module exports.
    UndefinedSymbol,
    /// A symbol that two chosen modules export.
    DuplicateSymbol,
    /// An entry that is no exported code label.
    NoEntry,
    /// A region that does not lie in the processor's memory.
    OutsideMemory,
    /// Two regions that share an address.
    Overlap,
    /// A processor of a name that another one has.
    DuplicateProcessor,
    /// A name that no processor has.
    UnknownProcessor,
    /// A link that two wires end at.
    WireTwice,
    /// No processor is wired to the host.
    NoHost,
    /// A processor that no path of wires leads to.
    Unreachable,
}

/// What a text, or a block of it, lacks at its end.
#[derive(Clone, Copy)]
pub enum Lack {
    Module,
    Code,
    Data,
    Workspace,
    Entry,
    End,
    Endlib,
}

/// The part of an image that a region of memory holds.
#[derive(Clone, Copy)]
pub enum Part {
    Code,
    /// The static data.
    Cells,
    Workspace,
}

/// A region of memory: its first address and the address after its last, modulo 2^32.
#[derive(Clone, Copy)]
pub struct Region {
    pub part: Part,
    pub from: u32,
    pub to: u32,
}

/// What a fault names.
#[derive(Clone, Copy)]
pub enum Detail {
    Nothing,
    Named(Name),
    Lacks(Lack),
    /// A processor and the number of one of its links.
    LinkEnd(Name, u8),
    /// A processor and a region of its memory.
    One(Name, Region),
    /// A processor and two regions of its memory.
    Two(Name, Region, Region),
}

/// A fault and the number of the line that it belongs to. Lines are numbered from 1.
#[derive(Clone, Copy)]
pub struct Fault {
    pub code: FaultCode,
    pub line: u32,
    pub detail: Detail,
}

/// A fault whose line is not known yet.
#[derive(Clone, Copy)]
pub struct Cause {
    pub code: FaultCode,
    pub detail: Detail,
}

impl Cause {
    /// A fault that names nothing.
    pub fn bare(code: FaultCode) -> Cause
        ensures { result ≡ record { code = code; detail = Detail.Nothing } }
    {
        Cause {
            code,
            detail: Detail::Nothing,
        }
    }

    /// The fault at this line.
    pub fn at(self, line: u32) -> Fault
        ensures { result ≡ fault_at line self }
    {
        Fault {
            code: self.code,
            line,
            detail: self.detail,
        }
    }
}

/// Why a reader gives no value: the text has a fault, or there is no memory.
#[derive(Clone, Copy)]
pub enum ReadFault {
    Fault(Fault),
    NoMemory,
}

impl<T: Drop> From<AllocFailed<T>> for ReadFault {
    ghost use Rattle.std.specs.Prelude.{◌≡◌};
    ghost use Rattle.tn_text.specs.declared.faults.ReadFault.TheVariants.{NoMemory};

    ghost from_gives = { λ _ e. e ≡ NoMemory };

    fn from(_failed: AllocFailed<T>) -> ReadFault {
        ReadFault::NoMemory
    }
}

impl From<AllocError> for ReadFault {
    ghost use Rattle.std.specs.Prelude.{◌≡◌};
    ghost use Rattle.tn_text.specs.declared.faults.ReadFault.TheVariants.{NoMemory};

    ghost from_gives = { λ _ e. e ≡ NoMemory };

    fn from(_error: AllocError) -> ReadFault {
        ReadFault::NoMemory
    }
}
