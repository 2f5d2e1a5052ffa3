ghost use Rattle.std.specs.Prelude.{◌≡◌, IfOk};
ghost use Rattle.tn_net.specs.RawNetworks.{raw_of};
ghost use Rattle.tn_net.specs.Lines.{wire_line, end_lines};

use std::alloc::{AllocError, Global};
use tn_text::{Cause, Detail, FaultCode, Name};

/// What a configuration says of a network. The last number of each tuple is its line.
#[derive(Drop)]
pub struct RawNetwork {
    /// The processors: name, size of the memory in bytes, line.
    pub names: Vec<(Name, u32, u32)>,
    /// The end that the host has: name of the processor, link, line.
    pub host: Option<(Name, u8, u32)>,
    /// The wires: name and link of the one end and of the other, line.
    pub wires: Vec<(Name, u8, Name, u8, u32)>,
    /// The number of lines of the configuration.
    pub lines: u32,
}

/// An end of a wire: the name of its processor, and the number of the link.
#[derive(Clone, Copy)]
pub struct LinkEnd {
    pub name: Name,
    pub link: u8,
}

/// A line that wires ends: one to the host, or two to each other.
#[derive(Clone, Copy)]
pub struct EndLine {
    pub one: LinkEnd,
    pub two: Option<LinkEnd>,
    pub line: u32,
}

/// Why a line is refused.
#[derive(Clone, Copy)]
pub enum Refusal {
    /// No processor has the name of the end.
    Unknown(LinkEnd),
    /// A wire ends there already.
    Taken(LinkEnd),
}

impl Refusal {
    ghost use Rattle.tn_net.specs.Inner.Tables.{cause_of};

    /// The cause of a fault.
    pub fn cause(self) -> Cause
        ensures { result ≡ cause_of self }
    {
        match self {
            Refusal::Unknown(end) => Cause {
                code: FaultCode::UnknownProcessor,
                detail: Detail::Named(end.name),
            },
            Refusal::Taken(end) => Cause {
                code: FaultCode::WireTwice,
                detail: Detail::LinkEnd(end.name, end.link),
            },
        }
    }
}

/// The host line and the wire lines.
pub fn end_lines(alloc: Global, raw: &RawNetwork) -> Result<Vec<EndLine>, AllocError>
    ensures { IfOk result (λ lines. lines.items ≡ end_lines (raw_of raw.now)) }
{
    let mut lines = Vec::new(alloc);
    if let Some((name, link, line)) = raw.host {
        let one = LinkEnd { name, link };
        lines.push(EndLine {
            one,
            two: None,
            line,
        })?;
    }
    for wire in &raw.wires {
        lines.push(wire_line(wire))?;
    }
    Ok(lines)
}

fn wire_line(wire: &(Name, u8, Name, u8, u32)) -> EndLine
    ensures { result ≡ wire_line wire.now }
{
    EndLine {
        one: LinkEnd {
            name: wire.0,
            link: wire.1,
        },
        two: Some(LinkEnd {
            name: wire.2,
            link: wire.3,
        }),
        line: wire.4,
    }
}
