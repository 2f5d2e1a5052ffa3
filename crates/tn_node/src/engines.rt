ghost use Rattle.std.specs.Prelude.{◌≡◌};
ghost use Rattle.tn_node.specs.Engines.{opened, moved, bit_of};

use tn_cpu::Transfer;

/// An engine of a link that is open: what is left of its transfer.
#[derive(Clone, Copy, PartialEq, Eq)]
pub struct Engine {
    /// The address of the next byte.
    pub pointer: u32,
    /// How many bytes are left.
    pub left: u32,
    /// The workspace pointer of the process that waits.
    pub process: u32,
    /// Whether a byte that went out is not acknowledged yet.
    pub sent: bool,
}

/// The engines of a link, those that are open.
#[derive(Clone, Copy)]
pub struct LinkView {
    pub input: Option<Engine>,
    pub output: Option<Engine>,
}

impl Engine {
    /// An engine that opens for a transfer.
    pub(crate) fn open(transfer: Transfer) -> Engine
        ensures { result ≡ opened transfer }
    {
        Engine {
            pointer: transfer.pointer,
            left: transfer.count,
            process: transfer.process,
            sent: false,
        }
    }

    /// The engine once a byte of its transfer has moved.
    pub(crate) fn moved(self) -> Engine
        ensures { result ≡ moved self }
    {
        Engine {
            pointer: self.pointer.wrapping_add(1),
            left: self.left.saturating_sub(1),
            process: self.process,
            sent: self.sent,
        }
    }
}

/// A bit, where the engine is open.
pub(crate) fn bit_of(bit: u8, engine: Option<Engine>) -> u8
    ensures { result ≡ bit_of bit engine }
{
    match engine {
        Some(_) => bit,
        None => 0,
    }
}
