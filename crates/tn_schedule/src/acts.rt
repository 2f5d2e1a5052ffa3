use tn_network::Pick;
use tn_text::Fault;

/// What a line of a schedule does, or prints. A processor is its position in the names.
#[derive(Clone, Copy)]
pub enum Act {
    /// One pick.
    Pick(Pick),
    /// Up to so many picks, always the one that is enabled and comes first, or with `true` last.
    Settle(u32, bool),
    /// Lifts the hold.
    Release,
    /// Prints the state of a processor.
    Show(u32),
    /// Prints the links of a processor.
    Links(u32),
    /// Prints the word that a processor has at an address.
    Word(u32, u32),
    /// Prints how many bytes the host has left and has got.
    Host,
    /// Prints the byte that the host got at this place, counted from 0.
    Got(u32),
    /// Prints how many picks were made.
    Steps,
    /// Prints whether the symbolic network is in the same state, or where it has stopped.
    Same,
}

/// An act, and the number of its line, from 1.
#[derive(Clone, Copy)]
pub struct Line {
    pub line: u32,
    pub act: Act,
}

/// A schedule.
#[derive(Drop)]
pub struct Schedule {
    /// The byte that fills the memories at power-up, Error and HaltOnError.
    pub power: (u8, bool, bool),
    /// The acts, in order.
    pub lines: Vec<Line>,
}

/// Why a text gives no schedule.
#[derive(Clone, Copy)]
pub enum ScheduleFault {
    /// The first fault of its lines.
    Fault(Fault),
    /// So many lines, which are too many.
    Lines(u64),
    /// There is no memory.
    NoMemory,
}
