/// One event of a network.
#[derive(Clone, Copy)]
pub enum Pick {
    /// The host sends its next byte.
    HostSend,
    /// The host takes the byte in its latch.
    HostTake,
    /// A processor executes one instruction byte. The timeslice lets another process take its turn at
    /// `j` and `lend`, and the clock is what `ldtimer` pushes.
    Proc(u32, bool, u32),
    /// A processor sends a byte by one of its links.
    Send(u32, u8),
    /// A processor takes the byte in the latch of one of its links.
    Take(u32, u8),
}

/// The pick is not enabled.
#[derive(Clone, Copy)]
pub struct NotEnabled;
