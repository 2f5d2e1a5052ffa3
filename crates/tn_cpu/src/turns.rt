/// What an instruction is given beside the processor's state.
#[derive(Clone, Copy)]
pub struct Turn {
    /// The address of the next instruction.
    pub following: u32,
    /// Bit l for an open input engine of link l, bit 4 + l for an open output engine.
    pub busy: u8,
    /// Whether another process takes its turn where `j` or `lend` allows it.
    pub slice: bool,
    /// What `ldtimer` pushes.
    pub clock: u32,
}
