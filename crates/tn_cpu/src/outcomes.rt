/// Why a processor stopped. That it stops in these cases is this project's rule.
#[derive(Clone, Copy, Debug, PartialEq, Eq)]
pub enum Why {
    /// An instruction read an undefined register, or needed an undefined queue.
    Undefined,
    /// An access was unaligned or outside memory, or a value was one that its instruction does not
    /// take.
    Outside,
    /// Error was set while HaltOnError was.
    Halted,
    /// The operand of `opr` was the code of no operation.
    BadOp,
    /// An access met a guarded region.
    Code,
    /// No instruction begins at the instruction pointer.
    Stray,
}

/// Whether a processor runs.
#[derive(Clone, Copy, Debug, PartialEq, Eq)]
pub enum Life {
    /// It executes the current process.
    Running,
    /// No process can go on before a link wakes one.
    Idle,
    /// It executes nothing any more.
    Stopped(Why),
}

/// What a byte or an instruction did.
#[derive(Clone, Copy, Debug)]
pub enum Outcome {
    /// A prefix byte changed the operand register.
    Prefix,
    /// An instruction had its effect.
    Ran,
    /// `in` on a link: its input engine opens, and the process waits.
    OpensIn(Transfer),
    /// `out` on a link: its output engine opens, and the process waits.
    OpensOut(Transfer),
    /// The processor stopped, and nothing else changed.
    Stopped(Why),
}

/// What an engine of a link is to do.
#[derive(Clone, Copy, Debug)]
pub struct Transfer {
    /// The link, 0 to 3.
    pub link: u8,
    /// The address of the first byte.
    pub pointer: u32,
    /// How many bytes, 1 or more.
    pub count: u32,
    /// The workspace pointer of the process that waits.
    pub process: u32,
}
