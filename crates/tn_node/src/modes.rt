use tn_cpu::Why;

/// What a node does.
#[derive(Clone, Copy, Debug, PartialEq, Eq)]
pub enum Mode {
    /// It takes a control byte from any link.
    Reset,
    /// It takes the address and the word of a poke.
    Poking,
    /// It takes the address of a peek.
    Peeking,
    /// It sends back the word of a peek.
    Replying,
    /// It takes the bytes of a bootstrap.
    Booting,
    /// It executes instructions.
    Running,
    /// No process can go on before a link wakes one.
    Idle,
    /// It executes nothing any more.
    Stopped(Why),
}

/// How far the bootstrap has come.
#[derive(Clone, Copy, Debug, PartialEq, Eq)]
pub enum Stage {
    Reset,
    Poking,
    Peeking,
    Replying,
    Booting,
    /// The memory refused a byte or a word.
    Refused(Why),
    /// A bootstrap runs.
    Over,
}

/// What a bootstrap expects and has. All is 0 where none is under way.
#[derive(Clone, Copy, Debug, PartialEq, Eq)]
pub struct Expects {
    /// The boot link, 0 to 3.
    pub link: u8,
    /// How many bytes it has taken behind the control byte, or sent of a reply.
    pub got: u32,
    /// How many bytes it still takes, or sends of a reply.
    pub left: u32,
    /// The address of a poke, a peek or a reply: of its bytes, the lowest first, those taken so far,
    /// and 0 for the others.
    pub address: u32,
    /// The word of a poke, likewise, or that of a reply.
    pub word: u32,
    /// Whether a byte of a reply is not acknowledged yet.
    pub sent: bool,
}

/// What a step was.
#[derive(Clone, Copy, Debug)]
pub enum Made {
    /// A prefix byte.
    Prefix,
    /// The last byte of an instruction.
    Whole,
    /// A step of a link.
    Link,
}
