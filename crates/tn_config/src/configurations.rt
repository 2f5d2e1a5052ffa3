use tn_text::{FileName, Name};

/// What a configuration says of one processor. Addresses are words of the T425, the lowest of which
/// is #80000000.
#[derive(Drop)]
pub struct Block {
    /// The name of the processor.
    pub name: Name,
    /// The size of its memory in bytes.
    pub size: u32,
    /// The address of its code.
    pub code: u32,
    /// The address of its static data.
    pub cells: u32,
    /// The workspace pointer that its code begins with.
    pub wptr: u32,
    /// The words of workspace below that address.
    pub below: u32,
    /// The words of workspace from that address on.
    pub above: u32,
    /// The files of its modules, in order: one at least.
    pub modules: Vec<FileName>,
    /// The files of the libraries that it takes modules from, in order.
    pub libraries: Vec<FileName>,
    /// The code label that it begins at.
    pub entry: Name,
    /// The words that it finds from the workspace pointer on.
    pub args: Vec<u32>,
    /// Where this stands.
    pub lines: BlockLines,
}

/// The lines of a block, numbered from 1, that later faults are told at.
#[derive(Clone, Copy)]
pub struct BlockLines {
    pub processor: u32,
    pub code: u32,
    pub cells: u32,
    pub workspace: u32,
    pub entry: u32,
}

/// The end of a link that the host has: a processor's name, the number of the link, and the line.
#[derive(Clone, Copy)]
pub struct HostLine {
    pub name: Name,
    pub link: u8,
    pub line: u32,
}

/// Two ends that are wired to each other: names, numbers of links, and the line.
#[derive(Clone, Copy)]
pub struct WireLine {
    pub one: Name,
    pub one_link: u8,
    pub two: Name,
    pub two_link: u8,
    pub line: u32,
}

/// A configuration.
#[derive(Drop)]
pub struct Config {
    /// The processors in order.
    pub blocks: Vec<Block>,
    /// The end that the host has, where a line says so.
    pub host: Option<HostLine>,
    /// The wires in order.
    pub wires: Vec<WireLine>,
    /// The number of lines of the text.
    pub lines: u32,
}
