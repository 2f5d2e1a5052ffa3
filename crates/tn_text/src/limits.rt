//! The greatest values that are allowed, each under its one name. They are this project's own.

ghost use Rattle.std.specs.Prelude.{◌≡◌};
ghost use Rattle.tn_text.specs.Limits.{limit_word, greatest};

/// The most bytes of a file that is read, and of a module text or a library text that is written.
pub const FILE_LIMIT: u64 = 1_048_576;

/// The most processors that a configuration has.
pub const PROCESSOR_LIMIT: usize = 64;

/// The most modules that a library has.
pub const MODULE_LIMIT: usize = 1_024;

/// The most items of code that a processor has.
pub const ITEM_LIMIT: usize = 65_536;

/// The most bytes of static data that a processor has.
pub const CELL_LIMIT: usize = 1_048_576;

/// The most bytes of code that a processor has.
pub const CODE_LIMIT: usize = 262_144;

/// The most lines that a schedule has.
pub const LINE_LIMIT: usize = 100_000;

/// The most bytes that a name has.
pub const NAME_LIMIT: usize = 64;

/// The most bytes that a file's name has.
pub const FILE_NAME_LIMIT: usize = 255;

/// A limit that a line on the error output tells of, where a count is above it.
#[derive(Clone, Copy)]
pub enum Limit {
    File,
    Processors,
    Modules,
    Items,
    Cells,
    Code,
    Lines,
}

impl Limit {
    /// The word that the line has.
    pub fn word(self) -> &'static str
        ensures { result.now ≡ limit_word self }
    {
        match self {
            Limit::File => "file",
            Limit::Processors => "processors",
            Limit::Modules => "modules",
            Limit::Items => "items",
            Limit::Cells => "cells",
            Limit::Code => "code",
            Limit::Lines => "lines",
        }
    }

    /// The greatest count that is allowed.
    pub fn greatest(self) -> u64
        ensures { result ≡ greatest self }
    {
        match self {
            Limit::File => FILE_LIMIT,
            Limit::Processors => PROCESSOR_LIMIT as u64,
            Limit::Modules => MODULE_LIMIT as u64,
            Limit::Items => ITEM_LIMIT as u64,
            Limit::Cells => CELL_LIMIT as u64,
            Limit::Code => CODE_LIMIT as u64,
            Limit::Lines => LINE_LIMIT as u64,
        }
    }
}
