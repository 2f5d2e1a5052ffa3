//! The words of a command line, and the command that they spell. Which words spell one is decided before
//! `clap` matches them: of such words a match fails for want of memory alone.
#![tactic(auto)]

mod commands;
mod faults;
mod positionals;

pub use commands::{Command, command_of};
pub use faults::NoMemory;
