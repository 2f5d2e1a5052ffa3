//! The code that loads a network of T425s through one link, and the commands that it takes.
#![tactic(auto)]

mod commands;
mod loaders;

pub use commands::{COMMAND_SIZE, FORWARD, LOAD, NOP, RUN, command};
pub use loaders::{PRIMARY_SIZE, SECONDARY, SECONDARY_SIZE, primary, secondary};
