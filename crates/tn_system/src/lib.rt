//! From a configuration and the modules in its files to the images and programs of all processors, the
//! network and its load tree, or to the first fault. The order of faults is this project's own.
#![tactic(auto)]

mod building;
mod executions;
mod files;
mod keys;
mod processors;
mod symbols;
mod systems;

pub use building::system;
pub use executions::executes;
pub use files::{BlockFiles, NamedFiles, NoMemory, named_files};
pub use systems::{System, SystemFault};
