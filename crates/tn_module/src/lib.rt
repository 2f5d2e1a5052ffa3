//! Modules of code and static data, and what makes one valid. Modules, their rules and the names of
//! their faults are this project's own.
#![tactic(auto)]

mod causes;
mod checks;
mod faults;
mod modules;
mod name_sets;

pub use faults::{CheckFault, ModuleFault, Place};
pub use modules::{Cell, Import, Item, Kind, Library, Module, NoMemory, Operand, RawModule};
