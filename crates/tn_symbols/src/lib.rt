//! Which modules a program is made of, and what names stand for in them. Modules, libraries and the
//! rules of choice are this project's own.
#![tactic(auto)]

mod choices;
mod closing;
mod definitions;
mod faults;
mod names;
mod sources;

pub use choices::{ChooseFault, Chosen, Definition, NoMemory, Source, choose, chosen_sources};
