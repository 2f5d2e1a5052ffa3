//! Networks of programs as their instructions are known, and not as bytes alone.
#![tactic(auto)]

mod beginnings;
mod codes;
mod comparing;
mod nets;
mod programs;
mod reading;
mod states;
mod theorems;

pub use nets::{NoMemory, SymNet};
pub use programs::Program;
pub use states::same;
pub use theorems::follows;
