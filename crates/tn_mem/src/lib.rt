//! Memory of a T425 and the accesses that a processor makes of it.
//!
//! A memory of `s` bytes has the addresses from MostNeg, #80000000, up to but not including
//! MostNeg + `s`. Its words 0 to 8 belong to the links and the event: no access reaches them.
#![tactic(auto)]

mod guards;
mod memories;
mod sizes;
mod spaces;
mod touches;

pub use guards::CodeFree;
pub use memories::{Memory, NoMemory};
pub use sizes::{MEMORY_SIZE_LEAST, MEMORY_SIZE_MOST};
pub use spaces::Space;
pub use touches::Touch;
