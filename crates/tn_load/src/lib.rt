//! Networks that load: what each processor does alone, that no order of steps matters, the state that a network settles to,
//! and the test that it is loaded.
#![tactic(auto)]

mod laws;
mod loads;
mod settles;
mod settlings;
mod theorems;
mod walks;

pub use laws::{commute, ends_once, exchange, goes_along, goes_on, keep};
pub use loads::loaded;
pub use settles::settle;
pub use settlings::{makes_picks, shows_boots};
pub use theorems::{boots, boots_one};
pub use walks::Walk;
