//! Networks of T425s that step in any order: what each step of a processor, of a link or of the host
//! does to the whole network, and which of them are enabled. A wire loses nothing, and a processor is
//! held at its entry until the release, by this project's rules.
#![tactic(auto)]

mod bits;
mod boards;
mod guards;
mod holds;
mod hosts;
mod items;
mod nets;
mod numbers;
mod picks;
mod powers;
mod renewals;
mod steps;
mod wirings;

pub use boards::{Board, NoMemory};
pub use hosts::KEPT_LIMIT;
pub use nets::Net;
pub use picks::{NotEnabled, Pick};
pub use powers::Power;
