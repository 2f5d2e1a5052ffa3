//! Runs the cases of networks that step.
#![tactic(auto)]

mod descriptions;
mod digests;
mod sessions;
mod setups;
mod shown;

pub use sessions::run_case;
