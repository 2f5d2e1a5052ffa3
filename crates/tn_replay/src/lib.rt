//! Replays of schedules: in the order that a schedule says a network steps, beside it, once its hold is
//! lifted, the symbolic network of its programs, and what the schedule asks for is printed in between.
#![tactic(auto)]

mod lookups;
mod printed_lines;
mod replay_lines;
mod replays;
mod steps;
mod theorems;

pub use replays::{ReplayFault, Summary, replay};
pub use theorems::tells_truth;
