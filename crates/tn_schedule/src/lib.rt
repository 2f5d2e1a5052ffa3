//! Schedules: texts that say pick by pick, or by how many picks at most, in which order a network
//! steps, and what of it is printed in between.
#![tactic(auto)]

mod acts;
mod keywords;
mod places;
mod readers;
mod statements;

pub use acts::{Act, Line, Schedule, ScheduleFault};
pub use readers::read_schedule;
