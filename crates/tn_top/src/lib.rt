//! The commands of `tn`, over any store of files and any outputs.
//!
//! A command is a plan, the files that it reads and what it makes of each, and an ending, which writes a
//! file or prints a text. What `run` promises of statuses, files, printed text and the error output is
//! proved once for all plans.
#![tactic(auto)]

mod commands;
mod endings;
mod err_lines;
mod flat_code;
mod grids;
mod list_prints;
mod one_processor;
mod reading;
mod refusals;
mod replays;
mod started_nets;
mod statuses;
mod stream_files;
mod systems;
mod tree_prints;

pub use commands::run;
pub use statuses::{Status, code};
