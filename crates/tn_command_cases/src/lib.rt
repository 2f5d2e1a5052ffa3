//! Runs the cases of commands: files, words and failing calls of the store and of the outputs, and the
//! status, the printed lines and the files after.
#![tactic(auto)]

mod commands;

pub use commands::run_case;
