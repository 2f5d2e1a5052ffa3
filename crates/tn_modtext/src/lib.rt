//! Modules and libraries as text: one spelling for each, its writer and its reader. The texts are
//! this project's own.
#![tactic(auto)]

mod counts;
mod drafts;
mod forms;
mod libraries;
mod library_drafts;
mod library_lines;
mod library_writers;
mod lines;
mod modules;
mod numerals;
mod operands;
mod pieces;
mod said;
mod tokens;
mod writers;

pub use counts::{export_line, import_line, module_lines};
pub use libraries::read_library;
pub use library_writers::write_library;
pub use modules::read_module;
pub use operands::named_operand_at;
pub use writers::write_module;
