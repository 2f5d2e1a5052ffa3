//! What is printed, over any output.
#![tactic(auto)]

mod faults;
mod listing_lines;
mod listings;
mod printed;
mod symbols;
mod tree_texts;

pub use faults::ListFault;
pub use listings::listing;
pub use printed::Printed;
pub use symbols::symbol_of;
pub use tree_texts::tree_text;
