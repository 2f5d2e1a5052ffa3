//! Images of processors: the regions of memory that code, static data and workspace take, what is
//! checked of them, and what is loaded. The checks and their order are this project's own.
#![tactic(auto)]

mod checks;
mod images;
mod regions;
mod segments;

pub use images::{Built, ImageFault, image};
