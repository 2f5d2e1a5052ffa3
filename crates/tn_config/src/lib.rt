//! Configurations: the text that says which processors a network has, what each of them is to run
//! and where, which end of a link the host has, and which ends are wired to each other.
#![tactic(auto)]

mod configurations;
mod drafts;
mod grids;
mod keywords;
mod networks;
mod places;
mod readers;
mod statements;
mod writers;

pub use configurations::{Block, BlockLines, Config, HostLine, WireLine};
pub use grids::{GRID_MOST, GridTexts, grid};
pub use networks::raw_network;
pub use readers::read_config;
pub use writers::write_config;
