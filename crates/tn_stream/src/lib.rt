//! Images of processors, and the stream that loads them and starts their programs.
#![tactic(auto)]

mod collects;
mod counts;
mod faults;
mod images;
mod length_tables;
mod waves;

pub use collects::{collect, collect_with};
pub use counts::{length, received, steps};
pub use faults::StreamFault;
pub use images::{Image, Segment};
pub use length_tables::{LengthTable, NodeLengths, lengths};
