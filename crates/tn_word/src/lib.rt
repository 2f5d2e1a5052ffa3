//! Words of the T425, their bytes in memory, and the addresses of its memory and channels, after
//! the T425 data sheet.
#![tactic(auto)]

mod channels;
mod words;

pub use channels::{in_channel, out_channel};
pub use words::{LOAD_BASE, MEM_START, MOST_NEG, NOT_PROCESS, word_at, word_bytes};
