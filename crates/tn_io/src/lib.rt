//! Stores of named files and outputs: what the program reads, writes and prints through.
//!
//! A contract sees a store and an output by their meanings alone, so that a proof over every
//! store holds over files in memory, over a device that refuses any of its calls, and over the
//! host's files, which tell nothing of their content.
#![tactic(auto)]

mod faults;
mod file_outs;
mod file_text;
mod host_out;
mod host_store;
mod listed_calls;
mod mem_out;
mod mem_store;
mod outs;
mod safe_store;
mod stores;

pub use faults::{GetFault, OutFault, PutFault, PutKind};
pub use file_outs::FileOut;
pub use file_text::FileText;
pub use host_out::HostOut;
pub use host_store::HostStore;
pub use mem_out::MemOut;
pub use mem_store::MemStore;
pub use outs::Out;
pub use safe_store::SafeStore;
pub use stores::Store;
