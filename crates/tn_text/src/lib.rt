//! What all readers and writers of texts share: names, numbers, the faults of texts and their
//! lines, lines and tokens, and the reading of a text line by line.
#![tactic(auto)]

mod fault_lines;
mod faults;
mod file_names;
pub mod limits;
mod lines;
mod names;
mod numbers;
mod places;
mod puts;
mod reading;
mod words;

pub use fault_lines::put_place;
pub use faults::{Cause, Detail, Fault, FaultCode, Lack, Part, ReadFault, Region};
pub use file_names::FileName;
pub use lines::{is_ascii_line, next_line, tokens_of};
pub use names::{Name, is_name, is_name_spelling};
pub use numbers::{begins_number, natural, number};
pub use places::{file_name_at, name_at, number_at};
pub use puts::{Put, PutRefused, put_decimal, put_spaced, put_spaced_decimal};
pub use reading::read_tokens;
pub use words::word_text;
