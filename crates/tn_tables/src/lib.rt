//! Tables of cases in plain text: how they are read, and the report of what differs.
//!
//! A table has cases, `case NAME`, and a case has lines. A line asks something, and behind ` => ` it
//! has what is to come: `length 16 => 2`. Lines of bytes may stand below it, as what is asked about
//! or, where it has no ` => `, as what is to come. Where neither is there nothing is to come.
//!
//! - `| TEXT` is a line of text, and `. TEXT` is text without a line feed;
//! - `# 45 D1` is bytes, in hexadecimal;
//! - `* N TEXT` and `#* N 45 D1` are the same N times.
//!
//! An empty line, and one that begins with `; `, says nothing. What a line may ask stands at the head
//! of each table. A line that a table doesn't know makes the case no case, and is told, so that no
//! misspelt line passes.
#![tactic(auto)]

mod answers;
mod bytes;
mod cases;
mod numbers;
mod programs;
mod reports;
mod stops;

pub use answers::{held, said, spelled};
pub use cases::{Case, Line, cases_of};
pub use numbers::{byte, decimal, decimals, number, words_of};
pub use programs::{Tables, run_tables};
pub use reports::Report;
pub use stops::Stop;
