//! Sources as people write them: code alone, and modules for the assembler. The texts are this
//! project's own.
#![tactic(auto)]

mod directives;
mod drafts;
mod flat_sources;
mod forms;
mod instructions;
mod labels;
mod said;
mod sources;
mod statements;

pub use flat_sources::read_flat;
pub use instructions::Instruction;
pub use sources::assemble;
