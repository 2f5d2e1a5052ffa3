//! Single instructions of the T425 over any space of addresses, after "Transputer Instruction Set:
//! a compiler writer's guide" and the T425 data sheet. Where those leave a register or a case
//! open, the tables in specs/Effects.antt, specs/Rows.antt and specs/Channels.antt decide.
#![tactic(auto)]

mod arithmetic;
mod channels;
mod endings;
mod functions;
mod operations;
mod outcomes;
mod processors;
mod queues;
mod registers;
mod rows;
mod stacks;
mod steps;
mod turns;

pub use outcomes::{Life, Outcome, Transfer, Why};
pub use processors::{Cpu, CpuView, NoMemory};
pub use registers::Reg;
