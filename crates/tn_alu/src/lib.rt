//! Arithmetic of the T425's operations, after "Transputer Instruction Set: a compiler writer's
//! guide": what an operation leaves in a register, and whether it sets Error.
#![tactic(auto)]

mod answers;
mod checked;
mod divisions;
mod longs;
mod shifts;

pub use answers::Answer;
pub use checked::{add, mul, sub};
pub use divisions::{div, rem};
pub use longs::{ldiff, lmul, lsum};
pub use shifts::{shl, shr};
