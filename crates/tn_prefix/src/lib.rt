//! The coding of T425 instructions with prefix bytes, after "Transputer Instruction Set: a
//! compiler writer's guide". An instruction byte carries four bits of an operand. The functions
//! `pfix` and `nfix` carry the bits before them into the operand register, so that any signed
//! word can be an operand.
#![tactic(auto)]

mod coding;
mod operand;
mod sign;

pub use coding::{encode, length};
pub use operand::decode;
