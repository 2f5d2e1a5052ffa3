//! Linking: the code and the static data of chosen modules, where each of their elements lies, and
//! what their names stand for. Each operand takes the fewest bytes that hold it, by the rule of
//! lengths from "Transputer Instruction Set: a compiler writer's guide".
#![tactic(auto)]

mod addresses;
mod cells;
mod code;
mod counts;
mod linking;
mod piece_look_ups;
mod placing;
mod programs;
mod tables;

pub use linking::{LinkFault, Linked, Placed, link};
