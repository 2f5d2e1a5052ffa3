//! Sizes of the pieces of code: the least that hold the operands of all references, by the rule of
//! lengths from "Transputer Instruction Set: a compiler writer's guide". An operand that is a
//! distance between two places needs more bytes where it is larger, and the distance grows with the
//! sizes between the places.
#![tactic(auto)]

mod layouts;
mod marks;
mod pieces;
mod segment_trees;
mod sizes;
mod spans;
mod steps;

pub use pieces::{LayoutFault, Piece};
pub use sizes::{settle, settle_counted};
pub use steps::{Steps, length_counted};
