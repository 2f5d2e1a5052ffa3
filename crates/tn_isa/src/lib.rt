//! Functions, operations and mnemonics of the T425's instruction set, after "Transputer Instruction Set: a
//! compiler writer's guide".
#![tactic(auto)]

mod functions;
mod mnemonics;
mod operand_register;
mod operations;

pub use functions::{Fun, fun_code, fun_of};
pub use mnemonics::{Mnemonic, mnemonic_name, mnemonic_of, mnemonic_spelled};
pub use operand_register::{is_prefix, loaded, operand_after};
pub use operations::{Op, op_code, op_of};
