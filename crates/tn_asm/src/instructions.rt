ghost use Rattle.tn_isa.specs.OperandRegister.{IsCoded};

use tn_isa::Fun;

/// An instruction: a function with its operand. An operation is the function `opr` with the
/// operation's code as operand.
#[derive(Clone, Copy)]
pub struct Instruction {
    pub fun: Fun,
    pub operand: i32,
    ghost coded: { IsCoded fun },
}
