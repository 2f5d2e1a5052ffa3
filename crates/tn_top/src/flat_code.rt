ghost use Rattle.std.specs.Prelude.{◌≡◌, map, IfOk};
ghost use Rattle.tn_asm.specs.Instructions.{instruction_of};
ghost use Rattle.tn_top.specs.FlatCode.{flat_code};

use std::alloc::{AllocError, Global};
use tn_asm::Instruction;
use tn_prefix::encode;

/// The codings of instructions, one after the other.
pub fn flat_code(alloc: Global, instructions: &[Instruction]) -> Result<Vec<u8>, AllocError>
    ensures { IfOk result (λ code. code.items ≡ flat_code (map instruction_of instructions.now)) }
{
    let mut code = Vec::new(alloc);
    for instruction in instructions {
        code.extend_from_slice(&encode(instruction.fun, instruction.operand))?;
    }
    Ok(code)
}
