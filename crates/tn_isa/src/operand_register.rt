ghost use Rattle.std.specs.Prelude.{◌≡◌};
ghost use Rattle.tn_isa.specs.OperandRegister.{is_prefix, loaded, operand_after};

use crate::functions::{Fun, fun_of};

/// Whether a function's bytes make the operand of a later byte in place of executing: `pfix` and
/// `nfix` alone.
pub fn is_prefix(fun: Fun) -> bool
    ensures { result ≡ is_prefix fun }
{
    matches!(fun, Fun::Pfix | Fun::Nfix)
}

/// The operand that the function of an instruction byte sees: the operand register with its low four
/// bits replaced by those of the byte.
pub fn loaded(register: u32, byte: u8) -> u32
    ensures { result ≡ loaded register byte }
{
    register / 16 * 16 + u32::from(byte % 16)
}

/// The operand register after an instruction byte, before its function executes: `pfix` shifts the
/// operand left by four bits, `nfix` complements it first, and behind any other byte it is the operand.
pub fn operand_after(register: u32, byte: u8) -> u32
    ensures { result ≡ operand_after register byte }
{
    let operand = loaded(register, byte);
    match fun_of(byte) {
        Fun::Pfix => operand << 4,
        Fun::Nfix => !operand << 4,
        _ => operand,
    }
}
