ghost use Rattle.std.specs.Prelude.{◌≡◌, ◌↔◌, take, All, IsNone, IfSome};
ghost use Rattle.tn_isa.specs.OperandRegister.{IsPrefix};
ghost use Rattle.tn_prefix.specs.Operand.{loads, LoadsAll};

use tn_isa::{Fun, fun_of, is_prefix, loaded, operand_after};

/// The first instruction that bytes hold: its function, which is neither `pfix` nor `nfix`, the
/// operand that the bytes up to it load, and how many bytes these are, its own among them.
/// `None` exactly where every byte is a prefix.
pub fn decode(bytes: &[u8]) -> Option<(Fun, u32, usize)>
    ensures value { result ≡ loads bytes.now }
    ensures none { IsNone result ↔ All IsPrefix bytes.now }
    ensures front { IfSome result (λ found. LoadsAll (take found.2 bytes.now) found.0 found.1) }
{
    let mut register = 0;
    for (index, &byte) in bytes.iter().enumerate() {
        let fun = fun_of(byte);
        if !is_prefix(fun) {
            return Some((fun, loaded(register, byte), index + 1));
        }
        register = operand_after(register, byte);
    }
    None
}
