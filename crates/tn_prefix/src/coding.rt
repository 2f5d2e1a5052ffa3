ghost use Rattle.std.specs.Prelude.{◌≡◌, ℕ, ◌+◌, ◌^◌, ◌<◌, ◌≤◌, List, ◌++◌, length, Some};
ghost use Rattle.arrayvec.specs.ArrayVec.{array_vec_len};
ghost use Rattle.tn_isa.specs.declared.functions.Fun.{Fun};
ghost use Rattle.tn_isa.specs.OperandRegister.{IsCoded};
ghost use Rattle.tn_prefix.specs.Coding.{instruction, unsigned_coding, coding, coding_length};
ghost use Rattle.tn_prefix.specs.Sign.{operand_value, magnitude};
ghost use Rattle.tn_prefix.specs.Operand.{loads, LoadsAll, word_of};

use crate::sign::SignedOperand;
use arrayvec::ArrayVec;
use tn_isa::{Fun, fun_code};

/// The bytes of an instruction: the shortest that load the operand into the function, which is
/// the function's own byte with at most seven prefix bytes before it. `pfix` and `nfix` are not
/// coded by themselves.
pub fn encode(fun: Fun, e: i32) -> ArrayVec<u8, 8>
    requires { IsCoded fun }
    ensures coding { result.items ≡ coding fun e }
    ensures loads { LoadsAll result.items fun (word_of e) }
    ensures length { array_vec_len result ≡ coding_length e }
    // Whatever follows the bytes, a reader of them finds this instruction first.
    ensures followed { (rest : List ℕ)
        → loads (result.items ++ rest) ≡ Some (fun, word_of e, coding_length e) }
{
    coded(fun, SignedOperand::new(e))
}

/// How many bytes the coding of an operand has, 1 to 8: 1 from 0 to 15, else the least `n` from
/// 2 on with -16^n ≤ `e` < 16^n. No bytes that load the operand into a function are fewer.
pub fn length(e: i32) -> u8
    ensures value { result ≡ coding_length e }
    ensures shortest { (bytes : List ℕ) → (f : Fun)
        → LoadsAll bytes f (word_of e) → result ≤ length bytes }
{
    SignedOperand::new(e).length()
}

/// The coding of a function with an operand that is known by its sign.
#[tactic(auto, using(crate::proofs::Lengths::coding_steps))]
fn coded(fun: Fun, operand: SignedOperand) -> ArrayVec<u8, 8>
    requires { magnitude operand < 2 ^ 31 }
    ensures { result.items ≡ coding fun (operand_value operand) }
{
    let mut bytes = ArrayVec::new();
    match operand {
        SignedOperand::Natural(n) => push_coding(&mut bytes, fun, n),
        SignedOperand::Complement(n) => {
            push_coding(&mut bytes, Fun::Nfix, n / 16);
            bytes.push(instruction_byte(fun, 15 - n % 16));
        }
    }
    bytes
}

/// Appends the coding of a function with an unsigned operand.
#[tactic(auto, using(crate::proofs::Codings::push_steps))]
fn push_coding(bytes: &mut ArrayVec<u8, 8>, fun: Fun, operand: u32)
    requires { array_vec_len bytes.old + length (unsigned_coding fun operand) ≤ 8 }
    ensures { bytes.new.items ≡ bytes.old.items ++ unsigned_coding fun operand }
{
    if operand >= 16 {
        push_coding(bytes, Fun::Pfix, operand / 16);
    }
    bytes.push(instruction_byte(fun, operand));
}

/// The byte of a function with the low four bits of an operand.
fn instruction_byte(fun: Fun, operand: u32) -> u8
    ensures { result ≡ instruction fun operand }
{
    fun_code(fun) * 16 + (operand % 16) as u8
}
