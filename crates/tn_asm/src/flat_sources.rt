ghost use Rattle.std.specs.Prelude.{◌≡◌, ℕ, ◌<◌, ◌^◌, ℤ, List, length, map, Ok, Err, IfOk};
ghost use Rattle.std.specs.Result.{result_map_both};
ghost use Rattle.tn_isa.specs.declared.functions.Fun.{Fun};
ghost use Rattle.tn_text.specs.declared.faults.ReadFault.TheVariants as read;
ghost use Rattle.tn_text.specs.Reading.{Gives, IsReading, token_step, placed};
ghost use Rattle.tn_asm.specs.Instructions.{instruction_of};
ghost use Rattle.tn_asm.specs.FlatSources.{IsFlat, IsFlatFault};
ghost use Rattle.tn_asm.specs.FlatReading.{alone, with_token, instruction_said, flat_step, flat_read};
ghost use Rattle.tn_isa.specs.Mnemonics.{mnemonic_named};

use crate::instructions::Instruction;
use std::alloc::Global;
use tn_isa::{Fun, Mnemonic, mnemonic_spelled, op_code};
use tn_text::{Cause, FaultCode, ReadFault, next_line, number_at, read_tokens};

/// The instructions of a flat source. Each line says nothing, or is the mnemonic of a function and
/// a number, or the name of an operation; comments, blanks and numbers are as in all texts. The
/// fault is that of the first line that is none of these: `NotAscii`, else `BadLine` for a first
/// word or a number of tokens that is not right, else `BadNumber`.
#[tactic(auto, using(crate::proofs::FlatLaws::flat_reading))]
pub fn read_flat(alloc: Global, text: &[u8]) -> Result<Vec<Instruction>, ReadFault>
    requires { length text.now < 2 ^ 30 }
    ensures gives { Gives (λ found. map instruction_of found.items) result (flat_read text.now) }
    ensures reading { (text : List ℕ) → IsReading (IsFlat text) (IsFlatFault text) (flat_read text) }

    // So, unless there is no memory:
    ensures found { IfOk result (λ found. IsFlat text.now (map instruction_of found.items)) }
    ensures only { (instructions : List (Fun × ℤ)) → IsFlat text.now instructions
        → Gives (λ found. map instruction_of found.items) result (Ok instructions) }
    ensures fault { (fault : _) → result ≡ Err (read.Fault fault) → IsFlatFault text.now fault }
{
    read_all(alloc, text)
}

/// Reads line by line.
fn read_all(alloc: Global, text: &[u8]) -> Result<Vec<Instruction>, ReadFault>
    requires { length text.now < 2 ^ 30 }
    ensures { Gives (λ found. map instruction_of found.items) result (flat_read text.now) }
{
    let mut instructions = Vec::new(alloc);
    let mut rest = text;
    let mut number = 0;
    while let Some((line, behind)) = next_line(rest) {
        number += 1;
        let tokens = read_tokens(alloc, line, number)?;
        if !tokens.is_empty() {
            match instruction_said(&tokens) {
                Ok(instruction) => instructions.push(instruction)?,
                Err(cause) => return Err(ReadFault::Fault(cause.at(number))),
            }
        }
        rest = behind;
    }
    Ok(instructions)
}

/// The instruction of the tokens of a line.
#[tactic(auto, unfolding(crate::specs::FlatReading::instruction_said))]
fn instruction_said(tokens: &[&[u8]]) -> Result<Instruction, Cause>
    ensures { result_map_both instruction_of (λ cause. cause) result ≡ instruction_said (map (λ token. token.now) tokens.now) }
{
    match tokens {
        [word] => alone(word),
        [word, token] => with_token(word, token),
        _ => Err(Cause::bare(FaultCode::BadLine)),
    }
}

/// The instruction of a line of one word.
fn alone(word: &[u8]) -> Result<Instruction, Cause>
    ensures { result_map_both instruction_of (λ cause. cause) result ≡ alone (mnemonic_named word.now) }
{
    match mnemonic_spelled(word) {
        Some(Mnemonic::Plain(op)) => Ok(Instruction {
            fun: Fun::Opr,
            operand: op_code(op).cast_signed(),
        }),
        Some(Mnemonic::Direct(_)) => Err(Cause::bare(FaultCode::BadLine)),
        None => Err(Cause::bare(FaultCode::BadLine)),
    }
}

/// The instruction of a line of a word and a token.
#[tactic(auto, using(tn_isa::proofs::CodedFunctions::coded_functions))]
fn with_token(word: &[u8], token: &[u8]) -> Result<Instruction, Cause>
    ensures { result_map_both instruction_of (λ cause. cause) result ≡ with_token token.now (mnemonic_named word.now) }
{
    match mnemonic_spelled(word) {
        Some(Mnemonic::Direct(fun)) => Ok(Instruction {
            fun,
            operand: number_at(token)?.cast_signed(),
        }),
        Some(Mnemonic::Plain(_)) => Err(Cause::bare(FaultCode::BadLine)),
        None => Err(Cause::bare(FaultCode::BadLine)),
    }
}
