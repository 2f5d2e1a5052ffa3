use std::alloc::Global;
use tn_isa::{Fun, Mnemonic, mnemonic_name, mnemonic_of};
use tn_prefix::{decode, encode, length};
use tn_tables::{Line, Stop, said, spelled};

/// What a line of the table of codings gives.
pub fn answer(alloc: Global, line: &Line<'_>) -> Result<Vec<u8>, Stop> {
    match line.words.as_slice() {
        ["encode", name, operand] => coding(alloc, name, operand),
        ["length", operand] => length_of(alloc, operand),
        ["decode"] => decoding(alloc, &line.bytes),
        _ => Err(Stop::BadCase),
    }
}

/// The operand of decimal digits.
fn operand_of(text: &str) -> Result<i32, Stop> {
    text.parse::<i32>().ok().ok_or(Stop::BadCase)
}

/// How many bytes an instruction has with an operand.
fn length_of(alloc: Global, operand: &str) -> Result<Vec<u8>, Stop> {
    let bytes = length(operand_of(operand)?);
    Ok(bytes.to_string(alloc)?.into_bytes())
}

/// The bytes of an instruction.
#[tactic(auto, using(tn_isa::proofs::CodedFunctions::coded_functions))]
fn coding(alloc: Global, name: &str, operand: &str) -> Result<Vec<u8>, Stop> {
    let operand = operand_of(operand)?;
    match mnemonic_of(name) {
        Some(Mnemonic::Direct(fun)) => spelled(alloc, &encode(fun, operand)),
        _ if name == "opr" => spelled(alloc, &encode(Fun::Opr, operand)),
        _ => Err(Stop::BadCase),
    }
}

/// The first instruction of bytes: its function, its operand and how many bytes it has.
fn decoding(alloc: Global, bytes: &[u8]) -> Result<Vec<u8>, Stop> {
    let Some((fun, operand, count)) = decode(bytes) else {
        return said(alloc, "none");
    };
    let name = mnemonic_name(Mnemonic::Direct(fun));
    Ok(format!(in alloc; "{name} #{operand:08X} {count}")?.into_bytes())
}
