ghost use Rattle.std.specs.Prelude.{◌<◌, ◌^◌, length};

use crate::faults::fault_line;
use std::alloc::Global;
use tn_asm::{Instruction, read_flat};
use tn_isa::{Mnemonic, mnemonic_name};
use tn_tables::{Line, Stop};
use tn_text::ReadFault;

/// What a line of the table of flat sources gives.
pub fn answer(alloc: Global, line: &Line<'_>) -> Result<Vec<u8>, Stop> {
    match line.words.as_slice() {
        ["read"] if line.bytes.len() < 1 << 30 => read(alloc, &line.bytes),
        _ => Err(Stop::BadCase),
    }
}

fn read(alloc: Global, text: &[u8]) -> Result<Vec<u8>, Stop>
    requires { length text.now < 2 ^ 30 }
{
    match read_flat(alloc, text) {
        Ok(instructions) => listed(alloc, &instructions),
        Err(ReadFault::Fault(fault)) => fault_line(alloc, &fault),
        Err(ReadFault::NoMemory) => Err(Stop::NoMemory),
    }
}

/// Instructions by their names and operands.
fn listed(alloc: Global, instructions: &[Instruction]) -> Result<Vec<u8>, Stop> {
    let mut text = String::new(alloc);
    put_all(alloc, instructions, &mut text)?;
    Ok(text.into_bytes())
}

fn put_all(alloc: Global, instructions: &[Instruction], text: &mut String) -> Result<(), Stop> {
    for instruction in instructions {
        let between = if text.is_empty() { "" } else { ", " };
        let name = mnemonic_name(Mnemonic::Direct(instruction.fun));
        let operand = instruction.operand;
        text.push_str(format!(in alloc; "{between}{name} {operand}")?.as_str())?;
    }
    Ok(())
}
