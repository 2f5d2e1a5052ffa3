ghost use Rattle.std.specs.Prelude.{◌<◌, ◌^◌, length};

use crate::faults::fault_line;
use std::alloc::Global;
use tn_asm::assemble;
use tn_modtext::write_module;
use tn_module::Module;
use tn_tables::{Line, Stop};
use tn_text::ReadFault;

/// What a line of the table of sources gives.
pub fn answer(alloc: Global, line: &Line<'_>) -> Result<Vec<u8>, Stop> {
    match line.words.as_slice() {
        ["assemble"] if line.bytes.len() < 1 << 30 => assembled(alloc, &line.bytes),
        _ => Err(Stop::BadCase),
    }
}

fn assembled(alloc: Global, text: &[u8]) -> Result<Vec<u8>, Stop>
    requires { length text.now < 2 ^ 30 }
{
    match assemble(alloc, text) {
        Ok(module) => barred(alloc, &module),
        Err(ReadFault::Fault(fault)) => fault_line(alloc, &fault),
        Err(ReadFault::NoMemory) => Err(Stop::NoMemory),
    }
}

/// The text of a module, with `|` in place of each line feed.
fn barred(alloc: Global, module: &Module) -> Result<Vec<u8>, Stop> {
    let mut text = write_module(alloc, module).ok().ok_or(Stop::NoMemory)?;
    for byte in text.iter_mut() {
        if *byte == b'\n' {
            *byte = b'|';
        }
    }
    Ok(text)
}
