ghost use Rattle.std.specs.Prelude.{◌<◌, ◌^◌, length, IsTrue};
ghost use Rattle.tn_module.specs.Modules.{IsShort};

use crate::faults::fault_line;
use std::alloc::Global;
use tn_modtext::{export_line, import_line, module_lines, read_module, write_module};
use tn_module::Module;
use tn_tables::{Line, Stop, said};
use tn_text::ReadFault;

/// What a line of the table of module texts gives.
pub fn answer(alloc: Global, line: &Line<'_>) -> Result<Vec<u8>, Stop> {
    match line.words.as_slice() {
        [asked] if line.bytes.len() < 1 << 30 => read(alloc, asked, &line.bytes),
        _ => Err(Stop::BadCase),
    }
}

fn read(alloc: Global, asked: &str, text: &[u8]) -> Result<Vec<u8>, Stop>
    requires { length text.now < 2 ^ 30 }
{
    match read_module(alloc, text) {
        Ok(module) => told(alloc, asked, &module, text),
        Err(ReadFault::Fault(fault)) => fault_line(alloc, &fault),
        Err(ReadFault::NoMemory) => Err(Stop::NoMemory),
    }
}

fn told(alloc: Global, asked: &str, m: &Module, text: &[u8]) -> Result<Vec<u8>, Stop> {
    match asked {
        "read" => written(alloc, m, text),
        "lines" if is_short(m) => lines(alloc, m),
        _ => Err(Stop::BadCase),
    }
}

/// Whether the module is written as the text that it was read from.
fn written(alloc: Global, m: &Module, text: &[u8]) -> Result<Vec<u8>, Stop> {
    let again = write_module(alloc, m).ok().ok_or(Stop::NoMemory)?;
    said(
        alloc,
        if again.as_slice() == text {
            "same"
        } else {
            "another text"
        },
    )
}

/// Whether the lists of the module are short.
pub fn is_short(m: &Module) -> bool
    ensures { IsTrue result → IsShort m.now }
{
    let raw = m.raw();
    raw.imports.len() < 1 << 30
        && raw.exports.len() < 1 << 30
        && raw.items.len() < 1 << 30
        && raw.cells.len() < 1 << 30
}

/// The lines of imports and exports, and how many lines there are.
fn lines(alloc: Global, m: &Module) -> Result<Vec<u8>, Stop>
    requires { IsShort m.now }
{
    let mut text = String::new(alloc);
    put_imports(alloc, m, &mut text)?;
    put_exports(alloc, m, &mut text)?;
    put(alloc, "", module_lines(m), " lines", &mut text)?;
    Ok(text.into_bytes())
}

fn put_imports(alloc: Global, m: &Module, text: &mut String) -> Result<(), Stop>
    requires { IsShort m.now }
{
    for i in 0..m.raw().imports.len() {
        put(
            alloc,
            "import ",
            u64::from(import_line(m, i as u32)),
            ", ",
            text,
        )?;
    }
    Ok(())
}

fn put_exports(alloc: Global, m: &Module, text: &mut String) -> Result<(), Stop>
    requires { IsShort m.now }
{
    for i in 0..m.raw().exports.len() {
        put(
            alloc,
            "export ",
            u64::from(export_line(m, i as u32)),
            ", ",
            text,
        )?;
    }
    Ok(())
}

/// Puts a number between two texts.
fn put(alloc: Global, front: &str, n: u64, behind: &str, text: &mut String) -> Result<(), Stop> {
    text.push_str(format!(in alloc; "{front}{n}{behind}")?.as_str())?;
    Ok(())
}
