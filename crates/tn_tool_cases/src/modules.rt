ghost use Rattle.std.specs.Prelude.{IsTrue};
ghost use Rattle.tn_module.specs.Modules.{module_of, IsShort};

use crate::faults::name_of;
use std::alloc::Global;
use tn_isa::{Fun, Mnemonic, mnemonic_of};
use tn_module::{
    Cell, CheckFault, Import, Item, Kind, Module, ModuleFault, Operand, Place, RawModule,
};
use tn_tables::{Case, Report, Stop, number, said};
use tn_text::{Detail, Name, begins_number};

/// Runs a case of the table of modules: its lines are the parts of a module, but those that check it.
pub fn run_case(alloc: Global, case: &Case<'_>, report: &mut Report) -> Result<(), Stop> {
    let parts = parts_of(alloc, case)?;
    let checked = check(alloc, parts_of(alloc, case)?)?;
    for line in case.lines.iter() {
        match line.words.as_slice() {
            ["check"] => report.answer(alloc, case.name, line, said_of(alloc, &checked, &parts))?,
            ["copy"] => report.answer(alloc, case.name, line, copy(alloc, &checked, &parts))?,
            _ => {}
        }
    }
    Ok(())
}

/// Checks parts, where their lists are short enough.
fn check(alloc: Global, raw: RawModule) -> Result<Result<Module, CheckFault>, Stop> {
    if is_short(&raw) {
        Ok(Module::check(alloc, raw))
    } else {
        Err(Stop::BadCase)
    }
}

fn is_short(raw: &RawModule) -> bool
    ensures { IsTrue result → IsShort (module_of raw.now) }
{
    raw.imports.len() < 1000
        && raw.exports.len() < 1000
        && raw.items.len() < 1000
        && raw.cells.len() < 1000
}

/// Whether parts are a module that has them, or the first fault.
fn said_of(
    alloc: Global,
    checked: &Result<Module, CheckFault>,
    parts: &RawModule,
) -> Result<Vec<u8>, Stop> {
    match checked {
        Ok(module) if *module.raw() == *parts => said(alloc, "valid"),
        Ok(_) => said(alloc, "other parts"),
        Err(CheckFault::Fault(fault)) => fault_text(alloc, fault),
        Err(CheckFault::NoMemory) => Err(Stop::NoMemory),
    }
}

/// Whether a copy of the module has its parts.
fn copy(
    alloc: Global,
    checked: &Result<Module, CheckFault>,
    parts: &RawModule,
) -> Result<Vec<u8>, Stop> {
    match checked {
        Ok(module) => {
            let copy = module.copied().ok().ok_or(Stop::NoMemory)?;
            said(
                alloc,
                if *copy.raw() == *parts {
                    "equal"
                } else {
                    "other parts"
                },
            )
        }
        Err(_) => said(alloc, "no module"),
    }
}

/// A fault: its word, its place, and what it names.
fn fault_text(alloc: Global, fault: &ModuleFault) -> Result<Vec<u8>, Stop> {
    let word = fault.code.word();
    let (place, index) = match fault.place {
        Place::Import(index) => ("import", index),
        Place::Export(index) => ("export", index),
        Place::Item(index) => ("item", index),
        Place::Cell(index) => ("cell", index),
    };
    let text = match fault.detail {
        Detail::Nothing => format!(in alloc; "{word} {place} {index}")?,
        Detail::Named(name) => format!(in alloc; "{word} {place} {index} {name:?}")?,
        _ => return said(alloc, "a detail that no module has"),
    };
    Ok(text.into_bytes())
}

/// The parts of a module.
fn parts_of(alloc: Global, case: &Case<'_>) -> Result<RawModule, Stop> {
    let mut raw = RawModule {
        name: name_of("own")?,
        imports: Vec::new(alloc),
        exports: Vec::new(alloc),
        items: Vec::new(alloc),
        cells: Vec::new(alloc),
    };
    add_parts(&mut raw, case)?;
    Ok(raw)
}

fn add_parts(raw: &mut RawModule, case: &Case<'_>) -> Result<(), Stop> {
    let mut in_data = false;
    for line in case.lines.iter() {
        match line.words.as_slice() {
            ["check"] | ["copy"] => {}
            ["data"] => in_data = true,
            words => add_part(raw, in_data, words)?,
        }
    }
    Ok(())
}

fn add_part(raw: &mut RawModule, in_data: bool, words: &[&str]) -> Result<(), Stop> {
    match words {
        ["import", ..] | ["export", ..] => add_name(raw, words),
        _ if in_data => add_cell(raw, words),
        _ => add_item(raw, words),
    }
}

fn add_item(raw: &mut RawModule, words: &[&str]) -> Result<(), Stop> {
    match item_of(words) {
        Ok(item) => push_item(&mut raw.items, item),
        Err(stop) => Err(stop),
    }
}

fn push_item(items: &mut Vec<Item>, item: Item) -> Result<(), Stop> {
    Ok(items.extend_from_slice(&[item])?)
}

fn add_cell(raw: &mut RawModule, words: &[&str]) -> Result<(), Stop> {
    let cell = cell_of(words)?;
    Ok(raw.cells.push(cell)?)
}

fn add_name(raw: &mut RawModule, words: &[&str]) -> Result<(), Stop> {
    match words {
        ["import", kind, name] => {
            let import = Import {
                kind: kind_of(kind)?,
                name: name_of(name)?,
            };
            Ok(raw.imports.push(import)?)
        }
        ["export", name] => Ok(raw.exports.push(name_of(name)?)?),
        _ => Err(Stop::BadCase),
    }
}

fn kind_of(word: &str) -> Result<Kind, Stop> {
    match word {
        "code" => Ok(Kind::Code),
        "data" => Ok(Kind::Cell),
        _ => Err(Stop::BadCase),
    }
}

fn item_of(words: &[&str]) -> Result<Item, Stop> {
    match words {
        ["i", name, operand] => Ok(Item::Direct(fun_of(name)?, operand_of(operand)?)),
        ["o", name] => match mnemonic_of(name) {
            Some(Mnemonic::Plain(op)) => Ok(Item::Plain(op)),
            _ => Err(Stop::BadCase),
        },
        ["b", value] => Ok(Item::Byte(byte_of(value)?)),
        ["l", name] => Ok(Item::Label(name_of(name)?)),
        _ => Err(Stop::BadCase),
    }
}

fn cell_of(words: &[&str]) -> Result<Cell, Stop> {
    match words {
        ["w", value] => Ok(Cell::Word(number(value)?)),
        ["a", name] => Ok(Cell::Address(name_of(name)?)),
        ["b", value] => Ok(Cell::Byte(byte_of(value)?)),
        ["s", count] => Ok(Cell::Space(number(count)?)),
        ["align"] => Ok(Cell::Align),
        ["l", name] => Ok(Cell::Label(name_of(name)?)),
        _ => Err(Stop::BadCase),
    }
}

fn byte_of(text: &str) -> Result<u8, Stop> {
    text.parse::<u8>().ok().ok_or(Stop::BadCase)
}

/// A function by its name, also one that no source names.
fn fun_of(name: &str) -> Result<Fun, Stop> {
    match name {
        "pfix" => Ok(Fun::Pfix),
        "nfix" => Ok(Fun::Nfix),
        "opr" => Ok(Fun::Opr),
        name => match mnemonic_of(name) {
            Some(Mnemonic::Direct(fun)) => Ok(fun),
            _ => Err(Stop::BadCase),
        },
    }
}

/// An operand: a number, `NAME`, `NAME-NAME` or `@NAME`.
fn operand_of(text: &str) -> Result<Operand, Stop> {
    if begins_number(text.as_bytes()) {
        let number = text.parse::<i32>().ok().ok_or(Stop::BadCase)?;
        return Ok(Operand::Number(number));
    }
    if let Some(name) = text.strip_prefix('@') {
        return Ok(Operand::CellWord(name_of(name)?));
    }
    match text.split_once('-') {
        Some((high, low)) => difference(name_of(high)?, name_of(low)?),
        None => Ok(Operand::To(name_of(text)?)),
    }
}

fn difference(high: Name, low: Name) -> Result<Operand, Stop> {
    Ok(Operand::Difference(high, low))
}
