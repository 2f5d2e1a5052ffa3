ghost use Rattle.std.specs.Prelude.{◌≡◌, ◌++◌, ◌∷◌, ◌<◌, ◌^◌, [], map, length, IfOk, OnOk};
ghost use Rattle.std.specs.List.{flat_map};
ghost use Rattle.std.specs.Fmt.{decimal, signed_decimal};
ghost use Rattle.tn_isa.specs.Mnemonics.{name_of};
ghost use Rattle.tn_module.specs.Modules.{module_of};
ghost use Rattle.tn_modtext.specs.declared.lines.Line.TheVariants as line;
ghost use Rattle.tn_modtext.specs.Lines.{kind_word, operand_text, item_args, cell_args, line_args, line_spelling, spelling};
ghost use Rattle.tn_modtext.specs.Inner.Writing.{args_text};

use crate::forms::form_word;
use crate::lines::Line;
use std::alloc::Global;
use tn_isa::{Mnemonic, mnemonic_name};
use tn_module::{Cell, Import, Item, Kind, Module, NoMemory, Operand, RawModule};
use tn_text::Name;

/// The text of a module, its one spelling.
pub fn write_module(alloc: Global, m: &Module) -> Result<Vec<u8>, NoMemory>
    ensures { IfOk result (λ text. text.items ≡ spelling m.now) }
{
    let mut text = Vec::new(alloc);
    put_module(alloc, m.raw(), &mut text)?;
    Ok(text)
}

/// Puts the lines of a module behind a text.
pub(crate) fn put_module(alloc: Global, raw: &RawModule, out: &mut Vec<u8>) -> Result<(), NoMemory>
    ensures { OnOk result (out.new.items ≡ out.old.items ++ spelling (module_of raw.now)) }
{
    put_line(alloc, &Line::Head, out)?;
    put_line(alloc, &Line::Name(raw.name), out)?;
    put_imports(alloc, &raw.imports, out)?;
    put_exports(alloc, &raw.exports, out)?;
    put_line(alloc, &Line::Code, out)?;
    put_items(alloc, &raw.items, out)?;
    put_line(alloc, &Line::Data, out)?;
    put_cells(alloc, &raw.cells, out)?;
    put_line(alloc, &Line::End, out)
}

fn put_imports(alloc: Global, imports: &[Import], out: &mut Vec<u8>) -> Result<(), NoMemory>
    ensures { OnOk result (out.new.items ≡ out.old.items ++ flat_map line_spelling (map line.Import imports.now)) }
{
    for import in imports {
        put_line(alloc, &Line::Import(*import), out)?;
    }
    Ok(())
}

fn put_exports(alloc: Global, exports: &[Name], out: &mut Vec<u8>) -> Result<(), NoMemory>
    ensures { OnOk result (out.new.items ≡ out.old.items ++ flat_map line_spelling (map line.Export exports.now)) }
{
    for name in exports {
        put_line(alloc, &Line::Export(*name), out)?;
    }
    Ok(())
}

fn put_items(alloc: Global, items: &[Item], out: &mut Vec<u8>) -> Result<(), NoMemory>
    ensures { OnOk result (out.new.items ≡ out.old.items ++ flat_map line_spelling (map line.Item items.now)) }
{
    for item in items {
        put_line(alloc, &Line::Item(*item), out)?;
    }
    Ok(())
}

fn put_cells(alloc: Global, cells: &[Cell], out: &mut Vec<u8>) -> Result<(), NoMemory>
    ensures { OnOk result (out.new.items ≡ out.old.items ++ flat_map line_spelling (map line.Cell cells.now)) }
{
    for cell in cells {
        put_line(alloc, &Line::Cell(*cell), out)?;
    }
    Ok(())
}

/// Puts a line and its line feed.
pub(crate) fn put_line(alloc: Global, line: &Line, out: &mut Vec<u8>) -> Result<(), NoMemory>
    ensures { OnOk result (out.new.items ≡ out.old.items ++ line_spelling line.now) }
{
    out.extend_from_slice(form_word(line.form()).as_bytes())?;
    put_args(alloc, line, out)?;
    out.push(b'\n')?;
    Ok(())
}

/// Puts what stands behind the first word of a line.
#[tactic(auto, using(std::proofs::Common::append_assoc))]
fn put_args(alloc: Global, line: &Line, out: &mut Vec<u8>) -> Result<(), NoMemory>
    ensures { OnOk result (out.new.items ≡ out.old.items ++ args_text (line_args line.now)) }
{
    match line {
        Line::Head => put_spaced(b"1", out),
        Line::Name(name) => put_spaced(name.bytes(), out),
        Line::Import(import) => put_import(import, out),
        Line::Export(name) => put_spaced(name.bytes(), out),
        Line::Code => Ok(()),
        Line::Item(item) => put_item(alloc, item, out),
        Line::Data => Ok(()),
        Line::Cell(cell) => put_cell(alloc, cell, out),
        Line::End => Ok(()),
    }
}

#[tactic(auto, using(std::proofs::Common::append_assoc))]
fn put_import(import: &Import, out: &mut Vec<u8>) -> Result<(), NoMemory>
    ensures { OnOk result (out.new.items ≡ out.old.items ++ args_text (kind_word import.now.kind ∷ import.now.name ∷ [])) }
{
    put_spaced(kind_word(import.kind).as_bytes(), out)?;
    put_spaced(import.name.bytes(), out)
}

fn put_item(alloc: Global, item: &Item, out: &mut Vec<u8>) -> Result<(), NoMemory>
    ensures { OnOk result (out.new.items ≡ out.old.items ++ args_text (item_args item.now)) }
{
    match item {
        Item::Direct(fun, operand) => put_direct(alloc, Mnemonic::Direct(*fun), operand, out),
        Item::Plain(op) => put_spaced(mnemonic_name(Mnemonic::Plain(*op)).as_bytes(), out),
        Item::Byte(byte) => put_number(alloc, u32::from(*byte), out),
        Item::Label(name) => put_spaced(name.bytes(), out),
    }
}

#[tactic(auto, using(std::proofs::Common::append_assoc))]
fn put_direct(
    alloc: Global,
    m: Mnemonic,
    operand: &Operand,
    out: &mut Vec<u8>,
) -> Result<(), NoMemory>
    ensures { OnOk result (out.new.items ≡ out.old.items ++ args_text (name_of m ∷ operand_text operand.now ∷ [])) }
{
    put_spaced(mnemonic_name(m).as_bytes(), out)?;
    put_operand(alloc, operand, out)
}

#[tactic(auto, using(std::proofs::Common::append_assoc))]
fn put_operand(alloc: Global, operand: &Operand, out: &mut Vec<u8>) -> Result<(), NoMemory>
    ensures { OnOk result (out.new.items ≡ out.old.items ++ 32 ∷ operand_text operand.now) }
{
    match operand {
        Operand::Number(value) => put_signed(alloc, *value, out),
        Operand::To(name) => put_spaced(name.bytes(), out),
        Operand::Difference(high, low) => put_difference(high, low, out),
        Operand::CellWord(name) => put_cell_word(name, out),
    }
}

#[tactic(auto, using(std::proofs::Common::append_assoc))]
fn put_difference(high: &Name, low: &Name, out: &mut Vec<u8>) -> Result<(), NoMemory>
    ensures { OnOk result (out.new.items ≡ out.old.items ++ 32 ∷ (high.now ++ 45 ∷ low.now)) }
{
    put_spaced(high.bytes(), out)?;
    out.push(b'-')?;
    out.extend_from_slice(low.bytes())?;
    Ok(())
}

#[tactic(auto, using(std::proofs::Common::append_assoc))]
fn put_cell_word(name: &Name, out: &mut Vec<u8>) -> Result<(), NoMemory>
    ensures { OnOk result (out.new.items ≡ out.old.items ++ 32 ∷ 64 ∷ name.now) }
{
    out.extend_from_slice(b" @")?;
    out.extend_from_slice(name.bytes())?;
    Ok(())
}

fn put_cell(alloc: Global, cell: &Cell, out: &mut Vec<u8>) -> Result<(), NoMemory>
    ensures { OnOk result (out.new.items ≡ out.old.items ++ args_text (cell_args cell.now)) }
{
    match cell {
        Cell::Word(word) => put_number(alloc, *word, out),
        Cell::Address(name) => put_spaced(name.bytes(), out),
        Cell::Byte(byte) => put_number(alloc, u32::from(*byte), out),
        Cell::Space(count) => put_number(alloc, *count, out),
        Cell::Align => Ok(()),
        Cell::Label(name) => put_spaced(name.bytes(), out),
    }
}

/// Puts a blank and a number.
fn put_number(alloc: Global, number: u32, out: &mut Vec<u8>) -> Result<(), NoMemory>
    ensures { OnOk result (out.new.items ≡ out.old.items ++ 32 ∷ decimal number) }
{
    let text = number.to_string(alloc)?;
    put_spaced(text.as_bytes(), out)
}

/// Puts a blank and a signed number.
fn put_signed(alloc: Global, number: i32, out: &mut Vec<u8>) -> Result<(), NoMemory>
    ensures { OnOk result (out.new.items ≡ out.old.items ++ 32 ∷ signed_decimal number) }
{
    let text = number.to_string(alloc)?;
    put_spaced(text.as_bytes(), out)
}

/// Puts a blank and a token.
#[tactic(auto, using(std::proofs::Common::append_assoc))]
fn put_spaced(token: &[u8], out: &mut Vec<u8>) -> Result<(), NoMemory>
    ensures { OnOk result (out.new.items ≡ out.old.items ++ 32 ∷ token.now) }
{
    out.push(b' ')?;
    out.extend_from_slice(token)?;
    Ok(())
}

/// The word for what an import is of.
fn kind_word(kind: Kind) -> &'static str
    ensures { result.now ≡ kind_word kind }
{
    match kind {
        Kind::Code => "code",
        Kind::Cell => "data",
    }
}
