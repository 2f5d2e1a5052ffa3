ghost use Rattle.std.specs.Prelude.{◌≡◌, ℕ, ◌+◌, ◌*◌, ◌^◌, ◌<◌, ◌≤◌, List, map, length, take, position, Some, None, IfOk, OnOk};
ghost use Rattle.std.specs.Prelude.{if◌then◌else◌};
ghost use Rattle.std.specs.List.{range_with_len};
ghost use Rattle.std.specs.Option.{option_or, option_map};
ghost use Rattle.indexmap.specs.IndexMap.{get};
ghost use Rattle.tn_text.specs.declared.limits.TheConstants.{ITEM_LIMIT, CELL_LIMIT};
ghost use Rattle.tn_module.specs.Modules.{module_of};
ghost use Rattle.tn_module.specs.Names.{same_name, is_among, code_label, cell_label};
ghost use Rattle.tn_symbols.specs.Choices.{module_at};
ghost use Rattle.tn_link.specs.Places.{item_count, cells_size, cells_end, start, is_code_label, is_cell_label, label_in};
ghost use Rattle.tn_link.specs.Places.{item_target, cell_target, exported_label};
ghost use Rattle.tn_link.specs.Inner.Elements.{AreValid};

use crate::counts::{aligned, cells_size, end_of};
use crate::linking::NoMemory;
use indexmap::IndexMap;
use std::alloc::Global;
use tn_module::{Cell, Item, Kind, Module, RawModule};
use tn_text::Name;

/// Where a module begins: the place of its first item in the program, and how far its first cell
/// lies behind the cell base.
#[derive(Clone, Copy)]
pub(crate) struct Start {
    pub(crate) item: u32,
    pub(crate) cell: u32,
}

/// What a name stands for: the item at a place of the program, or the cell at a distance from the
/// cell base.
#[derive(Clone, Copy)]
pub(crate) struct Target {
    pub(crate) kind: Kind,
    pub(crate) place: u32,
}

/// The modules of a program, where each begins, and what the names stand for that they export.
#[derive(Drop)]
pub(crate) struct Plan<'a> {
    pub(crate) modules: &'a [Module],
    pub(crate) starts: &'a [Start],
    pub(crate) exports: &'a IndexMap<Name, Target>,
}

/// The names that a module knows: its own labels, and what modules export.
#[derive(Drop)]
pub(crate) struct Scope<'a> {
    pub(crate) labels: &'a IndexMap<Name, Target>,
    pub(crate) exports: &'a IndexMap<Name, Target>,
}

/// Where each module begins.
pub(crate) fn starts(alloc: Global, modules: &[Module]) -> Result<Vec<Start>, NoMemory>
    requires items { item_count modules.now ≤ ITEM_LIMIT }
    requires cells { cells_end modules.now ≤ CELL_LIMIT }
    ensures { IfOk result (λ starts. starts.items ≡ map (start modules.now) (range_with_len 0 (length modules.now))) }
{
    let mut starts = Vec::new(alloc);
    let mut item: u32 = 0;
    let mut end = 0;
    for module in modules {
        let raw = module.raw();
        let cell = aligned(end);
        starts.push(Start {
            item,
            cell: cell as u32,
        })?;
        item += raw.items.len() as u32;
        end = cell + cells_size(&raw.cells);
    }
    Ok(starts)
}

/// What the labels of a module stand for that begins there.
pub(crate) fn labels(
    alloc: Global,
    raw: &RawModule,
    start: Start,
) -> Result<IndexMap<Name, Target>, NoMemory>
    requires items { start.item + length raw.now.items.items ≤ ITEM_LIMIT }
    requires cells { start.cell + cells_size raw.now.cells.items ≤ CELL_LIMIT }
    ensures { IfOk result (λ table. (name : List ℕ) → get same_name table name ≡ label_in (module_of raw.now) start name) }
{
    let mut table = IndexMap::new(alloc);
    add_items(&mut table, &raw.items, start)?;
    add_cells(&mut table, &raw.cells, start)?;
    Ok(table)
}

/// Notes the labels of code that are not yet known.
fn add_items(
    table: &mut IndexMap<Name, Target>,
    items: &[Item],
    start: Start,
) -> Result<(), NoMemory>
    requires { start.item + length items.now ≤ ITEM_LIMIT }
    ensures { OnOk result ((name : List ℕ) → get same_name table.new name
        ≡ option_or (get same_name table.old name) (option_map (item_target start) (position (is_code_label name) items.now))) }
{
    for (i, item) in items.iter().enumerate() {
        if let Some(name) = code_label(item) {
            note(
                table,
                &name,
                Target {
                    kind: Kind::Code,
                    place: start.item + i as u32,
                },
            )?;
        }
    }
    Ok(())
}

/// Notes the labels of cells that are not yet known.
fn add_cells(
    table: &mut IndexMap<Name, Target>,
    cells: &[Cell],
    start: Start,
) -> Result<(), NoMemory>
    requires { start.cell + cells_size cells.now ≤ CELL_LIMIT }
    ensures { OnOk result ((name : List ℕ) → get same_name table.new name
        ≡ option_or (get same_name table.old name) (option_map (cell_target start cells.now) (position (is_cell_label name) cells.now))) }
{
    let mut at = 0;
    for cell in cells {
        if let Some(name) = cell_label(cell) {
            note(
                table,
                &name,
                Target {
                    kind: Kind::Cell,
                    place: start.cell + at as u32,
                },
            )?;
        }
        at = end_of(at, cell);
    }
    Ok(())
}

fn code_label(item: &Item) -> Option<Name>
    ensures { result ≡ code_label item.now }
{
    match item {
        Item::Label(name) => Some(*name),
        Item::Direct(_, _) | Item::Plain(_) | Item::Byte(_) => None,
    }
}

fn cell_label(cell: &Cell) -> Option<Name>
    ensures { result ≡ cell_label cell.now }
{
    match cell {
        Cell::Label(name) => Some(*name),
        Cell::Word(_) | Cell::Address(_) | Cell::Byte(_) | Cell::Space(_) | Cell::Align => None,
    }
}

/// Notes what the name stands for, if it is not yet known.
fn note(table: &mut IndexMap<Name, Target>, name: &Name, target: Target) -> Result<(), NoMemory>
    ensures { OnOk result ((q : List ℕ) → get same_name table.new q
        ≡ option_or (get same_name table.old q) (if same_name q name.now then Some target else None)) }
{
    if table.contains_key(name) {
        return Ok(());
    }
    table.insert(*name, target)?;
    Ok(())
}

/// What the names stand for that modules export.
pub(crate) fn exports(
    alloc: Global,
    modules: &[Module],
    starts: &[Start],
) -> Result<IndexMap<Name, Target>, NoMemory>
    requires items { item_count modules.now ≤ ITEM_LIMIT }
    requires cells { cells_end modules.now ≤ CELL_LIMIT }
    requires starts { starts.now ≡ map (start modules.now) (range_with_len 0 (length modules.now)) }
    ensures told { IfOk result (λ table. (name : List ℕ) → get same_name table name ≡ exported_label modules.now name) }
    ensures valid { OnOk result (AreValid modules.now) }
{
    let mut table = IndexMap::new(alloc);
    for (m, module) in modules.iter().enumerate() {
        let raw = module.raw();
        add_module(alloc, &mut table, raw, starts[m])?;
    }
    Ok(table)
}

/// Notes what the exports of a module stand for that begins there, if they are not yet known.
fn add_module(
    alloc: Global,
    table: &mut IndexMap<Name, Target>,
    raw: &RawModule,
    start: Start,
) -> Result<(), NoMemory>
    requires items { start.item + length raw.now.items.items ≤ ITEM_LIMIT }
    requires cells { start.cell + cells_size raw.now.cells.items ≤ CELL_LIMIT }
    ensures { OnOk result ((name : List ℕ) → get same_name table.new name ≡ option_or (get same_name table.old name)
        (if is_among raw.now.exports.items name then label_in (module_of raw.now) start name else None)) }
{
    let own = labels(alloc, raw, start)?;
    add_exports(table, &own, &raw.exports)?;
    Ok(())
}

/// Notes what these exports stand for by their module's labels, if they are not yet known.
fn add_exports(
    table: &mut IndexMap<Name, Target>,
    own: &IndexMap<Name, Target>,
    exports: &[Name],
) -> Result<(), NoMemory>
    ensures { OnOk result ((name : List ℕ) → get same_name table.new name
        ≡ option_or (get same_name table.old name) (if is_among exports.now name then get same_name own.now name else None)) }
{
    for name in exports {
        if let Some(target) = own.get(name) {
            note(table, name, *target)?;
        }
    }
    Ok(())
}
