ghost use Rattle.std.specs.Prelude.{◌≡◌, ℕ, ◌+◌, ◌*◌, ◌<◌, ◌≤◌, ◌^◌, List, [], ◌∷◌, ◌++◌, map, length, Ok, IfOk, OnOk};
ghost use Rattle.std.specs.List.{filter_map};
ghost use Rattle.tn_module.specs.Modules.{module_of, IsShort};
ghost use Rattle.tn_module.specs.Names.{is_among, imported_code, imported_cell, code_label};
ghost use Rattle.tn_module.specs.Names.{cell_label, import_names, code_labels, cell_labels, defined_names};
ghost use Rattle.tn_module.specs.Names.{code_names, cell_names, labels, misaligned, misaligned_label, misaligned_from, end_of};
ghost use Rattle.tn_module.specs.Ranges.{IsName};
ghost use Rattle.tn_module.specs.Faults.{known};
ghost use Rattle.tn_module.specs.Inner.Sets.{HaveSameNames, known_by};

use crate::modules::{Cell, Import, Item, Kind, NoMemory, RawModule};
use indexmap::IndexSet;
use std::alloc::{AllocError, Global};
use tn_text::{Name, is_name};

/// The names of a module.
#[derive(Drop)]
pub(crate) struct NameSets {
    /// All that it defines: its imports and its labels.
    pub(crate) defined: IndexSet<Name>,
    /// Those of code, its own and imported ones.
    pub(crate) code: IndexSet<Name>,
    /// Those of cells, its own and imported ones.
    pub(crate) cells: IndexSet<Name>,
    /// Its own.
    pub(crate) labels: IndexSet<Name>,
    /// Its own of cells that lie at no multiple of 4.
    pub(crate) misaligned: IndexSet<Name>,
}

impl NameSets {
    /// The names of this module.
    pub(crate) fn of(alloc: Global, raw: &RawModule) -> Result<NameSets, NoMemory>
        requires { IsShort (module_of raw.now) }
        ensures { IfOk result (λ sets. known_by sets ≡ known (module_of raw.now)) }
    {
        let mut sets = NameSets {
            defined: IndexSet::new(alloc),
            code: IndexSet::new(alloc),
            cells: IndexSet::new(alloc),
            labels: IndexSet::new(alloc),
            misaligned: IndexSet::new(alloc),
        };
        match sets.fill(alloc, raw) {
            Ok(()) => Ok(sets),
            Err(want) => {
                sets.release();
                Err(want)
            }
        }
    }

    /// Gives the memory of the sets back.
    pub(crate) fn release(self) {
        let NameSets {
            defined,
            code,
            cells,
            labels,
            misaligned,
        } = self;
        release(defined);
        release(code);
        release(cells);
        release(labels);
        release(misaligned);
    }

    /// Puts the names of this module in the place of those in the sets.
    fn fill(&mut self, alloc: Global, raw: &RawModule) -> Result<(), NoMemory>
        requires { IsShort (module_of raw.now) }
        ensures { OnOk result (known_by self.new ≡ known (module_of raw.now)) }
    {
        put(&mut self.defined, defined(alloc, raw))?;
        put(&mut self.code, code(alloc, raw))?;
        put(&mut self.cells, cells(alloc, raw))?;
        put(&mut self.labels, labels(alloc, raw))?;
        put(&mut self.misaligned, misaligned(alloc, raw))?;
        Ok(())
    }
}

/// Gives the memory of a set back.
pub(crate) fn release(_set: IndexSet<Name>) {}

/// Puts the set that was made in the place of the other one, where there was memory for it.
fn put(set: &mut IndexSet<Name>, made: Result<IndexSet<Name>, NoMemory>) -> Result<(), NoMemory>
    ensures { OnOk result (made ≡ Ok set.new) }
{
    *set = made?;
    Ok(())
}

fn defined(alloc: Global, raw: &RawModule) -> Result<IndexSet<Name>, NoMemory>
    ensures { IfOk result (λ set. HaveSameNames set.keys (defined_names (module_of raw.now))) }
{
    let cells = cell_labels(alloc, &raw.cells)?;
    with_names(outside_cells(alloc, raw)?, &cells)
}

/// The names of imports and of code.
fn outside_cells(alloc: Global, raw: &RawModule) -> Result<IndexSet<Name>, NoMemory>
    ensures { IfOk result (λ set. HaveSameNames set.keys (import_names raw.now.imports.items ++ code_labels raw.now.items.items)) }
{
    let imports = import_names(alloc, &raw.imports)?;
    let code = code_labels(alloc, &raw.items)?;
    set_of(alloc, &imports, &code)
}

fn code(alloc: Global, raw: &RawModule) -> Result<IndexSet<Name>, NoMemory>
    ensures { IfOk result (λ set. HaveSameNames set.keys (code_names (module_of raw.now))) }
{
    let imported = imported_code(alloc, &raw.imports)?;
    let code = code_labels(alloc, &raw.items)?;
    set_of(alloc, &imported, &code)
}

fn cells(alloc: Global, raw: &RawModule) -> Result<IndexSet<Name>, NoMemory>
    ensures { IfOk result (λ set. HaveSameNames set.keys (cell_names (module_of raw.now))) }
{
    let imported = imported_cells(alloc, &raw.imports)?;
    let cells = cell_labels(alloc, &raw.cells)?;
    set_of(alloc, &imported, &cells)
}

fn labels(alloc: Global, raw: &RawModule) -> Result<IndexSet<Name>, NoMemory>
    ensures { IfOk result (λ set. HaveSameNames set.keys (labels (module_of raw.now))) }
{
    let code = code_labels(alloc, &raw.items)?;
    let cells = cell_labels(alloc, &raw.cells)?;
    set_of(alloc, &code, &cells)
}

fn misaligned(alloc: Global, raw: &RawModule) -> Result<IndexSet<Name>, NoMemory>
    requires { IsShort (module_of raw.now) }
    ensures { IfOk result (λ set. HaveSameNames set.keys (misaligned (module_of raw.now))) }
{
    let found = misaligned_labels(alloc, &raw.cells)?;
    set_of(alloc, &[], &found)
}

/// Whether the name is in the set.
pub(crate) fn has(set: &IndexSet<Name>, name: &Name) -> bool
    ensures { result ≡ is_among set.now.keys name.now }
{
    set.contains(name)
}

/// Puts the name into the set, and answers whether it was there.
pub(crate) fn enter(set: &mut IndexSet<Name>, name: &Name) -> Result<bool, NoMemory>
    ensures name { IsName name.now }
    ensures was { IfOk result (λ was. was ≡ is_among set.old.keys name.now) }
    ensures entered { OnOk result (HaveSameNames set.new.keys (set.old.keys ++ name.now ∷ [])) }
{
    let new = set.insert(copied(name))?;
    Ok(!new)
}

/// An equal name.
pub(crate) fn copied(name: &Name) -> Name
    ensures copy { result ≡ name.now }
    ensures name { IsName name.now }
{
    prove!(is_name(name.bytes()));
    *name
}

/// The set of these names.
fn set_of(alloc: Global, first: &[Name], second: &[Name]) -> Result<IndexSet<Name>, NoMemory>
    ensures { IfOk result (λ set. HaveSameNames set.keys (first.now ++ second.now)) }
{
    let set = with_names(IndexSet::new(alloc), first)?;
    with_names(set, second)
}

/// The set with more names.
fn with_names(mut set: IndexSet<Name>, names: &[Name]) -> Result<IndexSet<Name>, NoMemory>
    ensures { IfOk result (λ all. HaveSameNames all.keys (set.keys ++ names.now)) }
{
    for name in names {
        enter(&mut set, name)?;
    }
    Ok(set)
}

fn import_names(alloc: Global, imports: &[Import]) -> Result<Vec<Name>, AllocError>
    ensures { IfOk result (λ names. names.items ≡ import_names imports.now) }
{
    imports.iter().map(|import| import.name).collect(alloc)
}

/// The names of imports of code.
fn imported_code(alloc: Global, imports: &[Import]) -> Result<Vec<Name>, AllocError>
    ensures { IfOk result (λ names. names.items ≡ filter_map imported_code imports.now) }
{
    imports
        .iter()
        .filter_map(|import| match import.kind {
            Kind::Code => Some(import.name),
            Kind::Cell => None,
        })
        .collect(alloc)
}

/// The names of imports of cells.
fn imported_cells(alloc: Global, imports: &[Import]) -> Result<Vec<Name>, AllocError>
    ensures { IfOk result (λ names. names.items ≡ filter_map imported_cell imports.now) }
{
    imports
        .iter()
        .filter_map(|import| match import.kind {
            Kind::Code => None,
            Kind::Cell => Some(import.name),
        })
        .collect(alloc)
}

fn code_labels(alloc: Global, items: &[Item]) -> Result<Vec<Name>, AllocError>
    ensures { IfOk result (λ names. names.items ≡ code_labels items.now) }
{
    items
        .iter()
        .filter_map(|item| code_label(item))
        .collect(alloc)
}

fn cell_labels(alloc: Global, cells: &[Cell]) -> Result<Vec<Name>, AllocError>
    ensures { IfOk result (λ names. names.items ≡ cell_labels cells.now) }
{
    cells
        .iter()
        .filter_map(|cell| cell_label(cell))
        .collect(alloc)
}

fn code_label(item: &Item) -> Option<Name>
    ensures { result ≡ code_label item.now }
{
    match item {
        Item::Label(name) => Some(*name),
        Item::Direct(_, _) | Item::Plain(_) | Item::Byte(_) => None,
    }
}

fn cell_label(cell: &Cell) -> Option<Name>
    ensures { result ≡ cell_label cell.now }
{
    match cell {
        Cell::Label(name) => Some(*name),
        Cell::Word(_) | Cell::Address(_) | Cell::Byte(_) | Cell::Space(_) | Cell::Align => None,
    }
}

/// The labels that lie at no multiple of 4.
fn misaligned_labels(alloc: Global, cells: &[Cell]) -> Result<Vec<Name>, AllocError>
    requires { length cells.now < 2 ^ 30 }
    ensures { IfOk result (λ names. names.items ≡ misaligned_from 0 cells.now) }
{
    let mut names = Vec::new(alloc);
    let mut at = 0;
    for cell in cells {
        if let Some(name) = misaligned_label(at, cell) {
            names.push(name)?;
        }
        at = end_of(at, cell);
    }
    Ok(names)
}

/// The cell's label, where it lies at no multiple of 4.
fn misaligned_label(at: u64, cell: &Cell) -> Option<Name>
    ensures { result ≡ misaligned_label at cell.now }
{
    if at % 4 == 0 { None } else { cell_label(cell) }
}

/// The end of a cell that begins at a distance from the start of the cells.
fn end_of(at: u64, cell: &Cell) -> u64
    requires { at < 2 ^ 63 }
    ensures value { result ≡ end_of at cell.now }
    ensures near { result ≤ at + 2 ^ 32 }
{
    match cell {
        Cell::Word(_) | Cell::Address(_) => at + 4,
        Cell::Byte(_) => at + 1,
        Cell::Space(n) => at + u64::from(*n),
        Cell::Align => (at + 3) / 4 * 4,
        Cell::Label(_) => at,
    }
}
