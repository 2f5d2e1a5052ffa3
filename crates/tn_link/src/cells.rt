ghost use Rattle.std.specs.Prelude.{◌≡◌, ℕ, ◌+◌, ◌-◌, ◌^◌, ◌<◌, ◌≤◌, List, ◌++◌, length, take, replicate, true, All, IfOk, OnOk};
ghost use Rattle.tn_text.specs.declared.limits.TheConstants.{CELL_LIMIT};
ghost use Rattle.tn_module.specs.Names.{is_code, address_uses, end_of};
ghost use Rattle.tn_layout.specs.Inner.Positions.{ArePositions};
ghost use Rattle.tn_link.specs.Places.{item_count, cells_size, cells_end, told};
ghost use Rattle.tn_link.specs.Cells.{address, cell_bytes, bytes_of_cells, module_cells, cells};
ghost use Rattle.tn_link.specs.Inner.Tables.{found, AreFound, AreNear};
ghost use Rattle.tn_link.specs.Inner.Frames.{IsFrame, frame_of};
ghost use Rattle.tn_link.specs.Inner.Plans.{IsPlan};

use crate::counts::end_of;
use crate::linking::NoMemory;
use crate::programs::target;
use crate::tables::{Plan, Scope, Target, labels};
use std::alloc::Global;
use tn_module::{Cell, Kind};
use tn_word::word_bytes;

/// The bases of code and of cells, and the position of each place of the program.
#[derive(Drop)]
pub(crate) struct Frame<'a> {
    pub(crate) code_base: u32,
    pub(crate) cell_base: u32,
    pub(crate) positions: &'a [u32],
}

/// The bytes of the cells of all modules, those of each from the next multiple of 4 on.
pub(crate) fn cells(alloc: Global, plan: &Plan<'_>, frame: &Frame<'_>) -> Result<Vec<u8>, NoMemory>
    requires plan { IsPlan plan.now }
    requires frame { IsFrame (item_count plan.now.modules.now) frame.now }
    ensures cells { IfOk result (λ bytes. (sizes : List ℕ) → ArePositions sizes frame.now.positions.now
        → bytes.items ≡ cells plan.now.modules.now (frame_of frame.now sizes)) }
    ensures long { IfOk result (λ bytes. length bytes.items ≡ cells_end plan.now.modules.now) }
{
    let mut bytes = Vec::new(alloc);
    for m in 0..plan.modules.len() {
        add_module(alloc, &mut bytes, plan, frame, m)?;
    }
    Ok(bytes)
}

/// Puts the cells of module `m` to those of the modules before it, from the next multiple of 4 on.
fn add_module(
    alloc: Global,
    bytes: &mut Vec<u8>,
    plan: &Plan<'_>,
    frame: &Frame<'_>,
    m: usize,
) -> Result<(), NoMemory>
    requires here { m < length plan.now.modules.now }
    requires before { length bytes.old.items ≡ cells_end (take m plan.now.modules.now) }
    requires plan { IsPlan plan.now }
    requires frame { IsFrame (item_count plan.now.modules.now) frame.now }
    ensures cells { OnOk result ((sizes : List ℕ) → ArePositions sizes frame.now.positions.now
        → bytes.new.items ≡ bytes.old.items ++ module_cells plan.now.modules.now (frame_of frame.now sizes) m) }
    ensures long { OnOk result (length bytes.new.items ≡ cells_end (take (m + 1) plan.now.modules.now)) }
{
    let module = &plan.modules[m];
    let raw = module.raw();
    let start = plan.starts[m];
    let gap = start.cell as usize - bytes.len();
    add_zeros(bytes, gap)?;
    let own = labels(alloc, raw, start)?;
    let scope = Scope {
        labels: &own,
        exports: plan.exports,
    };
    add_cells(bytes, &scope, frame, &raw.cells)?;
    Ok(())
}

/// Puts the cells of a module that knows these names to the others.
fn add_cells(
    bytes: &mut Vec<u8>,
    scope: &Scope<'_>,
    frame: &Frame<'_>,
    cells: &[Cell],
) -> Result<(), NoMemory>
    requires frame { IsFrame (length frame.now.positions.now - 1) frame.now }
    requires near { AreNear (length frame.now.positions.now - 1) (told (found scope.now)) }
    requires usable { All (λ cell. AreFound (found scope.now) (address_uses cell)) cells.now }
    requires few { cells_size cells.now ≤ CELL_LIMIT }
    requires room { length bytes.old.items ≤ CELL_LIMIT }
    ensures bytes { OnOk result ((sizes : List ℕ) → ArePositions sizes frame.now.positions.now
        → bytes.new.items ≡ bytes.old.items ++ bytes_of_cells (frame_of frame.now sizes) (told (found scope.now)) cells.now
        (length cells.now)) }
    ensures long { OnOk result (length bytes.new.items ≡ length bytes.old.items + cells_size cells.now) }
{
    let mut at = 0;
    for cell in cells {
        add_cell(bytes, scope, frame, at, cell)?;
        at = end_of(at, cell);
    }
    Ok(())
}

/// Puts a cell to the others that begins at a distance from the first of its module.
fn add_cell(
    bytes: &mut Vec<u8>,
    scope: &Scope<'_>,
    frame: &Frame<'_>,
    at: u64,
    cell: &Cell,
) -> Result<(), NoMemory>
    requires frame { IsFrame (length frame.now.positions.now - 1) frame.now }
    requires near { AreNear (length frame.now.positions.now - 1) (told (found scope.now)) }
    requires usable { AreFound (found scope.now) (address_uses cell.now) }
    requires few { at ≤ CELL_LIMIT }
    requires room { length bytes.old.items + end_of at cell.now < 2 ^ 63 }
    ensures bytes { OnOk result ((sizes : List ℕ) → ArePositions sizes frame.now.positions.now
        → bytes.new.items ≡ bytes.old.items ++ cell_bytes (frame_of frame.now sizes) (told (found scope.now)) at cell.now) }
    ensures long { OnOk result (length bytes.new.items + at ≡ length bytes.old.items + end_of at cell.now) }
{
    match cell {
        Cell::Word(word) => bytes.extend_from_slice(&word_bytes(*word))?,
        Cell::Address(name) => {
            let address = address(frame, target(scope, name));
            bytes.extend_from_slice(&word_bytes(address))?;
        }
        Cell::Byte(byte) => bytes.push(*byte)?,
        Cell::Space(n) => add_zeros(bytes, *n as usize)?,
        Cell::Align => add_zeros(bytes, (end_of(at, cell) - at) as usize)?,
        Cell::Label(_) => {}
    }
    Ok(())
}

/// Puts so many zero bytes to the others.
fn add_zeros(bytes: &mut Vec<u8>, count: usize) -> Result<(), NoMemory>
    requires { length bytes.old.items + count < 2 ^ 63 }
    ensures { OnOk result (bytes.new.items ≡ bytes.old.items ++ replicate count 0) }
{
    bytes.resize(bytes.len() + count, 0)?;
    Ok(())
}

/// The address of an item or of a cell.
pub(crate) fn address(frame: &Frame<'_>, target: Target) -> u32
    requires frame { IsFrame (length frame.now.positions.now - 1) frame.now }
    requires near { target.place ≤ CELL_LIMIT }
    requires code { is_code target.kind ≡ true → target.place ≤ length frame.now.positions.now - 1 }
    ensures { (sizes : List ℕ) → ArePositions sizes frame.now.positions.now → result ≡ address (frame_of frame.now sizes) target }
{
    match target.kind {
        Kind::Code => frame.code_base + frame.positions[target.place as usize],
        Kind::Cell => frame.cell_base + target.place,
    }
}
