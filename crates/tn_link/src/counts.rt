ghost use Rattle.std.specs.Prelude.{◌≡◌, ℕ, ◌+◌, ◌*◌, ◌^◌, ◌<◌, ◌≤◌, length, min, All};
ghost use Rattle.tn_module.specs.Modules.{IsShort};
ghost use Rattle.tn_module.specs.Names.{aligned, end_of};
ghost use Rattle.tn_link.specs.Places.{item_count, cells_size, cells_end};

use tn_module::{Cell, Module};

/// How many items the modules have.
pub(crate) fn item_count(modules: &[Module]) -> u64
    requires few { length modules.now < 2 ^ 30 }
    requires short { All IsShort modules.now }
    ensures { result ≡ item_count modules.now }
{
    let mut count = 0;
    for module in modules {
        let raw = module.raw();
        count += raw.items.len() as u64;
    }
    count
}

/// How many bytes the cells of the modules take, or the greatest number where there are more.
pub(crate) fn cell_count(modules: &[Module]) -> u64
    ensures { result ≡ min (cells_end modules.now) u64.MAX }
{
    let mut end = 0;
    for module in modules {
        let raw = module.raw();
        end = aligned(end).saturating_add(cells_size(&raw.cells));
    }
    end
}

/// How many bytes the cells of a module take, or the greatest number where there are more.
pub(crate) fn cells_size(cells: &[Cell]) -> u64
    ensures { result ≡ min (cells_size cells.now) u64.MAX }
{
    let mut at = 0;
    for cell in cells {
        at = end_of(at, cell);
    }
    at
}

/// The end of a cell that begins at a distance from the first of its module, or the greatest number
/// where it is more.
pub(crate) fn end_of(at: u64, cell: &Cell) -> u64
    ensures { (from : ℕ) → at ≡ min from u64.MAX → result ≡ min (end_of from cell.now) u64.MAX }
{
    match cell {
        Cell::Word(_) | Cell::Address(_) => at.saturating_add(4),
        Cell::Byte(_) => at.saturating_add(1),
        Cell::Space(n) => at.saturating_add(u64::from(*n)),
        Cell::Align => aligned(at),
        Cell::Label(_) => at,
    }
}

/// The next multiple of 4, or the greatest number where it is more.
pub(crate) fn aligned(at: u64) -> u64
    ensures { (from : ℕ) → at ≡ min from u64.MAX → result ≡ min (aligned from) u64.MAX }
{
    if at > u64::MAX - 3 {
        u64::MAX
    } else {
        (at + 3) / 4 * 4
    }
}
