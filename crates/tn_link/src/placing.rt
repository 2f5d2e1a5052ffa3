ghost use Rattle.std.specs.Prelude.{◌≡◌, ◌+◌, ◌^◌, ◌<◌, ◌≤◌, ◌++◌, length, IfOk, OnOk};
ghost use Rattle.tn_text.specs.declared.limits.TheConstants.{ITEM_LIMIT, CELL_LIMIT};
ghost use Rattle.tn_layout.specs.Inner.Positions.{ArePositions};
ghost use Rattle.tn_link.specs.Places.{item_count, cells_size};
ghost use Rattle.tn_link.specs.Linking.{IsBase, placed_items, placed_cells, placed, cell_places};
ghost use Rattle.tn_link.specs.Inner.Frames.{IsFrame, frame_of};
ghost use Rattle.tn_link.specs.Inner.Plans.{IsPlan};

use crate::cells::Frame;
use crate::counts::end_of;
use crate::linking::{NoMemory, Placed};
use crate::tables::Plan;
use std::alloc::Global;
use tn_module::Cell;

/// Where the items of all modules lie.
pub(crate) fn placed(
    alloc: Global,
    plan: &Plan<'_>,
    sizes: &[u8],
    frame: &Frame<'_>,
) -> Result<Vec<Placed>, NoMemory>
    requires plan { IsPlan plan.now }
    requires frame { IsFrame (item_count plan.now.modules.now) frame.now }
    requires positions { ArePositions sizes.now frame.now.positions.now }
    ensures { IfOk result (λ places. places.items ≡ placed plan.now.modules.now (frame_of frame.now sizes.now)) }
{
    let mut places = Vec::new(alloc);
    for (m, module) in plan.modules.iter().enumerate() {
        let raw = module.raw();
        let from = plan.starts[m].item;
        add_items(&mut places, sizes, frame, m as u32, from, raw.items.len())?;
    }
    Ok(places)
}

/// Puts the places of so many items of a module to the others, which begin at a place of the
/// program.
fn add_items(
    places: &mut Vec<Placed>,
    sizes: &[u8],
    frame: &Frame<'_>,
    module: u32,
    from: u32,
    count: usize,
) -> Result<(), NoMemory>
    requires frame { IsFrame (length sizes.now) frame.now }
    requires positions { ArePositions sizes.now frame.now.positions.now }
    requires few { from + count ≤ length sizes.now }
    requires many { length sizes.now ≤ ITEM_LIMIT }
    ensures { OnOk result (places.new.items ≡ places.old.items ++ placed_items (frame_of frame.now sizes.now) «module» from count) }
{
    for item in 0..count {
        let place = from as usize + item;
        places.push(Placed {
            module,
            item: item as u32,
            address: frame.code_base + frame.positions[place],
            size: u32::from(sizes[place]),
        })?;
    }
    Ok(())
}

/// Where the cells of all modules lie.
pub(crate) fn cell_places(
    alloc: Global,
    plan: &Plan<'_>,
    cell_base: u32,
) -> Result<Vec<Placed>, NoMemory>
    requires plan { IsPlan plan.now }
    requires base { IsBase cell_base }
    ensures { IfOk result (λ places. places.items ≡ cell_places plan.now.modules.now cell_base) }
{
    let mut places = Vec::new(alloc);
    for (m, module) in plan.modules.iter().enumerate() {
        let raw = module.raw();
        let from = cell_base + plan.starts[m].cell;
        add_cells(&mut places, m as u32, from, &raw.cells)?;
    }
    Ok(places)
}

/// Puts the places of the cells of a module to the others, which begin at an address.
fn add_cells(
    places: &mut Vec<Placed>,
    module: u32,
    from: u32,
    cells: &[Cell],
) -> Result<(), NoMemory>
    requires short { length cells.now < 2 ^ 30 }
    requires size { cells_size cells.now ≤ CELL_LIMIT }
    requires from { from + CELL_LIMIT < 2 ^ 32 }
    ensures { OnOk result (places.new.items ≡ places.old.items ++ placed_cells «module» cells.now from (length cells.now)) }
{
    let mut at = 0;
    for (item, cell) in cells.iter().enumerate() {
        let end = end_of(at, cell);
        places.push(Placed {
            module,
            item: item as u32,
            address: from + at as u32,
            size: (end - at) as u32,
        })?;
        at = end;
    }
    Ok(())
}
