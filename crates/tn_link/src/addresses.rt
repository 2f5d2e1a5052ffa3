ghost use Rattle.std.specs.Prelude.{◌≡◌, ◌+◌, ◌<◌, ◌≤◌, length, position};
ghost use Rattle.std.specs.Option.{option_map, option_map_or};
ghost use Rattle.tn_text.specs.declared.limits.TheConstants.{ITEM_LIMIT, CELL_LIMIT};
ghost use Rattle.tn_module.specs.Validity.{IsValid};
ghost use Rattle.tn_symbols.specs.Choices.{module_at};
ghost use Rattle.tn_link.specs.Places.{item_count, cells_end, start, is_code_label, is_cell_label, item_target, cell_target};
ghost use Rattle.tn_link.specs.Cells.{Frame, address};
ghost use Rattle.tn_link.specs.Linking.{AreLinkable, IsBase, placed};

use crate::counts::{aligned, cell_count, cells_size, item_count};
use crate::linking::Placed;
use tn_module::{Cell, Item, Module};
use tn_text::Name;

/// The address of a label of code of the module at place `m`, if it has the label.
pub(crate) fn code_address(
    modules: &[Module],
    m: usize,
    places: &[Placed],
    name: &Name,
) -> Option<u32>
    requires linkable { AreLinkable modules.now }
    requires here { m < length modules.now }
    requires items { item_count modules.now ≤ ITEM_LIMIT }
    requires places { length places.now ≡ item_count modules.now }
    ensures { (f : Frame) → places.now ≡ placed modules.now f
        → result ≡ option_map (λ i. address f (item_target (start modules.now m) i))
        (position (is_code_label name.now) (module_at modules.now m).items) }
{
    let raw = modules[m].raw();
    let item = item_of(&raw.items, name)?;
    let before = item_count(&modules[..m]) as usize;
    Some(places[before + item].address)
}

/// The address of a label of a cell of the module at place `m`, if it has the label.
pub(crate) fn cell_address(modules: &[Module], m: usize, cell_base: u32, name: &Name) -> Option<u32>
    requires here { m < length modules.now }
    requires cells { cells_end modules.now ≤ CELL_LIMIT }
    requires base { IsBase cell_base }
    ensures valid { IsValid (module_at modules.now m) }
    ensures address { result ≡ option_map (λ i. cell_base + (cell_target (start modules.now m) (module_at modules.now m).cells i).place)
        (position (is_cell_label name.now) (module_at modules.now m).cells) }
{
    let raw = modules[m].raw();
    let cell = cell_of(&raw.cells, name)?;
    let start = aligned(cell_count(&modules[..m]));
    let offset = cells_size(&raw.cells[..cell]);
    Some(cell_base + (start + offset) as u32)
}

/// The item that is the label.
fn item_of(items: &[Item], name: &Name) -> Option<usize>
    ensures { result ≡ position (is_code_label name.now) items.now }
{
    items.iter().position(|item| is_code_label(item, name))
}

fn is_code_label(item: &Item, name: &Name) -> bool
    ensures { result ≡ is_code_label name.now item.now }
{
    match item {
        Item::Label(label) => *name == *label,
        Item::Direct(_, _) | Item::Plain(_) | Item::Byte(_) => false,
    }
}

/// The cell that is the label.
fn cell_of(cells: &[Cell], name: &Name) -> Option<usize>
    ensures { result ≡ position (is_cell_label name.now) cells.now }
{
    cells.iter().position(|cell| is_cell_label(cell, name))
}

fn is_cell_label(cell: &Cell, name: &Name) -> bool
    ensures { result ≡ is_cell_label name.now cell.now }
{
    match cell {
        Cell::Label(label) => *name == *label,
        Cell::Word(_) | Cell::Address(_) | Cell::Byte(_) | Cell::Space(_) | Cell::Align => false,
    }
}
