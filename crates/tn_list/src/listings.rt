ghost use Rattle.std.specs.Prelude.{◌≡◌, ℕ, List, drop, IfOk};
ghost use Rattle.tn_stream.specs.Images.{image_of};
ghost use Rattle.tn_list.specs.Lists.{Lists};
ghost use Rattle.tn_list.specs.Stretches.{code_of, cells_of};
ghost use Rattle.tn_list.specs.ListingTexts.{item_lines, cell_lines, module_line, code_lines, cells_lines};
ghost use Rattle.tn_list.specs.ListingTexts.{code_text, cells_text, end_text, listing_text};

use crate::faults::{ListFault, NoMemory};
use crate::listing_lines::{cell_line, extent_line, item_line, token_line, workspace_line};
use std::alloc::Global;
use tn_io::Out;
use tn_link::{Linked, Placed};
use tn_module::{Cell, Item, Module, RawModule};
use tn_stream::Image;
use tn_symbols::Chosen;
use tn_text::{Name, Region, word_text};

/// Prints what a processor is loaded with: its name; its code, module by module, with the address,
/// the bytes and the source of each item; its cells in the same way; its workspace with the workspace
/// pointer; and the address at which it begins. Each line is written at once.
///
/// `linked` is what the chosen modules are linked to, and the image is made of it.
///
/// `Out` comes only where the output's count of faults rose. A prefix of the text is printed wherever
/// an error comes.
#[tactic(auto, unfolding(crate::specs::ListingTexts::listing_text))]
pub fn listing<O: Out>(
    alloc: Global,
    block_name: &Name,
    linked: &Linked,
    chosen: &Chosen,
    image: &Image,
    workspace: Region,
    out: &mut O,
) -> Result<(), ListFault>
    ensures lists { Lists (listing_text block_name.now chosen.now.modules.items (code_of linked.now) (cells_of linked.now)
        (image_of image.now) workspace) result (O.printed out.old) (O.printed out.new) }
    ensures goes_on { O.goes_on out.old out.new }
{
    match print(token_line(alloc, b"processor", block_name.bytes()), out) {
        Ok(()) => {}
        Err(fault) => return Err(fault),
    }
    match print_code(alloc, linked, &chosen.modules, out) {
        Ok(()) => {}
        Err(fault) => return Err(fault),
    }
    match print_cells(alloc, linked, &chosen.modules, out) {
        Ok(()) => {}
        Err(fault) => return Err(fault),
    }
    print_end(alloc, image, workspace, out)
}

/// Prints where the code begins and how long it is, and its items.
#[tactic(auto, unfolding(crate::specs::ListingTexts::code_text))]
fn print_code<O: Out>(
    alloc: Global,
    linked: &Linked,
    modules: &[Module],
    out: &mut O,
) -> Result<(), ListFault>
    ensures lists { Lists (code_text modules.now (code_of linked.now)) result (O.printed out.old) (O.printed out.new) }
    ensures goes_on { O.goes_on out.old out.new }
{
    let line = extent_line(alloc, b"code", linked.code_base, linked.code.len());
    match print(line, out) {
        Ok(()) => print_code_of(
            alloc,
            linked.code_base,
            &linked.code,
            modules,
            &linked.placed,
            out,
        ),
        Err(fault) => Err(fault),
    }
}

/// Prints where the cells begin and how many bytes they have, and each cell.
#[tactic(auto, unfolding(crate::specs::ListingTexts::cells_text))]
fn print_cells<O: Out>(
    alloc: Global,
    linked: &Linked,
    modules: &[Module],
    out: &mut O,
) -> Result<(), ListFault>
    ensures lists { Lists (cells_text modules.now (cells_of linked.now)) result (O.printed out.old) (O.printed out.new) }
    ensures goes_on { O.goes_on out.old out.new }
{
    let line = extent_line(alloc, b"cells", linked.cell_base, linked.cells.len());
    match print(line, out) {
        Ok(()) => print_cells_of(
            alloc,
            linked.cell_base,
            &linked.cells,
            modules,
            &linked.cell_places,
            out,
        ),
        Err(fault) => Err(fault),
    }
}

/// Prints the workspace, and the address at which the processor begins.
#[tactic(auto, unfolding(crate::specs::ListingTexts::end_text))]
fn print_end<O: Out>(
    alloc: Global,
    image: &Image,
    workspace: Region,
    out: &mut O,
) -> Result<(), ListFault>
    ensures lists { Lists (end_text (image_of image.now) workspace) result (O.printed out.old) (O.printed out.new) }
    ensures goes_on { O.goes_on out.old out.new }
{
    match print(workspace_line(alloc, workspace, image.wptr), out) {
        Ok(()) => print(token_line(alloc, b"entry", &word_text(image.entry)), out),
        Err(fault) => Err(fault),
    }
}

/// Prints the names of modules and their items, whose places are these.
fn print_code_of<O: Out>(
    alloc: Global,
    base: u32,
    bytes: &[u8],
    modules: &[Module],
    places: &[Placed],
    out: &mut O,
) -> Result<(), ListFault>
    ensures lists { Lists (code_lines base bytes.now modules.now places.now) result (O.printed out.old) (O.printed out.new) }
    ensures goes_on { O.goes_on out.old out.new }
{
    let mut rest = modules;
    let mut rest_places = places;
    while let [module, behind @ ..] = rest {
        let raw = module.raw();
        match print_name(alloc, raw, out) {
            Ok(()) => {}
            Err(fault) => return Err(fault),
        }
        match print_items(alloc, base, bytes, &raw.items, rest_places, out) {
            Ok(()) => {}
            Err(fault) => return Err(fault),
        }
        rest_places = places_behind(rest_places, raw.items.len());
        rest = behind;
    }
    Ok(())
}

/// Prints the names of modules and their cells, whose places are these.
fn print_cells_of<O: Out>(
    alloc: Global,
    base: u32,
    bytes: &[u8],
    modules: &[Module],
    places: &[Placed],
    out: &mut O,
) -> Result<(), ListFault>
    ensures lists { Lists (cells_lines base bytes.now modules.now places.now) result (O.printed out.old) (O.printed out.new) }
    ensures goes_on { O.goes_on out.old out.new }
{
    let mut rest = modules;
    let mut rest_places = places;
    while let [module, behind @ ..] = rest {
        let raw = module.raw();
        match print_name(alloc, raw, out) {
            Ok(()) => {}
            Err(fault) => return Err(fault),
        }
        match print_each_cell(alloc, base, bytes, &raw.cells, rest_places, out) {
            Ok(()) => {}
            Err(fault) => return Err(fault),
        }
        rest_places = places_behind(rest_places, raw.cells.len());
        rest = behind;
    }
    Ok(())
}

/// Prints the name of a module.
fn print_name<O: Out>(alloc: Global, module: &RawModule, out: &mut O) -> Result<(), ListFault>
    ensures lists { Lists (module_line «module».now.name) result (O.printed out.old) (O.printed out.new) }
    ensures goes_on { O.goes_on out.old out.new }
{
    print(token_line(alloc, b"module", module.name.bytes()), out)
}

/// The places behind so many.
fn places_behind(places: &[Placed], count: usize) -> &[Placed]
    ensures { result.now ≡ drop count places.now }
{
    &places[count.min(places.len())..]
}

/// Prints items with their places.
fn print_items<O: Out>(
    alloc: Global,
    base: u32,
    bytes: &[u8],
    items: &[Item],
    places: &[Placed],
    out: &mut O,
) -> Result<(), ListFault>
    ensures lists { Lists (item_lines base bytes.now items.now places.now) result (O.printed out.old) (O.printed out.new) }
    ensures goes_on { O.goes_on out.old out.new }
{
    let mut rest = items;
    let mut rest_places = places;
    while let [item, behind @ ..] = rest {
        if rest_places.is_empty() {
            return Ok(());
        }
        let place = &rest_places[0];
        match print(item_line(alloc, base, bytes, item, place), out) {
            Ok(()) => {}
            Err(fault) => return Err(fault),
        }
        rest_places = places_behind(rest_places, 1);
        rest = behind;
    }
    Ok(())
}

/// Prints cells with their places.
fn print_each_cell<O: Out>(
    alloc: Global,
    base: u32,
    bytes: &[u8],
    cells: &[Cell],
    places: &[Placed],
    out: &mut O,
) -> Result<(), ListFault>
    ensures lists { Lists (cell_lines base bytes.now cells.now places.now) result (O.printed out.old) (O.printed out.new) }
    ensures goes_on { O.goes_on out.old out.new }
{
    let mut rest = cells;
    let mut rest_places = places;
    while let [cell, behind @ ..] = rest {
        if rest_places.is_empty() {
            return Ok(());
        }
        let place = &rest_places[0];
        match print(cell_line(alloc, base, bytes, cell, place), out) {
            Ok(()) => {}
            Err(fault) => return Err(fault),
        }
        rest_places = places_behind(rest_places, 1);
        rest = behind;
    }
    Ok(())
}

/// Prints a line, if there was memory for it.
fn print<O: Out>(line: Result<Vec<u8>, NoMemory>, out: &mut O) -> Result<(), ListFault>
    ensures lists { (text : List ℕ) → IfOk line (λ bytes. bytes.items ≡ text) → Lists text result (O.printed out.old) (O.printed out.new) }
    ensures goes_on { O.goes_on out.old out.new }
{
    let line = match line {
        Ok(line) => line,
        Err(_) => return Err(ListFault::NoMemory),
    };
    match out.write(&line) {
        Ok(()) => Ok(()),
        Err(_) => Err(ListFault::Out),
    }
}
