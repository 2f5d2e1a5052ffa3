ghost use Rattle.std.specs.Prelude.{◌≡◌, ◌%◌, ℕ, ◌^◌, ◌<◌, ◌≤◌, List, length, is_some, All, IfOk, IfErr, OnOk};
ghost use Rattle.std.specs.List.{sum};
ghost use Rattle.tn_text.specs.declared.limits.TheConstants.{ITEM_LIMIT, CELL_LIMIT, CODE_LIMIT};
ghost use Rattle.std.specs.Option.{option_map};
ghost use Rattle.tn_module.specs.Modules.{IsShort};
ghost use Rattle.tn_module.specs.Names.{is_among};
ghost use Rattle.tn_symbols.specs.Choices.{exported};
ghost use Rattle.tn_layout.specs.declared.pieces.Piece.{Piece};
ghost use Rattle.tn_layout.specs.Sizes.{OneIsLeast, Valid, Least, IsExact};
ghost use Rattle.tn_layout.specs.Inner.Positions.{ArePositions};
ghost use Rattle.tn_link.specs.Places.{item_count, cells_end, exported_label};
ghost use Rattle.tn_link.specs.Programs.{program, pieces};
ghost use Rattle.tn_link.specs.Cells.{frame, address};
ghost use Rattle.tn_link.specs.Linking.{IsBase, AreLinkable, IsLinked, IsLinkFault};
ghost use Rattle.tn_link.specs.PieceLookUps.{AreAdjacent};
ghost use Rattle.tn_link.specs.Inner.Elements.{AreFit};
ghost use Rattle.tn_link.specs.Inner.Frames.{IsFrame};
ghost use Rattle.tn_link.specs.Inner.Lengths.{IsLengthFault};
ghost use Rattle.tn_link.specs.Inner.Plans.{IsPlan};

use crate::addresses::{cell_address, code_address};
use crate::cells::{Frame, cells};
use crate::code::{code, pieces, positions};
use crate::counts::{cell_count, item_count};
use crate::placing::{cell_places, placed};
use crate::programs::{Element, program};
use crate::tables::{Plan, exports, starts};
use std::alloc::{AllocError, AllocFailed, Global};
use thiserror::Error;
use tn_layout::{LayoutFault, settle};
use tn_module::Module;
use tn_symbols::Chosen;
use tn_text::Name;
use tn_text::limits::{CELL_LIMIT, ITEM_LIMIT};

/// Memory cannot be had.
#[derive(Clone, Copy)]
pub(crate) struct NoMemory;

impl<T: Drop> From<AllocFailed<T>> for NoMemory {
    fn from(_failed: AllocFailed<T>) -> NoMemory {
        NoMemory
    }
}

impl From<AllocError> for NoMemory {
    fn from(_error: AllocError) -> NoMemory {
        NoMemory
    }
}

/// Where an item or a cell lies: the place of its module in the chosen list, its index in the
/// module, its address, and how many bytes it has there.
#[derive(Clone, Copy)]
pub struct Placed {
    pub module: u32,
    pub item: u32,
    pub address: u32,
    pub size: u32,
}

/// The linked modules of a processor: code and cells, the addresses at which they begin, and the
/// places of all items and of all cells, in their order. A label has no bytes.
#[derive(Drop)]
pub struct Linked {
    pub code_base: u32,
    pub code: Vec<u8>,
    pub cell_base: u32,
    pub cells: Vec<u8>,
    pub placed: Vec<Placed>,
    pub cell_places: Vec<Placed>,
}

/// Why modules were not linked: the first count of these that is above its limit.
#[derive(Clone, Copy, Debug, Error)]
pub enum LinkFault {
    /// So many items.
    #[error("the program has {0} items")]
    Items(u64),
    /// So many bytes of cells, or the greatest number where there are more.
    #[error("the cells have {0} bytes")]
    Cells(u64),
    /// So many bytes of code.
    #[error("the code has {0} bytes")]
    Code(u64),
    #[error("no memory")]
    NoMemory,
}

impl From<NoMemory> for LinkFault {
    ghost use Rattle.std.specs.Prelude.{◌≡◌};
    ghost use Rattle.tn_link.specs.declared.linking.LinkFault.TheVariants as fault;

    ghost from_gives = { λ _ made. made ≡ fault.NoMemory };

    fn from(_none: NoMemory) -> LinkFault {
        LinkFault::NoMemory
    }
}

/// The code and cells of the chosen modules from these addresses on.
///
/// The code is that of the items of all modules one after the other. A name stands for the label of
/// its own module, or else for the label of the first module that exports it. A jump counts from its
/// end, a difference is that of two positions, and a name that is used by its word is the number of
/// words that its address lies above the lowest. Each operand has as few bytes as all of them can
/// have at once. The cells of each module begin at the next multiple of 4, with zero bytes between.
/// Each item begins where the one before it ends.
///
/// The fault is `Items`, then `Cells`, then `Code`, each where its count is above its limit.
#[tactic(auto, using(tn_layout::proofs::LeastSizes::one_is_least))]
pub fn link(
    alloc: Global,
    chosen: &Chosen,
    code_base: u32,
    cell_base: u32,
) -> Result<Linked, LinkFault>
    requires linkable { AreLinkable chosen.now.modules.items }
    requires code_base { IsBase code_base }
    requires cell_base { IsBase cell_base }
    requires aligned { cell_base % 4 ≡ 0 }
    ensures one { (pieces : List Piece) → OneIsLeast pieces }
    ensures linked { IfOk result (λ linked. IsLinked chosen.now.modules.items code_base cell_base linked) }
    ensures adjacent { IfOk result (λ linked. AreAdjacent linked.placed.items) }
    ensures shortest { IfOk result (λ linked. (sizes : List ℕ)
        → Valid (pieces (program chosen.now.modules.items cell_base)) sizes → length linked.code.items ≤ sum sizes) }
    ensures fault { IfErr result (λ fault. IsLinkFault chosen.now.modules.items cell_base fault) }
{
    let modules: &[Module] = &chosen.modules;
    check_counts(modules)?;
    link_modules(alloc, modules, code_base, cell_base)
}

impl Linked {
    /// The address of what the chosen modules export under the name, where these are the modules that
    /// were linked. `None` exactly where none exports it.
    pub fn address_of(&self, chosen: &Chosen, name: &Name) -> Option<u32>
        requires linkable { AreLinkable chosen.now.modules.items }
        requires base { IsBase self.now.cell_base }
        requires linked { IsLinked chosen.now.modules.items self.now.code_base self.now.cell_base self.now }
        ensures address { (sizes : List ℕ) → Least (pieces (program chosen.now.modules.items self.now.cell_base)) sizes
            → result ≡ option_map (address (frame self.now.code_base self.now.cell_base sizes))
            (exported_label chosen.now.modules.items name.now) }
        ensures exported { is_some result ≡ is_among (exported chosen.now.modules.items) name.now }
    {
        let modules: &[Module] = &chosen.modules;
        let definition = chosen.find(name)?;
        let m = definition.module as usize;
        match code_address(modules, m, &self.placed, name) {
            Some(address) => Some(address),
            None => cell_address(modules, m, self.cell_base, name),
        }
    }
}

/// Refuses too many items, and then too many bytes of cells.
fn check_counts(modules: &[Module]) -> Result<(), LinkFault>
    requires few { length modules.now < 2 ^ 30 }
    requires short { All IsShort modules.now }
    ensures items { OnOk result (item_count modules.now ≤ ITEM_LIMIT) }
    ensures cells { OnOk result (cells_end modules.now ≤ CELL_LIMIT) }
    ensures fault { (cell_base : ℕ) → IfErr result (λ fault. IsLinkFault modules.now cell_base fault) }
{
    let items = item_count(modules);
    if items > ITEM_LIMIT as u64 {
        return Err(LinkFault::Items(items));
    }
    let cells = cell_count(modules);
    if cells > CELL_LIMIT as u64 {
        return Err(LinkFault::Cells(cells));
    }
    Ok(())
}

/// The linked modules, whose counts of items and cells are within their limits.
fn link_modules(
    alloc: Global,
    modules: &[Module],
    code_base: u32,
    cell_base: u32,
) -> Result<Linked, LinkFault>
    requires linkable { AreLinkable modules.now }
    requires code_base { IsBase code_base }
    requires cell_base { IsBase cell_base }
    requires items { item_count modules.now ≤ ITEM_LIMIT }
    requires cells { cells_end modules.now ≤ CELL_LIMIT }
    ensures linked { IfOk result (λ linked. IsLinked modules.now code_base cell_base linked) }
    ensures fault { IfErr result (λ fault. IsLengthFault (pieces (program modules.now cell_base)) fault) }
{
    let starts = starts(alloc, modules)?;
    let exports = exports(alloc, modules, &starts)?;
    let plan = Plan {
        modules,
        starts: &starts,
        exports: &exports,
    };
    link_plan(alloc, &plan, code_base, cell_base)
}

/// The same, where these are the tables of the modules.
fn link_plan(
    alloc: Global,
    plan: &Plan<'_>,
    code_base: u32,
    cell_base: u32,
) -> Result<Linked, LinkFault>
    requires plan { IsPlan plan.now }
    requires code_base { IsBase code_base }
    requires cell_base { IsBase cell_base }
    ensures linked { IfOk result (λ linked. IsLinked plan.now.modules.now code_base cell_base linked) }
    ensures fault { IfErr result (λ fault. IsLengthFault (pieces (program plan.now.modules.now cell_base)) fault) }
{
    let program = program(alloc, plan, cell_base)?;
    let sizes = sizes(alloc, &program)?;
    let positions = positions(alloc, &sizes)?;
    let frame = Frame {
        code_base,
        cell_base,
        positions: &positions,
    };
    let linked = link_at(alloc, plan, &program, &sizes, &frame)?;
    Ok(linked)
}

/// The same, where this is the program, and these are the sizes of its items.
fn link_at(
    alloc: Global,
    plan: &Plan<'_>,
    elements: &[Element],
    sizes: &[u8],
    frame: &Frame<'_>,
) -> Result<Linked, NoMemory>
    requires plan { IsPlan plan.now }
    requires frame { IsFrame (item_count plan.now.modules.now) frame.now }
    requires program { elements.now ≡ program plan.now.modules.now frame.now.cell_base }
    requires fit { AreFit elements.now }
    requires positions { ArePositions sizes.now frame.now.positions.now }
    requires least { Least (pieces elements.now) sizes.now }
    requires exact { IsExact (pieces elements.now) sizes.now }
    requires total { sum sizes.now ≤ CODE_LIMIT }
    ensures { IfOk result (λ linked. IsLinked plan.now.modules.now frame.now.code_base frame.now.cell_base linked) }
{
    let code = code(alloc, elements, frame.positions)?;
    let cells = cells(alloc, plan, frame)?;
    let placed = placed(alloc, plan, sizes, frame)?;
    let cell_places = cell_places(alloc, plan, frame.cell_base)?;
    Ok(Linked {
        code_base: frame.code_base,
        code,
        cell_base: frame.cell_base,
        cells,
        placed,
        cell_places,
    })
}

/// The least sizes of the items.
fn sizes(alloc: Global, program: &[Element]) -> Result<Vec<u8>, LinkFault>
    requires short { length program.now ≤ ITEM_LIMIT }
    requires fit { AreFit program.now }
    ensures least { IfOk result (λ sizes. Least (pieces program.now) sizes.items) }
    ensures exact { IfOk result (λ sizes. IsExact (pieces program.now) sizes.items) }
    ensures total { IfOk result (λ sizes. sum sizes.items ≤ CODE_LIMIT) }
    ensures fault { IfErr result (λ fault. IsLengthFault (pieces program.now) fault) }
{
    let pieces = match pieces(alloc, program) {
        Ok(pieces) => pieces,
        Err(_) => return Err(LinkFault::NoMemory),
    };
    match settle(alloc, &pieces) {
        Ok(sizes) => Ok(sizes),
        Err(LayoutFault::TooLong(total)) => Err(LinkFault::Code(total)),
        Err(LayoutFault::NoMemory) => Err(LinkFault::NoMemory),
    }
}
