ghost use Rattle.std.specs.Prelude.{◌≡◌, ◌≤◌, ℕ, ◌/◌, ◌*◌, true, List, length, is_some, IfOk, IfErr};
ghost use Rattle.std.specs.List.{sum};
ghost use Rattle.std.specs.Option.{option_map};
ghost use Rattle.tn_module.specs.Modules.{Parts};
ghost use Rattle.tn_layout.specs.Sizes.{Least, Valid};
ghost use Rattle.tn_link.specs.Linking.{AreLinkable, IsLinked, IsBase};
ghost use Rattle.tn_link.specs.Places.{exported_label};
ghost use Rattle.tn_link.specs.Programs.{program, pieces};
ghost use Rattle.tn_link.specs.Cells.{frame, address};
ghost use Rattle.tn_config.specs.Configurations.{BlockState, block_of};
ghost use Rattle.tn_stream.specs.Images.{IsImage, image_of};
ghost use Rattle.tn_image.specs.declared.regions.Extent.{Extent};
ghost use Rattle.tn_image.specs.Regions.{AreSeparate, AreTestsOfAddresses};
ghost use Rattle.tn_image.specs.Checks.{linked_at, is_entry};
ghost use Rattle.tn_image.specs.Images.{IsInRange, IsBuilt, IsImageFault, OneIsRight};
ghost use Rattle.tn_stream.specs.PlainImages.{IsPlain};

use crate::checks::{no_entry, region_fault};
use crate::segments::{NoMemory, segments};
use std::alloc::Global;
use tn_config::Block;
use tn_link::{LinkFault, Linked, link};
use tn_module::Kind;
use tn_stream::Image;
use tn_symbols::Chosen;
use tn_text::Fault;

/// The image of a processor, and the linked modules that it is made of.
#[derive(Drop)]
pub struct Built {
    pub image: Image,
    pub linked: Linked,
}

/// Why there is no image.
#[derive(Clone, Copy)]
pub enum ImageFault {
    /// The first check that failed, at its line of the configuration.
    Fault(Fault),
    /// A count of what was to be linked is above its limit. It is never `NoMemory`.
    Link(LinkFault),
    NoMemory,
}

impl From<NoMemory> for ImageFault {
    ghost use Rattle.std.specs.Prelude.{◌≡◌};
    ghost use Rattle.tn_image.specs.declared.images.ImageFault.TheVariants as fault;

    ghost from_gives = { λ _ made. made ≡ fault.NoMemory };

    fn from(_none: NoMemory) -> ImageFault {
        ImageFault::NoMemory
    }
}

/// The image of a processor: what it is loaded with, where it begins, and its workspace pointer.
///
/// The chosen modules are linked at the block's code base and at its cell base. The segments are the
/// code, the cells and the arguments, each left out where it is empty. An argument is the word at
/// its place from the workspace pointer on, lowest byte first.
///
/// The regions are code, cells and workspace. The workspace begins `below` words below the workspace
/// pointer and ends `above` words above it, or behind the last argument where that is higher. The
/// fault is `Link` where modules cannot be linked, and else the first of these:
/// - `NoEntry` at the line of the entry: it is no exported label of code;
/// - `Misaligned` at the line of the cells or of the workspace: the cell base, then the workspace
///   pointer, is no multiple of 4. Modules are then linked at the next lower cell base;
/// - `OutsideMemory` at the line of the region: code, cells, then workspace does not lie from
///   #80000400 up to the end of the memory. A region that is empty passes, but code may not begin
///   below that address;
/// - `Overlap` at the line of the first region: code and cells, code and workspace, then cells and
///   workspace share an address.
///
/// A fault of regions names the processor and the regions, with their addresses as words.
///
/// An image that is answered can be loaded: its segments lie in the memory from #80000400 on, and
/// share no address with each other. Its code is the shortest that the modules can have there.
#[tactic(auto, using(crate::proofs::OneAnswer::one_is_right))]
pub fn image(alloc: Global, block: &Block, chosen: &Chosen) -> Result<Built, ImageFault>
    requires range { IsInRange (block_of block.now) }
    requires linkable { AreLinkable chosen.now.modules.items }
    ensures one { (modules : List Parts) (b : BlockState) → OneIsRight modules b }
    ensures tests { (one two : Extent) → AreTestsOfAddresses one two }
    ensures built { IfOk result (λ built. IsBuilt chosen.now.modules.items (block_of block.now) built) }
    ensures shortest { IfOk result (λ built. (sizes : List ℕ)
        → Valid (pieces (program chosen.now.modules.items (block_of block.now).cells)) sizes → length built.linked.code.items ≤ sum sizes) }
    ensures image { IfOk result (λ built. IsImage (image_of built.image)) }
    ensures plain { IfOk result (λ built. IsPlain (block_of block.now).size (image_of built.image)) }
    ensures separate { IfOk result (λ built. AreSeparate (block_of block.now) (length built.linked.code.items)
        (length built.linked.cells.items)) }
    ensures fault { IfErr result (λ fault. IsImageFault chosen.now.modules.items (block_of block.now) fault) }
{
    let linked = link_modules(alloc, block, chosen)?;
    let Some(entry) = entry(block, chosen, &linked) else {
        return Err(ImageFault::Fault(no_entry(block)));
    };
    if let Some(fault) = region_fault(block, linked.code.len(), linked.cells.len()) {
        return Err(ImageFault::Fault(fault));
    }
    let segments = segments(alloc, block, &linked.code, &linked.cells)?;
    let image = Image {
        segments,
        entry,
        wptr: block.wptr,
    };
    Ok(Built { image, linked })
}

/// The linked modules, whose cells begin at the next lower multiple of 4.
fn link_modules(alloc: Global, block: &Block, chosen: &Chosen) -> Result<Linked, ImageFault>
    requires range { IsInRange (block_of block.now) }
    requires linkable { AreLinkable chosen.now.modules.items }
    ensures linked { IfOk result (λ linked. IsLinked chosen.now.modules.items (block_of block.now).code
        (linked_at (block_of block.now).cells) linked) }
    ensures fault { IfErr result (λ fault. IsImageFault chosen.now.modules.items (block_of block.now) fault) }
    ensures base { IsBase (linked_at (block_of block.now).cells) }
{
    match link(alloc, chosen, block.code, block.cells / 4 * 4) {
        Ok(linked) => Ok(linked),
        Err(LinkFault::NoMemory) => Err(ImageFault::NoMemory),
        Err(fault) => Err(ImageFault::Link(fault)),
    }
}

/// The address of the entry, where it is an exported label of code.
#[tactic(auto, using(crate::proofs::Laws::entry_is, crate::proofs::Laws::exported_is))]
fn entry(block: &Block, chosen: &Chosen, linked: &Linked) -> Option<u32>
    requires linkable { AreLinkable chosen.now.modules.items }
    requires base { IsBase linked.now.cell_base }
    requires linked { IsLinked chosen.now.modules.items linked.now.code_base linked.now.cell_base linked.now }
    ensures entry { is_some result ≡ is_entry chosen.now.modules.items block.now.entry }
    ensures address { (sizes : List ℕ) → Least (pieces (program chosen.now.modules.items linked.now.cell_base)) sizes
        → is_some result ≡ true → result ≡ option_map (address (frame linked.now.code_base linked.now.cell_base sizes))
        (exported_label chosen.now.modules.items block.now.entry) }
{
    let definition = chosen.find(&block.entry)?;
    match definition.kind {
        Kind::Code => linked.address_of(chosen, &block.entry),
        Kind::Cell => None,
    }
}
