ghost use Rattle.std.specs.Prelude.{◌≡◌, ◌≤◌, ◌<◌, ◌^◌, ◌*◌, ◌+◌};
ghost use Rattle.tn_config.specs.Configurations.{block_of};
ghost use Rattle.tn_image.specs.Images.{IsInRange};
ghost use Rattle.tn_image.specs.Regions.{code_extent, cells_extent, workspace_extent, region, memory_end, is_outside, overlap};

use tn_config::Block;
use tn_text::{Part, Region};
use tn_word::{LOAD_BASE, MOST_NEG};

/// A region in plain numbers: its first address and the address after its last.
#[derive(Clone, Copy)]
pub(crate) struct Extent {
    pub(crate) part: Part,
    pub(crate) from: u128,
    pub(crate) to: u128,
}

impl Extent {
    /// The region as a fault tells it: its addresses as words.
    pub(crate) fn region(self) -> Region
        ensures { result ≡ region self }
    {
        Region {
            part: self.part,
            from: (self.from % 0x1_0000_0000) as u32,
            to: (self.to % 0x1_0000_0000) as u32,
        }
    }

    /// Whether the region has an address that an image may not use, where `end` is that after the
    /// last of the memory.
    pub(crate) fn is_outside(self, end: u128) -> bool
        ensures { result ≡ is_outside end self }
    {
        let lies_below = u128::from(LOAD_BASE) <= self.from && self.to <= end;
        !(self.from == self.to || lies_below)
    }

    /// Whether the regions share an address.
    pub(crate) fn overlaps(self, other: Extent) -> bool
        ensures { result ≡ overlap self other }
    {
        self.from.max(other.from) < self.to.min(other.to)
    }
}

/// The region of the code, where it has so many bytes.
pub(crate) fn code_extent(block: &Block, length: usize) -> Extent
    requires range { IsInRange (block_of block.now) }
    requires short { length ≤ 2 ^ 20 }
    ensures { result ≡ code_extent (block_of block.now) length }
{
    let from = u128::from(block.code);
    Extent {
        part: Part::Code,
        from,
        to: from + length as u128,
    }
}

/// The region of the cells, where they have so many bytes.
pub(crate) fn cells_extent(block: &Block, length: usize) -> Extent
    requires range { IsInRange (block_of block.now) }
    requires short { length ≤ 2 ^ 20 }
    ensures { result ≡ cells_extent (block_of block.now) length }
{
    let from = u128::from(block.cells);
    Extent {
        part: Part::Cells,
        from,
        to: from + length as u128,
    }
}

/// The region of the workspace: words below the workspace pointer, and words from there on, those of
/// the arguments among them.
pub(crate) fn workspace_extent(block: &Block) -> Extent
    requires range { IsInRange (block_of block.now) }
    ensures { result ≡ workspace_extent (block_of block.now) }
{
    let wptr = u128::from(block.wptr);
    let above = u128::from(block.above).max(block.args.len() as u128);
    Extent {
        part: Part::Workspace,
        from: wptr - 4 * u128::from(block.below),
        to: wptr + 4 * above,
    }
}

/// The address after the last one of the processor's memory.
pub(crate) fn memory_end(block: &Block) -> u128
    requires range { IsInRange (block_of block.now) }
    ensures { result ≡ memory_end (block_of block.now) }
{
    u128::from(MOST_NEG) + u128::from(block.size)
}
