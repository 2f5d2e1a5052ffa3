ghost use Rattle.std.specs.Prelude.{◌≡◌, ◌≤◌, ◌^◌, ◌++◌, [], ◌∷◌, filter, length, IfOk, OnOk, if◌then◌else◌};
ghost use Rattle.tn_config.specs.Configurations.{block_of};
ghost use Rattle.tn_stream.specs.Images.{segments_of};
ghost use Rattle.tn_image.specs.Images.{segment, segments, argument_bytes, has_bytes};

use std::alloc::{AllocError, AllocFailed, Global};
use tn_config::Block;
use tn_stream::Segment;
use tn_word::word_bytes;

/// Memory cannot be had.
#[derive(Clone, Copy)]
pub(crate) struct NoMemory;

impl<T: Drop> From<AllocFailed<T>> for NoMemory {
    fn from(_failed: AllocFailed<T>) -> NoMemory {
        NoMemory
    }
}

impl From<AllocError> for NoMemory {
    fn from(_error: AllocError) -> NoMemory {
        NoMemory
    }
}

/// The segments of an image: code, cells and arguments, without the empty ones.
pub(crate) fn segments(
    alloc: Global,
    block: &Block,
    code: &[u8],
    cells: &[u8],
) -> Result<Vec<Segment>, NoMemory>
    ensures { IfOk result (λ made. segments_of made.items ≡ segments (block_of block.now) code.now cells.now) }
{
    let code = Vec::from_slice(alloc, code)?;
    let cells = Vec::from_slice(alloc, cells)?;
    let arguments = argument_bytes(alloc, &block.args)?;
    let mut segments = Vec::new(alloc);
    add_segment(&mut segments, block.code, code)?;
    add_segment(&mut segments, block.cells, cells)?;
    add_segment(&mut segments, block.wptr, arguments)?;
    Ok(segments)
}

/// The words of the arguments as bytes.
fn argument_bytes(alloc: Global, args: &[u32]) -> Result<Vec<u8>, NoMemory>
    ensures { IfOk result (λ bytes. bytes.items ≡ argument_bytes args.now) }
{
    let mut bytes = Vec::new(alloc);
    for word in args {
        bytes.extend_from_slice(&word_bytes(*word))?;
    }
    Ok(bytes)
}

/// Adds the segment, unless it is empty.
fn add_segment(segments: &mut Vec<Segment>, base: u32, bytes: Vec<u8>) -> Result<(), NoMemory>
    ensures { OnOk result (segments_of segments.new.items
        ≡ segments_of segments.old.items ++ filter has_bytes (segment base bytes.items ∷ [])) }
{
    if !bytes.is_empty() {
        segments.push(Segment { base, bytes })?;
    }
    Ok(())
}
