ghost use Rattle.std.specs.Prelude.{◌≡◌, ◌++◌, ◌∷◌, ◌<◌, All, length, IfOk};
ghost use Rattle.tn_word.specs.Words.{bytes_of_word};
ghost use Rattle.tn_loader.specs.Primary.{primary_bytes};
ghost use Rattle.tn_loader.specs.Secondary.{secondary_bytes};
ghost use Rattle.tn_io.specs.Outs.{Prints};
ghost use Rattle.tn_net.specs.WholeTrees.{IsWholeTree};
ghost use Rattle.tn_stream.specs.Images.{segment_of, segments_of, image_of, images_of, IsSegment, IsImage, AreImages};
ghost use Rattle.tn_stream.specs.Streams.{own_load, loader, load_of, loads_of, stream};
ghost use Rattle.tn_stream.specs.Emissions.{Emits};
ghost use Rattle.tn_stream.specs.LoadBranches.{branch_at, whole_branch};
ghost use Rattle.tn_stream.specs.Lengths.{all_lengths};
ghost use Rattle.tn_stream.specs.Waves.{first_of, last_of, part_of};
ghost use Rattle.tn_stream.specs.Inner.Tables.{forward_to};

use crate::faults::StreamFault;
use crate::images::{Image, Segment};
use crate::length_tables::{LengthTable, lengths};
use crate::waves::Wave;
use tn_io::{Out, OutFault};
use tn_loader::{
    FORWARD, LOAD, NOP, PRIMARY_SIZE, RUN, SECONDARY_SIZE, command, primary, secondary,
};
use tn_net::Tree;
use tn_word::{out_channel, word_bytes};

/// Emits the stream that loads the processors of a tree and starts their programs, and answers the
/// number of its bytes. The tree and the images are as `lengths` wants them. `Out` comes only where
/// the output refused a write: its count of faults rose, or stands at its greatest value. A prefix of
/// the stream was then emitted. No memory is taken.
pub fn collect<E: Out>(tree: &Tree, images: &[Image], emit: &mut E) -> Result<u64, StreamFault>
    requires whole { IsWholeTree tree.now.nodes.items (length images.now) }
    requires images { AreImages (images_of images.now) }
    ensures emits { Emits (stream (whole_branch (images_of images.now) tree.now.nodes.items)) result
        (E.printed emit.old) (E.printed emit.new) }
    ensures goes_on { E.goes_on emit.old emit.new }
{
    let table = lengths(tree, images);
    Ok(collect_with(tree, images, &table, emit)?)
}

/// Emits the stream as `collect` does, where the lengths are those of the tree and the images.
pub fn collect_with<E: Out>(
    tree: &Tree,
    images: &[Image],
    lengths: &LengthTable,
    emit: &mut E,
) -> Result<u64, OutFault>
    requires whole { IsWholeTree tree.now.nodes.items (length images.now) }
    requires images { AreImages (images_of images.now) }
    requires lengths { lengths.now ≡ all_lengths (images_of images.now) tree.now.nodes.items }
    ensures prints { Prints (stream (whole_branch (images_of images.now) tree.now.nodes.items)) result
        (E.printed emit.old) (E.printed emit.new) }
    ensures count { IfOk result (λ n. n ≡ length (stream (whole_branch (images_of images.now) tree.now.nodes.items))) }
    ensures goes_on { E.goes_on emit.old emit.new }
{
    emit_wave(tree, images, lengths, Wave::Load, 0, emit)?;
    emit_wave(tree, images, lengths, Wave::Sync, 0, emit)?;
    emit_wave(tree, images, lengths, Wave::Start, 0, emit)?;
    Ok(lengths.at(0).total())
}

/// Emits what the node at a place gets in a wave: what comes first, a FORWARD for each child with
/// what the child gets, and what comes last.
fn emit_wave<E: Out>(
    tree: &Tree,
    images: &[Image],
    lengths: &LengthTable,
    wave: Wave,
    k: usize,
    emit: &mut E,
) -> Result<(), OutFault>
    requires whole { IsWholeTree tree.now.nodes.items (length images.now) }
    requires images { AreImages (images_of images.now) }
    requires lengths { lengths.now ≡ all_lengths (images_of images.now) tree.now.nodes.items }
    requires here { k < length tree.now.nodes.items }
    ensures prints { Prints (part_of wave (branch_at (images_of images.now) tree.now.nodes.items k)) result
        (E.printed emit.old) (E.printed emit.new) }
    ensures goes_on { E.goes_on emit.old emit.new }
{
    let node = &tree.nodes[k];
    let image = &images[node.processor as usize];
    emit_first(wave, node.boot_link, image, emit)?;
    for child in &node.children {
        emit_forward(tree, images, lengths, wave, *child as usize, emit)?;
        emit_wave(tree, images, lengths, wave, *child as usize, emit)?;
    }
    emit_last(wave, node.boot_link, image, emit)
}

/// Emits the FORWARD to the node at a place.
fn emit_forward<E: Out>(
    tree: &Tree,
    images: &[Image],
    lengths: &LengthTable,
    wave: Wave,
    c: usize,
    emit: &mut E,
) -> Result<(), OutFault>
    requires whole { IsWholeTree tree.now.nodes.items (length images.now) }
    requires images { AreImages (images_of images.now) }
    requires lengths { lengths.now ≡ all_lengths (images_of images.now) tree.now.nodes.items }
    requires here { c < length tree.now.nodes.items }
    ensures prints { Prints (forward_to wave (images_of images.now) tree.now.nodes.items c) result
        (E.printed emit.old) (E.printed emit.new) }
    ensures goes_on { E.goes_on emit.old emit.new }
{
    let channel = out_channel(tree.nodes[c].parent_link);
    emit.write(&command(FORWARD, channel, lengths.at(c).of(wave) as u32))
}

/// Emits what a processor gets first in a wave.
fn emit_first<E: Out>(wave: Wave, k: u8, image: &Image, emit: &mut E) -> Result<(), OutFault>
    requires link { k < 4 }
    requires image { IsImage (image_of image.now) }
    ensures prints { Prints (first_of wave (record { boot = k; image = image_of image.now })) result
        (E.printed emit.old) (E.printed emit.new) }
    ensures goes_on { E.goes_on emit.old emit.new }
{
    match wave {
        Wave::Load => emit_own_load(k, image, emit),
        Wave::Sync => Ok(()),
        Wave::Start => Ok(()),
    }
}

/// Emits what a processor gets last in a wave.
fn emit_last<E: Out>(wave: Wave, k: u8, image: &Image, emit: &mut E) -> Result<(), OutFault>
    ensures prints { Prints (last_of wave (record { boot = k; image = image_of image.now })) result
        (E.printed emit.old) (E.printed emit.new) }
    ensures goes_on { E.goes_on emit.old emit.new }
{
    match wave {
        Wave::Load => Ok(()),
        Wave::Sync => emit.write(&command(NOP, 0, 0)),
        Wave::Start => emit.write(&command(RUN, image.entry, image.wptr)),
    }
}

/// Emits what loads a processor itself.
fn emit_own_load<E: Out>(k: u8, image: &Image, emit: &mut E) -> Result<(), OutFault>
    requires link { k < 4 }
    requires image { IsImage (image_of image.now) }
    ensures prints { Prints (own_load (record { boot = k; image = image_of image.now })) result (E.printed emit.old) (E.printed emit.new) }
    ensures goes_on { E.goes_on emit.old emit.new }
{
    emit_loader(k, emit)?;
    emit_loads(&image.segments, emit)
}

/// Emits the loader for a boot by link `k`.
fn emit_loader<E: Out>(k: u8, emit: &mut E) -> Result<(), OutFault>
    requires { k < 4 }
    ensures prints { Prints (loader k) result (E.printed emit.old) (E.printed emit.new) }
    ensures goes_on { E.goes_on emit.old emit.new }
{
    emit_primary(k, emit)?;
    emit_secondary(emit)
}

/// Emits the primary bootstrap behind its length.
fn emit_primary<E: Out>(k: u8, emit: &mut E) -> Result<(), OutFault>
    requires { k < 4 }
    ensures prints { Prints (57 ∷ primary_bytes k) result (E.printed emit.old) (E.printed emit.new) }
    ensures goes_on { E.goes_on emit.old emit.new }
{
    emit.write(&[PRIMARY_SIZE as u8])?;
    emit.write(&primary(k))
}

/// Emits the secondary loader behind its length.
fn emit_secondary<E: Out>(emit: &mut E) -> Result<(), OutFault>
    ensures prints { Prints (bytes_of_word 55 ++ secondary_bytes) result (E.printed emit.old) (E.printed emit.new) }
    ensures goes_on { E.goes_on emit.old emit.new }
{
    emit.write(&word_bytes(SECONDARY_SIZE as u32))?;
    emit.write(&secondary())
}

/// Emits a LOAD for each segment.
fn emit_loads<E: Out>(segments: &[Segment], emit: &mut E) -> Result<(), OutFault>
    requires { All IsSegment (segments_of segments.now) }
    ensures prints { Prints (loads_of (segments_of segments.now)) result (E.printed emit.old) (E.printed emit.new) }
    ensures goes_on { E.goes_on emit.old emit.new }
{
    for segment in segments {
        emit_load(segment, emit)?;
    }
    Ok(())
}

/// Emits a LOAD with the bytes of a segment.
fn emit_load<E: Out>(segment: &Segment, emit: &mut E) -> Result<(), OutFault>
    requires { IsSegment (segment_of segment.now) }
    ensures prints { Prints (load_of (segment_of segment.now)) result (E.printed emit.old) (E.printed emit.new) }
    ensures goes_on { E.goes_on emit.old emit.new }
{
    emit.write(&command(LOAD, segment.base, segment.bytes.len() as u32))?;
    emit.write(&segment.bytes)
}
