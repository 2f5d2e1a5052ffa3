ghost use Rattle.std.specs.Prelude.{◌≡◌, ◌<◌, ◌≤◌, ◌^◌, All, length, sum_by, slice_index_or};
ghost use Rattle.tn_net.specs.Trees.{node_at};
ghost use Rattle.tn_net.specs.WholeTrees.{IsWholeTree};
ghost use Rattle.tn_stream.specs.Images.{image_of, images_of, IsImage, AreImages};
ghost use Rattle.tn_stream.specs.Streams.{stream};
ghost use Rattle.tn_stream.specs.LoadBranches.{branch_at, whole_branch};
ghost use Rattle.tn_stream.specs.Lengths.{all_lengths, bytes_received, forward_steps, steps_to, node_steps, load_steps};
ghost use Rattle.tn_stream.specs.Inner.LowLengths.{no_lengths, IsLow};

use crate::images::Image;
use crate::length_tables::{LengthTable, NodeLengths, lengths};
use tn_net::Tree;

/// The most bytes that a FORWARD sends on at once.
const CHUNK: u64 = 128;

/// How many bytes the stream has. The tree and the images are as `lengths` wants them.
pub fn length(tree: &Tree, images: &[Image]) -> u64
    requires whole { IsWholeTree tree.now.nodes.items (length images.now) }
    requires images { AreImages (images_of images.now) }
    ensures { result ≡ length (stream (whole_branch (images_of images.now) tree.now.nodes.items)) }
{
    lengths(tree, images).at(0).total()
}

/// How many bytes the processor of the node at a place gets on its boot link, with what it sends on.
/// The tree and the images are as `lengths` wants them, and the tree has a node at that place.
pub fn received(tree: &Tree, images: &[Image], node: u32) -> u64
    requires whole { IsWholeTree tree.now.nodes.items (length images.now) }
    requires images { AreImages (images_of images.now) }
    requires here { node < length tree.now.nodes.items }
    ensures { result ≡ bytes_received (branch_at (images_of images.now) tree.now.nodes.items node) }
{
    lengths(tree, images).at(node as usize).total()
}

/// How many steps the processors of a network take to load and to start, with those of the links. The
/// tree and the images are as `lengths` wants them.
pub fn steps(tree: &Tree, images: &[Image]) -> u64
    requires whole { IsWholeTree tree.now.nodes.items (length images.now) }
    requires images { AreImages (images_of images.now) }
    ensures { result ≡ load_steps (images_of images.now) tree.now.nodes.items }
{
    let table = lengths(tree, images);
    let mut steps = 0;
    for k in 0..tree.nodes.len() {
        steps += node_steps(tree, images, &table, k);
    }
    steps
}

/// The steps of the processor of the node at a place.
fn node_steps(tree: &Tree, images: &[Image], table: &LengthTable, k: usize) -> u64
    requires whole { IsWholeTree tree.now.nodes.items (length images.now) }
    requires images { AreImages (images_of images.now) }
    requires lengths { table.now ≡ all_lengths (images_of images.now) tree.now.nodes.items }
    requires here { k < length tree.now.nodes.items }
    ensures value { result ≡ node_steps (images_of images.now) tree.now.nodes.items k (node_at tree.now.nodes.items k) }
    ensures bound { result < 2 ^ 40 }
{
    let node = &tree.nodes[k];
    let segments = segment_count(&images[node.processor as usize]);
    2 * table.at(k).total() + 57 + 13 * segments + 36 + forwards_steps(table, &node.children)
}

/// How many segments an image has.
fn segment_count(image: &Image) -> u64
    requires { IsImage (image_of image.now) }
    ensures value { result ≡ length (image_of image.now).segments }
    ensures bound { result ≤ 3 }
{
    image.segments.len() as u64
}

/// The steps of the FORWARDs to the nodes at these places.
fn forwards_steps(table: &LengthTable, children: &[u32]) -> u64
    requires few { length children.now ≤ 64 }
    requires places { All (λ c. c < length table.now) children.now }
    requires low { All IsLow table.now }
    ensures value { result ≡ sum_by (λ c. steps_to (slice_index_or table.now c no_lengths)) children.now }
    ensures bound { result < 2 ^ 39 }
{
    let mut steps = 0;
    for child in children {
        steps += steps_to(table.at(*child as usize));
    }
    steps
}

/// The steps of the three FORWARDs to a node with these lengths.
fn steps_to(lengths: NodeLengths) -> u64
    requires { IsLow lengths }
    ensures value { result ≡ steps_to lengths }
    ensures bound { result < 2 ^ 30 }
{
    forward_steps(lengths.load) + forward_steps(lengths.sync) + forward_steps(lengths.start)
}

/// The steps of a FORWARD of so many bytes: 33, and 26 for each chunk but the last.
fn forward_steps(n: u64) -> u64
    requires some { 0 < n }
    requires low { n < 2 ^ 30 }
    ensures { result ≡ forward_steps n }
{
    33 + 26 * (n.div_ceil(CHUNK) - 1)
}
