ghost use Rattle.std.specs.Prelude.{◌≡◌, ◌+◌, ◌^◌, ◌<◌, ◌≤◌, All, length, sum_by, slice_index_or};
ghost use Rattle.tn_text.specs.declared.limits.TheConstants.{PROCESSOR_LIMIT};
ghost use Rattle.tn_net.specs.Trees.{node_at};
ghost use Rattle.tn_net.specs.WholeTrees.{IsWholeTree};
ghost use Rattle.tn_stream.specs.Images.{segments_of, image_of, images_of, IsSegment, IsImage, AreImages};
ghost use Rattle.tn_stream.specs.Streams.{own_load, loads_of};
ghost use Rattle.tn_stream.specs.LoadBranches.{site_of, branch_at};
ghost use Rattle.tn_stream.specs.Lengths.{lengths_of, all_lengths};
ghost use Rattle.tn_stream.specs.Waves.{first_of, last_of, part_of, length_in};
ghost use Rattle.tn_stream.specs.Inner.LowLengths.{no_lengths, IsLow};
ghost use Rattle.tn_stream.specs.Inner.Tables.{HasLengths, own_length, child_length_in};

use crate::images::{Image, Segment};
use crate::waves::Wave;
use std::marker::Model;
use tn_loader::{COMMAND_SIZE, PRIMARY_SIZE, SECONDARY_SIZE};
use tn_net::{Tree, TreeNode};
use tn_text::limits::PROCESSOR_LIMIT;

/// How many bytes a processor gets in each wave of the stream, with what it sends on to others.
#[derive(Clone, Copy)]
pub struct NodeLengths {
    pub load: u64,
    pub sync: u64,
    pub start: u64,
}

impl NodeLengths {
    /// The length in a wave.
    pub(crate) fn of(&self, wave: Wave) -> u64
        ensures { result ≡ length_in wave self.now }
    {
        match wave {
            Wave::Load => self.load,
            Wave::Sync => self.sync,
            Wave::Start => self.start,
        }
    }

    /// The bytes of all waves.
    pub(crate) fn total(&self) -> u64
        requires { IsLow self.now }
        ensures { result ≡ self.now.load + self.now.sync + self.now.start }
    {
        self.load + self.sync + self.start
    }
}

/// The lengths of the processors of a tree, in load order.
#[derive(Drop)]
pub struct LengthTable {
    pub(crate) table: [NodeLengths; PROCESSOR_LIMIT],
    pub(crate) count: usize,
}

impl Model for LengthTable {
    ghost use Rattle.std.specs.Prelude.{ℕ, ◌≤◌, List, All, take};
    ghost use Rattle.tn_text.specs.declared.limits.TheConstants.{PROCESSOR_LIMIT};
    ghost use Rattle.tn_stream.specs.declared.length_tables.NodeLengths.{NodeLengths};
    ghost use Rattle.tn_stream.specs.Inner.LowLengths.{IsLow};

    ghost Value = { List NodeLengths };

    ghost view = { λ t. take t.count t.table };

    ghost invariant = { λ t. (t.count ≤ PROCESSOR_LIMIT) × All IsLow (take t.count t.table) };
}

impl LengthTable {
    /// The lengths of the node at a place.
    pub(crate) fn at(&self, k: usize) -> NodeLengths
        requires { k < length self.now }
        ensures value { result ≡ slice_index_or self.now k no_lengths }
        ensures low { IsLow result }
    {
        prove!(k < self.count);
        self.table[k]
    }
}

/// The lengths of a tree's processors, one of which an image stands for in order of its number. The
/// tree is whole for them, and each image has at most three segments, none empty, of at most
/// 1,048,576 bytes each.
pub fn lengths(tree: &Tree, images: &[Image]) -> LengthTable
    requires whole { IsWholeTree tree.now.nodes.items (length images.now) }
    requires images { AreImages (images_of images.now) }
    ensures { result ≡ all_lengths (images_of images.now) tree.now.nodes.items }
{
    let mut table = [NodeLengths {
        load: 0,
        sync: 0,
        start: 0,
    }; PROCESSOR_LIMIT];
    let mut k = tree.nodes.len();
    while k > 0 {
        k -= 1;
        table[k] = lengths_at(tree, images, &table, k);
    }
    LengthTable {
        table,
        count: tree.nodes.len(),
    }
}

/// The lengths of a node, where the table has those of the nodes behind it.
fn lengths_at(tree: &Tree, images: &[Image], table: &[NodeLengths], k: usize) -> NodeLengths
    requires whole { IsWholeTree tree.now.nodes.items (length images.now) }
    requires images { AreImages (images_of images.now) }
    requires here { k < length tree.now.nodes.items }
    requires behind { HasLengths (images_of images.now) tree.now.nodes.items (k + 1) table.now }
    ensures { result ≡ lengths_of (branch_at (images_of images.now) tree.now.nodes.items k) }
{
    NodeLengths {
        load: length_at(tree, images, table, k, Wave::Load),
        sync: length_at(tree, images, table, k, Wave::Sync),
        start: length_at(tree, images, table, k, Wave::Start),
    }
}

/// The length of a node in a wave: its own bytes, and for each child a FORWARD with the child's.
fn length_at(tree: &Tree, images: &[Image], table: &[NodeLengths], k: usize, wave: Wave) -> u64
    requires whole { IsWholeTree tree.now.nodes.items (length images.now) }
    requires images { AreImages (images_of images.now) }
    requires here { k < length tree.now.nodes.items }
    requires behind { HasLengths (images_of images.now) tree.now.nodes.items (k + 1) table.now }
    ensures { result ≡ length (part_of wave (branch_at (images_of images.now) tree.now.nodes.items k)) }
{
    let node = &tree.nodes[k];
    let own = own_length(wave, &images[node.processor as usize]);
    own + children_length(table, &node.children, wave)
}

/// How many bytes of a wave are for the nodes at these places, with the FORWARDs to them.
fn children_length(table: &[NodeLengths], children: &[u32], wave: Wave) -> u64
    requires places { All (λ c. c < length table.now) children.now }
    requires low { sum_by (child_length_in wave table.now) children.now < 2 ^ 32 }
    ensures { result ≡ sum_by (child_length_in wave table.now) children.now }
{
    let mut length = 0;
    for child in children {
        length += COMMAND_SIZE as u64 + table[*child as usize].of(wave);
    }
    length
}

/// How many bytes of a wave are a processor's own.
fn own_length(wave: Wave, image: &Image) -> u64
    requires { IsImage (image_of image.now) }
    ensures value { result ≡ own_length wave (image_of image.now) }
    ensures bound { result < 2 ^ 33 }
{
    match wave {
        Wave::Load => loader_length() + loads_length(&image.segments),
        Wave::Sync => COMMAND_SIZE as u64,
        Wave::Start => COMMAND_SIZE as u64,
    }
}

/// How many bytes the loader has, with the byte and the word before its two parts.
fn loader_length() -> u64
    ensures { result ≡ 117 }
{
    1 + PRIMARY_SIZE as u64 + 4 + SECONDARY_SIZE as u64
}

/// How many bytes the LOADs of segments have.
fn loads_length(segments: &[Segment]) -> u64
    requires few { length segments.now ≤ 3 }
    requires segments { All IsSegment (segments_of segments.now) }
    ensures value { result ≡ length (loads_of (segments_of segments.now)) }
    ensures bound { result < 2 ^ 32 }
{
    let mut length = 0;
    for segment in segments {
        length += COMMAND_SIZE as u64 + segment.bytes.len() as u64;
    }
    length
}
