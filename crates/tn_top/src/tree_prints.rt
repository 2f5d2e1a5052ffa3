ghost use Rattle.std.specs.Prelude.{◌≡◌, ◌≤◌, length, map, IfOk};
ghost use Rattle.tn_net.specs.WholeTrees.{IsWholeTree};
ghost use Rattle.tn_stream.specs.Images.{images_of, AreImages};
ghost use Rattle.tn_stream.specs.LoadBranches.{branch_at};
ghost use Rattle.tn_stream.specs.Lengths.{bytes_received};
ghost use Rattle.std.specs.List.{range_with_len};
ghost use Rattle.tn_top.specs.SystemPlans.{system_tree};
ghost use Rattle.tn_top.specs.Inner.Ends.{Shows};
ghost use Rattle.tn_top.specs.Inner.Systems.{configured, IsLoadable};

use crate::refusals::Refusal;
use crate::systems::Configured;
use std::alloc::{AllocError, Global};
use tn_config::Block;
use tn_io::Out;
use tn_list::{ListFault, tree_text};
use tn_net::Tree;
use tn_stream::{Image, received, steps};
use tn_text::Name;

/// Prints the load tree of a system, with the bytes that each processor gets, the length of the stream
/// and the number of steps, and ends the command.
pub fn print_tree<O: Out>(alloc: Global, read: &Configured, out: &mut O) -> Result<(), Refusal>
    requires loadable { IsLoadable read.now.system }
    requires named { IsWholeTree read.now.system.tree.nodes.items (length read.now.config.blocks.items) }
    ensures shows { Shows (system_tree (configured read.now)) (O.printed out.old) (O.printed out.new) result }
    ensures goes_on { O.goes_on out.old out.new }
{
    let system = &read.system;
    let names = names_of(alloc, &read.config.blocks)?;
    let counts = all_received(alloc, &system.tree, &system.images)?;
    let steps = steps(&system.tree, &system.images);
    match tree_text(&names, &system.tree, &counts, steps, out) {
        Ok(()) => Ok(()),
        Err(ListFault::Out) => Err(Refusal::Unprinted),
        Err(ListFault::NoMemory) => Err(Refusal::NoMemory),
    }
}

/// The names of processors.
pub fn names_of(alloc: Global, blocks: &[Block]) -> Result<Vec<Name>, AllocError>
    ensures { IfOk result (λ names. names.items ≡ map (λ b. b.name) blocks.now) }
{
    let mut names = Vec::new(alloc);
    for block in blocks {
        names.push(block.name)?;
    }
    Ok(names)
}

/// How many bytes the processor of each node gets by its boot link.
fn all_received(alloc: Global, tree: &Tree, images: &[Image]) -> Result<Vec<u64>, AllocError>
    requires whole { IsWholeTree tree.now.nodes.items (length images.now) }
    requires images { AreImages (images_of images.now) }
    ensures { IfOk result (λ counts. counts.items
        ≡ map (λ k. bytes_received (branch_at (images_of images.now) tree.now.nodes.items k))
        (range_with_len 0 (length tree.now.nodes.items))) }
{
    let mut counts = Vec::new(alloc);
    for k in 0..tree.nodes.len() {
        counts.push(received(tree, images, k as u32))?;
    }
    Ok(counts)
}
