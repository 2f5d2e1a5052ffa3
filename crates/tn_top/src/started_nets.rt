ghost use Rattle.std.specs.Prelude.{◌≡◌, List, length, map, IfOk};
ghost use Rattle.tn_net.specs.WholeTrees.{IsWholeTree};
ghost use Rattle.tn_stream.specs.Images.{images_of, AreImages};
ghost use Rattle.tn_stream.specs.LoadBranches.{whole_branch};
ghost use Rattle.tn_stream.specs.Streams.{stream};
ghost use Rattle.tn_network.specs.Resets.{power_of};
ghost use Rattle.tn_system.specs.Systems.{system_of};
ghost use Rattle.tn_top.specs.SystemNets.{filled_powers, system_net, settled_net, outcome};
ghost use Rattle.tn_top.specs.Inner.Systems.{IsLoadable};

use std::alloc::{AllocError, Global};
use tn_io::MemOut;
use tn_load::settle;
use tn_net::{Network, Tree};
use tn_network::{Net, Power};
use tn_stream::{Image, collect};
use tn_system::System;

/// How many steps a network is settled by at most, where no other bound is told.
pub const SETTLE_LIMIT: u64 = 100_000_000;

/// The network of a system after power-up: all memories are filled with a byte, Error and HaltOnError
/// are as told, each processor will be held at its entry, and the host has the stream to send.
pub fn started_net(
    alloc: Global,
    system: &System,
    fill: (u8, bool, bool),
) -> Result<Net, AllocError>
    requires loadable { IsLoadable system.now }
    requires entries { length system.now.images.items ≡ length system.now.network.sizes }
    ensures { IfOk result (λ net. net ≡ system_net fill (system_of system.now)) }
{
    let host = stream_of(alloc, &system.tree, &system.images)?;
    let powers = filled_powers(alloc, &system.network, fill)?;
    let entries = entries_of(alloc, &system.images)?;
    match Net::reset(alloc, &system.network, powers, host, &entries) {
        Ok(net) => Ok(net),
        Err(_) => Err(AllocError),
    }
}

/// The stream that loads the processors of a tree with these images.
fn stream_of(alloc: Global, tree: &Tree, images: &[Image]) -> Result<Vec<u8>, AllocError>
    requires whole { IsWholeTree tree.now.nodes.items (length images.now) }
    requires images { AreImages (images_of images.now) }
    ensures { IfOk result (λ bytes. bytes.items ≡ stream (whole_branch (images_of images.now) tree.now.nodes.items)) }
{
    let mut out = MemOut::new(Vec::new(alloc));
    match collect(tree, images, &mut out) {
        Ok(_) => Ok(out.into_bytes()),
        Err(_) => Err(AllocError),
    }
}

/// The powers of the processors of a network: each byte of a memory is this one.
fn filled_powers(
    alloc: Global,
    network: &Network,
    fill: (u8, bool, bool),
) -> Result<Vec<Power>, AllocError>
    ensures { IfOk result (λ powers. map power_of powers.items ≡ filled_powers fill network.now.sizes) }
{
    let (byte, error, halt) = fill;
    let mut powers = Vec::new(alloc);
    for p in 0..network.count() {
        let bytes = vec![in alloc; byte; network.size(p) as usize]?;
        powers.push(Power { bytes, error, halt })?;
    }
    Ok(powers)
}

/// The entries of images.
fn entries_of(alloc: Global, images: &[Image]) -> Result<Vec<u32>, AllocError>
    ensures { IfOk result (λ entries. entries.items ≡ map (λ i. i.entry) images.now) }
{
    let mut entries = Vec::new(alloc);
    for image in images {
        entries.push(image.entry)?;
    }
    Ok(entries)
}

/// Settles a network, each step being the first in order, and answers how many steps were made and
/// whether it is at rest then.
pub fn settle_net(net: &mut Net) -> (u64, bool)
    ensures steps { result.0 ≡ (outcome net.old).0 }
    ensures rested { result.1 ≡ (outcome net.old).1 }
    ensures state { net.new ≡ settled_net net.old }
{
    settle(net, SETTLE_LIMIT, false)
}
