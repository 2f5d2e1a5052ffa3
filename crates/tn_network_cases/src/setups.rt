ghost use Rattle.std.specs.Prelude.{◌≡◌, ◌≤◌, ◌<◌, ◌^◌, length, map, vec_len, IfOk};
ghost use Rattle.tn_text.specs.declared.limits.TheConstants.{PROCESSOR_LIMIT};
ghost use Rattle.tn_net.specs.Lines.{IsAdmitted};
ghost use Rattle.tn_net.specs.WholeTrees.{IsWholeTree};
ghost use Rattle.tn_config.specs.Configurations.{config_of};
ghost use Rattle.tn_config.specs.Networks.{described};
ghost use Rattle.tn_stream.specs.Images.{images_of, AreImages};
ghost use Rattle.tn_network.specs.Resets.{power_of, AreSized};

use crate::descriptions::{Description, Fill, are_images};
use std::alloc::Global;
use tn_config::{Config, raw_network, read_config};
use tn_io::MemOut;
use tn_net::{Network, Tree, load_tree};
use tn_network::{Net, Power};
use tn_stream::{Image, collect, steps};
use tn_tables::Stop;

/// A network after power-up, and what is to be told of its stream.
#[derive(Drop)]
pub struct Setup {
    pub network: Network,
    pub net: Net,
    /// The bytes of the stream of the images, and the steps of loading them, where the host sends it.
    pub stream: Option<(u64, u64)>,
    /// How many picks were made one by one.
    pub made: u64,
}

/// The network that a description stands for.
pub fn set_up(alloc: Global, found: &Description<'_>) -> Result<Setup, Stop> {
    let network = network_of(alloc, found.config)?;
    let (host, stream) = match found.host {
        Some(bytes) => (Vec::from_slice(alloc, bytes)?, None),
        None => stream_of(alloc, &network, &found.images)?,
    };
    let net = reset(alloc, &network, found, host)?;
    Ok(Setup {
        network,
        net,
        stream,
        made: 0,
    })
}

fn network_of(alloc: Global, text: &[u8]) -> Result<Network, Stop> {
    if text.len() >= 0x4000_0000 {
        return Err(Stop::BadCase);
    }
    match read_config(alloc, text) {
        Ok(config) => checked(alloc, &config),
        Err(_) => Err(Stop::BadCase),
    }
}

fn checked(alloc: Global, config: &Config) -> Result<Network, Stop>
    requires { length config.now.blocks.items ≤ PROCESSOR_LIMIT → IsAdmitted (described (config_of config.now)) }
{
    if config.blocks.len() > 64 {
        return Err(Stop::BadCase);
    }
    let raw = raw_network(alloc, config)?;
    Network::check(alloc, &raw).ok().ok_or(Stop::BadCase)
}

/// The stream of the images, its length and the steps of loading it.
fn stream_of(
    alloc: Global,
    network: &Network,
    images: &[Image],
) -> Result<(Vec<u8>, Option<(u64, u64)>), Stop> {
    let Ok(tree) = load_tree(alloc, network) else {
        return Err(Stop::BadCase);
    };
    if images.len() != network.count() as usize || !are_images(images) {
        return Err(Stop::BadCase);
    }
    collected(alloc, &tree, images)
}

fn collected(
    alloc: Global,
    tree: &Tree,
    images: &[Image],
) -> Result<(Vec<u8>, Option<(u64, u64)>), Stop>
    requires whole { IsWholeTree tree.now.nodes.items (length images.now) }
    requires images { AreImages (images_of images.now) }
{
    let mut out = MemOut::new(Vec::new(alloc));
    let Ok(count) = collect(tree, images, &mut out) else {
        return Err(Stop::NoMemory);
    };
    let steps = steps(tree, images);
    Ok((out.into_bytes(), Some((count, steps))))
}

fn reset(
    alloc: Global,
    network: &Network,
    found: &Description<'_>,
    host: Vec<u8>,
) -> Result<Net, Stop> {
    let powers = powers(alloc, network, &found.fills)?;
    let entries = entries(alloc, network.count() as usize, &found.images)?;
    Net::reset(alloc, network, powers, host, &entries)
        .ok()
        .ok_or(Stop::NoMemory)
}

/// The entries of so many images; those of images that are not described are 0.
fn entries(alloc: Global, count: usize, images: &[Image]) -> Result<Vec<u32>, Stop>
    ensures { IfOk result (λ entries. vec_len entries ≡ count) }
{
    let mut entries = Vec::new(alloc);
    for k in 0..count {
        entries.push(match images.get(k) {
            Some(image) => image.entry,
            None => 0,
        })?;
    }
    Ok(entries)
}

/// What the processors hold at power-up: zeros, where nothing else is described.
fn powers(alloc: Global, network: &Network, fills: &[Fill]) -> Result<Vec<Power>, Stop>
    ensures { IfOk result (λ powers. AreSized (map power_of powers.items) network.now) }
{
    let mut powers = Vec::new(alloc);
    for p in 0..network.count() {
        let fill = match fills.get(p as usize) {
            Some(fill) => *fill,
            None => Fill {
                noise: false,
                seed: 0,
                error: false,
                halt: false,
            },
        };
        let bytes = filled(alloc, network.size(p) as usize, fill)?;
        powers.push(Power {
            bytes,
            error: fill.error,
            halt: fill.halt,
        })?;
    }
    Ok(powers)
}

/// So many bytes of a memory at power-up.
fn filled(alloc: Global, size: usize, fill: Fill) -> Result<Vec<u8>, Stop>
    ensures { IfOk result (λ bytes. vec_len bytes ≡ size) }
{
    let mut bytes = vec![in alloc; (fill.seed % 256) as u8; size]?;
    if fill.noise {
        make_noise(&mut bytes, fill.seed);
    }
    Ok(bytes)
}

/// Bytes that a seed gives.
fn make_noise(bytes: &mut [u8], seed: u32) {
    let mut number = seed;
    for byte in bytes.iter_mut() {
        number = number.wrapping_mul(1_664_525).wrapping_add(1_013_904_223);
        *byte = (number >> 24) as u8;
    }
}
