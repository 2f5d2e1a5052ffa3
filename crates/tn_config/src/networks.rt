ghost use Rattle.std.specs.Prelude.{◌≡◌, IfOk, map, option_map};
ghost use Rattle.tn_net.specs.RawNetworks.{raw_of};
ghost use Rattle.tn_config.specs.Configurations.{config_of};
ghost use Rattle.tn_config.specs.Networks.{named_size, host_end, wire_ends, described};

use crate::configurations::{Block, Config, WireLine};
use std::alloc::{AllocError, Global};
use tn_net::RawNetwork;
use tn_text::Name;

/// What a configuration says of a network. Of a configuration that was read, with at most 64
/// processors, it is what `Network::check` takes.
pub fn raw_network(alloc: Global, config: &Config) -> Result<RawNetwork, AllocError>
    ensures { IfOk result (λ raw. raw_of raw ≡ described (config_of config.now)) }
{
    let names = names_of(alloc, &config.blocks)?;
    let wires = wires_of(alloc, &config.wires)?;
    Ok(RawNetwork {
        names,
        host: host_of(config),
        wires,
        lines: config.lines,
    })
}

/// The names of the processors, the sizes of their memories, and their lines.
fn names_of(alloc: Global, blocks: &[Block]) -> Result<Vec<(Name, u32, u32)>, AllocError>
    ensures { IfOk result (λ names. names.items ≡ map (λ b. (b.name, b.size, b.lines.processor)) blocks.now) }
{
    blocks
        .iter()
        .map(|block| (block.name, block.size, block.lines.processor))
        .collect(alloc)
}

/// The end that the host has.
fn host_of(config: &Config) -> Option<(Name, u8, u32)>
    ensures { result ≡ option_map host_end config.now.host }
{
    let host = config.host?;
    Some((host.name, host.link, host.line))
}

/// The ends of the wires.
fn wires_of(alloc: Global, wires: &[WireLine]) -> Result<Vec<(Name, u8, Name, u8, u32)>, AllocError>
    ensures { IfOk result (λ found. found.items ≡ map wire_ends wires.now) }
{
    wires
        .iter()
        .map(|wire| (wire.one, wire.one_link, wire.two, wire.two_link, wire.line))
        .collect(alloc)
}
