ghost use Rattle.std.specs.Prelude.{◌≡◌, ◌+◌, ◌<◌, ◌≤◌, length, nat_eq, IfOk, OnOk};
ghost use Rattle.tn_text.specs.declared.limits.TheConstants.{PROCESSOR_LIMIT};
ghost use Rattle.std.specs.List.{list_any};
ghost use Rattle.tn_net.specs.Networks.{IsPairing};
ghost use Rattle.tn_net.specs.Inner.Walks.{AreReached};
ghost use Rattle.tn_net.specs.Inner.Visits.{IsVisited};

use crate::networks::{Far, Network};
use std::alloc::{AllocError, Global};

/// A processor that a path leads to: the place of the one before it on its path, the link of that
/// one which leads to it, and its own link at that wire.
#[derive(Clone, Copy)]
pub struct Reached {
    pub processor: u32,
    pub parent: usize,
    pub parent_link: u8,
    pub boot_link: u8,
}

/// The processors that a path leads to, in the order of their paths, which is that of the lengths
/// and, among paths of one length, that of the links.
pub fn walk(alloc: Global, network: &Network) -> Result<Vec<Reached>, AllocError>
    ensures reached { IfOk result (λ order. AreReached network.now order.items) }
    ensures few { IfOk result (λ order. length order.items ≤ PROCESSOR_LIMIT) }
{
    let (processor, boot_link) = network.root();
    let mut order = Vec::new(alloc);
    order.push(Reached {
        processor,
        parent: 0,
        parent_link: 0,
        boot_link,
    })?;
    let mut i = 0;
    while i < order.len() {
        visit_links(network, &mut order, i)?;
        i += 1;
    }
    Ok(order)
}

/// Goes on from the processor at this place over each of its links.
fn visit_links(network: &Network, order: &mut Vec<Reached>, i: usize) -> Result<(), AllocError>
    requires pairing { IsPairing network.now }
    requires here { i < length order.old.items }
    requires visited { IsVisited network.now order.old.items i 0 }
    ensures here { OnOk result (i < length order.new.items) }
    ensures visited { OnOk result (IsVisited network.now order.new.items i 4) }
{
    for l in 0..4 {
        visit(network, order, i, l)?;
    }
    Ok(())
}

/// Goes on from the processor at this place over one link.
fn visit(network: &Network, order: &mut Vec<Reached>, i: usize, l: u8) -> Result<(), AllocError>
    requires pairing { IsPairing network.now }
    requires here { i < length order.old.items }
    requires link { l < 4 }
    requires visited { IsVisited network.now order.old.items i l }
    ensures here { OnOk result (i < length order.new.items) }
    ensures visited { OnOk result (IsVisited network.now order.new.items i (l + 1)) }
{
    let from = order[i].processor;
    if let Far::Link(processor, boot_link) = network.far(from, l) {
        if !is_reached(order, processor) {
            order.push(Reached {
                processor,
                parent: i,
                parent_link: l,
                boot_link,
            })?;
        }
    }
    Ok(())
}

pub fn is_reached(order: &[Reached], processor: u32) -> bool
    ensures { result ≡ list_any (λ reached. nat_eq processor reached.processor) order.now }
{
    order.iter().any(|reached| processor == reached.processor)
}
