use crate::descriptions::{description, is_admitted};
use std::alloc::Global;
use tn_io::MemOut;
use tn_list::Printed;
use tn_net::{Far, Network, TreeFault, TreeNode, load_tree};
use tn_tables::{Case, Line, Report, Stop, number, said};
use tn_text::{Fault, FileName, ReadFault};

/// Runs a case of the table of networks: its lines describe one, and those with ` => ` ask of it.
pub fn run_case(alloc: Global, case: &Case<'_>, report: &mut Report) -> Result<(), Stop> {
    let raw = description(alloc, case)?;
    if !is_admitted(&raw) {
        return Err(Stop::BadCase);
    }
    let checked = Network::check(alloc, &raw);
    for line in case.lines.iter() {
        if line.wanted.is_some() {
            let came = answer(alloc, &checked, line);
            report.answer(alloc, case.name, line, came)?;
        }
    }
    Ok(())
}

/// What a line asks of a network, or its fault.
fn answer(
    alloc: Global,
    checked: &Result<Network, ReadFault>,
    line: &Line<'_>,
) -> Result<Vec<u8>, Stop> {
    match checked {
        Ok(network) => look(alloc, network, line.words.as_slice()),
        Err(ReadFault::NoMemory) => Err(Stop::NoMemory),
        Err(ReadFault::Fault(fault)) => match line.words.as_slice() {
            ["check"] => fault_line(alloc, fault),
            _ => said(alloc, "no network"),
        },
    }
}

/// The line of a fault of the file `net.cfg`.
fn fault_line(alloc: Global, fault: &Fault) -> Result<Vec<u8>, Stop> {
    let file = FileName::of("net.cfg").ok_or(Stop::BadCase)?;
    let mut out = MemOut::new(Vec::new(alloc));
    let put = fault.write(&file, &mut Printed { out: &mut out });
    put.ok().ok_or(Stop::NoMemory)?;
    let mut bytes = out.into_bytes();
    bytes.pop();
    Ok(bytes)
}

fn look(alloc: Global, network: &Network, words: &[&str]) -> Result<Vec<u8>, Stop> {
    match words {
        ["check"] => said(alloc, "a network"),
        ["count"] => Ok(network.count().to_string(alloc)?.into_bytes()),
        ["root"] => root(alloc, network),
        ["size", processor] => size(alloc, network, processor),
        ["far", processor, link] => far(alloc, network, processor, link),
        ["tree"] => tree(alloc, network, None),
        ["node", place] => node(alloc, network, place),
        _ => Err(Stop::BadCase),
    }
}

fn root(alloc: Global, network: &Network) -> Result<Vec<u8>, Stop> {
    let (processor, link) = network.root();
    Ok(format!(in alloc; "{processor} {link}")?.into_bytes())
}

fn node(alloc: Global, network: &Network, place: &str) -> Result<Vec<u8>, Stop> {
    tree(alloc, network, Some(number(place)?))
}

fn size(alloc: Global, network: &Network, processor: &str) -> Result<Vec<u8>, Stop> {
    let processor = number(processor)?;
    if processor >= network.count() {
        return Err(Stop::BadCase);
    }
    Ok(network.size(processor).to_string(alloc)?.into_bytes())
}

/// What is at the far end of a link.
fn far(alloc: Global, network: &Network, processor: &str, link: &str) -> Result<Vec<u8>, Stop> {
    let (processor, link) = (number(processor)?, number(link)?);
    if processor >= network.count() || link >= 4 {
        return Err(Stop::BadCase);
    }
    match network.far(processor, link as u8) {
        Far::Nothing => said(alloc, "nothing"),
        Far::Host => said(alloc, "the host"),
        Far::Link(other, end) => Ok(format!(in alloc; "{other} {end}")?.into_bytes()),
    }
}

/// How many nodes the load tree has, or the node at a place.
fn tree(alloc: Global, network: &Network, place: Option<u32>) -> Result<Vec<u8>, Stop> {
    let nodes = match load_tree(alloc, network) {
        Ok(tree) => tree.nodes,
        Err(TreeFault::Unreachable(processor)) => {
            return Ok(format!(in alloc; "unreachable {processor}")?.into_bytes());
        }
        Err(TreeFault::NoMemory) => return Err(Stop::NoMemory),
    };
    match place {
        None => Ok(format!(in alloc; "{} nodes", nodes.len())?.into_bytes()),
        Some(place) => match nodes.get(place as usize) {
            Some(node) => node_text(alloc, node),
            None => said(alloc, "none"),
        },
    }
}

/// A node: its processor, its parent with the link that leads to it, its boot link, and its children.
fn node_text(alloc: Global, node: &TreeNode) -> Result<Vec<u8>, Stop> {
    let (processor, boot_link) = (node.processor, node.boot_link);
    let mut text = match node.parent {
        Some(parent) => {
            let link = node.parent_link;
            format!(in alloc; "{processor} from {parent} by {link} boot {boot_link} to")?
        }
        None => format!(in alloc; "{processor} from the host boot {boot_link} to")?,
    };
    for child in node.children.iter() {
        text.push(' ')?;
        text.push_str(child.to_string(alloc)?.as_str())?;
    }
    Ok(text.into_bytes())
}
