ghost use Rattle.std.specs.Prelude.{◌≡◌, IsTrue};
ghost use Rattle.std.specs.List.{list_all};
ghost use Rattle.tn_net.specs.RawNetworks.{raw_of};
ghost use Rattle.tn_net.specs.Lines.{IsAdmitted};
ghost use Rattle.tn_machine_cases.specs.Admission.{has_size, has_links, is_apart, are_apart, host_fits, passes};

use std::alloc::Global;
use tn_mem::{MEMORY_SIZE_LEAST, MEMORY_SIZE_MOST};
use tn_net::RawNetwork;
use tn_tables::{Case, Stop, number};
use tn_text::Name;

/// A wire of a description: name and link of the one end and of the other, and its line.
type Wire = (Name, u8, Name, u8, u32);

/// What the lines of a case describe; those that ask of it are passed over.
pub fn description(alloc: Global, case: &Case<'_>) -> Result<RawNetwork, Stop> {
    let mut raw = RawNetwork {
        names: Vec::new(alloc),
        host: None,
        wires: Vec::new(alloc),
        lines: 0,
    };
    for line in case.lines.iter() {
        if line.wanted.is_none() {
            add(&mut raw, line.words.as_slice())?;
        }
    }
    Ok(raw)
}

fn add(raw: &mut RawNetwork, words: &[&str]) -> Result<(), Stop> {
    match words {
        ["processor", name, size, line] => {
            let processor = (name_of(name)?, number(size)?, number(line)?);
            Ok(raw.names.push(processor)?)
        }
        ["host", name, link, line] => {
            raw.host = Some((name_of(name)?, link_of(link)?, number(line)?));
            Ok(())
        }
        ["wire", ends @ .., line] => Ok(raw.wires.push(wire_of(ends, number(line)?)?)?),
        ["lines", count] => {
            raw.lines = number(count)?;
            Ok(())
        }
        _ => Err(Stop::BadCase),
    }
}

fn wire_of(ends: &[&str], line: u32) -> Result<Wire, Stop> {
    match ends {
        [one, from, two, to] => {
            let (from, to) = (link_of(from)?, link_of(to)?);
            Ok((name_of(one)?, from, name_of(two)?, to, line))
        }
        _ => Err(Stop::BadCase),
    }
}

fn name_of(word: &str) -> Result<Name, Stop> {
    Name::of(word.as_bytes()).ok_or(Stop::BadCase)
}

fn link_of(word: &str) -> Result<u8, Stop> {
    word.parse::<u8>().ok().ok_or(Stop::BadCase)
}

/// Whether a description may be checked.
pub fn is_admitted(raw: &RawNetwork) -> bool
    ensures { IsTrue result → IsAdmitted (raw_of raw.now) }
{
    if raw.names.len() > 64 || raw.wires.len() >= 1 << 30 {
        return false;
    }
    if raw.lines == u32::MAX {
        return false;
    }
    passes(raw)
}

fn passes(raw: &RawNetwork) -> bool
    ensures { result ≡ passes (raw_of raw.now) }
{
    have_sizes(&raw.names)
        && (have_links(&raw.wires) && (are_apart(&raw.wires) && host_fits(&raw.host, &raw.wires)))
}

fn have_sizes(names: &[(Name, u32, u32)]) -> bool
    ensures { result ≡ list_all has_size names.now }
{
    names.iter().all(|processor| MEMORY_SIZE_LEAST <= processor.1
        && (processor.1 <= MEMORY_SIZE_MOST && processor.1 % 4 == 0))
}

fn have_links(wires: &[Wire]) -> bool
    ensures { result ≡ list_all has_links wires.now }
{
    wires.iter().all(|wire| wire.1 <= 3 && wire.3 <= 3)
}

fn is_apart(number: u32, wires: &[Wire]) -> bool
    ensures { result ≡ is_apart number wires.now }
{
    wires.iter().all(|wire| !(wire.4 == number))
}

fn are_apart(wires: &[Wire]) -> bool
    ensures { result ≡ are_apart wires.now }
{
    match wires {
        [] => true,
        [wire, rest @ ..] => is_apart(wire.4, rest) && are_apart(rest),
    }
}

fn host_fits(host: &Option<(Name, u8, u32)>, wires: &[Wire]) -> bool
    ensures { result ≡ host_fits host.now wires.now }
{
    match host {
        None => true,
        Some(host) => host.1 <= 3 && is_apart(host.2, wires),
    }
}
