ghost use Rattle.std.specs.Prelude.{◌≤◌, length};
ghost use Rattle.tn_text.specs.declared.limits.TheConstants.{PROCESSOR_LIMIT};
ghost use Rattle.tn_net.specs.Lines.{IsAdmitted};
ghost use Rattle.tn_config.specs.Configurations.{config_of};
ghost use Rattle.tn_config.specs.Networks.{described};

use crate::faults::fault_line;
use std::alloc::Global;
use tn_config::{Block, Config, WireLine, raw_network, read_config, write_config};
use tn_net::{Network, TreeFault, load_tree};
use tn_tables::{Case, Line, Report, Stop, number, said};
use tn_text::limits::PROCESSOR_LIMIT;
use tn_text::{Cause, Detail, FaultCode, FileName, Name, ReadFault};

/// Runs a case of the table of configurations. Each line adds its text to that of the first.
pub fn run_case(alloc: Global, case: &Case<'_>, report: &mut Report) -> Result<(), Stop> {
    for line in case.lines.iter() {
        match line.words.as_slice() {
            ["text"] => {}
            _ => {
                let came = answer(alloc, case, line);
                report.answer(alloc, case.name, line, came)?;
            }
        }
    }
    Ok(())
}

/// What a line asks about the configuration, or the fault of its text.
fn answer(alloc: Global, case: &Case<'_>, line: &Line<'_>) -> Result<Vec<u8>, Stop> {
    let text = text_of(alloc, case, line)?;
    if text.len() >= 0x4000_0000 {
        return Err(Stop::BadCase);
    }
    match read_config(alloc, &text) {
        Ok(config) => answer_of(alloc, &config, line.words.as_slice()),
        Err(ReadFault::Fault(fault)) => fault_line(alloc, &fault),
        Err(ReadFault::NoMemory) => Err(Stop::NoMemory),
    }
}

/// The text of the case, and that below the line, unless this is what is to come.
fn text_of(alloc: Global, case: &Case<'_>, line: &Line<'_>) -> Result<Vec<u8>, Stop> {
    let mut text = Vec::from_slice(alloc, first_text(case))?;
    if line.wanted.is_some() {
        text.extend_from_slice(&line.bytes)?;
    }
    Ok(text)
}

fn first_text<'a>(case: &'a Case<'_>) -> &'a [u8] {
    match case.lines.first() {
        Some(first) if first.words.as_slice() == ["text"].as_slice() => first.bytes.as_slice(),
        _ => &[],
    }
}

fn answer_of(alloc: Global, config: &Config, words: &[&str]) -> Result<Vec<u8>, Stop>
    requires { length config.now.blocks.items ≤ PROCESSOR_LIMIT → IsAdmitted (described (config_of config.now)) }
{
    match words {
        ["read"] => counts(alloc, config),
        [what, place] => block_answer(alloc, config, what, place),
        ["host"] => host(alloc, config),
        ["wires"] => wires(alloc, &config.wires),
        ["written"] => written(alloc, config),
        ["network"] => network(alloc, config),
        _ => Err(Stop::BadCase),
    }
}

/// What a line asks of a block.
fn block_answer(alloc: Global, config: &Config, what: &str, place: &str) -> Result<Vec<u8>, Stop> {
    let block = block_at(config, place)?;
    match what {
        "block" => addresses(alloc, block),
        "lines" => lines(alloc, block),
        "files" => files(alloc, block),
        "args" => args(alloc, &block.args),
        _ => Err(Stop::BadCase),
    }
}

fn written(alloc: Global, config: &Config) -> Result<Vec<u8>, Stop> {
    Ok(write_config(alloc, config)?)
}

fn block_at<'a>(config: &'a Config, place: &str) -> Result<&'a Block, Stop> {
    let place = number(place)?;
    config.blocks.get(place as usize).ok_or(Stop::BadCase)
}

fn counts(alloc: Global, config: &Config) -> Result<Vec<u8>, Stop> {
    let blocks = config.blocks.len();
    let wires = config.wires.len();
    let lines = config.lines;
    Ok(format!(in alloc; "{blocks} processors, {wires} wires, {lines} lines")?.into_bytes())
}

/// The name and the size, the addresses of code and data, the workspace, and the entry.
fn addresses(alloc: Global, block: &Block) -> Result<Vec<u8>, Stop> {
    let mut text = begun(alloc, &block.name)?;
    push_number(alloc, &mut text, block.size)?;
    push_word(alloc, &mut text, block.code)?;
    push_word(alloc, &mut text, block.cells)?;
    push_word(alloc, &mut text, block.wptr)?;
    push_number(alloc, &mut text, block.below)?;
    push_number(alloc, &mut text, block.above)?;
    push_name(alloc, &mut text, &block.entry)?;
    Ok(text.into_bytes())
}

/// The lines of `processor`, `code`, `data`, `workspace` and `entry`.
fn lines(alloc: Global, block: &Block) -> Result<Vec<u8>, Stop> {
    let lines = &block.lines;
    let mut text = lines.processor.to_string(alloc)?;
    push_number(alloc, &mut text, lines.code)?;
    push_number(alloc, &mut text, lines.cells)?;
    push_number(alloc, &mut text, lines.workspace)?;
    push_number(alloc, &mut text, lines.entry)?;
    Ok(text.into_bytes())
}

/// The modules, and the libraries behind a `|`.
fn files(alloc: Global, block: &Block) -> Result<Vec<u8>, Stop> {
    let mut text = String::new(alloc);
    push_files(&mut text, &block.modules)?;
    text.push_str(" |")?;
    push_files(&mut text, &block.libraries)?;
    said(alloc, text.as_str().trim())
}

fn push_files(text: &mut String, files: &[FileName]) -> Result<(), Stop> {
    for file in files {
        text.push(' ')?;
        text.push_str(file.text())?;
    }
    Ok(())
}

fn args(alloc: Global, words: &[u32]) -> Result<Vec<u8>, Stop> {
    let mut text = String::new(alloc);
    for word in words {
        push_word(alloc, &mut text, *word)?;
    }
    said(alloc, text.as_str().trim())
}

/// The end that the host has, and the line.
fn host(alloc: Global, config: &Config) -> Result<Vec<u8>, Stop> {
    let Some(host) = config.host else {
        return said(alloc, "none");
    };
    let mut text = begun(alloc, &host.name)?;
    push_number(alloc, &mut text, u32::from(host.link))?;
    push_number(alloc, &mut text, host.line)?;
    Ok(text.into_bytes())
}

/// The ends and the line of each wire, with `|` behind it.
fn wires(alloc: Global, wires: &[WireLine]) -> Result<Vec<u8>, Stop> {
    let mut text = String::new(alloc);
    for wire in wires {
        push_name(alloc, &mut text, &wire.one)?;
        push_number(alloc, &mut text, u32::from(wire.one_link))?;
        push_name(alloc, &mut text, &wire.two)?;
        push_number(alloc, &mut text, u32::from(wire.two_link))?;
        push_number(alloc, &mut text, wire.line)?;
        text.push_str(" |")?;
    }
    said(alloc, text.as_str().trim())
}

/// How many nodes the load tree of the network has, or the first fault.
fn network(alloc: Global, config: &Config) -> Result<Vec<u8>, Stop>
    requires { length config.now.blocks.items ≤ PROCESSOR_LIMIT → IsAdmitted (described (config_of config.now)) }
{
    if config.blocks.len() > PROCESSOR_LIMIT {
        return Err(Stop::BadCase);
    }
    let raw = raw_network(alloc, config)?;
    match Network::check(alloc, &raw) {
        Ok(network) => tree(alloc, config, &network),
        Err(ReadFault::Fault(fault)) => fault_line(alloc, &fault),
        Err(ReadFault::NoMemory) => Err(Stop::NoMemory),
    }
}

fn tree(alloc: Global, config: &Config, network: &Network) -> Result<Vec<u8>, Stop> {
    match load_tree(alloc, network) {
        Ok(tree) => {
            let nodes = tree.nodes.len();
            Ok(format!(in alloc; "{nodes} nodes")?.into_bytes())
        }
        Err(TreeFault::Unreachable(place)) => unreachable_line(alloc, config, place as usize),
        Err(TreeFault::NoMemory) => Err(Stop::NoMemory),
    }
}

/// The fault of a processor that no path reaches: it is told at its line.
fn unreachable_line(alloc: Global, config: &Config, place: usize) -> Result<Vec<u8>, Stop> {
    let block = config.blocks.get(place).ok_or(Stop::BadCase)?;
    let cause = Cause {
        code: FaultCode::Unreachable,
        detail: Detail::Named(block.name),
    };
    fault_line(alloc, &cause.at(block.lines.processor))
}

/// A text that begins with a name.
fn begun(alloc: Global, name: &Name) -> Result<String, Stop> {
    Ok(format!(in alloc; "{name:?}")?)
}

fn push_name(alloc: Global, text: &mut String, name: &Name) -> Result<(), Stop> {
    text.push_str(format!(in alloc; " {name:?}")?.as_str())?;
    Ok(())
}

fn push_number(alloc: Global, text: &mut String, number: u32) -> Result<(), Stop> {
    text.push_str(format!(in alloc; " {number}")?.as_str())?;
    Ok(())
}

fn push_word(alloc: Global, text: &mut String, word: u32) -> Result<(), Stop> {
    text.push_str(format!(in alloc; " #{word:08X}")?.as_str())?;
    Ok(())
}
