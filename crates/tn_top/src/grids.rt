ghost use Rattle.std.specs.Prelude.{◌≡◌, ◌≤◌, length, codes, IfOk};
ghost use Rattle.tn_text.specs.Puts.{Puts};
ghost use Rattle.tn_io.specs.MemStores.{files_of};
ghost use Rattle.tn_list.specs.Lists.{Lists};
ghost use Rattle.tn_list.specs.TreeTexts.{count_line};
ghost use Rattle.tn_system.specs.Systems.{system_of};
ghost use Rattle.tn_top.specs.GridPlans.{grid_files, rest_word, settle_line, summary_text, grid_text};
ghost use Rattle.tn_top.specs.Inner.Ends.{Shows};
ghost use Rattle.tn_top.specs.Inner.Systems.{IsLoadable};

use crate::refusals::Refusal;
use crate::started_nets::{settle_net, started_net};
use std::alloc::{AllocError, Global};
use tn_io::{FileText, Out, SafeStore};
use tn_list::{ListFault, Printed};
use tn_system::System;
use tn_text::{FileName, Put, PutRefused, put_spaced, put_spaced_decimal};

/// The name of the configuration of a grid.
pub fn grid_file() -> FileName
    ensures { result ≡ codes "grid.cfg" }
{
    FileName::of("grid.cfg").unwrap()
}

/// A store that holds the sources of a grid of `size` by `size` processors, and nothing else.
pub fn grid_store(alloc: Global, size: u32) -> Result<SafeStore, AllocError>
    requires least { 1 ≤ size }
    requires most { size ≤ 8 }
    ensures { IfOk result (λ own. own.files ≡ grid_files size) }
{
    let files = grid_files(alloc, size)?;
    Ok(SafeStore::new(files))
}

/// The sources of a grid, each with the name of its file.
#[tactic(auto, unfolding(crate::specs::GridPlans::grid_files))]
fn grid_files(alloc: Global, size: u32) -> Result<Vec<(FileText, Vec<u8>)>, AllocError>
    requires least { 1 ≤ size }
    requires most { size ≤ 8 }
    ensures { IfOk result (λ files. files_of files.items ≡ grid_files size) }
{
    let texts = tn_config::grid(alloc, size)?;
    let mut files = Vec::new(alloc);
    files.push((FileText::of("grid.cfg").unwrap(), texts.config))?;
    files.push((FileText::of("worker.tmod").unwrap(), texts.worker))?;
    files.push((FileText::of("fin.tlib").unwrap(), texts.library))?;
    Ok(files)
}

/// Loads the network of a grid's system, runs it, and prints what both come to, which ends the command.
pub fn print_grid<O: Out>(
    alloc: Global,
    size: u32,
    system: &System,
    out: &mut O,
) -> Result<(), Refusal>
    requires loadable { IsLoadable system.now }
    requires entries { length system.now.images.items ≡ length system.now.network.sizes }
    ensures shows { Shows (grid_text size (system_of system.now)) (O.printed out.old) (O.printed out.new) result }
    ensures goes_on { O.goes_on out.old out.new }
{
    let summary = grid_summary(alloc, size, system)?;
    match print_summary(&summary, out) {
        Ok(()) => Ok(()),
        Err(ListFault::Out) => Err(Refusal::Unprinted),
        Err(ListFault::NoMemory) => Err(Refusal::NoMemory),
    }
}

/// Loads the network of a grid's system, and runs it.
fn grid_summary(alloc: Global, size: u32, system: &System) -> Result<Summary, AllocError>
    requires loadable { IsLoadable system.now }
    requires entries { length system.now.images.items ≡ length system.now.network.sizes }
    ensures { IfOk result (λ s. summary_text s.size s.processors s.bytes s.load s.run ≡ grid_text size (system_of system.now)) }
{
    let mut net = started_net(alloc, system, (0, false, false))?;
    let bytes = net.host_left();
    let load = settle_net(&mut net);
    net.release();
    let run = settle_net(&mut net);
    Ok(Summary {
        size,
        processors: system.network.count(),
        bytes,
        load,
        run,
    })
}

/// What a grid comes to: how large it is, how many processors it has, how many bytes its stream has, and
/// for its loading and its run the steps and whether the network came to rest.
#[derive(Clone, Copy)]
pub struct Summary {
    pub size: u32,
    pub processors: u32,
    pub bytes: u64,
    pub load: (u64, bool),
    pub run: (u64, bool),
}

/// Prints what a grid comes to.
fn print_summary<O: Out>(summary: &Summary, out: &mut O) -> Result<(), ListFault>
    ensures lists { Lists (summary_text summary.now.size summary.now.processors summary.now.bytes summary.now.load summary.now.run)
        result (O.printed out.old) (O.printed out.new) }
    ensures goes_on { O.goes_on out.old out.new }
{
    put_summary(summary, &mut Printed { out })?;
    Ok(())
}

/// Puts the lines of what a grid comes to.
#[tactic(auto, unfolding(crate::specs::GridPlans::summary_text))]
fn put_summary<P: Put>(summary: &Summary, out: &mut P) -> Result<(), PutRefused>
    ensures puts { Puts (summary_text summary.now.size summary.now.processors summary.now.bytes summary.now.load summary.now.run)
        result (P.taken out.old) (P.taken out.new) }
    ensures goes_on { P.goes_on out.old out.new }
{
    put_count(b"grid", u64::from(summary.size), out)?;
    put_count(b"processors", u64::from(summary.processors), out)?;
    put_count(b"stream", summary.bytes, out)?;
    put_settled(b"load", summary.load, out)?;
    put_settled(b"run", summary.run, out)
}

/// Puts a line of a word and a number.
#[tactic(auto, unfolding(tn_list::specs::TreeTexts::count_line))]
fn put_count<P: Put>(word: &[u8], number: u64, out: &mut P) -> Result<(), PutRefused>
    ensures puts { Puts (count_line word.now number) result (P.taken out.old) (P.taken out.new) }
    ensures goes_on { P.goes_on out.old out.new }
{
    out.put(word)?;
    put_spaced_decimal(number, out)?;
    out.put(b"\n")
}

/// Puts a line of a word, a number of steps, and whether a network came to rest.
#[tactic(auto, unfolding(crate::specs::GridPlans::settle_line))]
fn put_settled<P: Put>(word: &[u8], came: (u64, bool), out: &mut P) -> Result<(), PutRefused>
    ensures puts { Puts (settle_line word.now came) result (P.taken out.old) (P.taken out.new) }
    ensures goes_on { P.goes_on out.old out.new }
{
    out.put(word)?;
    put_spaced_decimal(came.0, out)?;
    put_spaced(rest_word(came.1), out)?;
    out.put(b"\n")
}

/// The word of whether a network came to rest.
#[tactic(auto, unfolding(crate::specs::GridPlans::rest_word))]
fn rest_word(rested: bool) -> &'static [u8]
    ensures { result.now ≡ rest_word rested }
{
    if rested { b"rest" } else { b"budget" }
}
