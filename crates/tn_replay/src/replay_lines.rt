ghost use Rattle.std.specs.Prelude.{◌≡◌, ℕ, ◌+◌, ◌<◌, ◌≤◌, ◌^◌, ◌++◌, ◌&&◌, [], List, length, slice_get, slice_index_or};
ghost use Rattle.std.specs.Prelude.{Some, None, Ok, Err, if◌then◌else◌, IfOk, OnOk, OnErr};
ghost use Rattle.tn_stream.specs.Images.{images_of};
ghost use Rattle.tn_node.specs.Nodes.{mode_of};
ghost use Rattle.tn_network.specs.Boards.{given};
ghost use Rattle.tn_load.specs.LoadTests.{is_loaded};
ghost use Rattle.tn_load.specs.Targets.{targets_of};
ghost use Rattle.tn_sym.specs.ProgramStates.{program_of};
ghost use Rattle.tn_schedule.specs.Schedules.{IsPlaced};
ghost use Rattle.tn_replay.specs.PrintedLines.{has_pointers, host_line, got_line};
ghost use Rattle.tn_replay.specs.Replays.{Known, symbol_in, state_text, link_text, links_text, word_text_of, going_text, same_text};
ghost use Rattle.tn_replay.specs.ReplayEnds.{IsKnownOf};
ghost use Rattle.tn_replay.specs.Inner.LineEnds.{state_of, LineEnds};
ghost use Rattle.tn_replay.specs.Inner.Lookups.{known_in};

use crate::lookups::Lookup;
use crate::printed_lines::{
    has_pointers, put, put_got, put_host, put_link, put_settled, put_state, put_steps, put_stopped,
    put_word,
};
use crate::steps::{pick_beside, settle_beside};
use std::alloc::{AllocError, Global};
use tn_list::symbol_of;
use tn_load::loaded;
use tn_mem::{Memory, Space};
use tn_network::{Net, Pick};
use tn_node::Node;
use tn_schedule::Act;
use tn_stream::Image;
use tn_sym::{Program, SymNet};
use tn_text::Name;

/// Why a line of a schedule did not pass.
#[derive(Clone, Copy)]
pub enum LineFault {
    /// Its pick, or its release, is not enabled.
    NotEnabled,
    /// The output did not take all of its text.
    Out,
    NoMemory,
}

/// Does what a line says, puts what it prints behind a text, and answers how many picks were made by
/// then, where so many were before. It never answers `Out`.
pub fn do_line(
    alloc: Global,
    lookup: &Lookup,
    act: Act,
    net: &mut Net,
    symbolic: &mut Option<SymNet>,
    steps: u64,
    text: &mut Vec<u8>,
) -> Result<u64, LineFault>
    requires wires { net.old.board.network ≡ lookup.now.network.now }
    requires known { IsKnownOf net.old.board.network (known_in lookup.now) }
    requires placed { IsPlaced (length lookup.now.names.now) act }
    requires room { steps + 2 ^ 32 < 2 ^ 64 }
    ensures ends { LineEnds (known_in lookup.now) act (state_of net.old symbolic.old steps) net.new symbolic.new
        text.old.items text.new.items result }
    ensures few { IfOk result (λ made. made ≤ steps + 2 ^ 32) }
{
    match act {
        Act::Pick(pick) => do_pick(net, symbolic, pick, steps),
        Act::Settle(most, back) => do_settle(alloc, net, symbolic, most, back, steps, text),
        Act::Release => do_release(alloc, lookup, net, symbolic, steps),
        Act::Show(p) => told(steps, show(alloc, lookup, net, p, text)),
        Act::Links(p) => told(steps, put_links(alloc, net, lookup.names, p, text)),
        Act::Word(p, address) => told(steps, put_loaded(net, lookup.names, p, address, text)),
        Act::Host => told(steps, put_hosted(alloc, net, text)),
        Act::Got(place) => told(steps, put_kept(alloc, net, place, text)),
        Act::Steps => told(steps, put_steps(alloc, steps, text)),
        Act::Same => told(steps, put_same(lookup.names, symbolic, text)),
    }
}

/// Makes a pick.
fn do_pick(
    net: &mut Net,
    symbolic: &mut Option<SymNet>,
    pick: Pick,
    steps: u64,
) -> Result<u64, LineFault>
    requires { steps + 2 ^ 32 < 2 ^ 64 }
    ensures ends { (k : Known) (text : List ℕ) → LineEnds k (Act.Pick pick) (state_of net.old symbolic.old steps) net.new symbolic.new
        text text result }
    ensures few { IfOk result (λ made. made ≤ steps + 2 ^ 32) }
{
    match pick_beside(net, symbolic, pick) {
        Ok(()) => Ok(steps + 1),
        Err(_) => Err(LineFault::NotEnabled),
    }
}

/// Settles the network, and puts whether it rests and how many picks were made.
fn do_settle(
    alloc: Global,
    net: &mut Net,
    symbolic: &mut Option<SymNet>,
    most: u32,
    back: bool,
    steps: u64,
    text: &mut Vec<u8>,
) -> Result<u64, LineFault>
    requires { steps + 2 ^ 32 < 2 ^ 64 }
    ensures ends { (k : Known) → LineEnds k (Act.Settle most back) (state_of net.old symbolic.old steps) net.new symbolic.new
        text.old.items text.new.items result }
    ensures few { IfOk result (λ made. made ≤ steps + 2 ^ 32) }
{
    let (made, rest) = settle_beside(net, symbolic, most, back);
    match put_settled(alloc, rest, made, text) {
        Ok(()) => Ok(steps + made),
        Err(_) => Err(LineFault::NoMemory),
    }
}

/// Lifts the hold of a network that is held and loaded. There the symbolic network of its programs begins.
fn do_release(
    alloc: Global,
    lookup: &Lookup,
    net: &mut Net,
    symbolic: &mut Option<SymNet>,
    steps: u64,
) -> Result<u64, LineFault>
    requires wires { net.old.board.network ≡ lookup.now.network.now }
    requires known { IsKnownOf net.old.board.network (known_in lookup.now) }
    ensures ends { (text : List ℕ) → LineEnds (known_in lookup.now) Act.Release (state_of net.old symbolic.old steps)
        net.new symbolic.new text text result }
    ensures few { IfOk result (λ made. made ≡ steps) }
{
    if !may_release(net, lookup.images) {
        return Err(LineFault::NotEnabled);
    }
    match SymNet::begin(alloc, net, lookup.network, lookup.programs, lookup.images) {
        Ok(begun) => {
            net.release();
            put_beside(symbolic, begun);
            Ok(steps)
        }
        Err(_) => Err(LineFault::NoMemory),
    }
}

/// Puts a symbolic network that begins beside the network.
fn put_beside(symbolic: &mut Option<SymNet>, begun: SymNet)
    ensures { symbolic.new ≡ Some begun }
{
    *symbolic = Some(begun);
}

/// Whether the network is held and loaded.
fn may_release(net: &Net, images: &[Image]) -> bool
    requires { length images.now ≡ length net.now.board.network.sizes }
    ensures { result ≡ (net.now.holds.held && is_loaded net.now.board.state (targets_of (images_of images.now))) }
{
    net.held() && is_loaded(net, images)
}

/// Whether the network is loaded.
fn is_loaded(net: &Net, images: &[Image]) -> bool
    requires { length images.now ≡ length net.now.board.network.sizes }
    ensures { result ≡ is_loaded net.now.board.state (targets_of (images_of images.now)) }
{
    let _count = net.board().count();
    loaded(net, images)
}

/// The answer of a line that prints.
fn told(steps: u64, put: Result<(), AllocError>) -> Result<u64, LineFault>
    ensures ok { OnOk put (result ≡ Ok steps) }
    ensures err { OnErr put (result ≡ Err LineFault.NoMemory) }
{
    match put {
        Ok(()) => Ok(steps),
        Err(_) => Err(LineFault::NoMemory),
    }
}

/// Puts the line of a processor's state.
fn show(
    alloc: Global,
    lookup: &Lookup,
    net: &Net,
    p: u32,
    text: &mut Vec<u8>,
) -> Result<(), AllocError>
    requires names { length lookup.now.names.now ≡ length net.now.board.network.sizes }
    requires programs { length lookup.now.programs.now ≡ length net.now.board.network.sizes }
    requires placed { p < length lookup.now.names.now }
    ensures { OnOk result (text.new.items ≡ text.old.items ++ state_text (known_in lookup.now) net.now p
        (slice_get net.now.board.state.nodes p)) }
{
    let _count = net.board().count();
    let node = net.node(p);
    let symbol = symbol_of_node(&lookup.programs[p as usize], node);
    put_state(alloc, &lookup.names[p as usize], symbol, node, text)
}

/// The label that the instruction pointer belongs to, where it is that of a program.
fn symbol_of_node(program: &Program, node: &Node<Memory>) -> Option<(Name, u32)>
    ensures { result ≡ (if has_pointers (mode_of node.now) then symbol_in (Some (program_of program.now)) node.now.cpu.iptr else None) }
{
    if has_pointers(node.mode()) {
        symbol_in(program, node.cpu().view().iptr)
    } else {
        None
    }
}

/// The label of a program that an address belongs to.
fn symbol_in(program: &Program, address: u32) -> Option<(Name, u32)>
    ensures { result ≡ symbol_in (Some (program_of program.now)) address }
{
    let _base = program.linked.code_base;
    symbol_of(&program.linked, &program.chosen, address)
}

/// Puts the lines of a processor's links.
fn put_links(
    alloc: Global,
    net: &Net,
    names: &[Name],
    p: u32,
    text: &mut Vec<u8>,
) -> Result<(), AllocError>
    requires names { length names.now ≡ length net.now.board.network.sizes }
    requires placed { p < length names.now }
    ensures { (k : Known) → k.names ≡ names.now → OnOk result (text.new.items ≡ text.old.items
        ++ links_text k net.now p (slice_get net.now.board.state.nodes p)) }
{
    put_link_of(alloc, net, names, p, 0, text)?;
    put_link_of(alloc, net, names, p, 1, text)?;
    put_link_of(alloc, net, names, p, 2, text)?;
    put_link_of(alloc, net, names, p, 3, text)
}

/// Puts the line of a link of a processor.
fn put_link_of(
    alloc: Global,
    net: &Net,
    names: &[Name],
    p: u32,
    l: u8,
    text: &mut Vec<u8>,
) -> Result<(), AllocError>
    requires names { length names.now ≡ length net.now.board.network.sizes }
    requires placed { p < length names.now }
    requires link { l < 4 }
    ensures { (k : Known) → k.names ≡ names.now → OnOk result (text.new.items ≡ text.old.items
        ++ given [] (λ node. link_text k net.now p node l) (slice_get net.now.board.state.nodes p)) }
{
    let _count = net.board().count();
    let link = net.node(p).link(l);
    let latch = net.latch(p, l);
    put_link(alloc, &names[p as usize], l, link, latch, text)
}

/// Puts the line of a word of a processor's memory.
fn put_loaded(
    net: &Net,
    names: &[Name],
    p: u32,
    address: u32,
    text: &mut Vec<u8>,
) -> Result<(), AllocError>
    requires names { length names.now ≡ length net.now.board.network.sizes }
    requires placed { p < length names.now }
    ensures { (k : Known) → k.names ≡ names.now → OnOk result (text.new.items ≡ text.old.items
        ++ word_text_of k p address (slice_get net.now.board.state.nodes p)) }
{
    let _count = net.board().count();
    let word = net.node(p).cpu().memory().word(address);
    put_word(&names[p as usize], address, word, text)
}

/// Puts the line of the host.
fn put_hosted(alloc: Global, net: &Net, text: &mut Vec<u8>) -> Result<(), AllocError>
    ensures { OnOk result (text.new.items ≡ text.old.items
        ++ host_line (length net.now.board.state.host.left) (length net.now.board.state.host.kept)) }
{
    put_host(alloc, net.host_left(), net.host_got().len() as u64, text)
}

/// Puts the line of a byte that the host got.
fn put_kept(alloc: Global, net: &Net, place: u32, text: &mut Vec<u8>) -> Result<(), AllocError>
    ensures { OnOk result (text.new.items ≡ text.old.items ++ got_line place (slice_get net.now.board.state.host.kept place)) }
{
    put_got(alloc, place, byte_at(net.host_got(), place as usize), text)
}

/// The byte at a place, if there is one.
fn byte_at(bytes: &[u8], place: usize) -> Option<u8>
    ensures { result ≡ slice_get bytes.now place }
{
    bytes.get(place).copied()
}

/// Puts how the symbolic network goes on, or that there is none yet.
fn put_same(names: &[Name], symbolic: &Option<SymNet>, text: &mut Vec<u8>) -> Result<(), AllocError>
    ensures { (k : Known) → k.names ≡ names.now → OnOk result (text.new.items ≡ text.old.items ++ same_text k symbolic.now) }
{
    match symbolic {
        None => put(b"held\n", text),
        Some(symbolic) => put_going(names, symbolic, text),
    }
}

/// Puts how the symbolic network goes on. As long as it has not stopped it is in the state of the network:
/// that is proved, so nothing is compared here.
fn put_going(names: &[Name], symbolic: &SymNet, text: &mut Vec<u8>) -> Result<(), AllocError>
    ensures { (k : Known) → k.names ≡ names.now → OnOk result (text.new.items ≡ text.old.items ++ going_text k symbolic.now.stop) }
{
    match symbolic.stop() {
        Some((p, why)) => put_stopped(name_at(names, p), why, text),
        None => put(b"same\n", text),
    }
}

/// The name of a processor, or none where there is no such processor.
fn name_at(names: &[Name], p: u32) -> &[u8]
    ensures { result.now ≡ slice_index_or names.now p [] }
{
    match names.get(p as usize) {
        Some(name) => name.bytes(),
        None => b"",
    }
}
