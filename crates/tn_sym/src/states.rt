ghost use Rattle.std.specs.Prelude.{◌≡◌, ◌↔◌, ℕ, ◌*◌, ◌<◌, [], length, slice_get, Some, IsTrue};
ghost use Rattle.tn_node.specs.Nodes.{IsNode, mode_of};
ghost use Rattle.tn_sym.specs.Symbolic.{instruction_at};
ghost use Rattle.tn_sym.specs.Same.{HasRead, StandsWithin, StandsAlike, Stands, SameNode, Same};
ghost use Rattle.tn_sym.specs.Inner.Stops.{symbolic_of};
ghost use Rattle.tn_sym.specs.Inner.Comparisons.{SameEngines, SameIn, SameAt, strayed_mode, mode_by, seen_mode};

use crate::codes::{Code, Instruction};
use crate::comparing::{
    part, register_after, same_bytes, same_engine, same_expects, same_latch, same_memory,
    same_mode, same_registers,
};
use crate::nets::SymNet;
use tn_cpu::{CpuView, Why};
use tn_mem::{CodeFree, Memory};
use tn_network::{Board, Net, Pick};
use tn_node::{Mode, Node};

/// Whether a network and a symbolic one are in the same state: the host, all latches, engines, modes and
/// registers are the same, and all memory where there is no code; the code is whole in the network's
/// memories; and a processor that stands at an instruction in the one has read a part of it in the other.
pub fn same(net: &Net, symbolic: &SymNet) -> bool
    ensures { IsTrue result ↔ Same net.now.board.state symbolic.now }
{
    same_boards(net.board(), &symbolic.board, &symbolic.codes, symbolic.stop)
}

/// The same, where the symbolic network is of these parts.
fn same_boards(
    board: &Board<Memory>,
    other: &Board<CodeFree>,
    codes: &[Code],
    stop: Option<(u32, Why)>,
) -> bool
    requires codes { length codes.now ≡ length other.now.state.nodes }
    requires spent { other.now.state.host.left ≡ [] }
    ensures { IsTrue result ↔ Same board.now.state (symbolic_of other.now codes.now stop) }
{
    let _board = board.ready(Pick::HostSend);
    let _other = other.ready(Pick::HostSend);
    if board.count() != other.count() {
        return false;
    }
    if !same_host(board, other) {
        return false;
    }
    if !same_latches(board, other) {
        return false;
    }
    same_nodes(board, other, codes, stop)
}

/// Whether the hosts are the same, where that of the symbolic network has nothing to send.
fn same_host(board: &Board<Memory>, other: &Board<CodeFree>) -> bool
    requires { other.now.state.host.left ≡ [] }
    ensures { IsTrue result ↔ (board.now.state.host ≡ other.now.state.host) }
{
    board.host_left() == 0
        && board.host_sent() == other.host_sent()
        && same_latch(board.host_latch(), other.host_latch())
        && same_bytes(board.host_got(), other.host_got())
}

/// Whether the latches of all links are the same.
fn same_latches(board: &Board<Memory>, other: &Board<CodeFree>) -> bool
    requires count { length board.now.network.sizes ≡ length other.now.network.sizes }
    requires one { length board.now.state.latches ≡ 4 * length board.now.network.sizes }
    requires two { length other.now.state.latches ≡ 4 * length other.now.network.sizes }
    ensures { IsTrue result ↔ (board.now.state.latches ≡ other.now.state.latches) }
{
    for k in 0..4 * board.count() {
        let (p, l) = (k / 4, (k % 4) as u8);
        if !same_latch(board.latch(p, l), other.latch(p, l)) {
            return false;
        }
    }
    true
}

/// Whether the nodes of all processors are the same.
fn same_nodes(
    board: &Board<Memory>,
    other: &Board<CodeFree>,
    codes: &[Code],
    stop: Option<(u32, Why)>,
) -> bool
    requires nodes { length board.now.state.nodes ≡ length other.now.state.nodes }
    requires codes { length codes.now ≡ length other.now.state.nodes }
    ensures { IsTrue result ↔ ((p : ℕ) → SameAt board.now.state (symbolic_of other.now codes.now stop) p) }
{
    for p in 0..board.count() {
        if !same_at(board, other, codes, stop, p) {
            return false;
        }
    }
    true
}

/// Whether the nodes of a processor are the same.
fn same_at(
    board: &Board<Memory>,
    other: &Board<CodeFree>,
    codes: &[Code],
    stop: Option<(u32, Why)>,
    p: u32,
) -> bool
    requires here { p < length board.now.state.nodes }
    requires there { p < length other.now.state.nodes }
    requires code { p < length codes.now }
    ensures { IsTrue result ↔ SameAt board.now.state (symbolic_of other.now codes.now stop) p }
{
    let symbolic = other.node(p);
    let mode = seen_mode(stop, p, symbolic.mode());
    same_node(board.node(p), symbolic, mode, &codes[p as usize])
}

/// Whether two nodes are the same, where the symbolic one is in this mode.
fn same_node(node: &Node<Memory>, other: &Node<CodeFree>, mode: Mode, code: &Code) -> bool
    ensures { IsTrue result ↔ SameIn mode code.now node.now other.now }
{
    let _other = other.mode();
    if !same_mode(node.mode(), mode) {
        return false;
    }
    if !same_expects(node.expects(), other.expects()) {
        return false;
    }
    if !same_engines(node, other) {
        return false;
    }
    let (one, two) = (node.cpu(), other.cpu());
    if !same_registers(one, two) {
        return false;
    }
    if !stands(mode, code, one.view(), two.view()) {
        return false;
    }
    same_memory(code, one.memory().bytes(), two.memory().memory().bytes())
}

/// Whether the engines of all links are the same.
fn same_engines(node: &Node<Memory>, other: &Node<CodeFree>) -> bool
    requires one { IsNode node.now }
    requires two { IsNode other.now }
    ensures { IsTrue result ↔ SameEngines node.now other.now }
{
    for l in 0..4 {
        let (one, two) = (node.link(l), other.link(l));
        if !same_engine(one.input, two.input) {
            return false;
        }
        if !same_engine(one.output, two.output) {
            return false;
        }
    }
    true
}

/// Whether a processor stands where a symbolic one in a mode does.
fn stands(mode: Mode, code: &Code, one: CpuView, other: CpuView) -> bool
    ensures { IsTrue result ↔ Stands mode code.now (record { iptr = one.iptr; oreg = one.oreg })
        (record { iptr = other.iptr; oreg = other.oreg }) }
{
    match mode {
        Mode::Running => other.oreg == 0 && stands_within(code, one, other),
        Mode::Idle => other.oreg == 0 && stands_alike(one, other),
        Mode::Reset => stands_alike(one, other),
        Mode::Poking => stands_alike(one, other),
        Mode::Peeking => stands_alike(one, other),
        Mode::Replying => stands_alike(one, other),
        Mode::Booting => stands_alike(one, other),
        Mode::Stopped(_) => stands_alike(one, other),
    }
}

fn stands_alike(one: CpuView, other: CpuView) -> bool
    ensures { IsTrue result ↔ StandsAlike (record { iptr = one.iptr; oreg = one.oreg }) (record { iptr = other.iptr; oreg = other.oreg }) }
{
    one.iptr == other.iptr && one.oreg == other.oreg
}

/// Whether a processor has read a part of the instruction at which the symbolic one stands.
fn stands_within(code: &Code, one: CpuView, other: CpuView) -> bool
    ensures { IsTrue result ↔ StandsWithin code.now (instruction_at code.now other.iptr) (record { iptr = one.iptr; oreg = one.oreg })
        (record { iptr = other.iptr; oreg = other.oreg }) }
{
    match code.instruction_at(other.iptr) {
        Some(i) => has_read(code, i, one, other),
        None => true,
    }
}

fn has_read(code: &Code, i: Instruction, one: CpuView, other: CpuView) -> bool
    ensures { IsTrue result ↔ HasRead code.now i (record { iptr = one.iptr; oreg = one.oreg })
        (record { iptr = other.iptr; oreg = other.oreg }) }
{
    if one.iptr < other.iptr {
        return false;
    }
    let read = one.iptr - other.iptr;
    let at = i.address.saturating_sub(code.base());
    let register = register_after(part(code.bytes(), at as usize, read as usize));
    read < i.size && one.oreg == register
}

/// The mode that is seen of a processor that is in a mode, behind a stop.
fn seen_mode(stop: Option<(u32, Why)>, p: u32, mode: Mode) -> Mode
    ensures { result ≡ seen_mode stop p mode }
{
    match stop {
        Some((q, why)) => mode_by(why, q == p, mode),
        None => mode,
    }
}

fn mode_by(why: Why, here: bool, mode: Mode) -> Mode
    ensures { result ≡ mode_by why here mode }
{
    match why {
        Why::Stray => { if here { strayed_mode(mode) } else { mode } }
        Why::Undefined => mode,
        Why::Outside => mode,
        Why::Code => mode,
        Why::Halted => mode,
        Why::BadOp => mode,
    }
}

fn strayed_mode(mode: Mode) -> Mode
    ensures { result ≡ strayed_mode mode }
{
    match mode {
        Mode::Running => Mode::Stopped(Why::Stray),
        Mode::Reset => Mode::Reset,
        Mode::Poking => Mode::Poking,
        Mode::Peeking => Mode::Peeking,
        Mode::Replying => Mode::Replying,
        Mode::Booting => Mode::Booting,
        Mode::Idle => Mode::Idle,
        Mode::Stopped(why) => Mode::Stopped(why),
    }
}
