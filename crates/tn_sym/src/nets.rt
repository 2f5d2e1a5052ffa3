ghost use Rattle.std.specs.Prelude.{◌≡◌, ◌+◌, ◌*◌, ◌<◌, ◌^◌, true, length, Some, None, is_ok, IfSome, OnOk, OnErr};
ghost use Rattle.tn_cpu.specs.declared.outcomes.Why.TheVariants as why;
ghost use Rattle.tn_net.specs.Networks.{far_at};
ghost use Rattle.tn_node.specs.Nodes.{mode_of};
ghost use Rattle.tn_network.specs.declared.picks.Pick.TheVariants as pick;
ghost use Rattle.tn_network.specs.Boards.{at_node};
ghost use Rattle.tn_network.specs.NodeOps.{node_ops};
ghost use Rattle.tn_network.specs.Steps.{ready, after_pick};
ghost use Rattle.tn_network.specs.Locality.{actor, other_end};
ghost use Rattle.tn_mem.specs.Guards.{guarded};
ghost use Rattle.tn_sym.specs.Symbolic.{code_at, instruction_at, symbolic_ops, stop_in, stop_at, stop_there, stop_by};
ghost use Rattle.tn_sym.specs.Symbolic.{symbolic_enabled, symbolic_after};
ghost use Rattle.tn_sym.specs.Inner.Tables.{IsRunnable};
ghost use Rattle.tn_sym.specs.Inner.Stops.{IsSymbolic, seen_board};

use crate::codes::{Code, Instruction};
use std::marker::Model;
use tn_cpu::Why;
use tn_mem::CodeFree;
use tn_net::Far;
use tn_network::{Board, NotEnabled, Pick};
use tn_node::Mode;

/// Memory cannot be had.
#[derive(Clone, Copy)]
pub struct NoMemory;

/// The symbolic network: the nodes of a loaded network as they execute whole instructions of their
/// programs, over memories in which no access may meet the code. It ends with the first processor that
/// stops.
#[derive(Drop)]
pub struct SymNet {
    pub(crate) board: Board<CodeFree>,
    pub(crate) codes: Vec<Code>,
    pub(crate) fars: Vec<Far>,
    pub(crate) root: u32,
    pub(crate) stop: Option<(u32, Why)>,
}

impl Model for SymNet {
    ghost use Rattle.tn_sym.specs.Symbolic.{SymbolicState};
    ghost use Rattle.tn_sym.specs.Inner.Stops.{symbolic_of, IsSymbolic};

    ghost Value = { SymbolicState };

    ghost view = { λ s. symbolic_of s.board s.codes.items s.stop };

    ghost invariant = { λ s. IsSymbolic s.board s.codes.items s.fars.items s.root };
}

impl SymNet {
    /// The processor that stopped first, and why. `None` exactly before that stop.
    pub fn stop(&self) -> Option<(u32, Why)>
        ensures { result ≡ self.now.stop }
    {
        self.stop
    }

    /// The network after a pick: a step of a processor is the whole instruction that begins at its
    /// instruction pointer. `NotEnabled` comes exactly where a processor has stopped or the pick is not
    /// enabled, and then nothing changes.
    pub fn apply(&mut self, pick: Pick) -> Result<(), NotEnabled>
        ensures enabled { is_ok result ≡ symbolic_enabled self.old pick }
        ensures state { OnOk result (self.new ≡ symbolic_after pick self.old) }
        ensures refused { OnErr result (self.new ≡ self.old) }
    {
        if self.stop.is_some() || !self.board.ready(pick) {
            return Err(NotEnabled);
        }
        self.stop = act(&mut self.board, &self.codes, &self.fars, self.root, pick);
        Ok(())
    }
}

/// A pick for which a board is ready, and the stop that it brings.
fn act(
    board: &mut Board<CodeFree>,
    codes: &[Code],
    fars: &[Far],
    root: u32,
    pick: Pick,
) -> Option<(u32, Why)>
    requires parts { IsSymbolic board.old codes.now fars.now root }
    requires enabled { ready (node_ops guarded) board.old.network board.old.state pick ≡ true }
    ensures parts { IsSymbolic board.new codes.now fars.now root }
    ensures board { seen_board result board.new ≡ after_pick (symbolic_ops codes.now) pick board.old }
    ensures stop { result ≡ stop_by board.old.network pick (after_pick (symbolic_ops codes.now) pick board.old).state }
{
    match pick {
        Pick::Proc(p, slice, clock) => execute(board, codes, p, slice, clock),
        Pick::HostSend | Pick::HostTake | Pick::Send(_, _) | Pick::Take(_, _) => {
            pass(board, fars, root, pick)
        }
    }
}

/// A processor, which runs, executes the whole instruction that begins at its instruction pointer. Where
/// none begins there it stops as stray, and the board is as before.
fn execute(
    board: &mut Board<CodeFree>,
    codes: &[Code],
    p: u32,
    slice: bool,
    clock: u32,
) -> Option<(u32, Why)>
    requires count { length codes.now ≡ length board.old.state.nodes }
    requires enabled { ready (node_ops guarded) board.old.network board.old.state (pick.Proc p slice clock) ≡ true }
    ensures count { length board.new.state.nodes ≡ length board.old.state.nodes }
    ensures network { board.new.network ≡ board.old.network }
    ensures host { board.new.state.host ≡ board.old.state.host }
    ensures board { seen_board result board.new ≡ after_pick (symbolic_ops codes.now) (pick.Proc p slice clock) board.old }
    ensures stop { result ≡ stop_by board.old.network (pick.Proc p slice clock)
        (after_pick (symbolic_ops codes.now) (pick.Proc p slice clock) board.old).state }
{
    let iptr = board.node(p).cpu().view().iptr;
    match codes[p as usize].instruction_at(iptr) {
        Some(i) => {
            let _before = board.count();
            board.run_item(p, i.fun, i.operand, i.address + i.size, slice, clock);
            let _after = board.count();
            stop_at(board, p)
        }
        None => Some((p, Why::Stray)),
    }
}

/// A pick of a link or of the host.
fn pass(board: &mut Board<CodeFree>, fars: &[Far], root: u32, pick: Pick) -> Option<(u32, Why)>
    requires fars { fars.now ≡ board.old.network.fars }
    requires root { root ≡ board.old.network.root }
    requires enabled { ready (node_ops guarded) board.old.network board.old.state pick ≡ true }
    ensures count { length board.new.state.nodes ≡ length board.old.state.nodes }
    ensures board { board.new ≡ after_pick (node_ops guarded) pick board.old }
    ensures stop { result ≡ stop_by board.old.network pick (after_pick (node_ops guarded) pick board.old).state }
{
    let _before = board.count();
    let _made = board.apply(pick);
    let _after = board.count();
    match pick {
        Pick::HostSend | Pick::HostTake => stop_at(board, root),
        Pick::Proc(p, _, _) => stop_at(board, p),
        Pick::Send(p, l) | Pick::Take(p, l) => match stop_at(board, p) {
            Some(stop) => Some(stop),
            None => stop_there(board, far(fars, p, l)),
        },
    }
}

/// What is at the far end of a link.
fn far(fars: &[Far], p: u32, l: u8) -> Far
    ensures { (network : _) → fars.now ≡ network.fars → result ≡ far_at network p l }
{
    match fars.get(4 * p as usize + usize::from(l)) {
        Some(far) => *far,
        None => Far::Nothing,
    }
}

/// Why a processor has stopped, if it has.
fn stop_at(board: &Board<CodeFree>, p: u32) -> Option<(u32, Why)>
    ensures { result ≡ stop_at board.now.state.nodes p }
{
    if p < board.count() {
        stop_in(p, board.node(p).mode())
    } else {
        None
    }
}

/// The same of the processor at a far end.
fn stop_there(board: &Board<CodeFree>, far: Far) -> Option<(u32, Why)>
    ensures { result ≡ stop_there board.now.state.nodes far }
{
    match far {
        Far::Nothing => None,
        Far::Host => None,
        Far::Link(q, _) => stop_at(board, q),
    }
}

/// The stop that a mode is, if it is one.
fn stop_in(p: u32, mode: Mode) -> Option<(u32, Why)>
    ensures { result ≡ stop_in p mode }
{
    match mode {
        Mode::Stopped(why) => Some((p, why)),
        Mode::Reset => None,
        Mode::Poking => None,
        Mode::Peeking => None,
        Mode::Replying => None,
        Mode::Booting => None,
        Mode::Running => None,
        Mode::Idle => None,
    }
}
