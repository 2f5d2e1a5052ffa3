ghost use Rattle.std.specs.Prelude.{◌≡◌, ℕ, ◌<◌, ◌≤◌, ◌&&◌, true, false, is_some, length, slice_get, replicate, Some, None, IfOk, vec_len};
ghost use Rattle.tn_text.specs.declared.limits.TheConstants.{PROCESSOR_LIMIT};
ghost use Rattle.tn_net.specs.Networks.{IsEnd, far_at};
ghost use Rattle.tn_node.specs.Nodes.{NodeState, IsNode};
ghost use Rattle.tn_network.specs.Hosts.{host_sends, host_takes};
ghost use Rattle.tn_network.specs.Boards.{at_node, latch_at};
ghost use Rattle.tn_network.specs.NodeOps.{node_ops, is_running};
ghost use Rattle.tn_network.specs.Steps.{offered, is_wired, ready};
ghost use Rattle.tn_network.specs.Resets.{new_board};
ghost use Rattle.tn_network.specs.Locality.{actor, other_end};
ghost use Rattle.tn_network.specs.Wires.{IsBoard};
ghost use Rattle.tn_network.specs.Inner.PickBits.{IsAmong};

use crate::hosts::Host;
use crate::picks::Pick;
use crate::wirings::Wiring;
use std::alloc::{AllocError, Global};
use std::marker::Model;
use tn_mem::Space;
use tn_net::{Far, Network};
use tn_node::{Mode, Node};

/// Memory cannot be had.
#[derive(Clone, Copy)]
pub struct NoMemory;

/// The nodes of a network with the latches of their links, and the host. No processor is held.
#[derive(Drop)]
pub struct Board<M: Space> {
    pub(crate) wiring: Wiring,
    pub(crate) nodes: Vec<Node<M>>,
    pub(crate) latches: Vec<Option<u8>>,
    pub(crate) host: Host,
}

impl<M: Space> Model for Board<M> {
    ghost use Rattle.tn_node.specs.Nodes.{NodeState, IsNode};
    ghost use Rattle.tn_network.specs.Boards.{WiredBoard, board_of};
    ghost use Rattle.tn_network.specs.NodeOps.{node_ops};
    ghost use Rattle.tn_network.specs.Wires.{IsBoard};

    ghost Value = { WiredBoard (NodeState M) };

    ghost view = { λ b. record { network = b.wiring; state = board_of b.nodes.items b.latches.items b.host } };

    ghost invariant = { λ b. IsBoard (node_ops M.access) (λ n. IsNode n) b.wiring (board_of b.nodes.items b.latches.items b.host) };
}

impl<M: Space + Drop> Board<M> {
    /// A board on the wires of a network, of one node for each processor. All latches are empty, and
    /// the host has these bytes to send. Room for all that it keeps is taken.
    pub fn new(
        alloc: Global,
        network: &Network,
        nodes: Vec<Node<M>>,
        host: Vec<u8>,
    ) -> Result<Board<M>, NoMemory>
        requires { vec_len nodes ≡ length network.now.sizes }
        ensures { IfOk result (λ board. board ≡ record { network = network.now; state = new_board nodes.items host.items }) }
    {
        let Ok(wiring) = Wiring::of(alloc, network) else {
            return Err(NoMemory);
        };
        let Ok(latches) = empty_latches(alloc, 4 * nodes.len()) else {
            return Err(NoMemory);
        };
        let Ok(host) = Host::new(alloc, host) else {
            return Err(NoMemory);
        };
        each_is_node(&nodes);
        Ok(Board {
            wiring,
            nodes,
            latches,
            host,
        })
    }
}

impl<M: Space> Board<M> {
    /// The node of a processor.
    pub fn node(&self, p: u32) -> &Node<M>
        requires { p < length self.now.state.nodes }
        ensures { slice_get self.now.state.nodes p ≡ Some result.now }
    {
        &self.nodes[p as usize]
    }

    /// What the latch of link `l` of processor `p` holds: `None` where it is empty.
    pub fn latch(&self, p: u32, l: u8) -> Option<u8>
        requires { IsEnd self.now.network p l }
        ensures { result ≡ latch_at self.now.state.latches p l }
    {
        self.latches[4 * p as usize + usize::from(l)]
    }

    /// How many bytes the host has left to send.
    pub fn host_left(&self) -> u64
        ensures { result ≡ length self.now.state.host.left }
    {
        self.host.left()
    }

    /// The bytes that the host has kept.
    pub fn host_got(&self) -> &[u8]
        ensures { result.now ≡ self.now.state.host.kept }
    {
        self.host.kept()
    }

    /// Whether a byte of the host is not acknowledged.
    pub fn host_sent(&self) -> bool
        ensures { result ≡ self.now.state.host.sent }
    {
        self.host.sent()
    }

    /// What the latch of the host holds: `None` where it is empty.
    pub fn host_latch(&self) -> Option<u8>
        ensures { result ≡ self.now.state.host.latch }
    {
        self.host.latch()
    }

    /// Whether a pick is enabled. One of a processor or a link that is not there never is.
    pub fn ready(&self, pick: Pick) -> bool
        ensures value { result ≡ ready (node_ops M.access) self.now.network self.now.state pick }
        ensures board { IsBoard (node_ops M.access) (λ n. IsNode n) self.now.network self.now.state }
    {
        let _parts = &self.nodes;
        self.is_ready(pick)
    }

    /// Whether a pick is enabled.
    fn is_ready(&self, pick: Pick) -> bool
        ensures { result ≡ ready (node_ops M.access) self.now.network self.now.state pick }
    {
        match pick {
            Pick::HostSend => self.host.can_send(),
            Pick::HostTake => self.host.can_take(),
            Pick::Proc(p, _, _) => self.runs(p),
            Pick::Send(p, l) => l < 4 && self.can_send(p, l),
            Pick::Take(p, l) => l < 4 && self.can_take(p, l),
        }
    }

    /// The number of processors.
    pub fn count(&self) -> u32
        ensures value { result ≡ length self.now.state.nodes }
        ensures sizes { result ≡ length self.now.network.sizes }
        ensures few { result ≤ PROCESSOR_LIMIT }
    {
        self.wiring.count()
    }

    /// The processor that a pick is of, and what is at the other end of the wire that it uses.
    pub(crate) fn ends(&self, pick: Pick) -> (u32, Far)
        requires { ready (node_ops M.access) self.now.network self.now.state pick ≡ true }
        ensures value { result ≡ (actor self.now.network pick, other_end self.now.network pick) }
        ensures here { actor self.now.network pick < length self.now.state.nodes }
        ensures there { IsAmong (length self.now.state.nodes) (other_end self.now.network pick) }
    {
        match pick {
            Pick::HostSend => (self.wiring.root().0, Far::Host),
            Pick::HostTake => (self.wiring.root().0, Far::Host),
            Pick::Proc(p, _, _) => (p, Far::Nothing),
            Pick::Send(p, l) => (p, self.wiring.far(p, l)),
            Pick::Take(p, l) => (p, self.wiring.far(p, l)),
        }
    }

    /// Whether the host can send a byte.
    pub(crate) fn host_sends(&self) -> bool
        ensures { result ≡ host_sends self.now.state.host }
    {
        self.host.can_send()
    }

    /// Whether the host can take a byte.
    pub(crate) fn host_takes(&self) -> bool
        ensures { result ≡ host_takes self.now.state.host }
    {
        self.host.can_take()
    }

    /// Whether a processor runs.
    pub(crate) fn runs(&self, p: u32) -> bool
        ensures { result ≡ at_node false (node_ops M.access).runs self.now.state.nodes p }
    {
        match self.nodes.get(p as usize) {
            Some(node) => is_running(node.mode()),
            None => false,
        }
    }

    /// Whether a processor offers a byte on a link that is wired.
    pub(crate) fn can_send(&self, p: u32, l: u8) -> bool
        requires { l < 4 }
        ensures { result ≡ (is_some (offered (node_ops M.access) self.now.state.nodes p l) && is_wired (far_at self.now.network p l)) }
    {
        match self.nodes.get(p as usize) {
            Some(node) => node.offers(l).is_some() && is_wired(self.wiring.far(p, l)),
            None => false,
        }
    }

    /// Whether a processor wants the byte that the latch of a link holds.
    pub(crate) fn can_take(&self, p: u32, l: u8) -> bool
        requires { l < 4 }
        ensures { result ≡ (at_node false ((node_ops M.access).wants l) self.now.state.nodes p && is_some
            (latch_at self.now.state.latches p l)) }
    {
        match self.nodes.get(p as usize) {
            Some(node) => node.wants(l) && self.latches[4 * p as usize + usize::from(l)].is_some(),
            None => false,
        }
    }
}

/// Whether a mode is that of a processor that executes instructions.
pub(crate) fn is_running(mode: Mode) -> bool
    ensures { result ≡ is_running mode }
{
    match mode {
        Mode::Running => true,
        Mode::Reset => false,
        Mode::Poking => false,
        Mode::Peeking => false,
        Mode::Replying => false,
        Mode::Booting => false,
        Mode::Idle => false,
        Mode::Stopped(_) => false,
    }
}

/// Whether a wire leads to a far end.
fn is_wired(far: Far) -> bool
    ensures { result ≡ is_wired far }
{
    match far {
        Far::Nothing => false,
        Far::Host => true,
        Far::Link(_, _) => true,
    }
}

/// So many empty latches.
fn empty_latches(alloc: Global, count: usize) -> Result<Vec<Option<u8>>, AllocError>
    ensures { IfOk result (λ latches. latches.items ≡ replicate count None) }
{
    vec![in alloc; None; count]
}

/// Reads each node, so that what holds of every node is known of it.
fn each_is_node<M: Space>(nodes: &[Node<M>])
    ensures { (p : ℕ) (n : NodeState M) → slice_get nodes.now p ≡ Some n → IsNode n }
{
    for node in nodes {
        let _mode = node.mode();
    }
}
