ghost use Rattle.std.specs.Prelude.{◌≡◌, ◌+◌, ◌*◌, true, length, Some, is_ok, IfOk, OnErr};
ghost use Rattle.tn_network.specs.declared.picks.Pick.TheVariants as pick;
ghost use Rattle.tn_network.specs.NodeOps.{node_ops};
ghost use Rattle.tn_network.specs.Steps.{ready, made_by_pick, after_pick};
ghost use Rattle.tn_network.specs.Steps.{latched, host_latched, nodes_acknowledged, host_acknowledged};
ghost use Rattle.tn_network.specs.Locality.{IsLocal};
ghost use Rattle.tn_network.specs.Inner.FarEnds.{EndsIn, Awaits};

use crate::boards::Board;
use crate::hosts::Host;
use crate::picks::{NotEnabled, Pick};
use tn_mem::Space;
use tn_net::Far;
use tn_node::{Made, Node};

/// Picks.
impl<M: Space> Board<M> {
    /// The board after a pick, and whether the pick was a prefix byte, the last byte of an
    /// instruction, or a step of a link or of the host. `NotEnabled` comes exactly where the pick is
    /// not enabled, and then nothing changes. A pick changes its own processor, the other end of one
    /// wire, and the host alone.
    pub fn apply(&mut self, pick: Pick) -> Result<Made, NotEnabled>
        ensures enabled { is_ok result ≡ ready (node_ops M.access) self.old.network self.old.state pick }
        ensures made { IfOk result (λ made. made ≡ made_by_pick (node_ops M.access) pick self.old.state) }
        ensures state { IfOk result (λ _. self.new ≡ after_pick (node_ops M.access) pick self.old) }
        ensures local { IfOk result (λ _. IsLocal self.old.network pick self.old.state self.new.state) }
        ensures refused { OnErr result (self.new ≡ self.old) }
    {
        if !self.ready(pick) {
            return Err(NotEnabled);
        }
        Ok(self.step(pick))
    }

    /// The board after a pick that is enabled.
    pub(crate) fn step(&mut self, pick: Pick) -> Made
        requires { ready (node_ops M.access) self.old.network self.old.state pick ≡ true }
        ensures made { result ≡ made_by_pick (node_ops M.access) pick self.old.state }
        ensures state { self.new ≡ after_pick (node_ops M.access) pick self.old }
    {
        match pick {
            Pick::HostSend => self.host_send(),
            Pick::HostTake => self.host_take(),
            Pick::Proc(p, slice, clock) => self.run(p, slice, clock),
            Pick::Send(p, l) => self.send(p, l),
            Pick::Take(p, l) => self.take(p, l),
        }
    }

    /// The host sends its next byte.
    fn host_send(&mut self) -> Made
        requires { ready (node_ops M.access) self.old.network self.old.state pick.HostSend ≡ true }
        ensures made { result ≡ made_by_pick (node_ops M.access) pick.HostSend self.old.state }
        ensures state { self.new ≡ after_pick (node_ops M.access) pick.HostSend self.old }
    {
        let (root, link) = self.wiring.root();
        let byte = self.host.send();
        self.latches[place(root, link)] = Some(byte);
        Made::Link
    }

    /// The host takes the byte in its latch.
    fn host_take(&mut self) -> Made
        requires { ready (node_ops M.access) self.old.network self.old.state pick.HostTake ≡ true }
        ensures made { result ≡ made_by_pick (node_ops M.access) pick.HostTake self.old.state }
        ensures state { self.new ≡ after_pick (node_ops M.access) pick.HostTake self.old }
    {
        let (root, link) = self.wiring.root();
        self.host.take();
        self.nodes[root as usize].acknowledge(link);
        Made::Link
    }

    /// A processor executes one instruction byte.
    fn run(&mut self, p: u32, slice: bool, clock: u32) -> Made
        requires { ready (node_ops M.access) self.old.network self.old.state (pick.Proc p slice clock) ≡ true }
        ensures made { result ≡ made_by_pick (node_ops M.access) (pick.Proc p slice clock) self.old.state }
        ensures state { self.new ≡ after_pick (node_ops M.access) (pick.Proc p slice clock) self.old }
    {
        self.nodes[p as usize].run(slice, clock)
    }

    /// A processor sends the byte that it offers on a link.
    fn send(&mut self, p: u32, l: u8) -> Made
        requires { ready (node_ops M.access) self.old.network self.old.state (pick.Send p l) ≡ true }
        ensures made { result ≡ made_by_pick (node_ops M.access) (pick.Send p l) self.old.state }
        ensures state { self.new ≡ after_pick (node_ops M.access) (pick.Send p l) self.old }
    {
        let far = self.wiring.far(p, l);
        let node = &mut self.nodes[p as usize];
        let byte = node.offers(l).unwrap_or(0);
        node.mark_sent(l);
        put(&mut self.latches, &mut self.host, far, byte);
        Made::Link
    }

    /// A processor takes the byte in the latch of a link, and the sender notes the acknowledge.
    fn take(&mut self, p: u32, l: u8) -> Made
        requires { ready (node_ops M.access) self.old.network self.old.state (pick.Take p l) ≡ true }
        ensures made { result ≡ made_by_pick (node_ops M.access) (pick.Take p l) self.old.state }
        ensures state { self.new ≡ after_pick (node_ops M.access) (pick.Take p l) self.old }
    {
        let far = self.wiring.far(p, l);
        let at = place(p, l);
        let byte = self.latches[at].unwrap_or(0);
        self.latches[at] = None;
        self.nodes[p as usize].take(l, byte);
        acknowledge(&mut self.nodes, &mut self.host, far);
        Made::Link
    }
}

/// A byte goes to a far end, into the latch there.
fn put(latches: &mut Vec<Option<u8>>, host: &mut Host, far: Far, byte: u8)
    requires { EndsIn (length latches.old.items) far }
    ensures latches { latches.new.items ≡ latched far (Some byte) latches.old.items }
    ensures host { host.new ≡ host_latched far (Some byte) host.old }
{
    match far {
        Far::Nothing => {}
        Far::Host => host.put(byte),
        Far::Link(q, m) => latches[place(q, m)] = Some(byte),
    }
}

/// The sender at a far end notes the acknowledge of its byte.
#[tactic(auto, using(crate::proofs::NodeLists::changed_at))]
fn acknowledge<M: Space>(nodes: &mut Vec<Node<M>>, host: &mut Host, far: Far)
    requires { Awaits (node_ops M.access) nodes.old.items far }
    ensures nodes { nodes.new.items ≡ nodes_acknowledged (node_ops M.access) far nodes.old.items }
    ensures host { host.new ≡ host_acknowledged far host.old }
{
    match far {
        Far::Nothing => {}
        Far::Host => host.acknowledge(),
        Far::Link(q, m) => nodes[q as usize].acknowledge(m),
    }
}

/// Where the latch of a link stands.
fn place(p: u32, l: u8) -> usize
    ensures { result ≡ 4 * p + l }
{
    4 * p as usize + usize::from(l)
}
