ghost use Rattle.std.specs.Prelude.{◌≡◌, ℕ, ◌<◌, ◌↔◌, IsTrue, is_ok, map, length, slice_get, Some, IfOk, OnErr};
ghost use Rattle.tn_net.specs.Networks.{IsEnd};
ghost use Rattle.tn_network.specs.Boards.{latch_at};
ghost use Rattle.tn_network.specs.Steps.{made_by_pick};
ghost use Rattle.tn_network.specs.Resets.{power_of, AreSized, reset_net};
ghost use Rattle.tn_network.specs.Locality.{IsLocal};
ghost use Rattle.tn_network.specs.PickLists.{AtRest, first_pick};
ghost use Rattle.tn_network.specs.GuardedBoards.{guarded_wired, AreQuiet};
ghost use Rattle.tn_network.specs.Nets.{memory_ops, net_enabled, net_after, released};

use crate::bits::{WORD_BITS, edge_bit, first_bit, has_bit, no_bits};
use crate::boards::{Board, NoMemory};
use crate::holds::Holds;
use crate::numbers::{first_number, number_of, numbered};
use crate::picks::{NotEnabled, Pick};
use crate::powers::{Power, powered_nodes};
use crate::renewals::{renew_all, renew_touched};
use std::alloc::Global;
use std::marker::Model;
use tn_mem::{CodeFree, Memory};
use tn_net::Network;
use tn_node::{Made, Node};

/// A network of processors. Until the release each is held at its entry: it makes no step while it
/// stands there.
#[derive(Drop)]
pub struct Net {
    board: Board<Memory>,
    holds: Holds,
    words: Vec<u64>,
}

impl Model for Net {
    ghost use Rattle.tn_network.specs.Nets.{NetState};
    ghost use Rattle.tn_network.specs.Inner.PickBits.{IsNet};

    ghost Value = { NetState };

    ghost view = { λ n. record { board = n.board; holds = n.holds } };

    ghost invariant = { λ n. IsNet n.words.items (record { board = n.board; holds = n.holds }) };
}

impl Net {
    /// A network after power-up: every processor is in reset, with the memory, Error and HaltOnError
    /// of its power, and will be held at its entry. All latches are empty, and the host has these bytes
    /// to send. There is one power for each processor, of as many bytes as its memory has, and one
    /// entry. All memory is taken here, that of all bytes which the host keeps included.
    pub fn reset(
        alloc: Global,
        network: &Network,
        powers: Vec<Power>,
        host: Vec<u8>,
        holds: &[u32],
    ) -> Result<Net, NoMemory>
        requires powers { AreSized (map power_of powers.items) network.now }
        requires holds { length holds.now ≡ length network.now.sizes }
        ensures { IfOk result (λ net. net ≡ reset_net network.now (map power_of powers.items) host.items holds.now) }
    {
        let nodes = powered_nodes(alloc, network, powers)?;
        let board = Board::new(alloc, network, nodes, host)?;
        let Ok(holds) = Holds::at(alloc, holds) else {
            return Err(NoMemory);
        };
        let count = first_number(network.count()) / WORD_BITS + 1;
        let Ok(mut words) = no_bits(alloc, count) else {
            return Err(NoMemory);
        };
        renew_all(&mut words, &board, &holds);
        Ok(Net {
            board,
            holds,
            words,
        })
    }

    /// Whether a pick is enabled. One of a processor or a link that is not there never is.
    pub fn enabled(&self, pick: Pick) -> bool
        ensures { result ≡ net_enabled self.now pick }
    {
        match number_of(self.board.count(), pick) {
            Some(number) => has_bit(&self.words, number),
            None => false,
        }
    }

    /// The network after a pick, and whether the pick was a prefix byte, the last byte of an
    /// instruction, or a step of a link or of the host. `NotEnabled` comes exactly where the pick is
    /// not enabled, and then nothing changes. A pick changes its own processor, the other end of one
    /// wire, and the host alone.
    pub fn apply(&mut self, pick: Pick) -> Result<Made, NotEnabled>
        ensures enabled { is_ok result ≡ net_enabled self.old pick }
        ensures made { IfOk result (λ made. made ≡ made_by_pick memory_ops pick self.old.board.state) }
        ensures state { IfOk result (λ _. self.new ≡ net_after pick self.old) }
        ensures local { IfOk result (λ _. IsLocal self.old.board.network pick self.old.board.state self.new.board.state) }
        ensures refused { OnErr result (self.new ≡ self.old) }
    {
        if !self.enabled(pick) {
            return Err(NotEnabled);
        }
        let (p, far) = self.board.ends(pick);
        let made = self.board.step(pick);
        renew_touched(&mut self.words, &self.board, &self.holds, p, far);
        Ok(made)
    }

    /// Whether no pick is enabled.
    pub fn at_rest(&self) -> bool
        ensures { IsTrue result ↔ AtRest memory_ops self.now.board.network self.now.holds self.now.board.state }
    {
        first_bit(&self.words).is_none()
    }

    /// The pick that is enabled and comes first: the host sends, the host takes, and then for each
    /// processor it steps, with no timeslice and clock 0, it sends on links 0 to 3, and it takes on links
    /// 0 to 3. With `back` it is the one that comes last. `None` comes exactly at rest.
    pub fn first(&self, back: bool) -> Option<Pick>
        ensures { result ≡ first_pick memory_ops self.now.board.network self.now.holds back self.now.board.state }
    {
        match edge_bit(&self.words, back) {
            Some(number) => Some(numbered(number)),
            None => None,
        }
    }

    /// Lifts the hold, for good.
    pub fn release(&mut self)
        ensures { self.new ≡ released self.old }
    {
        self.holds.release();
        renew_all(&mut self.words, &self.board, &self.holds);
    }

    /// Whether processors are held at their entries: exactly before the release.
    pub fn held(&self) -> bool
        ensures { result ≡ self.now.holds.held }
    {
        self.holds.held()
    }

    /// The node of a processor.
    pub fn node(&self, p: u32) -> &Node<Memory>
        requires { p < length self.now.board.state.nodes }
        ensures { slice_get self.now.board.state.nodes p ≡ Some result.now }
    {
        self.board.node(p)
    }

    /// What the latch of link `l` of processor `p` holds: `None` where it is empty.
    pub fn latch(&self, p: u32, l: u8) -> Option<u8>
        requires { IsEnd self.now.board.network p l }
        ensures { result ≡ latch_at self.now.board.state.latches p l }
    {
        self.board.latch(p, l)
    }

    /// How many bytes the host has left to send.
    pub fn host_left(&self) -> u64
        ensures { result ≡ length self.now.board.state.host.left }
    {
        self.board.host_left()
    }

    /// The bytes that the host has kept.
    pub fn host_got(&self) -> &[u8]
        ensures { result.now ≡ self.now.board.state.host.kept }
    {
        self.board.host_got()
    }

    /// The board, without the holds.
    pub fn board(&self) -> &Board<Memory>
        ensures { result.now ≡ self.now.board }
    {
        &self.board
    }

    /// An equal board over copies of the memories, without the holds, in which the addresses from the
    /// first of a region up to, but not including, the second are guarded: one region for each
    /// processor. All engines are closed.
    pub fn guarded(&self, regions: &[(u32, u32)]) -> Result<Board<CodeFree>, NoMemory>
        requires regions { length regions.now ≡ length self.now.board.state.nodes }
        requires quiet { AreQuiet self.now.board.state.nodes }
        ensures { IfOk result (λ board. board ≡ guarded_wired regions.now self.now.board) }
    {
        self.board.guarded(regions)
    }
}
