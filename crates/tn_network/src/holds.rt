ghost use Rattle.std.specs.Prelude.{◌≡◌, ◌<◌, ◌&&◌, true, false, length, IfOk};
ghost use Rattle.tn_network.specs.Holds.{entry_of};
ghost use Rattle.tn_network.specs.NodeOps.{stands_at};

use crate::boards::is_running;
use std::alloc::{AllocError, Global};
use std::marker::Model;
use tn_mem::Space;
use tn_node::Node;

/// The entries at which the processors are held, and whether they still are.
#[derive(Drop)]
pub struct Holds {
    entries: Vec<u32>,
    held: bool,
}

impl Model for Holds {
    ghost use Rattle.tn_network.specs.Holds.{HoldState};

    ghost Value = { HoldState };

    ghost view = { λ h. record { entries = h.entries.items; held = h.held } };
}

impl Holds {
    /// Processors that are held at these entries.
    pub fn at(alloc: Global, entries: &[u32]) -> Result<Holds, AllocError>
        ensures { IfOk result (λ holds. holds ≡ record { entries = entries.now; held = true }) }
    {
        let entries = Vec::from_slice(alloc, entries)?;
        Ok(Holds {
            entries,
            held: true,
        })
    }

    /// Whether processors are held.
    pub fn held(&self) -> bool
        ensures { result ≡ self.now.held }
    {
        self.held
    }

    /// Holds none any more.
    pub fn release(&mut self)
        ensures { self.new ≡ record self.old { held = false } }
    {
        self.held = false;
    }

    /// Whether processor `p`, of this node, is held.
    pub fn holds<M: Space>(&self, p: u32, node: &Node<M>) -> bool
        requires { p < length self.now.entries }
        ensures { result ≡ (self.now.held && stands_at (entry_of self.now p) node.now) }
    {
        self.held && stands_at(self.entries[p as usize], node)
    }
}

/// Whether a node stands at an entry.
fn stands_at<M: Space>(entry: u32, node: &Node<M>) -> bool
    ensures { result ≡ stands_at entry node.now }
{
    let registers = node.cpu().view();
    is_running(node.mode()) && registers.iptr == entry && registers.oreg == 0
}
