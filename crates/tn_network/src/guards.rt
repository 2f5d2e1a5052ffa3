ghost use Rattle.std.specs.Prelude.{◌≡◌, ◌≤◌, [], length, IfOk};
ghost use Rattle.tn_text.specs.declared.limits.TheConstants.{PROCESSOR_LIMIT};
ghost use Rattle.tn_network.specs.GuardedBoards.{guarded_nodes, guarded_wired, AreQuiet};

use crate::boards::{Board, NoMemory};
use std::alloc::AllocError;
use tn_mem::{CodeFree, Memory};
use tn_node::Node;

/// Boards in which regions of addresses are guarded.
impl Board<Memory> {
    /// An equal board over copies of the memories, in each of which the addresses from the first of a
    /// region up to, but not including, the second are guarded.
    pub(crate) fn guarded(&self, regions: &[(u32, u32)]) -> Result<Board<CodeFree>, NoMemory>
        requires regions { length regions.now ≡ length self.now.state.nodes }
        requires quiet { AreQuiet self.now.state.nodes }
        ensures { IfOk result (λ board. board ≡ guarded_wired regions.now self.now) }
    {
        let Ok(wiring) = self.wiring.copied() else {
            return Err(NoMemory);
        };
        let Ok(latches) = copied_latches(&self.latches) else {
            return Err(NoMemory);
        };
        let Ok(host) = self.host.copied() else {
            return Err(NoMemory);
        };
        let copies = Vec::new(*self.nodes.allocator());
        let nodes = guarded_nodes(copies, &self.nodes, regions)?;
        Ok(Board {
            wiring,
            nodes,
            latches,
            host,
        })
    }
}

/// Equal latches.
fn copied_latches(latches: &Vec<Option<u8>>) -> Result<Vec<Option<u8>>, AllocError>
    ensures { IfOk result (λ copy. copy.items ≡ latches.now.items) }
{
    latches.clone()
}

/// The nodes over copies of their memories, each with a region that is guarded.
fn guarded_nodes(
    empty: Vec<Node<CodeFree>>,
    nodes: &[Node<Memory>],
    regions: &[(u32, u32)],
) -> Result<Vec<Node<CodeFree>>, NoMemory>
    requires empty { empty.items ≡ [] }
    requires few { length nodes.now ≤ PROCESSOR_LIMIT }
    requires regions { length regions.now ≡ length nodes.now }
    requires quiet { AreQuiet nodes.now }
    ensures { IfOk result (λ copies. copies.items ≡ guarded_nodes regions.now nodes.now) }
{
    let mut copies = empty;
    for p in 0..nodes.len() {
        let (from, to) = regions[p];
        let Ok(copy) = nodes[p].guarded(from, to) else {
            return Err(NoMemory);
        };
        if copies.push(copy).is_err() {
            return Err(NoMemory);
        }
    }
    Ok(copies)
}
