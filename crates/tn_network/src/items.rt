ghost use Rattle.std.specs.Prelude.{◌≡◌, true, false};
ghost use Rattle.tn_isa.specs.OperandRegister.{IsCoded};
ghost use Rattle.tn_network.specs.declared.picks.Pick.TheVariants as pick;
ghost use Rattle.tn_network.specs.Boards.{at_node};
ghost use Rattle.tn_network.specs.NodeOps.{node_ops};
ghost use Rattle.tn_network.specs.Items.{item_ops};
ghost use Rattle.tn_network.specs.Steps.{made_by_pick, after_pick};
ghost use Rattle.tn_network.specs.Locality.{IsLocal};

use crate::boards::Board;
use tn_isa::Fun;
use tn_mem::Space;
use tn_node::Made;

/// Whole instructions.
impl<M: Space> Board<M> {
    /// Executes a whole instruction on the processor `p`, which runs, where `following` is the address
    /// of the next one, and answers what the node answers. No other node, no latch and nothing of the
    /// host changes.
    pub fn run_item(
        &mut self,
        p: u32,
        fun: Fun,
        operand: u32,
        following: u32,
        slice: bool,
        clock: u32,
    ) -> Made
        requires running { at_node false (node_ops M.access).runs self.old.state.nodes p ≡ true }
        requires coded { IsCoded fun }
        ensures made { result ≡ made_by_pick (item_ops M.access fun operand following) (pick.Proc p slice clock) self.old.state }
        ensures state { self.new ≡ after_pick (item_ops M.access fun operand following) (pick.Proc p slice clock) self.old }
        ensures local { IsLocal self.old.network (pick.Proc p slice clock) self.old.state self.new.state }
    {
        self.nodes[p as usize].run_item(fun, operand, following, slice, clock)
    }
}
