ghost use Rattle.std.specs.Prelude.{◌≡◌};
ghost use Rattle.tn_isa.specs.OperandRegister.{IsCoded};
ghost use Rattle.tn_cpu.specs.OutcomeLaws.{OpensLink};
ghost use Rattle.tn_node.specs.declared.modes.Mode.TheVariants as mode;
ghost use Rattle.tn_node.specs.declared.modes.Stage.TheVariants as stage;
ghost use Rattle.tn_node.specs.Nodes.{mode_of, IsNode};
ghost use Rattle.tn_node.specs.Runs.{busy, with_outcome, made_by, ended, node_step, node_item_step};

use crate::engines::{Engine, bit_of};
use crate::modes::Made;
use crate::nodes::Node;
use tn_cpu::Outcome;
use tn_isa::Fun;
use tn_mem::Space;

/// Steps of the processor.
impl<M: Space> Node<M> {
    /// Executes the instruction byte at the instruction pointer. `slice` lets another process take
    /// its turn at `j` and `lend`, and `clock` is what `ldtimer` pushes. It answers whether the byte
    /// was a prefix or the last of an instruction.
    #[tactic(auto, unfolding(crate::specs::Runs::node_step))]
    pub fn run(&mut self, slice: bool, clock: u32) -> Made
        requires { mode_of self.old ≡ mode.Running }
        ensures state { self.new ≡ ended (node_step M.access slice clock self.old) self.old }
        ensures node { IsNode self.new }
        ensures made { result ≡ made_by (node_step M.access slice clock self.old).outcome }
    {
        let busy = self.busy();
        let outcome = self.cpu.step(busy, slice, clock);
        self.open(outcome);
        made_by(outcome)
    }

    /// Executes a whole instruction, where `following` is the address of the next one.
    #[tactic(auto, unfolding(crate::specs::Runs::node_item_step))]
    pub fn run_item(
        &mut self,
        fun: Fun,
        operand: u32,
        following: u32,
        slice: bool,
        clock: u32,
    ) -> Made
        requires running { mode_of self.old ≡ mode.Running }
        requires coded { IsCoded fun }
        ensures state { self.new ≡ ended (node_item_step M.access fun operand following slice clock self.old) self.old }
        ensures node { IsNode self.new }
        ensures made { result ≡ made_by (node_item_step M.access fun operand following slice clock self.old).outcome }
    {
        let busy = self.busy();
        let outcome = self
            .cpu
            .execute(fun, operand, following, busy, slice, clock);
        self.open(outcome);
        made_by(outcome)
    }

    /// Bit l for an open input engine of link l, bit 4 + l for an open output engine.
    fn busy(&self) -> u8
        ensures { result ≡ busy self.now }
    {
        let [a, b, c, d] = self.inputs;
        let [e, f, g, h] = self.outputs;
        let inputs = bit_of(1, a) + bit_of(2, b) + bit_of(4, c) + bit_of(8, d);
        let outputs = bit_of(16, e) + bit_of(32, f) + bit_of(64, g) + bit_of(128, h);
        inputs + outputs
    }

    /// Opens the engine that an instruction asked for.
    fn open(&mut self, outcome: Outcome)
        requires outcome { OpensLink outcome }
        requires stage { self.old.stage ≡ stage.Over }
        ensures state { self.new ≡ with_outcome outcome self.old }
        ensures node { IsNode self.new }
    {
        match outcome {
            Outcome::OpensIn(transfer) => {
                self.inputs[usize::from(transfer.link)] = Some(Engine::open(transfer));
            }
            Outcome::OpensOut(transfer) => {
                self.outputs[usize::from(transfer.link)] = Some(Engine::open(transfer));
            }
            Outcome::Prefix => {}
            Outcome::Ran => {}
            Outcome::Stopped(_) => {}
        }
    }
}

/// What a step with this outcome was.
fn made_by(outcome: Outcome) -> Made
    ensures { result ≡ made_by outcome }
{
    match outcome {
        Outcome::Prefix => Made::Prefix,
        Outcome::Ran => Made::Whole,
        Outcome::OpensIn(_) => Made::Whole,
        Outcome::OpensOut(_) => Made::Whole,
        Outcome::Stopped(_) => Made::Whole,
    }
}
