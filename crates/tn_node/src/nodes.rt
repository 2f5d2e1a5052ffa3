ghost use Rattle.std.specs.Prelude.{◌≡◌, ◌<◌, IfOk};
ghost use Rattle.tn_node.specs.Engines.{engine_of};
ghost use Rattle.tn_node.specs.Nodes.{nothing_expected, reset_node, mode_of_life, mode_of, node_over, IsQuiet, IsNode};

use crate::engines::{Engine, LinkView};
use crate::modes::{Expects, Mode, Stage};
use std::marker::Model;
use tn_cpu::{Cpu, Life};
use tn_mem::{CodeFree, Memory, Space};

/// Memory cannot be had.
#[derive(Clone, Copy)]
pub struct NoMemory;

/// A bootstrap that expects nothing.
pub(crate) const NOTHING: Expects = Expects {
    link: 0,
    got: 0,
    left: 0,
    address: 0,
    word: 0,
    sent: false,
};

/// A T425 with its bootstrap and the engines of its links, without the latches.
#[derive(Drop)]
pub struct Node<M: Space> {
    pub(crate) cpu: Cpu<M>,
    pub(crate) stage: Stage,
    pub(crate) expects: Expects,
    pub(crate) inputs: [Option<Engine>; 4],
    pub(crate) outputs: [Option<Engine>; 4],
}

impl<M: Space> Model for Node<M> {
    ghost use Rattle.tn_node.specs.Nodes.{NodeState, IsNode, node_of};

    ghost Value = { NodeState M };

    ghost view = { λ n. node_of n.cpu n.stage n.expects n.inputs n.outputs };

    ghost invariant = { λ n. IsNode (node_of n.cpu n.stage n.expects n.inputs n.outputs) };
}

impl<M: Space> Node<M> {
    /// A node after power-up: it takes a control byte from any link, and no engine is open.
    pub fn power_up(cpu: Cpu<M>) -> Node<M>
        ensures value { result ≡ reset_node cpu }
        ensures node { IsNode result }
    {
        Node {
            cpu,
            stage: Stage::Reset,
            expects: NOTHING,
            inputs: [None; 4],
            outputs: [None; 4],
        }
    }

    /// What it does.
    pub fn mode(&self) -> Mode
        ensures value { result ≡ mode_of self.now }
        ensures node { IsNode self.now }
    {
        match self.stage {
            Stage::Reset => Mode::Reset,
            Stage::Poking => Mode::Poking,
            Stage::Peeking => Mode::Peeking,
            Stage::Replying => Mode::Replying,
            Stage::Booting => Mode::Booting,
            Stage::Refused(why) => Mode::Stopped(why),
            Stage::Over => mode_of_life(self.cpu.life()),
        }
    }

    /// Its processor.
    pub fn cpu(&self) -> &Cpu<M>
        ensures { result.now ≡ self.now.cpu }
    {
        &self.cpu
    }

    /// What its bootstrap expects and has.
    pub fn expects(&self) -> Expects
        ensures { result ≡ self.now.expects }
    {
        self.expects
    }

    /// The engines of link `l`, those that are open.
    pub fn link(&self, l: u8) -> LinkView
        requires { l < 4 }
        ensures { result ≡ record { input = engine_of self.now.inputs l; output = engine_of self.now.outputs l } }
    {
        LinkView {
            input: self.inputs[usize::from(l)],
            output: self.outputs[usize::from(l)],
        }
    }
}

impl Node<Memory> {
    /// An equal node over a copy of its memory in which the addresses from `from` up to, but not
    /// including, `to` are guarded. All its engines are closed.
    pub fn guarded(&self, from: u32, to: u32) -> Result<Node<CodeFree>, NoMemory>
        requires { IsQuiet self.now }
        ensures { IfOk result (λ copy. copy ≡ node_over (record { bytes = self.now.cpu.memory; from = from; to = to }) self.now) }
    {
        match self.cpu.guarded(from, to) {
            Ok(cpu) => Ok(Node {
                cpu,
                stage: self.stage,
                expects: self.expects,
                inputs: self.inputs,
                outputs: self.outputs,
            }),
            Err(_) => Err(NoMemory),
        }
    }
}

/// What a processor does that was booted.
fn mode_of_life(life: Life) -> Mode
    ensures { result ≡ mode_of_life life }
{
    match life {
        Life::Running => Mode::Running,
        Life::Idle => Mode::Idle,
        Life::Stopped(why) => Mode::Stopped(why),
    }
}
