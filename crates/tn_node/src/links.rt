ghost use Rattle.std.specs.Prelude.{◌≡◌, ◌<◌, true, IsSome};
ghost use Rattle.tn_node.specs.declared.modes.Stage.TheVariants as stage;
ghost use Rattle.tn_node.specs.Engines.{engine_of, moved};
ghost use Rattle.tn_node.specs.Nodes.{IsNode};
ghost use Rattle.tn_node.specs.Links.{wants, is_reply, reply_byte, output_byte, offers, engine_sent, marked_sent, awaits};
ghost use Rattle.tn_node.specs.Links.{reply_acknowledged, engine_acknowledged, acknowledged, engine_taken, byte_stored, taken};

use crate::engines::Engine;
use crate::modes::{Expects, Stage};
use crate::nodes::{NOTHING, Node};
use tn_mem::Space;

/// The links: the bytes that a node takes and offers.
impl<M: Space> Node<M> {
    /// Whether it takes a byte of link `l`: in reset of any link, while a bootstrap takes bytes of
    /// the boot link, while it replies of none, and else where the input engine of the link is open.
    pub fn wants(&self, l: u8) -> bool
        requires { l < 4 }
        ensures { result ≡ wants l self.now }
    {
        match self.stage {
            Stage::Reset => true,
            Stage::Poking | Stage::Peeking | Stage::Booting => l == self.expects.link,
            Stage::Replying => false,
            Stage::Refused(_) | Stage::Over => self.inputs[usize::from(l)].is_some(),
        }
    }

    /// The byte that it offers on link `l`: the next one of a reply, or of the output engine, where
    /// one is left and none is unacknowledged.
    #[tactic(auto, unfolding(crate::specs::Links::offers))]
    pub fn offers(&self, l: u8) -> Option<u8>
        requires { l < 4 }
        ensures { result ≡ offers M.access l self.now }
    {
        if self.is_reply(l) {
            reply_byte(self.expects)
        } else {
            self.output_byte(self.outputs[usize::from(l)])
        }
    }

    /// Marks the byte that it offers on link `l` as gone out, and not yet acknowledged.
    #[tactic(auto, unfolding(crate::specs::Links::marked_sent, crate::specs::Links::offers))]
    pub fn mark_sent(&mut self, l: u8)
        requires link { l < 4 }
        requires offered { IsSome (offers M.access l self.old) }
        ensures state { self.new ≡ marked_sent l self.old }
        ensures node { IsNode self.new }
    {
        if self.is_reply(l) {
            self.expects.got += 1;
            self.expects.left -= 1;
            self.expects.sent = true;
        } else {
            self.outputs[usize::from(l)] = engine_sent(self.outputs[usize::from(l)]);
        }
    }

    /// Takes a byte of link `l`, which it wants: the bootstrap goes on, or the byte goes where the
    /// input engine points. An engine that has no byte left closes, and its process is woken.
    #[tactic(auto, unfolding(crate::specs::Links::taken, crate::specs::Bootstraps::bootstrapped))]
    pub fn take(&mut self, l: u8, byte: u8)
        requires link { l < 4 }
        requires wanted { wants l self.old ≡ true }
        ensures state { self.new ≡ taken M.access l byte self.old }
        ensures node { IsNode self.new }
    {
        match self.stage {
            Stage::Reset => self.begin(l, byte),
            Stage::Poking => self.poke(byte),
            Stage::Peeking => self.peek(byte),
            Stage::Booting => self.boot(byte),
            Stage::Replying => {}
            Stage::Refused(_) | Stage::Over => self.take_in(l, byte),
        }
    }

    /// Notes that the byte of link `l` that had gone out is acknowledged. Behind the fourth of a
    /// reply the node is in reset again; an output engine that has no byte left closes, and its
    /// process is woken.
    #[tactic(auto, unfolding(crate::specs::Links::acknowledged))]
    pub fn acknowledge(&mut self, l: u8)
        requires link { l < 4 }
        requires awaited { awaits l self.old ≡ true }
        ensures state { self.new ≡ acknowledged M.access l self.old }
        ensures node { IsNode self.new }
    {
        if self.is_reply(l) {
            self.end_reply();
        } else {
            self.end_output(l);
        }
    }

    /// Whether link `l` is that of a reply.
    fn is_reply(&self, l: u8) -> bool
        ensures { result ≡ is_reply l self.now }
    {
        match self.stage {
            Stage::Replying => l == self.expects.link,
            _ => false,
        }
    }

    /// The byte that an output engine offers.
    fn output_byte(&self, engine: Option<Engine>) -> Option<u8>
        ensures { result ≡ output_byte M.access self.now.cpu.memory engine }
    {
        match engine {
            Some(engine) if engine.left > 0 && !engine.sent => {
                Some(self.cpu.memory().byte(engine.pointer).unwrap_or(0))
            }
            _ => None,
        }
    }

    /// Takes a byte for an input engine.
    fn take_in(&mut self, l: u8, byte: u8)
        requires { l < 4 }
        ensures { self.new ≡ engine_taken M.access l byte (engine_of self.old.inputs l) self.old }
    {
        let Some(engine) = self.inputs[usize::from(l)] else {
            return;
        };
        self.store_tested(engine.pointer, byte);
        if engine.left == 1 {
            self.inputs[usize::from(l)] = None;
            self.cpu.wake(engine.process);
        } else {
            self.inputs[usize::from(l)] = Some(engine.moved());
        }
    }

    /// Stores a byte in a block that was tested when its engine opened.
    fn store_tested(&mut self, a: u32, byte: u8)
        ensures { self.new ≡ record self.old { cpu = byte_stored M.access a byte self.old.cpu } }
    {
        let _tested = self.cpu.store_byte(a, byte);
    }

    /// Notes the acknowledge of a byte of a reply.
    fn end_reply(&mut self)
        requires { self.old.stage ≡ stage.Replying }
        ensures state { self.new ≡ reply_acknowledged self.old }
        ensures node { IsNode self.new }
    {
        if self.expects.got == 4 {
            self.stage = Stage::Reset;
            self.expects = NOTHING;
        } else {
            self.expects.sent = false;
        }
    }

    /// Notes the acknowledge of a byte of an output engine.
    fn end_output(&mut self, l: u8)
        requires { l < 4 }
        ensures state { self.new ≡ engine_acknowledged M.access l (engine_of self.old.outputs l) self.old }
        ensures node { IsNode self.new }
    {
        let Some(engine) = self.outputs[usize::from(l)] else {
            return;
        };
        if engine.left == 0 {
            self.outputs[usize::from(l)] = None;
            self.cpu.wake(engine.process);
        } else {
            self.outputs[usize::from(l)] = Some(Engine {
                sent: false,
                ..engine
            });
        }
    }
}

/// The next byte of a reply, the lowest of the word first.
fn reply_byte(expects: Expects) -> Option<u8>
    ensures { result ≡ reply_byte expects }
{
    if expects.got < 4 && !expects.sent {
        Some(expects.word.to_le_bytes()[expects.got as usize])
    } else {
        None
    }
}

/// An output engine whose byte has gone out.
fn engine_sent(engine: Option<Engine>) -> Option<Engine>
    ensures { result ≡ engine_sent engine }
{
    match engine {
        Some(engine) => Some(Engine {
            sent: true,
            ..engine.moved()
        }),
        None => None,
    }
}
