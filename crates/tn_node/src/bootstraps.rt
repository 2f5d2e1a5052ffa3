ghost use Rattle.std.specs.Prelude.{◌≡◌, ◌<◌, ◌≤◌, ◌+◌, IfSome, false};
ghost use Rattle.tn_node.specs.declared.modes.Stage.TheVariants as stage;
ghost use Rattle.tn_word.specs.Words.{mem_start};
ghost use Rattle.tn_node.specs.Nodes.{is_over, IsNode};
ghost use Rattle.tn_node.specs.Bootstraps.{stage_of, follow, began, with_byte, gathered, refused, poked, peeked, poking, peeking};
ghost use Rattle.tn_node.specs.Bootstraps.{boot_stored};

use crate::modes::{Expects, Stage};
use crate::nodes::{NOTHING, Node};
use tn_cpu::Why;
use tn_mem::{Space, Touch};
use tn_word::MEM_START;

/// The bootstrap: what a node does with the bytes of its boot link.
impl<M: Space> Node<M> {
    /// Takes the control byte, by link `l`.
    pub(crate) fn begin(&mut self, l: u8, control: u8)
        requires stage { self.old.stage ≡ stage.Reset }
        requires link { l < 4 }
        ensures { self.new ≡ began l control self.old }
    {
        self.stage = stage_of(control);
        self.expects = Expects {
            link: l,
            left: follow(control),
            ..NOTHING
        };
    }

    /// Takes a byte of a poke. The word is stored behind the last.
    pub(crate) fn poke(&mut self, byte: u8)
        requires { self.old.stage ≡ stage.Poking }
        ensures state { self.new ≡ poking M.access (gathered byte self.old.expects) self.old }
        ensures node { IsNode self.new }
    {
        let expects = gathered(byte, self.expects);
        if expects.left > 0 {
            self.expects = expects;
            return;
        }
        match self.cpu.store_word(expects.address, expects.word) {
            Ok(()) => {
                self.stage = Stage::Reset;
                self.expects = NOTHING;
            }
            Err(touch) => self.refuse(touch),
        }
    }

    /// Takes a byte of a peek. Behind the last it replies with the word.
    pub(crate) fn peek(&mut self, byte: u8)
        requires { self.old.stage ≡ stage.Peeking }
        ensures { self.new ≡ peeking M.access (gathered byte self.old.expects) self.old }
    {
        let expects = gathered(byte, self.expects);
        if expects.left > 0 {
            self.expects = expects;
            return;
        }
        match self.cpu.memory().word(expects.address) {
            Ok(word) => {
                self.stage = Stage::Replying;
                self.expects = Expects {
                    link: expects.link,
                    left: 4,
                    address: expects.address,
                    word,
                    ..NOTHING
                };
            }
            Err(touch) => self.refuse(touch),
        }
    }

    /// Takes a byte of a bootstrap. Behind the last it runs.
    pub(crate) fn boot(&mut self, byte: u8)
        requires { self.old.stage ≡ stage.Booting }
        ensures state { let made = M.access.set_byte self.old.cpu.memory (mem_start + self.old.expects.got) byte in
            self.new ≡ boot_stored made self.old.expects self.old }
        ensures node { IsNode self.new }
    {
        let expects = self.expects;
        if let Err(touch) = self.cpu.store_byte(MEM_START + expects.got, byte) {
            self.refuse(touch);
            return;
        }
        if expects.left > 1 {
            self.expects = Expects {
                got: expects.got + 1,
                left: expects.left - 1,
                ..expects
            };
            return;
        }
        self.cpu.boot(expects.got + 1);
        self.stage = Stage::Over;
        self.expects = NOTHING;
    }

    /// Stops where the memory refused what the bootstrap asked of it.
    fn refuse(&mut self, touch: Touch)
        requires { is_over self.old.stage ≡ false }
        ensures state { self.new ≡ refused touch self.old }
        ensures node { IsNode self.new }
    {
        self.stage = Stage::Refused(match touch {
            Touch::Outside => Why::Outside,
            Touch::Code => Why::Code,
        });
        self.expects = NOTHING;
    }
}

/// What a control byte begins: 0 a poke, 1 a peek, any other a bootstrap of so many bytes.
fn stage_of(control: u8) -> Stage
    ensures { result ≡ stage_of control }
{
    match control {
        0 => Stage::Poking,
        1 => Stage::Peeking,
        _ => Stage::Booting,
    }
}

/// How many bytes follow a control byte.
fn follow(control: u8) -> u32
    ensures value { result ≡ follow control }
    ensures bounded { result ≤ 255 }
{
    match control {
        0 => 8,
        1 => 4,
        _ => u32::from(control),
    }
}

/// A word with the byte at a place, the lowest at 0; those below are known, and those above are 0.
fn with_byte(place: u32, byte: u8, word: u32) -> u32
    requires { place < 4 }
    ensures { result ≡ with_byte place byte word }
{
    match place {
        0 => u32::from(byte),
        1 => word % 0x100 + u32::from(byte) * 0x100,
        2 => word % 0x1_0000 + u32::from(byte) * 0x1_0000,
        _ => word % 0x100_0000 + u32::from(byte) * 0x100_0000,
    }
}

/// What a poke or a peek has with one byte more: of its address first, then of its word.
fn gathered(byte: u8, expects: Expects) -> Expects
    requires { expects.got < 8 }
    ensures { result ≡ gathered byte expects }
{
    let (got, left) = (expects.got + 1, expects.left.saturating_sub(1));
    if expects.got < 4 {
        Expects {
            address: with_byte(expects.got, byte, expects.address),
            got,
            left,
            ..expects
        }
    } else {
        Expects {
            word: with_byte(expects.got - 4, byte, expects.word),
            got,
            left,
            ..expects
        }
    }
}
