ghost use Rattle.std.specs.Prelude.{◌≡◌};
ghost use Rattle.tn_cpu.specs.States.{cleared, pushed, popped, popped_twice};

use crate::processors::Cpu;
use crate::registers::Reg;
use tn_mem::Space;

/// The stack of Areg, Breg and Creg.
impl<M: Space> Cpu<M> {
    /// Puts a word on top.
    pub(crate) fn push(&mut self, word: u32)
        ensures { self.new ≡ pushed word self.old }
    {
        self.registers.c = self.registers.b;
        self.registers.b = self.registers.a;
        self.registers.a = Reg::Word(word);
    }

    /// Takes the top away.
    pub(crate) fn pop(&mut self)
        ensures { self.new ≡ popped self.old }
    {
        self.registers.a = self.registers.b;
        self.registers.b = self.registers.c;
        self.registers.c = Reg::Undefined;
    }

    /// Takes the upper two away.
    pub(crate) fn pop_twice(&mut self)
        ensures { self.new ≡ popped_twice self.old }
    {
        self.registers.a = self.registers.c;
        self.registers.b = Reg::Undefined;
        self.registers.c = Reg::Undefined;
    }

    /// Leaves all three undefined.
    pub(crate) fn clear(&mut self)
        ensures { self.new ≡ cleared self.old }
    {
        self.registers.a = Reg::Undefined;
        self.registers.b = Reg::Undefined;
        self.registers.c = Reg::Undefined;
    }
}
