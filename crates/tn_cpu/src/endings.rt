ghost use Rattle.std.specs.Prelude.{◌≡◌, ◌&&◌, ◌||◌};
ghost use Rattle.tn_cpu.specs.States.{register_of};
ghost use Rattle.tn_cpu.specs.Turns.{stopped, ran, why_of, joins, replaces};

use crate::outcomes::{Life, Outcome, Why};
use crate::processors::Cpu;
use crate::registers::Reg;
use tn_alu::Answer;
use tn_mem::{Space, Touch};

impl<M: Space> Cpu<M> {
    /// Stops, and changes nothing else.
    pub(crate) fn stop(&mut self, why: Why) -> Outcome
        ensures { stopped why self.old ≡ record { state = self.new; outcome = result } }
    {
        self.life = Life::Stopped(why);
        Outcome::Stopped(why)
    }

    /// Stops for a refused access.
    pub(crate) fn refuse(&mut self, touch: Touch) -> Outcome
        ensures { stopped (why_of touch) self.old ≡ record { state = self.new; outcome = result } }
    {
        match touch {
            Touch::Outside => self.stop(Why::Outside),
            Touch::Code => self.stop(Why::Code),
        }
    }

    /// Ends an instruction, and goes on at an address.
    pub(crate) fn go_on(&mut self, iptr: u32) -> Outcome
        ensures { ran iptr self.old ≡ record { state = self.new; outcome = result } }
    {
        self.registers.iptr = iptr;
        self.registers.oreg = 0;
        Outcome::Ran
    }

    /// Whether an instruction that sets Error, if `error`, stops the processor.
    pub(crate) fn halts(&self, error: bool) -> bool
        ensures { result ≡ (error && self.now.halt) }
    {
        error && self.registers.halt
    }

    /// Ends an instruction that doesn't stop the processor and sets Error, if `error`.
    pub(crate) fn set_error(&mut self, error: bool, iptr: u32) -> Outcome
        ensures { ran iptr (record self.old { error = self.old.error || error }) ≡ record { state = self.new; outcome = result } }
    {
        self.registers.error = self.registers.error || error;
        self.go_on(iptr)
    }

    /// Ends an instruction whose result takes the place of Areg and Breg.
    pub(crate) fn join(&mut self, answer: Answer, iptr: u32) -> Outcome
        ensures { joins answer iptr self.old ≡ record { state = self.new; outcome = result } }
    {
        if self.halts(answer.error) {
            return self.stop(Why::Halted);
        }
        self.registers.a = register(answer.value);
        self.registers.b = self.registers.c;
        self.registers.c = Reg::Undefined;
        self.set_error(answer.error, iptr)
    }

    /// Ends an instruction whose result takes the place of Areg.
    pub(crate) fn replace(&mut self, answer: Answer, iptr: u32) -> Outcome
        ensures { replaces answer iptr self.old ≡ record { state = self.new; outcome = result } }
    {
        if self.halts(answer.error) {
            return self.stop(Why::Halted);
        }
        self.registers.a = register(answer.value);
        self.set_error(answer.error, iptr)
    }
}

/// The register that holds a result.
fn register(value: Option<u32>) -> Reg
    ensures { result ≡ register_of value }
{
    match value {
        Some(word) => Reg::Word(word),
        None => Reg::Undefined,
    }
}
