ghost use Rattle.std.specs.Prelude.{◌≡◌};
ghost use Rattle.tn_isa.specs.OperandRegister.{IsCoded};
ghost use Rattle.tn_cpu.specs.declared.outcomes.Life.{Life};
ghost use Rattle.tn_cpu.specs.States.{replaced};
ghost use Rattle.tn_cpu.specs.Turns.{ran, with_answer};
ghost use Rattle.tn_cpu.specs.Effects.{effect, operate_found};
ghost use Rattle.tn_cpu.specs.TurnEnds.{EndsTurn};
ghost use Rattle.tn_cpu.specs.OutcomeLaws.{OpensLink, IsNotStray};

use crate::outcomes::{Outcome, Why};
use crate::processors::Cpu;
use crate::queues::words_above;
use crate::registers::Reg;
use crate::turns::Turn;
use tn_isa::{Fun, op_of};
use tn_mem::Space;

/// The functions that stand in the high four bits of an instruction byte.
impl<M: Space> Cpu<M> {
    /// Executes a function with an operand, where `following` is the address of the next
    /// instruction, `busy` has bit l for an open input engine of link l and bit 4 + l for an open
    /// output engine, `slice` lets another process take its turn at `j` and `lend`, and `clock` is
    /// what `ldtimer` pushes. A stop changes nothing else, and an engine opens for a byte or more on
    /// one of the four links.
    pub fn execute(
        &mut self,
        fun: Fun,
        operand: u32,
        following: u32,
        busy: u8,
        slice: bool,
        clock: u32,
    ) -> Outcome
        requires running { self.old.life ≡ Life.Running }
        requires coded { IsCoded fun }
        ensures effect { effect M.access fun operand (record { following = following; busy = busy; slice = slice; clock = clock }) self.old
            ≡ record { state = self.new; outcome = result } }
        ensures turn { EndsTurn M.access busy self.old (record { state = self.new; outcome = result }) }
        ensures transfer { OpensLink result }
        ensures stray { IsNotStray result }
    {
        let turn = Turn {
            following,
            busy,
            slice,
            clock,
        };
        self.apply(fun, operand, turn)
    }

    /// Executes a function; `pfix` and `nfix` make operands, and have no effect of their own.
    pub(crate) fn apply(&mut self, fun: Fun, operand: u32, turn: Turn) -> Outcome
        ensures { effect M.access fun operand turn self.old ≡ record { state = self.new; outcome = result } }
    {
        match fun {
            Fun::J => self.j(operand, turn),
            Fun::Ldlp => self.ldlp(operand, turn),
            Fun::Pfix | Fun::Nfix => self.go_on(turn.following),
            Fun::Ldnl => self.ldnl(operand, turn),
            Fun::Ldc => self.ldc(operand, turn),
            Fun::Ldnlp => self.ldnlp(operand, turn),
            Fun::Ldl => self.ldl(operand, turn),
            Fun::Adc => self.adc(operand, turn),
            Fun::Call => self.call(operand, turn),
            Fun::Cj => self.cj(operand, turn),
            Fun::Ajw => self.ajw(operand, turn),
            Fun::Eqc => self.eqc(operand, turn),
            Fun::Stl => self.stl(operand, turn),
            Fun::Stnl => self.stnl(operand, turn),
            Fun::Opr => self.opr(operand, turn),
        }
    }

    /// `opr`: the operation that the operand names.
    fn opr(&mut self, operand: u32, turn: Turn) -> Outcome
        ensures { effect M.access Fun.Opr operand turn self.old ≡ record { state = self.new; outcome = result } }
    {
        match op_of(operand) {
            Some(op) => self.operate(op, turn),
            None => self.stop(Why::BadOp),
        }
    }

    /// The word at an address takes the place of Areg.
    fn load_top(&mut self, a: u32, iptr: u32) -> Outcome
        ensures { with_answer (M.access.word self.old.memory a) self.old (λ x. ran iptr (replaced x self.old))
            ≡ record { state = self.new; outcome = result } }
    {
        match self.memory.word(a) {
            Ok(word) => {
                self.registers.a = Reg::Word(word);
                self.go_on(iptr)
            }
            Err(touch) => self.refuse(touch),
        }
    }

    /// `j`: goes on `operand` bytes further, where another process may take its turn.
    fn j(&mut self, operand: u32, turn: Turn) -> Outcome
        ensures { effect M.access Fun.J operand turn self.old ≡ record { state = self.new; outcome = result } }
    {
        match self.slice_refusal(turn.slice) {
            Some(touch) => self.refuse(touch),
            None => {
                self.clear();
                self.go_on_or_slice(turn.slice, turn.following.wrapping_add(operand))
            }
        }
    }

    /// `ldlp`: pushes the address of a word of the workspace.
    fn ldlp(&mut self, operand: u32, turn: Turn) -> Outcome
        ensures { effect M.access Fun.Ldlp operand turn self.old ≡ record { state = self.new; outcome = result } }
    {
        self.push(words_above(self.registers.wptr, operand));
        self.go_on(turn.following)
    }

    /// `ldnl`: the word so many words above Areg takes its place.
    fn ldnl(&mut self, operand: u32, turn: Turn) -> Outcome
        ensures { effect M.access Fun.Ldnl operand turn self.old ≡ record { state = self.new; outcome = result } }
    {
        match self.registers.a {
            Reg::Word(a) => self.load_top(words_above(a, operand), turn.following),
            Reg::Undefined => self.stop(Why::Undefined),
        }
    }

    /// `ldc`: pushes the operand.
    fn ldc(&mut self, operand: u32, turn: Turn) -> Outcome
        ensures { effect M.access Fun.Ldc operand turn self.old ≡ record { state = self.new; outcome = result } }
    {
        self.push(operand);
        self.go_on(turn.following)
    }

    /// `ldnlp`: the address so many words above Areg takes its place.
    fn ldnlp(&mut self, operand: u32, turn: Turn) -> Outcome
        ensures { effect M.access Fun.Ldnlp operand turn self.old ≡ record { state = self.new; outcome = result } }
    {
        match self.registers.a {
            Reg::Word(a) => {
                self.registers.a = Reg::Word(words_above(a, operand));
                self.go_on(turn.following)
            }
            Reg::Undefined => self.stop(Why::Undefined),
        }
    }

    /// `ldl`: pushes a word of the workspace.
    fn ldl(&mut self, operand: u32, turn: Turn) -> Outcome
        ensures { effect M.access Fun.Ldl operand turn self.old ≡ record { state = self.new; outcome = result } }
    {
        match self.memory.word(words_above(self.registers.wptr, operand)) {
            Ok(word) => {
                self.push(word);
                self.go_on(turn.following)
            }
            Err(touch) => self.refuse(touch),
        }
    }

    /// `adc`: adds the operand to Areg, checked.
    fn adc(&mut self, operand: u32, turn: Turn) -> Outcome
        ensures { effect M.access Fun.Adc operand turn self.old ≡ record { state = self.new; outcome = result } }
    {
        match self.registers.a {
            Reg::Word(a) => self.replace(tn_alu::add(a, operand), turn.following),
            Reg::Undefined => self.stop(Why::Undefined),
        }
    }

    /// `cj`: where Areg is 0, goes on `operand` bytes further; else pops.
    fn cj(&mut self, operand: u32, turn: Turn) -> Outcome
        ensures { effect M.access Fun.Cj operand turn self.old ≡ record { state = self.new; outcome = result } }
    {
        match self.registers.a {
            Reg::Word(a) => {
                if a == 0 {
                    return self.go_on(turn.following.wrapping_add(operand));
                }
                self.pop();
                self.go_on(turn.following)
            }
            Reg::Undefined => self.stop(Why::Undefined),
        }
    }

    /// `ajw`: moves the workspace by so many words.
    fn ajw(&mut self, operand: u32, turn: Turn) -> Outcome
        ensures { effect M.access Fun.Ajw operand turn self.old ≡ record { state = self.new; outcome = result } }
    {
        self.registers.wptr = words_above(self.registers.wptr, operand);
        self.go_on(turn.following)
    }

    /// `eqc`: Areg becomes 1 where it is the operand, else 0.
    fn eqc(&mut self, operand: u32, turn: Turn) -> Outcome
        ensures { effect M.access Fun.Eqc operand turn self.old ≡ record { state = self.new; outcome = result } }
    {
        match self.registers.a {
            Reg::Word(a) => {
                self.registers.a = Reg::Word(u32::from(a == operand));
                self.go_on(turn.following)
            }
            Reg::Undefined => self.stop(Why::Undefined),
        }
    }

    /// `stl`: stores Areg into the workspace, and pops.
    fn stl(&mut self, operand: u32, turn: Turn) -> Outcome
        ensures { effect M.access Fun.Stl operand turn self.old ≡ record { state = self.new; outcome = result } }
    {
        match self.registers.a {
            Reg::Word(a) => {
                match self
                    .memory
                    .set_word(words_above(self.registers.wptr, operand), a)
                {
                    Ok(()) => {
                        self.pop();
                        self.go_on(turn.following)
                    }
                    Err(touch) => self.refuse(touch),
                }
            }
            Reg::Undefined => self.stop(Why::Undefined),
        }
    }

    /// `stnl`: stores Breg so many words above Areg, and pops both.
    fn stnl(&mut self, operand: u32, turn: Turn) -> Outcome
        ensures { effect M.access Fun.Stnl operand turn self.old ≡ record { state = self.new; outcome = result } }
    {
        match (self.registers.a, self.registers.b) {
            (Reg::Word(a), Reg::Word(b)) => {
                match self.memory.set_word(words_above(a, operand), b) {
                    Ok(()) => {
                        self.pop_twice();
                        self.go_on(turn.following)
                    }
                    Err(touch) => self.refuse(touch),
                }
            }
            _ => self.stop(Why::Undefined),
        }
    }
}
