ghost use Rattle.std.specs.Prelude.{◌≡◌};
ghost use Rattle.tn_cpu.specs.Effects.{operate, quarter};

use crate::arithmetic::{Long, Pair};
use crate::channels::Way;
use crate::outcomes::{Outcome, Why};
use crate::processors::Cpu;
use crate::queues::words_above;
use crate::registers::Reg;
use crate::turns::Turn;
use tn_isa::Op;
use tn_mem::Space;
use tn_word::{MOST_NEG, NOT_PROCESS};

/// The highest bit of a word, which is its sign.
const SIGN: u32 = 0x8000_0000;

/// The operations that the operand of `opr` names, in the order of their codes.
impl<M: Space> Cpu<M> {
    /// Executes an operation.
    pub(crate) fn operate(&mut self, op: Op, turn: Turn) -> Outcome
        ensures { operate M.access op turn self.old ≡ record { state = self.new; outcome = result } }
    {
        match op {
            Op::Rev => self.rev(turn),
            Op::Lb => self.lb(turn),
            Op::Bsub => self.join_pair(Pair::Bsub, turn),
            Op::Endp => self.endp(),
            Op::Diff => self.join_pair(Pair::Diff, turn),
            Op::Add => self.join_pair(Pair::Add, turn),
            Op::Gcall => self.gcall(turn),
            Op::In => self.transfer(Way::Input, turn),
            Op::Prod => self.join_pair(Pair::Prod, turn),
            Op::Gt => self.join_pair(Pair::Gt, turn),
            Op::Wsub => self.join_pair(Pair::Wsub, turn),
            Op::Out => self.transfer(Way::Output, turn),
            Op::Sub => self.join_pair(Pair::Sub, turn),
            Op::Startp => self.startp(turn),
            Op::Seterr => self.seterr(turn),
            Op::Csub0 => self.csub0(turn),
            Op::Stopp => self.stopp(turn),
            Op::Sthf => self.sthf(turn),
            Op::Ldpi => self.ldpi(turn),
            Op::Stlf => self.stlf(turn),
            Op::Xdble => self.xdble(turn),
            Op::Rem => self.join_pair(Pair::Rem, turn),
            Op::Ret => self.ret(turn),
            Op::Lend => self.lend(turn),
            Op::Ldtimer => self.ldtimer(turn),
            Op::Testerr => self.testerr(turn),
            Op::Div => self.join_pair(Pair::Div, turn),
            Op::Lmul => self.fill_long(Long::Lmul, turn),
            Op::Not => self.not(turn),
            Op::Xor => self.join_pair(Pair::Xor, turn),
            Op::Bcnt => self.bcnt(turn),
            Op::Lsum => self.fill_long(Long::Lsum, turn),
            Op::Runp => self.runp(turn),
            Op::Sb => self.sb(turn),
            Op::Gajw => self.gajw(turn),
            Op::Wcnt => self.wcnt(turn),
            Op::Shr => self.join_pair(Pair::Shr, turn),
            Op::Shl => self.join_pair(Pair::Shl, turn),
            Op::Mint => self.mint(turn),
            Op::And => self.join_pair(Pair::And, turn),
            Op::Move => self.move_bytes(turn),
            Op::Or => self.join_pair(Pair::Or, turn),
            Op::Ldiff => self.fill_long(Long::Ldiff, turn),
            Op::Sum => self.join_pair(Pair::Sum, turn),
            Op::Mul => self.join_pair(Pair::Mul, turn),
            Op::Sttimer => self.sttimer(turn),
            Op::Clrhalterr => self.clrhalterr(turn),
            Op::Sethalterr => self.sethalterr(turn),
            Op::Dup => self.dup(turn),
        }
    }

    /// `rev`: exchanges Areg and Breg.
    fn rev(&mut self, turn: Turn) -> Outcome
        ensures { operate M.access Op.Rev turn self.old ≡ record { state = self.new; outcome = result } }
    {
        let a = self.registers.a;
        self.registers.a = self.registers.b;
        self.registers.b = a;
        self.go_on(turn.following)
    }

    /// `lb`: the byte at Areg takes its place.
    fn lb(&mut self, turn: Turn) -> Outcome
        ensures { operate M.access Op.Lb turn self.old ≡ record { state = self.new; outcome = result } }
    {
        match self.registers.a {
            Reg::Word(a) => {
                match self.memory.byte(a) {
                    Ok(byte) => {
                        self.registers.a = Reg::Word(u32::from(byte));
                        self.go_on(turn.following)
                    }
                    Err(touch) => self.refuse(touch),
                }
            }
            Reg::Undefined => self.stop(Why::Undefined),
        }
    }

    /// `gcall`: exchanges Areg and the instruction pointer.
    fn gcall(&mut self, turn: Turn) -> Outcome
        ensures { operate M.access Op.Gcall turn self.old ≡ record { state = self.new; outcome = result } }
    {
        match self.registers.a {
            Reg::Word(a) => {
                self.registers.a = Reg::Word(turn.following);
                self.go_on(a)
            }
            Reg::Undefined => self.stop(Why::Undefined),
        }
    }

    /// `seterr`: sets Error.
    fn seterr(&mut self, turn: Turn) -> Outcome
        ensures { operate M.access Op.Seterr turn self.old ≡ record { state = self.new; outcome = result } }
    {
        if self.halts(true) {
            return self.stop(Why::Halted);
        }
        self.set_error(true, turn.following)
    }

    /// `csub0`: sets Error where Breg is not below Areg, unsigned, and pops.
    fn csub0(&mut self, turn: Turn) -> Outcome
        ensures { operate M.access Op.Csub0 turn self.old ≡ record { state = self.new; outcome = result } }
    {
        match (self.registers.a, self.registers.b) {
            (Reg::Word(a), Reg::Word(b)) => {
                let error = b >= a;
                if self.halts(error) {
                    return self.stop(Why::Halted);
                }
                self.pop();
                self.set_error(error, turn.following)
            }
            _ => self.stop(Why::Undefined),
        }
    }

    /// `sthf`: takes an empty queue of high priority alone, and pops.
    fn sthf(&mut self, turn: Turn) -> Outcome
        ensures { operate M.access Op.Sthf turn self.old ≡ record { state = self.new; outcome = result } }
    {
        match self.registers.a {
            Reg::Word(a) => {
                if a != NOT_PROCESS {
                    return self.stop(Why::Outside);
                }
                self.pop();
                self.go_on(turn.following)
            }
            Reg::Undefined => self.stop(Why::Undefined),
        }
    }

    /// `stlf`: empties the queue, and pops.
    fn stlf(&mut self, turn: Turn) -> Outcome
        ensures { operate M.access Op.Stlf turn self.old ≡ record { state = self.new; outcome = result } }
    {
        match self.registers.a {
            Reg::Word(a) => {
                if a != NOT_PROCESS {
                    return self.stop(Why::Outside);
                }
                self.pop();
                self.registers.front = Reg::Word(a);
                self.go_on(turn.following)
            }
            Reg::Undefined => self.stop(Why::Undefined),
        }
    }

    /// `ldpi`: the address Areg bytes after the next instruction takes its place.
    fn ldpi(&mut self, turn: Turn) -> Outcome
        ensures { operate M.access Op.Ldpi turn self.old ≡ record { state = self.new; outcome = result } }
    {
        match self.registers.a {
            Reg::Word(a) => {
                self.registers.a = Reg::Word(turn.following.wrapping_add(a));
                self.go_on(turn.following)
            }
            Reg::Undefined => self.stop(Why::Undefined),
        }
    }

    /// `xdble`: puts the sign of Areg into Breg.
    fn xdble(&mut self, turn: Turn) -> Outcome
        ensures { operate M.access Op.Xdble turn self.old ≡ record { state = self.new; outcome = result } }
    {
        match self.registers.a {
            Reg::Word(a) => {
                self.registers.c = self.registers.b;
                self.registers.b = Reg::Word(if a >= SIGN { 0xFFFF_FFFF } else { 0 });
                self.go_on(turn.following)
            }
            Reg::Undefined => self.stop(Why::Undefined),
        }
    }

    /// `ret`: goes back to the address in the workspace, and gives its four words up.
    fn ret(&mut self, turn: Turn) -> Outcome
        ensures { operate M.access Op.Ret turn self.old ≡ record { state = self.new; outcome = result } }
    {
        match self.memory.word(self.registers.wptr) {
            Ok(iptr) => {
                self.registers.wptr = words_above(self.registers.wptr, 4);
                self.go_on(iptr)
            }
            Err(touch) => self.refuse(touch),
        }
    }

    /// `ldtimer`: pushes the clock.
    fn ldtimer(&mut self, turn: Turn) -> Outcome
        ensures { operate M.access Op.Ldtimer turn self.old ≡ record { state = self.new; outcome = result } }
    {
        self.push(turn.clock);
        self.go_on(turn.following)
    }

    /// `testerr`: pushes 1 where Error is clear, else 0, and clears it.
    fn testerr(&mut self, turn: Turn) -> Outcome
        ensures { operate M.access Op.Testerr turn self.old ≡ record { state = self.new; outcome = result } }
    {
        self.push(u32::from(!self.registers.error));
        self.registers.error = false;
        self.go_on(turn.following)
    }

    /// `not`: the complement of Areg.
    fn not(&mut self, turn: Turn) -> Outcome
        ensures { operate M.access Op.Not turn self.old ≡ record { state = self.new; outcome = result } }
    {
        match self.registers.a {
            Reg::Word(a) => {
                self.registers.a = Reg::Word(!a);
                self.go_on(turn.following)
            }
            Reg::Undefined => self.stop(Why::Undefined),
        }
    }

    /// `bcnt`: how many bytes Areg words have.
    fn bcnt(&mut self, turn: Turn) -> Outcome
        ensures { operate M.access Op.Bcnt turn self.old ≡ record { state = self.new; outcome = result } }
    {
        match self.registers.a {
            Reg::Word(a) => {
                self.registers.a = Reg::Word(a.wrapping_mul(4));
                self.go_on(turn.following)
            }
            Reg::Undefined => self.stop(Why::Undefined),
        }
    }

    /// `sb`: stores the low byte of Breg at Areg, and pops both.
    fn sb(&mut self, turn: Turn) -> Outcome
        ensures { operate M.access Op.Sb turn self.old ≡ record { state = self.new; outcome = result } }
    {
        match (self.registers.a, self.registers.b) {
            (Reg::Word(a), Reg::Word(b)) => {
                match self.memory.set_byte(a, (b % 256) as u8) {
                    Ok(()) => {
                        self.pop_twice();
                        self.go_on(turn.following)
                    }
                    Err(touch) => self.refuse(touch),
                }
            }
            _ => self.stop(Why::Undefined),
        }
    }

    /// `gajw`: exchanges Areg and the workspace pointer.
    fn gajw(&mut self, turn: Turn) -> Outcome
        ensures { operate M.access Op.Gajw turn self.old ≡ record { state = self.new; outcome = result } }
    {
        match self.registers.a {
            Reg::Word(a) => {
                if a % 4 != 0 {
                    return self.stop(Why::Outside);
                }
                self.registers.a = Reg::Word(self.registers.wptr);
                self.registers.wptr = a;
                self.go_on(turn.following)
            }
            Reg::Undefined => self.stop(Why::Undefined),
        }
    }

    /// `wcnt`: parts an address into words and the bytes beyond them.
    fn wcnt(&mut self, turn: Turn) -> Outcome
        ensures { operate M.access Op.Wcnt turn self.old ≡ record { state = self.new; outcome = result } }
    {
        match self.registers.a {
            Reg::Word(a) => {
                self.registers.c = self.registers.b;
                self.registers.b = Reg::Word(a % 4);
                self.registers.a = Reg::Word(quarter(a));
                self.go_on(turn.following)
            }
            Reg::Undefined => self.stop(Why::Undefined),
        }
    }

    /// `mint`: pushes MostNeg.
    fn mint(&mut self, turn: Turn) -> Outcome
        ensures { operate M.access Op.Mint turn self.old ≡ record { state = self.new; outcome = result } }
    {
        self.push(MOST_NEG);
        self.go_on(turn.following)
    }

    /// `sttimer`: pops. The clock that it starts is no part of this processor, so that the value
    /// of Areg, which must be defined, changes nothing.
    fn sttimer(&mut self, turn: Turn) -> Outcome
        ensures { operate M.access Op.Sttimer turn self.old ≡ record { state = self.new; outcome = result } }
    {
        match self.registers.a {
            Reg::Word(_) => {
                self.pop();
                self.go_on(turn.following)
            }
            Reg::Undefined => self.stop(Why::Undefined),
        }
    }

    /// `clrhalterr`: clears HaltOnError.
    fn clrhalterr(&mut self, turn: Turn) -> Outcome
        ensures { operate M.access Op.Clrhalterr turn self.old ≡ record { state = self.new; outcome = result } }
    {
        self.registers.halt = false;
        self.go_on(turn.following)
    }

    /// `sethalterr`: sets HaltOnError.
    fn sethalterr(&mut self, turn: Turn) -> Outcome
        ensures { operate M.access Op.Sethalterr turn self.old ≡ record { state = self.new; outcome = result } }
    {
        self.registers.halt = true;
        self.go_on(turn.following)
    }

    /// `dup`: pushes Areg once more.
    fn dup(&mut self, turn: Turn) -> Outcome
        ensures { operate M.access Op.Dup turn self.old ≡ record { state = self.new; outcome = result } }
    {
        self.registers.c = self.registers.b;
        self.registers.b = self.registers.a;
        self.go_on(turn.following)
    }
}

/// A word shifted right by 2, with its sign.
fn quarter(a: u32) -> u32
    ensures { result ≡ quarter a }
{
    if a >= SIGN {
        a / 4 + 0xC000_0000
    } else {
        a / 4
    }
}
