ghost use Rattle.std.specs.Prelude.{◌≡◌};
ghost use Rattle.tn_cpu.specs.declared.outcomes.Life.{Life};
ghost use Rattle.tn_cpu.specs.Steps.{prefixed, execute_byte, step};
ghost use Rattle.tn_cpu.specs.TurnEnds.{EndsTurn};
ghost use Rattle.tn_cpu.specs.OutcomeLaws.{OpensLink, IsNotStray};

use crate::outcomes::Outcome;
use crate::processors::Cpu;
use crate::turns::Turn;
use tn_isa::{fun_of, is_prefix, loaded, operand_after};
use tn_mem::Space;

impl<M: Space> Cpu<M> {
    /// Fetches the instruction byte at the instruction pointer and executes it: a prefix byte
    /// changes the operand register, and any other byte executes its function with the operand that
    /// the register and the byte give. `busy` has bit l for an open input engine of link l and bit
    /// 4 + l for an open output engine, `slice` lets another process take its turn at `j` and
    /// `lend`, and `clock` is what `ldtimer` pushes. A stop changes nothing else, and an engine opens
    /// for a byte or more on one of the four links.
    #[tactic(auto, unfolding(crate::specs::Steps::step))]
    pub fn step(&mut self, busy: u8, slice: bool, clock: u32) -> Outcome
        requires { self.old.life ≡ Life.Running }
        ensures effect { step M.access busy slice clock self.old ≡ record { state = self.new; outcome = result } }
        ensures turn { EndsTurn M.access busy self.old (record { state = self.new; outcome = result }) }
        ensures transfer { OpensLink result }
        ensures stray { IsNotStray result }
    {
        match self.memory.byte(self.registers.iptr) {
            Ok(byte) => self.execute_byte(byte, busy, slice, clock),
            Err(touch) => self.refuse(touch),
        }
    }

    /// Executes the byte at the instruction pointer.
    #[tactic(auto, unfolding(crate::specs::Steps::execute_byte))]
    fn execute_byte(&mut self, byte: u8, busy: u8, slice: bool, clock: u32) -> Outcome
        ensures { execute_byte M.access byte busy slice clock self.old ≡ record { state = self.new; outcome = result } }
    {
        let following = self.registers.iptr.wrapping_add(1);
        let fun = fun_of(byte);
        if is_prefix(fun) {
            self.registers.oreg = operand_after(self.registers.oreg, byte);
            self.registers.iptr = following;
            return Outcome::Prefix;
        }
        let turn = Turn {
            following,
            busy,
            slice,
            clock,
        };
        self.apply(fun, loaded(self.registers.oreg, byte), turn)
    }
}
