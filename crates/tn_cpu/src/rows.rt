ghost use Rattle.std.specs.Prelude.{◌≡◌, None};
ghost use Rattle.tn_mem.specs.Spaces.{SameExtents};
ghost use Rattle.tn_cpu.specs.States.{below, words_above, word_or_0};
ghost use Rattle.tn_cpu.specs.Queues.{storable, stored, word_at};
ghost use Rattle.tn_cpu.specs.Rows.{frame_refusal, frame_stored, call_row, startp_row, endp_last, endp_other, endp_row, runp_row};
ghost use Rattle.tn_cpu.specs.Rows.{stopp_row, is_loop_taken, loop_stored, loop_refusal, loop_end, lend_row, move_row};

use crate::outcomes::{Outcome, Why};
use crate::processors::Cpu;
use crate::queues::{below, first_refusal, words_above};
use crate::registers::Reg;
use crate::turns::Turn;
use tn_mem::{Space, Touch};

/// The rows of several steps. Each tests all words that it stores or loads before it stores the
/// first.
impl<M: Space> Cpu<M> {
    /// `call`: saves the three registers and the address of the next instruction in four new words
    /// of workspace, and goes on `operand` bytes further.
    pub(crate) fn call(&mut self, operand: u32, turn: Turn) -> Outcome
        ensures { call_row M.access operand turn self.old ≡ record { state = self.new; outcome = result } }
    {
        let frame = below(self.registers.wptr, 16);
        if let Some(touch) = self.frame_refusal(frame) {
            return self.refuse(touch);
        }
        self.store_frame(frame, turn.following);
        self.registers.wptr = frame;
        self.registers.a = Reg::Word(turn.following);
        self.registers.b = Reg::Undefined;
        self.registers.c = Reg::Undefined;
        self.go_on(turn.following.wrapping_add(operand))
    }

    /// Why the four words of a new workspace may not be stored, if they may not.
    fn frame_refusal(&self, w: u32) -> Option<Touch>
        ensures { result ≡ frame_refusal M.access self.now.memory w }
    {
        let lower = first_refusal(self.storable(w), self.storable(words_above(w, 1)));
        let upper = first_refusal(
            self.storable(words_above(w, 2)),
            self.storable(words_above(w, 3)),
        );
        first_refusal(lower, upper)
    }

    /// Stores an address and the three registers. An undefined register is stored as 0.
    fn store_frame(&mut self, w: u32, following: u32)
        requires { frame_refusal M.access self.old.memory w ≡ None }
        ensures { self.new
            ≡ record self.old { memory = frame_stored M.access w following self.old.a self.old.b self.old.c self.old.memory } }
    {
        self.store(w, following);
        self.store(words_above(w, 1), word_or_0(self.registers.a));
        self.store(words_above(w, 2), word_or_0(self.registers.b));
        self.store(words_above(w, 3), word_or_0(self.registers.c));
    }

    /// `startp`: a new process, whose workspace is Areg, begins Breg bytes after the next
    /// instruction.
    pub(crate) fn startp(&mut self, turn: Turn) -> Outcome
        ensures { startp_row M.access turn self.old ≡ record { state = self.new; outcome = result } }
    {
        let (Reg::Word(process), Reg::Word(offset), Reg::Word(_)) = (
            self.registers.a,
            self.registers.b,
            self.registers.front,
        ) else {
            return self.stop(Why::Undefined);
        };
        let saved = below(process, 4);
        if let Some(touch) = first_refusal(self.storable(saved), self.enqueue_refusal()) {
            return self.refuse(touch);
        }
        self.store(saved, turn.following.wrapping_add(offset));
        self.enqueue(process);
        self.clear();
        self.go_on(turn.following)
    }

    /// `endp`: the last of the processes that share the word after Areg goes on in the workspace
    /// there, and any other one is over.
    pub(crate) fn endp(&mut self) -> Outcome
        ensures { endp_row M.access self.old ≡ record { state = self.new; outcome = result } }
    {
        let Reg::Word(w) = self.registers.a else {
            return self.stop(Why::Undefined);
        };
        if let Some(touch) = self.storable(words_above(w, 1)) {
            return self.refuse(touch);
        }
        let count = self.word_at(words_above(w, 1));
        if count == 1 {
            self.end_last(w, count)
        } else {
            self.end_other(w, count)
        }
    }

    /// `endp` of the last process.
    fn end_last(&mut self, w: u32, count: u32) -> Outcome
        requires { storable M.access self.old.memory (words_above w 1) ≡ None }
        ensures { endp_last M.access w count self.old ≡ record { state = self.new; outcome = result } }
    {
        if let Some(touch) = self.loadable(w) {
            return self.refuse(touch);
        }
        let iptr = self.word_at(w);
        self.lower_count(w, count);
        self.registers.wptr = w;
        self.clear();
        self.go_on(iptr)
    }

    /// `endp` of a process that isn't the last.
    fn end_other(&mut self, w: u32, count: u32) -> Outcome
        requires { storable M.access self.old.memory (words_above w 1) ≡ None }
        ensures { endp_other M.access w count self.old ≡ record { state = self.new; outcome = result } }
    {
        let Reg::Word(_) = self.registers.front else {
            return self.stop(Why::Undefined);
        };
        if let Some(touch) = self.next_refusal(self.registers.back) {
            return self.refuse(touch);
        }
        self.lower_count(w, count);
        self.give_way()
    }

    /// `runp`: the process that Areg tells goes into the queue.
    pub(crate) fn runp(&mut self, turn: Turn) -> Outcome
        ensures { runp_row M.access turn self.old ≡ record { state = self.new; outcome = result } }
    {
        let (Reg::Word(a), Reg::Word(_)) = (self.registers.a, self.registers.front) else {
            return self.stop(Why::Undefined);
        };
        if a % 4 != 1 {
            return self.stop(Why::Outside);
        }
        if let Some(touch) = self.enqueue_refusal() {
            return self.refuse(touch);
        }
        self.enqueue(below(a, 1));
        self.clear();
        self.go_on(turn.following)
    }

    /// `stopp`: the current process waits outside the queue.
    pub(crate) fn stopp(&mut self, turn: Turn) -> Outcome
        ensures { stopp_row M.access turn self.old ≡ record { state = self.new; outcome = result } }
    {
        let Reg::Word(_) = self.registers.front else {
            return self.stop(Why::Undefined);
        };
        let saved = self.storable(below(self.registers.wptr, 4));
        if let Some(touch) = first_refusal(saved, self.next_refusal(self.registers.back)) {
            return self.refuse(touch);
        }
        self.save(turn.following);
        self.give_way()
    }

    /// `lend`: the end of a loop, with its index at Breg and its count after it, that goes back by
    /// Areg bytes.
    pub(crate) fn lend(&mut self, turn: Turn) -> Outcome
        ensures { lend_row M.access turn self.old ≡ record { state = self.new; outcome = result } }
    {
        let (Reg::Word(back), Reg::Word(w)) = (self.registers.a, self.registers.b) else {
            return self.stop(Why::Undefined);
        };
        let refusal = first_refusal(self.loop_refusal(w), self.slice_refusal(turn.slice));
        if let Some(touch) = refusal {
            return self.refuse(touch);
        }
        let count = self.word_at(words_above(w, 1));
        self.store_loop(w, count);
        self.clear();
        self.go_on_or_slice(turn.slice, loop_end(count, back, turn.following))
    }

    /// Why the words of a loop may not be stored, if they may not.
    fn loop_refusal(&self, w: u32) -> Option<Touch>
        ensures { result ≡ loop_refusal M.access w self.now.memory }
    {
        if let Some(touch) = self.storable(words_above(w, 1)) {
            return Some(touch);
        }
        if is_loop_taken(self.word_at(words_above(w, 1))) {
            self.storable(w)
        } else {
            None
        }
    }

    /// Stores the count of a loop, and its index where it goes on.
    fn store_loop(&mut self, w: u32, count: u32)
        requires count { count ≡ word_at M.access self.old.memory (words_above w 1) }
        requires tested { loop_refusal M.access w self.old.memory ≡ None }
        ensures extents { SameExtents M.access self.old.memory self.new.memory }
        ensures value { self.new ≡ record self.old { memory = loop_stored M.access w count self.old.memory } }
    {
        if is_loop_taken(count) {
            let index = self.word_at(w);
            self.lower_count(w, count);
            self.store(w, index.wrapping_add(1));
        } else {
            self.lower_count(w, count);
        }
    }

    /// Stores a count that falls by 1, in the word after an address.
    fn lower_count(&mut self, w: u32, count: u32)
        requires { storable M.access self.old.memory (words_above w 1) ≡ None }
        ensures extents { SameExtents M.access self.old.memory self.new.memory }
        ensures value { self.new ≡ record self.old { memory = stored M.access self.old.memory (words_above w 1) (below count 1) } }
    {
        self.store(words_above(w, 1), below(count, 1));
    }

    /// `move`: copies Areg bytes from Creg to Breg, as if all were read first.
    pub(crate) fn move_bytes(&mut self, turn: Turn) -> Outcome
        ensures { move_row M.access turn self.old ≡ record { state = self.new; outcome = result } }
    {
        let (Reg::Word(count), Reg::Word(to), Reg::Word(from)) = (
            self.registers.a,
            self.registers.b,
            self.registers.c,
        ) else {
            return self.stop(Why::Undefined);
        };
        match self.memory.copy(from, to, count) {
            Ok(()) => {
                self.clear();
                self.go_on(turn.following)
            }
            Err(touch) => self.refuse(touch),
        }
    }
}

/// What a register is stored as by a row that doesn't read it.
fn word_or_0(register: Reg) -> u32
    ensures { result ≡ word_or_0 register }
{
    match register {
        Reg::Word(word) => word,
        Reg::Undefined => 0,
    }
}

/// Whether a loop with this count goes on.
fn is_loop_taken(count: u32) -> bool
    ensures { result ≡ is_loop_taken count }
{
    1 < count && count < 0x8000_0000
}

/// Where a loop with this count goes on.
fn loop_end(count: u32, back: u32, following: u32) -> u32
    ensures { result ≡ loop_end count back following }
{
    if is_loop_taken(count) {
        below(following, back)
    } else {
        following
    }
}
