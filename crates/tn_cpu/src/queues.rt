ghost use Rattle.std.specs.Prelude.{◌≡◌, None};
ghost use Rattle.tn_mem.specs.Spaces.{SameExtents, first_refusal};
ghost use Rattle.tn_cpu.specs.States.{below, words_above};
ghost use Rattle.tn_cpu.specs.Queues.{storable, loadable, block_refusal, source_refusal, stored, copied, word_at, is_waiting};
ghost use Rattle.tn_cpu.specs.Queues.{enqueue_refusal, enqueued, resume_refusal, next_refusal, next, saved, slice_refusal, ran_or_sliced};
ghost use Rattle.tn_cpu.specs.Queues.{gave_way, resumed, woken, woken_behind, woken_idle};

use crate::outcomes::{Life, Outcome, Why};
use crate::processors::Cpu;
use crate::registers::Reg;
use tn_mem::{Space, Touch};
use tn_word::NOT_PROCESS;

/// The words that rows of several steps test first, and then load and store, and the queue.
impl<M: Space> Cpu<M> {
    /// Why a word may not be stored at an address, if it may not.
    #[tactic(auto, unfolding(crate::specs::Queues::storable))]
    pub(crate) fn storable(&self, a: u32) -> Option<Touch>
        ensures { result ≡ storable M.access self.now.memory a }
    {
        if a % 4 == 0 {
            self.memory.block(a, 4).err()
        } else {
            Some(Touch::Outside)
        }
    }

    /// Why a word may not be loaded, if it may not.
    #[tactic(auto, unfolding(crate::specs::Queues::loadable))]
    pub(crate) fn loadable(&self, a: u32) -> Option<Touch>
        ensures { result ≡ loadable M.access self.now.memory a }
    {
        self.memory.word(a).err()
    }

    /// Why a block may not be stored, if it may not.
    #[tactic(auto, unfolding(crate::specs::Queues::block_refusal))]
    pub(crate) fn block_refusal(&self, a: u32, n: u32) -> Option<Touch>
        ensures { result ≡ block_refusal M.access self.now.memory a n }
    {
        self.memory.block(a, n).err()
    }

    /// Why a block may not be read, if it may not. In each space so far it may where it may be stored.
    pub(crate) fn source_refusal(&self, a: u32, n: u32) -> Option<Touch>
        ensures { result ≡ source_refusal M.access self.now.memory a n }
    {
        self.memory.block(a, n).err()
    }

    /// Stores a word that was tested.
    #[tactic(auto, unfolding(crate::specs::Queues::stored))]
    pub(crate) fn store(&mut self, a: u32, word: u32)
        requires { storable M.access self.old.memory a ≡ None }
        ensures value { self.new ≡ record self.old { memory = stored M.access self.old.memory a word } }
        ensures extents { SameExtents M.access self.old.memory self.new.memory }
    {
        let _tested = self.memory.set_word(a, word);
    }

    /// Copies a block that was tested.
    #[tactic(auto, unfolding(crate::specs::Queues::copied))]
    pub(crate) fn copy(&mut self, from: u32, to: u32, n: u32)
        requires source { source_refusal M.access self.old.memory from n ≡ None }
        requires target { block_refusal M.access self.old.memory to n ≡ None }
        ensures extents { SameExtents M.access self.old.memory self.new.memory }
        ensures value { self.new ≡ record self.old { memory = copied M.access self.old.memory from to n } }
    {
        let _tested = self.memory.copy(from, to, n);
    }

    /// The word at an address that was tested.
    #[tactic(auto, unfolding(crate::specs::Queues::word_at))]
    pub(crate) fn word_at(&self, a: u32) -> u32
        requires { loadable M.access self.now.memory a ≡ None }
        ensures { result ≡ word_at M.access self.now.memory a }
    {
        self.memory.word(a).unwrap_or(0)
    }

    /// Saves an instruction pointer in word -1 of the current process.
    pub(crate) fn save(&mut self, iptr: u32)
        requires { storable M.access self.old.memory (below self.old.wptr 4) ≡ None }
        ensures value { self.new ≡ saved M.access iptr self.old }
        ensures extents { SameExtents M.access self.old.memory self.new.memory }
    {
        self.store(below(self.registers.wptr, 4), iptr);
    }

    /// The refusal of what `enqueue` stores.
    #[tactic(auto, unfolding(crate::specs::Queues::enqueue_refusal))]
    pub(crate) fn enqueue_refusal(&self) -> Option<Touch>
        ensures { result ≡ enqueue_refusal M.access self.now.memory self.now.front self.now.back }
    {
        match self.registers.front {
            Reg::Undefined | Reg::Word(NOT_PROCESS) => None,
            Reg::Word(_) => self.storable(below(self.registers.back, 8)),
        }
    }

    /// Puts a process behind the back of the queue.
    #[tactic(auto, unfolding(crate::specs::Queues::enqueued))]
    pub(crate) fn enqueue(&mut self, process: u32)
        requires { enqueue_refusal M.access self.old.memory self.old.front self.old.back ≡ None }
        ensures value { self.new ≡ enqueued M.access process self.old }
        ensures extents { SameExtents M.access self.old.memory self.new.memory }
    {
        match self.registers.front {
            Reg::Undefined => {}
            Reg::Word(NOT_PROCESS) => {
                self.registers.front = Reg::Word(process);
                self.registers.back = process;
            }
            Reg::Word(_) => {
                self.store(below(self.registers.back, 8), process);
                self.registers.back = process;
            }
        }
    }

    /// The refusal of what `next` loads where the queue has this back.
    #[tactic(auto, unfolding(crate::specs::Queues::next_refusal))]
    pub(crate) fn next_refusal(&self, back: u32) -> Option<Touch>
        ensures { result ≡ next_refusal M.access self.now.memory self.now.front back }
    {
        let Reg::Word(front) = self.registers.front else {
            return None;
        };
        if front == NOT_PROCESS {
            return None;
        }
        let saved = self.loadable(below(front, 4));
        if front == back {
            first_refusal(saved, None)
        } else {
            first_refusal(saved, self.loadable(below(front, 8)))
        }
    }

    /// Runs the next process of the queue, or becomes idle.
    #[tactic(auto, unfolding(crate::specs::Queues::next))]
    pub(crate) fn next(&mut self)
        requires { next_refusal M.access self.old.memory self.old.front self.old.back ≡ None }
        ensures { self.new ≡ next M.access self.old }
    {
        match self.registers.front {
            Reg::Undefined => {}
            Reg::Word(NOT_PROCESS) => {
                self.clear();
                self.registers.oreg = 0;
                self.registers.iptr = 0;
                self.registers.wptr = 0;
                self.life = Life::Idle;
            }
            Reg::Word(front) => self.resume(front),
        }
    }

    /// Runs the process at the front of the queue.
    fn resume(&mut self, front: u32)
        requires { resume_refusal M.access self.old.memory front self.old.back ≡ None }
        ensures { self.new ≡ resumed M.access front self.old }
    {
        self.clear();
        self.registers.oreg = 0;
        self.registers.iptr = self.word_at(below(front, 4));
        self.registers.wptr = front;
        let next = if front == self.registers.back {
            NOT_PROCESS
        } else {
            self.word_at(below(front, 8))
        };
        self.registers.front = Reg::Word(next);
    }

    /// Ends an instruction after which the next process runs.
    pub(crate) fn give_way(&mut self) -> Outcome
        requires { next_refusal M.access self.old.memory self.old.front self.old.back ≡ None }
        ensures { gave_way M.access self.old ≡ record { state = self.new; outcome = result } }
    {
        self.next();
        Outcome::Ran
    }

    /// Whether a process waits in the queue.
    fn is_waiting(&self) -> bool
        ensures { result ≡ is_waiting self.now.front }
    {
        match self.registers.front {
            Reg::Undefined => false,
            Reg::Word(front) => front != NOT_PROCESS,
        }
    }

    /// The refusal of what a timeslice stores and loads.
    #[tactic(auto, unfolding(crate::specs::Queues::slice_refusal))]
    pub(crate) fn slice_refusal(&self, slice: bool) -> Option<Touch>
        ensures { result ≡ slice_refusal M.access slice self.now }
    {
        if !(self.is_waiting() && slice) {
            return None;
        }
        let queue = first_refusal(
            self.enqueue_refusal(),
            self.next_refusal(self.registers.wptr),
        );
        first_refusal(self.storable(below(self.registers.wptr, 4)), queue)
    }

    /// Ends an instruction that goes on at an address, where another process may take its turn.
    #[tactic(auto, unfolding(crate::specs::Queues::timesliced))]
    pub(crate) fn go_on_or_slice(&mut self, slice: bool, iptr: u32) -> Outcome
        requires { slice_refusal M.access slice self.old ≡ None }
        ensures { ran_or_sliced M.access slice iptr self.old ≡ record { state = self.new; outcome = result } }
    {
        let outcome = self.go_on(iptr);
        if self.is_waiting() && slice {
            self.save(iptr);
            self.enqueue(self.registers.wptr);
            self.next();
        }
        outcome
    }

    /// Wakes a process, which is told by its workspace pointer: an idle processor runs it, a running
    /// one puts it into its queue, and a stopped one does nothing. A refused word, or an undefined
    /// front of the queue of a running processor, stops it, and changes nothing else.
    #[tactic(auto, unfolding(crate::specs::Queues::woken))]
    pub fn wake(&mut self, process: u32)
        ensures { self.new ≡ woken M.access process self.old }
    {
        match self.life {
            Life::Running => self.wake_running(process),
            Life::Idle => self.wake_idle(process),
            Life::Stopped(_) => {}
        }
    }

    /// Puts a woken process into the queue.
    fn wake_running(&mut self, process: u32)
        ensures { self.new ≡ woken_behind M.access self.old.front process self.old }
    {
        if let Reg::Undefined = self.registers.front {
            self.stop(Why::Undefined);
            return;
        }
        match self.enqueue_refusal() {
            Some(touch) => {
                self.refuse(touch);
            }
            None => self.enqueue(process),
        }
    }

    /// Runs a woken process.
    fn wake_idle(&mut self, process: u32)
        ensures { self.new ≡ woken_idle (loadable M.access self.old.memory (below process 4)) M.access process self.old }
    {
        match self.loadable(below(process, 4)) {
            Some(touch) => {
                self.refuse(touch);
            }
            None => {
                self.registers.iptr = self.word_at(below(process, 4));
                self.registers.wptr = process;
                self.life = Life::Running;
            }
        }
    }
}

/// The address so many bytes below.
pub(crate) fn below(a: u32, n: u32) -> u32
    ensures { result ≡ below a n }
{
    a.wrapping_sub(n)
}

/// The address so many words above.
pub(crate) fn words_above(a: u32, n: u32) -> u32
    ensures { result ≡ words_above a n }
{
    a.wrapping_add(n.wrapping_mul(4))
}

/// The refusal of two accesses together: Outside goes before Code.
pub(crate) fn first_refusal(one: Option<Touch>, other: Option<Touch>) -> Option<Touch>
    ensures { result ≡ first_refusal one other }
{
    match (one, other) {
        (Some(Touch::Outside), _) | (_, Some(Touch::Outside)) => Some(Touch::Outside),
        (Some(Touch::Code), _) => Some(Touch::Code),
        (None, other) => other,
    }
}
