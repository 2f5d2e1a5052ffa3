ghost use Rattle.std.specs.Prelude.{◌≡◌, ◌≤◌, IfOk};
ghost use Rattle.tn_mem.specs.Spaces.{Leaves};
ghost use Rattle.tn_cpu.specs.States.{powered_up, booted, over_memory};
ghost use Rattle.tn_cpu.specs.Views.{state_of};

use crate::outcomes::Life;
use crate::registers::Reg;
use std::marker::Model;
use tn_mem::{CodeFree, Memory, Space, Touch};
use tn_word::MEM_START;

/// Memory cannot be had.
#[derive(Clone, Copy)]
pub struct NoMemory;

/// A T425 over a space of addresses, without its links.
#[derive(Drop)]
pub struct Cpu<M: Space> {
    pub(crate) memory: M,
    pub(crate) registers: CpuView,
    pub(crate) life: Life,
}

/// What a processor's registers hold.
#[derive(Clone, Copy, PartialEq, Eq)]
pub struct CpuView {
    /// Areg.
    pub a: Reg,
    /// Breg.
    pub b: Reg,
    /// Creg.
    pub c: Reg,
    /// The operand register.
    pub oreg: u32,
    /// The instruction pointer.
    pub iptr: u32,
    /// The workspace pointer.
    pub wptr: u32,
    /// The front of the queue of processes; NotProcess.p, #80000000, where it is empty.
    pub front: Reg,
    /// The back of the queue.
    pub back: u32,
    /// Error.
    pub error: bool,
    /// HaltOnError.
    pub halt: bool,
}

impl<M: Space> Model for Cpu<M> {
    ghost use Rattle.tn_cpu.specs.States.{State};
    ghost use Rattle.tn_cpu.specs.Views.{state_of};

    ghost Value = { State M };

    ghost view = { λ s. state_of s.memory s.registers s.life };
}

impl<M: Space> Cpu<M> {
    /// A processor after power-up, with any memory, Error and HaltOnError. It is idle, its
    /// registers and the front of its queue are undefined, and all else is 0.
    pub fn power_up(memory: M, error: bool, halt: bool) -> Cpu<M>
        ensures { result ≡ powered_up memory error halt }
    {
        Cpu {
            memory,
            registers: CpuView {
                a: Reg::Undefined,
                b: Reg::Undefined,
                c: Reg::Undefined,
                oreg: 0,
                iptr: 0,
                wptr: 0,
                front: Reg::Undefined,
                back: 0,
                error,
                halt,
            },
            life: Life::Idle,
        }
    }

    /// Runs a bootstrap of so many bytes, which stands from MemStart, #80000070, on. That the
    /// workspace pointer is the first multiple of 4 behind it, and that the three registers and the
    /// front of the queue are undefined, are this project's rules.
    pub fn boot(&mut self, bytes: u32)
        requires { bytes ≤ 255 }
        ensures { self.new ≡ booted bytes self.old }
    {
        self.registers.a = Reg::Undefined;
        self.registers.b = Reg::Undefined;
        self.registers.c = Reg::Undefined;
        self.registers.oreg = 0;
        self.registers.iptr = MEM_START;
        self.registers.wptr = (MEM_START + bytes).next_multiple_of(4);
        self.registers.front = Reg::Undefined;
        self.life = Life::Running;
    }

    /// Stores a byte, as the memory does, and changes nothing else.
    pub fn store_byte(&mut self, a: u32, v: u8) -> Result<(), Touch>
        ensures store { Leaves result (M.access.set_byte self.old.memory a v) self.old.memory self.new.memory }
        ensures rest { self.new ≡ record self.old { memory = self.new.memory } }
    {
        self.memory.set_byte(a, v)
    }

    /// Stores a word, as the memory does, and changes nothing else.
    pub fn store_word(&mut self, a: u32, v: u32) -> Result<(), Touch>
        ensures store { Leaves result (M.access.set_word self.old.memory a v) self.old.memory self.new.memory }
        ensures rest { self.new ≡ record self.old { memory = self.new.memory } }
    {
        self.memory.set_word(a, v)
    }

    /// Whether it runs.
    pub fn life(&self) -> Life
        ensures { result ≡ self.now.life }
    {
        self.life
    }

    /// Its memory.
    pub fn memory(&self) -> &M
        ensures { result.now ≡ self.now.memory }
    {
        &self.memory
    }

    /// What its registers hold.
    pub fn view(&self) -> CpuView
        ensures { self.now ≡ state_of self.now.memory result self.now.life }
    {
        self.registers
    }
}

impl Cpu<Memory> {
    /// An equal processor over a copy of its memory in which the addresses from `from` up to, but
    /// not including, `to` are guarded.
    pub fn guarded(&self, from: u32, to: u32) -> Result<Cpu<CodeFree>, NoMemory>
        ensures { IfOk result (λ copy. copy ≡ over_memory (record { bytes = self.now.memory; from = from; to = to }) self.now) }
    {
        let copied = self.memory.copied().map_err(|_| NoMemory)?;
        let memory = CodeFree::around(copied, from, to);
        Ok(Cpu {
            memory,
            registers: self.registers,
            life: self.life,
        })
    }
}
