ghost use Rattle.std.specs.Prelude.{◌≡◌, ◌==◌, find, IfSome};
ghost use Rattle.tn_sym.specs.Symbolic.{instruction_at};
ghost use Rattle.tn_sym.specs.Inner.Tables.{IsTable, IsRunnable};

use std::marker::Model;
use tn_isa::Fun;

/// An instruction of a program: its address, how many bytes it has there, its function, and its operand
/// as the function sees it.
#[derive(Clone, Copy)]
pub(crate) struct Instruction {
    pub(crate) address: u32,
    pub(crate) size: u32,
    pub(crate) fun: Fun,
    pub(crate) operand: u32,
}

/// The code of a processor: the address of its first byte, its bytes, and its instructions in order of
/// their addresses.
#[derive(Drop)]
pub(crate) struct Code {
    base: u32,
    bytes: Vec<u8>,
    instructions: Vec<Instruction>,
}

impl Model for Code {
    ghost use Rattle.tn_sym.specs.Symbolic.{CodeState};
    ghost use Rattle.tn_sym.specs.Inner.Tables.{IsTable};

    ghost Value = { CodeState };

    ghost view = { λ c. record { base = c.base; bytes = c.bytes.items; instructions = c.instructions.items } };

    ghost invariant = { λ c. IsTable c.instructions.items };
}

impl Code {
    /// Code of these parts.
    pub(crate) fn of(base: u32, bytes: Vec<u8>, instructions: Vec<Instruction>) -> Code
        requires { IsTable instructions.items }
        ensures { result ≡ record { base = base; bytes = bytes.items; instructions = instructions.items } }
    {
        Code {
            base,
            bytes,
            instructions,
        }
    }

    /// The address of its first byte.
    pub(crate) fn base(&self) -> u32
        ensures { result ≡ self.now.base }
    {
        self.base
    }

    /// Its bytes.
    pub(crate) fn bytes(&self) -> &[u8]
        ensures { result.now ≡ self.now.bytes }
    {
        self.bytes.as_slice()
    }

    /// The instruction that begins at an address. `None` exactly where none does.
    pub(crate) fn instruction_at(&self, address: u32) -> Option<Instruction>
        ensures value { result ≡ instruction_at self.now address }
        ensures runnable { IfSome result IsRunnable }
    {
        search(self.instructions.as_slice(), address)
    }
}

/// The instruction that begins at an address.
fn search(instructions: &[Instruction], address: u32) -> Option<Instruction>
    requires { IsTable instructions.now }
    ensures value { result ≡ find (λ instruction. instruction.address == address) instructions.now }
    ensures runnable { IfSome result IsRunnable }
{
    let behind = instructions.partition_point(|instruction| instruction.address <= address);
    if behind == 0 {
        return None;
    }
    let last = instructions[behind - 1];
    if last.address == address {
        Some(last)
    } else {
        None
    }
}
