ghost use Rattle.std.specs.Prelude.{◌≡◌, Ok, Err, if◌then◌else◌};
ghost use Rattle.std.specs.Result.{result_err};
ghost use Rattle.tn_mem.specs.Spaces.{first_refusal};
ghost use Rattle.tn_mem.specs.Guards.{guarded, meets};
ghost use Rattle.tn_mem.specs.Inner.GuardLaws.{guarded_lawful};

use crate::memories::Memory;
use crate::spaces::Space;
use crate::touches::Touch;
use std::marker::Model;

/// A memory in which no access may meet the region from one address up to, but not including,
/// another. Such an access is refused as Code, unless the memory refuses it as Outside.
#[derive(Drop)]
pub struct CodeFree {
    memory: Memory,
    from: u32,
    to: u32,
}

impl Model for CodeFree {
    ghost use Rattle.tn_mem.specs.Guards.{Guarded};

    ghost Value = { Guarded };

    ghost view = { λ s. record { bytes = s.memory; from = s.from; to = s.to } };
}

impl CodeFree {
    /// A memory whose addresses from `from` up to, but not including, `to` are guarded.
    pub fn around(memory: Memory, from: u32, to: u32) -> CodeFree
        ensures { result ≡ record { bytes = memory; from = from; to = to } }
    {
        CodeFree { memory, from, to }
    }

    /// The memory, with its guarded bytes.
    pub fn memory(&self) -> &Memory
        ensures { result.now ≡ self.now.bytes }
    {
        &self.memory
    }
}

impl Space for CodeFree {
    ghost access = { guarded };

    ghost lawful = { guarded_lawful };

    fn byte(&self, a: u32) -> Result<u8, Touch> {
        let byte = self.memory.byte(a)?;
        unmet(self.from, self.to, a, 1)?;
        Ok(byte)
    }

    fn set_byte(&mut self, a: u32, v: u8) -> Result<(), Touch> {
        self.block(a, 1)?;
        self.memory.set_byte(a, v)
    }

    fn word(&self, a: u32) -> Result<u32, Touch> {
        let word = self.memory.word(a)?;
        unmet(self.from, self.to, a, 4)?;
        Ok(word)
    }

    fn set_word(&mut self, a: u32, v: u32) -> Result<(), Touch> {
        self.word(a)?;
        self.memory.set_word(a, v)
    }

    fn block(&self, a: u32, n: u32) -> Result<(), Touch> {
        self.memory.block(a, n)?;
        unmet(self.from, self.to, a, n)
    }

    fn copy(&mut self, from: u32, to: u32, n: u32) -> Result<(), Touch> {
        both(self.block(from, n), self.block(to, n))?;
        self.memory.copy(from, to, n)
    }
}

/// What two tests answer together: Outside goes before Code.
fn both(source: Result<(), Touch>, target: Result<(), Touch>) -> Result<(), Touch>
    ensures { result_err result ≡ first_refusal (result_err source) (result_err target) }
{
    match (source, target) {
        (Ok(()), other) | (other, Ok(())) => other,
        (Err(Touch::Code), Err(Touch::Code)) => Err(Touch::Code),
        _ => Err(Touch::Outside),
    }
}

/// Refuses `n` bytes at an address that meet a region as Code.
fn unmet(from: u32, to: u32, a: u32, n: u32) -> Result<(), Touch>
    ensures { result ≡ (if meets from to a n then Err Touch.Code else Ok tt) }
{
    let first = u64::from(from.max(a));
    let end = u64::from(to).min(u64::from(a) + u64::from(n));
    if first < end {
        Err(Touch::Code)
    } else {
        Ok(())
    }
}
