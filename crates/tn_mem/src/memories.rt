ghost use Rattle.std.specs.Prelude.{◌≡◌, ◌-◌, length, IfOk};
ghost use Rattle.tn_mem.specs.Sizes.{IsMemorySize};
ghost use Rattle.tn_mem.specs.Memories.{plain_access, reachable, allows_block, allows_word};
ghost use Rattle.tn_mem.specs.Inner.MemoryLaws.{plain_lawful};

use crate::spaces::Space;
use crate::touches::Touch;
use std::marker::Model;

/// The lowest address.
const MOST_NEG: u32 = 0x8000_0000;

/// The lowest address that an access reaches: that of word 9.
const LOWEST: u32 = 0x8000_0024;

/// Memory cannot be had.
#[derive(Clone, Copy)]
pub struct NoMemory;

/// The memory of a processor, of [`MEMORY_SIZE_LEAST`](crate::MEMORY_SIZE_LEAST) to
/// [`MEMORY_SIZE_MOST`](crate::MEMORY_SIZE_MOST) bytes, whole words of them.
#[derive(Drop)]
pub struct Memory {
    bytes: Vec<u8>,
}

impl Model for Memory {
    ghost use Rattle.std.specs.Prelude.{List, ℕ, length};
    ghost use Rattle.tn_mem.specs.Sizes.{IsMemorySize};

    ghost Value = { List ℕ };

    ghost view = { λ s. s.bytes.items };

    ghost invariant = { λ s. IsMemorySize (length s.bytes.items) };
}

impl Memory {
    /// A memory that holds these bytes, the first at MostNeg. Their number is a memory size.
    pub fn power_up(bytes: Vec<u8>) -> Memory
        requires { IsMemorySize (length bytes.items) }
        ensures { result ≡ bytes.items }
    {
        Memory { bytes }
    }

    /// How many bytes the memory has.
    pub fn size(&self) -> u32
        ensures value { result ≡ length self.now }
        ensures size { IsMemorySize result }
    {
        self.bytes.len() as u32
    }

    /// An equal memory.
    pub fn copied(&self) -> Result<Memory, NoMemory>
        ensures { IfOk result (λ copy. copy ≡ self.now) }
    {
        match self.bytes.clone() {
            Ok(bytes) => Ok(Memory { bytes }),
            Err(_) => Err(NoMemory),
        }
    }

    /// All bytes, from MostNeg on, words 0 to 8 included.
    pub fn bytes(&self) -> &[u8]
        ensures { result.now ≡ self.now }
    {
        self.bytes.as_slice()
    }
}

impl Space for Memory {
    ghost access = { plain_access };

    ghost lawful = { plain_lawful };

    #[tactic(auto, unfolding(crate::specs::Memories::fetch))]
    fn byte(&self, a: u32) -> Result<u8, Touch> {
        if is_reachable(self.bytes.len(), a, 1) {
            Ok(self.bytes[place(a)])
        } else {
            Err(Touch::Outside)
        }
    }

    #[tactic(auto, unfolding(crate::specs::Memories::store_byte, crate::specs::Memories::put))]
    fn set_byte(&mut self, a: u32, v: u8) -> Result<(), Touch> {
        if !is_reachable(self.bytes.len(), a, 1) {
            return Err(Touch::Outside);
        }
        self.bytes[place(a)] = v;
        Ok(())
    }

    #[tactic(auto, unfolding(crate::specs::Memories::load, crate::specs::Memories::block))]
    fn word(&self, a: u32) -> Result<u32, Touch> {
        if !is_word(self.bytes.len(), a) {
            return Err(Touch::Outside);
        }
        let at = place(a);
        let bytes = [
            self.bytes[at],
            self.bytes[at + 1],
            self.bytes[at + 2],
            self.bytes[at + 3],
        ];
        Ok(u32::from_le_bytes(bytes))
    }

    #[tactic(auto, unfolding(crate::specs::Memories::store, crate::specs::Memories::put))]
    fn set_word(&mut self, a: u32, v: u32) -> Result<(), Touch> {
        if !is_word(self.bytes.len(), a) {
            return Err(Touch::Outside);
        }
        let at = place(a);
        self.bytes[at..at + 4].copy_from_slice(&v.to_le_bytes());
        Ok(())
    }

    #[tactic(auto, unfolding(crate::specs::Memories::test_block))]
    fn block(&self, a: u32, n: u32) -> Result<(), Touch> {
        if is_block(self.bytes.len(), a, n) {
            Ok(())
        } else {
            Err(Touch::Outside)
        }
    }

    #[tactic(auto, unfolding(crate::specs::Memories::copy_block, crate::specs::Memories::put, crate::specs::Memories::block))]
    fn copy(&mut self, from: u32, to: u32, n: u32) -> Result<(), Touch> {
        let size = self.bytes.len();
        if !is_block(size, from, n) || !is_block(size, to, n) {
            return Err(Touch::Outside);
        }
        if n > 0 {
            let at = place(from);
            self.bytes.copy_within(at..at + n as usize, place(to));
        }
        Ok(())
    }
}

/// Whether `n` bytes at an address are wholly inside a memory of so many bytes, above word 8.
fn is_reachable(size: usize, a: u32, n: u32) -> bool
    requires { IsMemorySize size }
    ensures { result ≡ reachable size a n }
{
    a >= LOWEST && (a - MOST_NEG) as usize + n as usize <= size
}

/// Whether a block of `n` bytes is allowed.
fn is_block(size: usize, a: u32, n: u32) -> bool
    requires { IsMemorySize size }
    ensures { result ≡ allows_block size a n }
{
    n == 0 || is_reachable(size, a, n)
}

/// Whether a word is allowed at an address.
fn is_word(size: usize, a: u32) -> bool
    requires { IsMemorySize size }
    ensures { result ≡ allows_word size a }
{
    a % 4 == 0 && is_reachable(size, a, 4)
}

/// Where the byte at an address stands in the list of bytes.
fn place(a: u32) -> usize
    ensures { result ≡ a - MOST_NEG }
{
    a.saturating_sub(MOST_NEG) as usize
}
