ghost use Rattle.std.specs.Prelude.{◌≡◌};
ghost use Rattle.tn_mem.specs.Spaces.{Access, IsSpace, Leaves};

use crate::touches::Touch;

/// A space of addresses that a processor loads from and stores to.
///
/// Whether an access is refused depends on its kind, address and length, and on the extents of the
/// space, which no call of this trait changes. A refused call changes nothing.
pub trait Space {
    /// What each access answers.
    ghost access: { Access Self };

    /// The byte at an address.
    fn byte(&self, a: u32) -> Result<u8, Touch>
        ensures { result ≡ access.byte self.now a };

    /// Stores a byte at an address.
    fn set_byte(&mut self, a: u32, v: u8) -> Result<(), Touch>
        ensures { Leaves result (access.set_byte self.old a v) self.old self.new };

    /// The word at an address, its lowest byte first. An address that is no multiple of 4 is
    /// refused as Outside.
    fn word(&self, a: u32) -> Result<u32, Touch>
        ensures { result ≡ access.word self.now a };

    /// Stores a word at an address, its lowest byte first. An address that is no multiple of 4 is
    /// refused as Outside.
    fn set_word(&mut self, a: u32, v: u32) -> Result<(), Touch>
        ensures { Leaves result (access.set_word self.old a v) self.old self.new };

    /// Whether a block of `n` bytes may be read and stored. One of 0 bytes always may, and any other
    /// ends at 2^32 at most.
    fn block(&self, a: u32, n: u32) -> Result<(), Touch>
        ensures { result ≡ access.block self.now a n };

    /// Copies `n` bytes, as if all were read before the first is stored. It is refused where one
    /// of the two blocks is, and Outside goes before Code.
    fn copy(&mut self, from: u32, to: u32, n: u32) -> Result<(), Touch>
        ensures { Leaves result (access.copy self.old from to n) self.old self.new };

    /// The laws that each space keeps.
    ghost lawful: { IsSpace access };
}
