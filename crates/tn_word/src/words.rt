ghost use Rattle.std.specs.Prelude.{◌≡◌, ◌+◌, ◌<◌, ◌↔◌, ◌++◌, ℕ, List, length, take, drop, Some, IsNone, IfSome};
ghost use Rattle.tn_word.specs.Words.{bytes_of_word, word_from};

use byteorder::{ByteOrder, LittleEndian};

/// The least address, as the T425 data sheet has it: addresses are signed words.
pub const MOST_NEG: u32 = 0x8000_0000;

/// The address at which the T425 stores a bootstrap that comes by a link.
pub const MEM_START: u32 = 0x8000_0070;

/// The least address that an image may use. It is this project's own: the loader lies below.
pub const LOAD_BASE: u32 = 0x8000_0400;

/// The word that stands where there is no process, as in a queue's front and in a free channel.
pub const NOT_PROCESS: u32 = 0x8000_0000;

/// The bytes of a word as they lie in memory, the lowest first.
pub fn word_bytes(w: u32) -> [u8; 4]
    ensures bytes { result ≡ bytes_of_word w }

    // Wherever these bytes stand in a list, the word there is `w`.
    ensures read_back { (before after : List ℕ) → word_from (before ++ result ++ after) (length before) ≡ Some w }
{
    let mut bytes = [0; 4];
    LittleEndian::write_u32(&mut bytes, w);
    bytes
}

/// The word in the four bytes from place `at` on, the lowest first. `None` exactly where fewer than
/// four bytes remain from `at`.
pub fn word_at(bytes: &[u8], at: usize) -> Option<u32>
    ensures none { IsNone result ↔ (length bytes.now < at + 4) }
    ensures bytes { IfSome result (λ w. bytes_of_word w ≡ take 4 (drop at bytes.now)) }
    ensures value { result ≡ word_from bytes.now at }
{
    match bytes.get(at..)? {
        [a, b, c, d, ..] => Some(u32::from_le_bytes([*a, *b, *c, *d])),
        _ => None,
    }
}
