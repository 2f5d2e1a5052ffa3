ghost use Rattle.std.specs.Prelude.{◌≡◌, Some};
ghost use Rattle.tn_word.specs.Words.{word_from};
ghost use Rattle.tn_loader.specs.Commands.{command_bytes};

use byteorder::{ByteOrder, LittleEndian};

/// The operation of a LOAD, which reads `n` bytes to address `x`.
pub const LOAD: u32 = 0;

/// The operation of a FORWARD, which reads `n` bytes and sends them on channel `x`.
pub const FORWARD: u32 = 1;

/// The operation of a RUN, which starts the program at address `x` with the workspace pointer `n`.
pub const RUN: u32 = 2;

/// The operation of a NOP, which does nothing; `x` and `n` are 0.
pub const NOP: u32 = 3;

/// How many bytes a command has.
pub const COMMAND_SIZE: usize = 12;

/// A command of the secondary loader: the words `op`, `x` and `n`, each with its lowest byte first.
#[tactic(auto, unfolding(crate::specs::Commands::command_bytes))]
pub fn command(op: u32, x: u32, n: u32) -> [u8; COMMAND_SIZE]
    ensures bytes { result ≡ command_bytes op x n }
    ensures op { word_from result 0 ≡ Some op }
    ensures x { word_from result 4 ≡ Some x }
    ensures n { word_from result 8 ≡ Some n }
{
    let mut bytes = [0; COMMAND_SIZE];
    LittleEndian::write_u32(&mut bytes, op);
    LittleEndian::write_u32(&mut bytes[4..], x);
    LittleEndian::write_u32(&mut bytes[8..], n);
    bytes
}
