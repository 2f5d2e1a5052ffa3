ghost use Rattle.std.specs.Prelude.{◌≡◌, ◌-◌, ◌^◌, ◌<◌, ◌≤◌, [], length};
ghost use Rattle.tn_io.specs.Stores.{Stored, TellsEachOnce, Gets, Creates, Writes, Closes};

use crate::faults::{GetFault, PutFault};
use tn_text::limits::FILE_NAME_LIMIT;

/// Named files that are read whole and written one at a time. A name has at most 255 bytes.
///
/// A file is open from an `Ok` of `create` until `close` is called; a refused `create` leaves none
/// open. `Failed` comes only where the store's count of faults rose in the call, or stands at its
/// greatest value, with two exceptions that raise no count: a `get` of a name that the store tells
/// it doesn't hold, and a `write` or `close` with no open file. So no caller raises a count by what
/// it asks for. A store that tells its files never has a name twice.
pub trait Store {
    /// What contracts see of a store: its files, where it tells them, the name of the open file,
    /// and how often it failed to read and to write.
    ghost stored: { Self → Stored };

    /// Reads a file whole into `into`, which grows with its own allocator. After a refusal `into`
    /// is empty. `TooLong(limit + 1)` comes where the file has more than `limit` bytes.
    fn get(&mut self, name: &str, limit: u64, into: &mut Vec<u8>) -> Result<(), GetFault>
        requires name { length name.now ≤ FILE_NAME_LIMIT }
        requires limit { limit < 2 ^ 64 - 1 }
        requires empty { into.old.items ≡ [] }
        ensures gets { Gets name.now limit result into.new.items (stored self.old) (stored self.new) }
        ensures once { TellsEachOnce (stored self.old) (stored self.new) };

    /// Makes or empties a file and opens it for writing. A file that is open is ended first. A
    /// refusal leaves the named file as it was, or empty.
    fn create(&mut self, name: &str) -> Result<(), PutFault>
        requires name { length name.now ≤ FILE_NAME_LIMIT }
        ensures creates { Creates name.now result (stored self.old) (stored self.new) }
        ensures once { TellsEachOnce (stored self.old) (stored self.new) };

    /// Appends to the open file. A refusal leaves its bytes followed by a prefix of the piece.
    fn write(&mut self, bytes: &[u8]) -> Result<(), PutFault>
        ensures writes { Writes bytes.now result (stored self.old) (stored self.new) }
        ensures once { TellsEachOnce (stored self.old) (stored self.new) };

    /// Ends the open file. A refusal leaves a prefix of its bytes.
    fn close(&mut self) -> Result<(), PutFault>
        ensures closes { Closes result (stored self.old) (stored self.new) }
        ensures once { TellsEachOnce (stored self.old) (stored self.new) };
}
