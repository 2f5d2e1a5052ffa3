ghost use Rattle.std.specs.Prelude.{◌≡◌, ◌≤◌, ℕ, List, length};
ghost use Rattle.tn_text.specs.declared.limits.TheConstants.{FILE_NAME_LIMIT};
ghost use Rattle.tn_io.specs.Stores.{Stored};
ghost use Rattle.tn_top.specs.Inner.Ends.{Puts, PutsFile};

use crate::refusals::Refusal;
use tn_io::{PutFault, Store};
use tn_text::FileName;

/// Writes a file whole, and ends the command.
pub fn write_file<S: Store>(name: &FileName, bytes: &[u8], store: &mut S) -> Result<(), Refusal>
    ensures { Puts name.now bytes.now (S.stored store.old) (S.stored store.new) result }
{
    let put = put_file(store, name.text(), bytes);
    after_put(name, put)
}

/// How a command ends whose file was written, or was not.
pub fn after_put(name: &FileName, put: Result<(), PutFault>) -> Result<(), Refusal>
    ensures { (bytes : List ℕ) (before after : Stored) → PutsFile name.now bytes put before after
        → Puts name.now bytes before after result }
{
    match put {
        Ok(()) => Ok(()),
        Err(PutFault::Failed) => Err(Refusal::Unwritten(name.copied())),
        Err(PutFault::NoMemory) => Err(Refusal::NoMemory),
    }
}

/// Writes a file whole. `Failed` comes only where the count of write faults rose; a refusal leaves
/// the file as it was, or a prefix of the bytes in it.
fn put_file<S: Store>(store: &mut S, name: &str, bytes: &[u8]) -> Result<(), PutFault>
    requires { length name.now ≤ FILE_NAME_LIMIT }
    ensures { PutsFile name.now bytes.now result (S.stored store.old) (S.stored store.new) }
{
    store.create(name)?;
    store.write(bytes)?;
    store.close()
}
