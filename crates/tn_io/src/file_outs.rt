ghost use Rattle.tn_io.specs.FileOuts.{over_file, printed_to, GoesOn, Marks, answered};
ghost use Rattle.tn_io.specs.FileOutLaws.{goes_on-itself, goes_on-joined};
ghost use Rattle.tn_io.specs.Outs.{Prints};
ghost use Rattle.tn_io.specs.Stores.{Writes};

use crate::faults::{OutFault, PutFault, PutKind, count_fault};
use crate::outs::Out;
use crate::stores::Store;

/// An output over the open file of a store. It passes each piece on to the store, and counts each
/// refusal up to the greatest value of 64 bits.
///
/// It tells the bytes of the open file, where the store tells its files. A later value goes on from
/// one with an open file where it holds the same reference to the store, and nothing happened to the
/// store but writes to that file.
#[derive(Drop)]
pub struct FileOut<'a, S: Store> {
    pub store: &'a mut S,
    /// Which refusal came last. None where there was none.
    pub kind: Option<PutKind>,
    /// How many writes were refused.
    pub refused: u64,
}

impl<'a, S: Store> FileOut<'a, S> {
    /// Passes a piece on, and marks a refusal.
    fn pass_on(&mut self, bytes: &[u8]) -> Result<(), OutFault>
        ensures passed_on { Writes bytes.now (answered result self.new.kind) (S.stored self.old.store.now) (S.stored self.new.store.now) }
        ensures marks { Marks result (over_file S.stored self.old) (over_file S.stored self.new) }
    {
        let Err(fault) = self.store.write(bytes) else {
            return Ok(());
        };
        self.kind = Some(match fault {
            PutFault::Failed => PutKind::Failed,
            PutFault::NoMemory => PutKind::NoMemory,
        });
        count_fault(&mut self.refused);
        Err(OutFault)
    }
}

impl<'a, S: Store> Out for FileOut<'a, S> {
    ghost printed = { λ out. printed_to (over_file S.stored out) };

    ghost goes_on = { λ before after. GoesOn (over_file S.stored before) (over_file S.stored after) };

    ghost stays = { λ out. goes_on-itself (over_file S.stored out) };

    ghost joined = { λ first second third.
        goes_on-joined (over_file S.stored first) (over_file S.stored second) (over_file S.stored third) };

    fn write(&mut self, bytes: &[u8]) -> Result<(), OutFault>
        ensures prints { Prints bytes.now result (printed_to (over_file S.stored self.old)) (printed_to (over_file S.stored self.new)) }
        ensures goes_on { GoesOn (over_file S.stored self.old) (over_file S.stored self.new) }

        // What the store answered and did, also where no file is open.
        ensures passed_on { Writes bytes.now (answered result self.new.kind) (S.stored self.old.store.now) (S.stored self.new.store.now) }
        ensures marks { Marks result (over_file S.stored self.old) (over_file S.stored self.new) }
    {
        self.pass_on(bytes)
    }
}
