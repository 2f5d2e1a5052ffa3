ghost use Rattle.std.specs.Prelude.{◌≡◌, None};
ghost use Rattle.std.specs.Option.{option_copied};
ghost use Rattle.tn_io.specs.FileLists.{held, HasDistinctNames};
ghost use Rattle.tn_io.specs.MemStores.{files_of};
ghost use Rattle.tn_io.specs.SafeStores.{safely_stored};

use crate::faults::{GetFault, PutFault};
use crate::file_text::FileText;
use crate::mem_store::MemStore;
use crate::stores::Store;
use std::marker::Model;

/// A store in memory that tells its files and never fails: `Failed` comes only for a missing file,
/// or with no open file.
#[derive(Drop)]
pub struct SafeStore {
    inner: MemStore,
}

impl Model for SafeStore {
    ghost use Rattle.std.specs.Prelude.{◌≡◌, []};
    ghost use Rattle.tn_io.specs.SafeStores.{Safe};

    ghost Value = { Safe };

    ghost view = { λ s. record { files = s.inner.files; opened = s.inner.opened } };

    ghost invariant = { λ s. s.inner.failing ≡ [] };
}

impl SafeStore {
    /// A store of these files, no name twice.
    pub fn new(files: Vec<(FileText, Vec<u8>)>) -> SafeStore
        requires { HasDistinctNames (files_of files.items) }
        ensures { result ≡ record { files = files_of files.items; opened = None } }
    {
        let failing = Vec::new(*files.allocator());
        SafeStore {
            inner: MemStore::new(files, failing),
        }
    }

    /// The bytes of a file. `None` exactly where the name isn't held. No store ever holds a name
    /// twice.
    pub fn file(&self, name: &str) -> Option<&[u8]>
        ensures bytes { option_copied result ≡ held self.now.files name.now }
        ensures distinct { HasDistinctNames self.now.files }
    {
        self.inner.file(name)
    }
}

impl Store for SafeStore {
    ghost stored = { safely_stored };

    fn get(&mut self, name: &str, limit: u64, into: &mut Vec<u8>) -> Result<(), GetFault> {
        self.inner.get(name, limit, into)
    }

    fn create(&mut self, name: &str) -> Result<(), PutFault> {
        self.inner.create(name)
    }

    fn write(&mut self, bytes: &[u8]) -> Result<(), PutFault> {
        self.inner.write(bytes)
    }

    fn close(&mut self) -> Result<(), PutFault> {
        self.inner.close()
    }
}
