ghost use Rattle.std.specs.Prelude.{◌≡◌, ◌≤◌, ◌<◌, ◌-◌, ◌^◌, ◌⊎◌, ◌↔◌, [], length};
ghost use Rattle.std.specs.Prelude.{None, IsSome, MatchOption, OnOk, OnErr, IsErrOf, position};
ghost use Rattle.std.specs.Str.{bytes_eq};
ghost use Rattle.std.specs.Option.{option_copied};
ghost use Rattle.tn_io.specs.FileLists.{held, with_file, with_more, IsPlace, HasNoPlace, HasDistinctNames};
ghost use Rattle.tn_io.specs.Stores.{TellsEachOnce, Gets, Creates, Writes, Closes};
ghost use Rattle.tn_io.specs.MemStores.{files_of, stored_of, IsListed, CountsCall};

use crate::faults::{GetFault, PutFault, count_fault};
use crate::file_text::FileText;
use crate::listed_calls::ListedCalls;
use crate::stores::Store;
use std::alloc::AllocError;
use std::marker::Model;
use tn_text::limits::FILE_NAME_LIMIT;

/// A store in memory that tells its files and refuses the calls of a list, as a failing device
/// does. Calls are numbered from 0 over all calls of the store. A refused call leaves the files as
/// they were.
#[derive(Drop)]
pub struct MemStore {
    files: Vec<(FileText, Vec<u8>)>,
    opened: Option<FileText>,
    device: ListedCalls,
    read_faults: u64,
    write_faults: u64,
}

impl Model for MemStore {
    ghost use Rattle.tn_io.specs.MemStores.{InMemory, files_of};
    ghost use Rattle.tn_io.specs.FileLists.{HasDistinctNames, IsHeld};

    ghost Value = { InMemory };

    ghost view = { λ s. record {
      files = files_of s.files.items;
      opened = s.opened;
      failing = s.device.failing.items;
      calls = s.device.calls;
      read_faults = s.read_faults;
      write_faults = s.write_faults;
    } };

    ghost invariant = { λ s. HasDistinctNames (files_of s.files.items) × IsHeld s.opened (files_of s.files.items) };
}

impl MemStore {
    /// A store of these files, no name twice, that refuses the calls with these numbers.
    pub fn new(files: Vec<(FileText, Vec<u8>)>, failing: Vec<u64>) -> MemStore
        requires { HasDistinctNames (files_of files.items) }
        ensures { result ≡ record {
          files = files_of files.items;
          opened = None;
          failing = failing.items;
          calls = 0;
          read_faults = 0;
          write_faults = 0;
        } }
    {
        MemStore {
            files,
            opened: None,
            device: ListedCalls { failing, calls: 0 },
            read_faults: 0,
            write_faults: 0,
        }
    }

    /// The bytes of a file. `None` exactly where the name isn't held. No store ever holds a name
    /// twice.
    pub fn file(&self, name: &str) -> Option<&[u8]>
        ensures bytes { option_copied result ≡ held self.now.files name.now }
        ensures distinct { HasDistinctNames self.now.files }
    {
        bytes_under(&self.files, name)
    }
}

impl Store for MemStore {
    ghost stored = { stored_of };

    fn get(&mut self, name: &str, limit: u64, into: &mut Vec<u8>) -> Result<(), GetFault>
        requires name { length name.now ≤ FILE_NAME_LIMIT }
        requires limit { limit < 2 ^ 64 - 1 }
        requires empty { into.old.items ≡ [] }
        ensures gets { Gets name.now limit result into.new.items (stored_of self.old) (stored_of self.new) }
        ensures once { TellsEachOnce (stored_of self.old) (stored_of self.new) }
        ensures refused { IsErrOf result GetFault.Failed ↔ (IsListed self.old ⊎ (held self.old.files name.now ≡ None)) }
        ensures counted { CountsCall self.old self.new }
    {
        let refused = self.device.next();
        let Some(bytes) = bytes_under(&self.files, name) else {
            return Err(GetFault::Failed);
        };
        if refused {
            count_fault(&mut self.read_faults);
            return Err(GetFault::Failed);
        }
        if bytes.len() as u64 > limit {
            return Err(GetFault::TooLong(limit + 1));
        }
        match into.extend_from_slice(bytes) {
            Ok(()) => Ok(()),
            Err(_) => Err(GetFault::NoMemory),
        }
    }

    fn create(&mut self, name: &str) -> Result<(), PutFault>
        requires name { length name.now ≤ FILE_NAME_LIMIT }
        ensures creates { Creates name.now result (stored_of self.old) (stored_of self.new) }
        ensures once { TellsEachOnce (stored_of self.old) (stored_of self.new) }
        ensures refused { IsErrOf result PutFault.Failed ↔ IsListed self.old }
        ensures kept { IsListed self.old → self.new.files ≡ self.old.files }
        ensures counted { CountsCall self.old self.new }
    {
        self.opened = None;
        if self.device.next() {
            count_fault(&mut self.write_faults);
            return Err(PutFault::Failed);
        }
        match empty_file(&mut self.files, name) {
            Ok(()) => {
                self.opened = FileText::of(name);
                Ok(())
            }
            Err(AllocError) => Err(PutFault::NoMemory),
        }
    }

    fn write(&mut self, bytes: &[u8]) -> Result<(), PutFault>
        ensures writes { Writes bytes.now result (stored_of self.old) (stored_of self.new) }
        ensures once { TellsEachOnce (stored_of self.old) (stored_of self.new) }
        ensures refused { IsErrOf result PutFault.Failed ↔ (IsListed self.old ⊎ (self.old.opened ≡ None)) }
        ensures kept { IsListed self.old → self.new.files ≡ self.old.files }
        ensures counted { CountsCall self.old self.new }
    {
        let refused = self.device.next();
        let Some(name) = &self.opened else {
            return Err(PutFault::Failed);
        };
        if refused {
            count_fault(&mut self.write_faults);
            return Err(PutFault::Failed);
        }
        match append(&mut self.files, name.as_str(), bytes) {
            Ok(()) => Ok(()),
            Err(AllocError) => Err(PutFault::NoMemory),
        }
    }

    fn close(&mut self) -> Result<(), PutFault>
        ensures closes { Closes result (stored_of self.old) (stored_of self.new) }
        ensures once { TellsEachOnce (stored_of self.old) (stored_of self.new) }
        ensures refused { IsErrOf result PutFault.Failed ↔ (IsListed self.old ⊎ (self.old.opened ≡ None)) }
        ensures kept { self.new.files ≡ self.old.files }
        ensures counted { CountsCall self.old self.new }
    {
        let refused = self.device.next();
        if self.opened.take().is_none() {
            return Err(PutFault::Failed);
        }
        if refused {
            count_fault(&mut self.write_faults);
            return Err(PutFault::Failed);
        }
        Ok(())
    }
}

/// Where a name's file stands.
fn place_of(files: &[(FileText, Vec<u8>)], name: &str) -> Option<usize>
    ensures { MatchOption result (HasNoPlace (files_of files.now) name.now) (IsPlace (files_of files.now) name.now) }
{
    first_place(files, name)
}

/// The first place at which a file has the name.
fn first_place(files: &[(FileText, Vec<u8>)], name: &str) -> Option<usize>
    ensures { result ≡ position (λ file. bytes_eq file.0 name.now) files.now }
{
    files.iter().position(|file| file.0.as_str() == name)
}

/// The bytes under a name.
fn bytes_under<'a>(files: &'a [(FileText, Vec<u8>)], name: &str) -> Option<&'a [u8]>
    ensures { option_copied result ≡ held (files_of files.now) name.now }
{
    let i = place_of(files, name)?;
    Some(files[i].1.as_slice())
}

/// Makes or empties a name's file.
fn empty_file(files: &mut Vec<(FileText, Vec<u8>)>, name: &str) -> Result<(), AllocError>
    requires { length name.now ≤ FILE_NAME_LIMIT }
    ensures ok { OnOk result (files_of files.new.items ≡ with_file name.now [] (files_of files.old.items)) }
    ensures err { OnErr result (files_of files.new.items ≡ files_of files.old.items) }
{
    match place_of(files, name) {
        Some(i) => {
            files[i].1.clear();
            Ok(())
        }
        None => {
            let bytes = Vec::new(*files.allocator());
            let name = FileText::of(name).unwrap();
            files.push((name, bytes))?;
            Ok(())
        }
    }
}

/// Appends to a name's file.
fn append(files: &mut Vec<(FileText, Vec<u8>)>, name: &str, bytes: &[u8]) -> Result<(), AllocError>
    requires { IsSome (held (files_of files.old.items) name.now) }
    ensures ok { OnOk result (files_of files.new.items ≡ with_more name.now bytes.now (files_of files.old.items)) }
    ensures err { OnErr result (files_of files.new.items ≡ files_of files.old.items) }
{
    let i = place_of(files, name).unwrap();
    files[i].1.extend_from_slice(bytes)?;
    Ok(())
}
