ghost use Rattle.std.specs.Prelude.{◌≡◌, ℕ, ◌+◌, ◌-◌, ◌^◌, ◌<◌, ◌≤◌, [], length, None, option_map, OnOk, IsErrOf};

use crate::faults::{GetFault, PutFault, count_fault};
use crate::file_text::FileText;
use crate::stores::Store;
use std::fs;
use std::io::{Read, Write};
use std::rt::Files;

/// How many bytes are asked of the host at a time.
const PIECE: usize = 4096;

/// The host's files. It tells nothing of their content, since no contract can; it counts each
/// failure of the host, a missing file included.
#[derive(Drop)]
pub struct HostStore<'a, R: Files> {
    rt: &'a R,
    opened: Option<(FileText, R::File)>,
    read_faults: u64,
    write_faults: u64,
}

impl<'a, R: Files> HostStore<'a, R> {
    /// The files of this runtime. No file is open, and nothing has failed.
    pub fn new(rt: &'a R) -> HostStore<'a, R>
        ensures { ⟦<HostStore<'a, R> as Store>⟧.stored result ≡ record { files = None; opened = None; read_faults = 0; write_faults = 0 } }
    {
        HostStore {
            rt,
            opened: None,
            read_faults: 0,
            write_faults: 0,
        }
    }
}

impl<'a, R: Files> Store for HostStore<'a, R> {
    ghost stored = { λ s. record {
      files = None;
      opened = option_map (λ named. named.0) s.opened;
      read_faults = s.read_faults;
      write_faults = s.write_faults;
    } };

    fn get(&mut self, name: &str, limit: u64, into: &mut Vec<u8>) -> Result<(), GetFault> {
        let result = match fs::open(self.rt, name) {
            Ok(mut file) => read_whole(&mut file, limit, into),
            Err(_) => Err(GetFault::Failed),
        };
        match result {
            Ok(()) => Ok(()),
            Err(GetFault::Failed) => {
                count_fault(&mut self.read_faults);
                into.clear();
                Err(GetFault::Failed)
            }
            Err(fault) => {
                into.clear();
                Err(fault)
            }
        }
    }

    fn create(&mut self, name: &str) -> Result<(), PutFault> {
        self.opened = None;
        match (FileText::of(name), fs::create(self.rt, name)) {
            (Some(text), Ok(file)) => {
                self.opened = Some((text, file));
                Ok(())
            }
            _ => {
                count_fault(&mut self.write_faults);
                Err(PutFault::Failed)
            }
        }
    }

    fn write(&mut self, bytes: &[u8]) -> Result<(), PutFault> {
        let Some((_, file)) = &mut self.opened else {
            return Err(PutFault::Failed);
        };
        if file.write_all(bytes).is_ok() {
            return Ok(());
        }
        count_fault(&mut self.write_faults);
        Err(PutFault::Failed)
    }

    fn close(&mut self) -> Result<(), PutFault> {
        let Some((_, mut file)) = self.opened.take() else {
            return Err(PutFault::Failed);
        };
        if file.flush().is_ok() {
            return Ok(());
        }
        count_fault(&mut self.write_faults);
        Err(PutFault::Failed)
    }
}

/// Reads a file to its end, and one byte more than the limit at most.
fn read_whole<F: Read>(file: &mut F, limit: u64, into: &mut Vec<u8>) -> Result<(), GetFault>
    requires limit { limit < 2 ^ 64 - 1 }
    requires empty { into.old.items ≡ [] }
    ensures ok { OnOk result (length into.new.items ≤ limit) }
    ensures too_long { (n : ℕ) → IsErrOf result (GetFault.TooLong n) → n ≡ limit + 1 }
{
    let mut piece = [0u8; PIECE];
    for _ in 0..u64::MAX {
        let room = (limit + 1)
            .saturating_sub(into.len() as u64)
            .min(PIECE as u64) as usize;
        let Ok(count) = file.read(&mut piece[..room]) else {
            return Err(GetFault::Failed);
        };
        if count == 0 {
            return Ok(());
        }
        if into.len() as u64 + count as u64 > limit {
            return Err(GetFault::TooLong(limit + 1));
        }
        if into.extend_from_slice(&piece[..count]).is_err() {
            return Err(GetFault::NoMemory);
        }
    }
    Err(GetFault::Failed)
}
