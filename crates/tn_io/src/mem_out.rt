ghost use Rattle.std.specs.Prelude.{◌≡◌, ◌+◌, ◌-◌, ◌^◌, [], min, IsErr, OnErr};
ghost use Rattle.tn_io.specs.Outs.{Prints};
ghost use Rattle.tn_io.specs.MemOuts.{printed_of, IsListed, CountsCall};

use crate::faults::{OutFault, count_fault};
use crate::listed_calls::ListedCalls;
use crate::outs::Out;
use std::marker::Model;

/// An output in memory that tells its bytes and refuses the writes of a list, as a failing device
/// does. Writes are numbered from 0. A refused write, and one for which there is no memory, counts
/// as a fault and leaves the bytes as they were.
#[derive(Drop)]
pub struct MemOut {
    bytes: Vec<u8>,
    device: ListedCalls,
    faults: u64,
}

impl Model for MemOut {
    ghost use Rattle.tn_io.specs.MemOuts.{OutInMemory};

    ghost Value = { OutInMemory };

    ghost view = { λ out. record {
      bytes = out.bytes.items;
      failing = out.device.failing.items;
      calls = out.device.calls;
      faults = out.faults;
    } };
}

impl MemOut {
    /// An empty output that refuses the writes with these numbers.
    pub fn new(failing: Vec<u64>) -> MemOut
        ensures { result ≡ record { bytes = []; failing = failing.items; calls = 0; faults = 0 } }
    {
        let bytes = Vec::new(*failing.allocator());
        MemOut {
            bytes,
            device: ListedCalls { failing, calls: 0 },
            faults: 0,
        }
    }

    /// The bytes written so far.
    pub fn bytes(&self) -> &[u8]
        ensures { result.now ≡ self.now.bytes }
    {
        &self.bytes
    }

    /// The bytes written, moved out.
    pub fn into_bytes(self) -> Vec<u8>
        ensures { result.items ≡ self.bytes }
    {
        self.bytes
    }
}

impl Out for MemOut {
    ghost printed = { printed_of };

    ghost goes_on = { λ _ _. Unit {0} };

    ghost stays = { λ _. tt };

    ghost joined = { λ _ _ _ _ _. tt };

    fn write(&mut self, bytes: &[u8]) -> Result<(), OutFault>
        ensures prints { Prints bytes.now result (printed_of self.old) (printed_of self.new) }
        ensures goes_on { Unit {0} }
        ensures listed { IsListed self.old → IsErr result }
        ensures kept { OnErr result (self.new.bytes ≡ self.old.bytes) }
        ensures counted { CountsCall self.old self.new }
    {
        if !self.device.next() && self.bytes.extend_from_slice(bytes).is_ok() {
            return Ok(());
        }
        count_fault(&mut self.faults);
        Err(OutFault)
    }
}
