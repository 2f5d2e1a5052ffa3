ghost use Rattle.std.specs.Prelude.{◌≡◌, None};

use crate::faults::{OutFault, count_fault};
use crate::outs::Out;
use std::str;

#[derive(Clone, Copy)]
enum Stream {
    Standard,
    Error,
}

/// The host's standard output or standard error. It tells nothing of what was written, since no
/// contract can; it counts each failure of the host.
#[derive(Drop)]
pub struct HostOut<'a, R: Print + Eprint> {
    rt: &'a R,
    stream: Stream,
    faults: u64,
}

impl<'a, R: Print + Eprint> HostOut<'a, R> {
    /// The standard output. Nothing has failed.
    pub fn standard(rt: &'a R) -> HostOut<'a, R>
        ensures { ⟦<HostOut<'a, R> as Out>⟧.printed result ≡ record { bytes = None; faults = 0 } }
    {
        HostOut {
            rt,
            stream: Stream::Standard,
            faults: 0,
        }
    }

    /// The standard error. Nothing has failed. A piece that isn't text counts as a failure.
    pub fn error(rt: &'a R) -> HostOut<'a, R>
        ensures { ⟦<HostOut<'a, R> as Out>⟧.printed result ≡ record { bytes = None; faults = 0 } }
    {
        HostOut {
            rt,
            stream: Stream::Error,
            faults: 0,
        }
    }

    fn is_written(&self, bytes: &[u8]) -> bool {
        match self.stream {
            Stream::Standard => self.rt.write_all(bytes).is_ok(),
            Stream::Error => match str::from_utf8(bytes) {
                Ok(text) => self.rt.eprint(text).is_ok(),
                Err(_) => false,
            },
        }
    }
}

impl<'a, R: Print + Eprint> Out for HostOut<'a, R> {
    ghost printed = { λ out. record { bytes = None; faults = out.faults } };

    ghost goes_on = { λ _ _. Unit {0} };

    ghost stays = { λ _. tt };

    ghost joined = { λ _ _ _ _ _. tt };

    fn write(&mut self, bytes: &[u8]) -> Result<(), OutFault> {
        if self.is_written(bytes) {
            return Ok(());
        }
        count_fault(&mut self.faults);
        Err(OutFault)
    }
}
