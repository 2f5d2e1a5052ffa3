ghost use Rattle.tn_io.specs.Outs.{Printed, Prints};

use crate::faults::OutFault;

/// A place that takes bytes in order.
///
/// A value of an output goes on from an earlier one where the calls between them have kept what
/// the output's kind promises to keep. Whatever is generic over an output ensures that the value
/// after the call goes on from the one before.
pub trait Out {
    /// What contracts see of an output: the bytes written, where it tells them, and how often it
    /// failed.
    ghost printed: { Self → Printed };

    /// The second value goes on from the first.
    ghost goes_on: { Self → Self → Type 0 };

    /// Writes a piece. A refusal leaves a prefix of it written, and comes only where the count of
    /// faults rose in the call, or stands at its greatest value.
    fn write(&mut self, bytes: &[u8]) -> Result<(), OutFault>
        ensures prints { Prints bytes.now result (printed self.old) (printed self.new) }
        ensures goes_on { goes_on self.old self.new };

    ghost stays: { (out : Self) → goes_on out out };

    ghost joined: { (first second third : Self) → goes_on first second → goes_on second third → goes_on first third };
}
