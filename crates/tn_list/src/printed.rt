ghost use Rattle.tn_list.specs.PrintedOuts.{taken_by, GoesOn};
ghost use Rattle.tn_list.specs.Inner.PrintedOutLaws.{goes_on-itself, goes_on-joined};
ghost use Rattle.tn_text.specs.Puts.{Puts};

use tn_io::Out;
use tn_text::{Put, PutRefused};

/// A sink of printed text over an output. It passes each piece on to the output.
///
/// It tells the bytes of the output, where the output tells them. A piece is refused where the output
/// fails to write it, and the output's count of faults is the count of refusals. A later value goes
/// on from one where it holds the same reference, and the output goes on from that one's output.
#[derive(Drop)]
pub struct Printed<'a, O: Out> {
    pub out: &'a mut O,
}

impl<'a, O: Out> Put for Printed<'a, O> {
    ghost taken = { taken_by O.printed };

    ghost goes_on = { GoesOn O.goes_on };

    ghost stays = { goes_on-itself O.goes_on O.stays };

    ghost joined = { goes_on-joined O.goes_on O.joined };

    fn put(&mut self, bytes: &[u8]) -> Result<(), PutRefused>
        ensures puts { Puts bytes.now result (taken_by O.printed self.old) (taken_by O.printed self.new) }
        ensures goes_on { GoesOn O.goes_on self.old self.new }
    {
        match self.out.write(bytes) {
            Ok(()) => Ok(()),
            Err(_) => Err(PutRefused),
        }
    }
}
