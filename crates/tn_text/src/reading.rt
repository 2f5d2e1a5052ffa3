ghost use Rattle.std.specs.Prelude.{map};
ghost use Rattle.tn_text.specs.Reading.{Gives, placed, line_tokens};

use crate::faults::{Cause, FaultCode, ReadFault};
use crate::lines::{is_ascii_line, tokens_of};
use std::alloc::Global;

/// The tokens of the line with this number. `NotAscii` comes where a byte stands in it that may
/// not, in its comment too.
#[tactic(auto, unfolding(crate::specs::Reading::line_tokens))]
pub fn read_tokens<'a>(
    alloc: Global,
    line: &'a [u8],
    number: u32,
) -> Result<Vec<&'a [u8]>, ReadFault>
    ensures { Gives (λ found. map (λ token. token.now) found.items) result (placed number (line_tokens line.now)) }
{
    if !is_ascii_line(line) {
        return Err(ReadFault::Fault(Cause::bare(FaultCode::NotAscii).at(number)));
    }
    Ok(tokens_of(alloc, line)?)
}
