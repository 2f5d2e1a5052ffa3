ghost use Rattle.std.specs.Prelude.{◌≡◌, ◌≤◌, IsTrue};
ghost use Rattle.tn_text.specs.Places.{name_at, number_at, file_name_at};
ghost use Rattle.tn_text.specs.Lines.{is_ascii_line};

use crate::faults::{Cause, FaultCode};
use crate::file_names::FileName;
use crate::limits::NAME_LIMIT;
use crate::names::{Name, is_name_spelling};
use crate::numbers::number;
use std::str;

/// The name that a token is, in a place where names have at most `limit` bytes. `NameTooLong` comes
/// where the token spells a longer name, `BadLine` where it spells none.
#[tactic(auto, unfolding(crate::specs::Places::name_at))]
pub fn name_at(token: &[u8], limit: usize) -> Result<Name, Cause>
    requires { limit ≤ NAME_LIMIT }
    ensures { result ≡ name_at limit token.now }
{
    if !is_name_spelling(token) {
        return Err(Cause::bare(FaultCode::BadLine));
    }
    if token.len() > limit {
        return Err(Cause::bare(FaultCode::NameTooLong));
    }
    Name::of(token).ok_or(Cause::bare(FaultCode::BadLine))
}

/// The word of the number that a token is. `BadNumber` comes where it is none.
pub fn number_at(token: &[u8]) -> Result<u32, Cause>
    ensures { result ≡ number_at token.now }
{
    match number(token) {
        Some(word) => Ok(word),
        None => Err(Cause::bare(FaultCode::BadNumber)),
    }
}

/// The file's name that a token of a line is. `NameTooLong` comes where it has more than 255 bytes.
#[tactic(auto, unfolding(crate::specs::Places::file_name_at))]
pub fn file_name_at(token: &[u8]) -> Result<FileName, Cause>
    requires { IsTrue (is_ascii_line token.now) }
    ensures { result ≡ file_name_at token.now }
{
    let Ok(text) = str::from_utf8(token) else {
        unreachable!();
    };
    match FileName::of(text) {
        Some(name) => Ok(name),
        None => Err(Cause::bare(FaultCode::NameTooLong)),
    }
}
