ghost use Rattle.std.specs.Prelude.{◌≡◌, ◌∷◌, ◌<◌, ◌&&◌, [], length, map, position, IfOk, MatchOption};
ghost use Rattle.std.specs.List.{slice_split, list_all};
ghost use Rattle.tn_text.specs.Reading.{Gives, placed};
ghost use Rattle.tn_text.specs.Lines.{is_feed, is_nonempty};
ghost use Rattle.tn_modtext.specs.Pieces.{pieces, is_strict_byte, is_strict_line, is_space, strict_tokens};

use std::alloc::{AllocError, Global};
use tn_text::{Cause, FaultCode, ReadFault};

/// The first line of a text, whether a line feed stands at its end, and what stands behind it.
/// `None` exactly where the text is empty.
pub(crate) fn next_piece(text: &[u8]) -> Option<(&[u8], bool, &[u8])>
    ensures value { MatchOption result (pieces text.now ≡ []) (λ parts. pieces text.now ≡ (parts.0.now, parts.1) ∷ pieces parts.2.now) }
    ensures shorter { MatchOption result (text.now ≡ []) (λ parts. length parts.2.now < length text.now) }
{
    if text.is_empty() {
        return None;
    }
    match place_of_feed(text) {
        Some(at) => Some((&text[..at], true, &text[at + 1..])),
        None => Some((text, false, &[])),
    }
}

/// The place of the first line feed.
fn place_of_feed(text: &[u8]) -> Option<usize>
    ensures { result ≡ position is_feed text.now }
{
    text.iter().position(|c| *c == b'\n')
}

/// The tokens of the line with this number. `NotAscii` comes where a byte stands in it that may not;
/// `BadLine` where no line feed ends it, or where blanks stand otherwise than one between two tokens.
#[tactic(auto, unfolding(crate::specs::Pieces::strict_tokens))]
pub(crate) fn read_strict<'a>(
    alloc: Global,
    line: &'a [u8],
    ended: bool,
    number: u32,
) -> Result<Vec<&'a [u8]>, ReadFault>
    ensures { Gives (λ found. map (λ token. token.now) found.items) result (placed number (strict_tokens (line.now, ended))) }
{
    if !is_strict_line(line) {
        return Err(ReadFault::Fault(Cause::bare(FaultCode::NotAscii).at(number)));
    }
    let tokens = split_at_blanks(alloc, line)?;
    if is_whole(ended, &tokens) {
        Ok(tokens)
    } else {
        Err(ReadFault::Fault(Cause::bare(FaultCode::BadLine).at(number)))
    }
}

/// Whether only bytes stand in the line that may: #20 to #7E.
#[tactic(auto, unfolding(crate::specs::Pieces::is_strict_line))]
fn is_strict_line(line: &[u8]) -> bool
    ensures { result ≡ is_strict_line line.now }
{
    line.iter().all(|c| is_strict_byte(*c))
}

fn is_strict_byte(byte: u8) -> bool
    ensures { result ≡ is_strict_byte byte }
{
    32 <= byte && byte <= 126
}

/// What stands before, between and behind the blanks.
fn split_at_blanks<'a>(alloc: Global, line: &'a [u8]) -> Result<Vec<&'a [u8]>, AllocError>
    ensures { IfOk result (λ found. map (λ token. token.now) found.items ≡ slice_split is_space line.now) }
{
    line.split(|c| *c == b' ').collect(alloc)
}

/// Whether a line feed ends the line, and something stands beside each blank.
fn is_whole(ended: bool, tokens: &[&[u8]]) -> bool
    ensures { result ≡ (ended && list_all (λ token. is_nonempty token.now) tokens.now) }
{
    ended && all_nonempty(tokens)
}

fn all_nonempty(tokens: &[&[u8]]) -> bool
    ensures { result ≡ list_all (λ token. is_nonempty token.now) tokens.now }
{
    tokens.iter().all(|token| !token.is_empty())
}
