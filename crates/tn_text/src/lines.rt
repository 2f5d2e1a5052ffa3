ghost use Rattle.std.specs.Prelude.{◌≡◌, ◌∷◌, ◌<◌, [], length, map, filter, position, IfOk, MatchOption};
ghost use Rattle.std.specs.List.{before_first, slice_split};
ghost use Rattle.std.specs.Str.Lines.{lines, strip_carriage_return};
ghost use Rattle.tn_text.specs.Lines.{is_ascii_line, is_line_byte, is_blank, is_nonempty, is_feed, begins_comment, tokens};

use std::alloc::{AllocError, Global};

/// The first line of a text, and what stands behind it. A line ends with a line feed, with a
/// carriage return and a line feed, or at the end of the text where something stands behind the
/// last line feed. `None` exactly where the text is empty.
pub fn next_line(text: &[u8]) -> Option<(&[u8], &[u8])>
    ensures value { MatchOption result (lines text.now ≡ []) (λ parts. lines text.now ≡ parts.0.now ∷ lines parts.1.now) }
    ensures shorter { MatchOption result (text.now ≡ []) (λ parts. length parts.1.now < length text.now) }
{
    if text.is_empty() {
        return None;
    }
    match place_of_feed(text) {
        Some(at) => Some((without_return(&text[..at]), &text[at + 1..])),
        None => Some((text, &[])),
    }
}

/// Whether only bytes stand in the line that may: #20 to #7E and the tab.
#[tactic(auto, unfolding(crate::specs::Lines::is_ascii_line))]
pub fn is_ascii_line(line: &[u8]) -> bool
    ensures { result ≡ is_ascii_line line.now }
{
    line.iter().all(|c| is_line_byte(*c))
}

fn is_line_byte(byte: u8) -> bool
    ensures { result ≡ is_line_byte byte }
{
    (32 <= byte && byte <= 126) || byte == b'\t'
}

/// The tokens of a line: what blanks and tabs separate before the first `;`.
#[tactic(auto, unfolding(crate::specs::Lines::tokens))]
pub fn tokens_of<'a>(alloc: Global, line: &'a [u8]) -> Result<Vec<&'a [u8]>, AllocError>
    ensures { IfOk result (λ found. map (λ token. token.now) found.items ≡ tokens line.now) }
{
    pieces_of(alloc, statement(line))
}

/// What stands between blanks, where that is something.
fn pieces_of<'a>(alloc: Global, text: &'a [u8]) -> Result<Vec<&'a [u8]>, AllocError>
    ensures { IfOk result (λ found. map (λ piece. piece.now) found.items ≡ filter is_nonempty (slice_split is_blank text.now)) }
{
    text.split(|c| is_blank(*c))
        .filter(|piece| !piece.is_empty())
        .collect(alloc)
}

fn is_blank(byte: u8) -> bool
    ensures { result ≡ is_blank byte }
{
    byte == b' ' || byte == b'\t'
}

/// A line without its comment.
fn statement(line: &[u8]) -> &[u8]
    ensures { result.now ≡ before_first begins_comment line.now }
{
    match place_of_comment(line) {
        Some(at) => &line[..at],
        None => line,
    }
}

/// The place of the first `;`.
fn place_of_comment(line: &[u8]) -> Option<usize>
    ensures { result ≡ position begins_comment line.now }
{
    line.iter().position(|c| *c == b';')
}

/// The place of the first line feed.
fn place_of_feed(text: &[u8]) -> Option<usize>
    ensures { result ≡ position is_feed text.now }
{
    text.iter().position(|c| *c == b'\n')
}

/// A line without the one carriage return at its end, if it has one.
fn without_return(line: &[u8]) -> &[u8]
    ensures { result.now ≡ strip_carriage_return line.now }
{
    match line {
        [front @ .., b'\r'] => front,
        _ => line,
    }
}
