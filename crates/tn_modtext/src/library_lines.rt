ghost use Rattle.std.specs.Prelude.{◌≡◌, map};
ghost use Rattle.tn_modtext.specs.LibraryLines.{is_head, is_last, module_line_at, library_line_at};

use crate::forms::Section;
use crate::lines::Line;
use crate::said::line_at;
use tn_text::{Cause, FaultCode};

/// Where the next line of a library text stands.
#[derive(Clone, Copy)]
pub enum LibrarySection {
    /// At the first line.
    Head,
    /// Where a module may begin, or the last line stand.
    Between,
    /// In a module.
    Inside(Section),
    /// Behind the last line.
    End,
}

/// A line of a library text.
#[derive(Clone, Copy)]
pub enum LibraryLine {
    Head,
    Module(Line),
    End,
}

/// The line that these tokens are in a section of a library. `BadLine` comes for tokens that are no
/// line that may stand there, but that a line of a module has the faults that it has in a module.
pub(crate) fn library_line_at(
    section: LibrarySection,
    words: &[&[u8]],
) -> Result<LibraryLine, Cause>
    ensures { result ≡ library_line_at section (map (λ word. word.now) words.now) }
{
    match section {
        LibrarySection::Head => {
            if is_head(words) {
                Ok(LibraryLine::Head)
            } else {
                Err(Cause::bare(FaultCode::BadLine))
            }
        }
        LibrarySection::Between => {
            if is_last(words) {
                Ok(LibraryLine::End)
            } else {
                module_line_at(Section::Head, words)
            }
        }
        LibrarySection::Inside(section) => module_line_at(section, words),
        LibrarySection::End => Err(Cause::bare(FaultCode::BadLine)),
    }
}

/// The line of a module that these tokens are in a section of it.
fn module_line_at(section: Section, words: &[&[u8]]) -> Result<LibraryLine, Cause>
    ensures { result ≡ module_line_at section (map (λ word. word.now) words.now) }
{
    match line_at(section, words) {
        Ok(line) => Ok(LibraryLine::Module(line)),
        Err(cause) => Err(cause),
    }
}

/// Whether the tokens are those of the first line.
fn is_head(words: &[&[u8]]) -> bool
    ensures { result ≡ is_head (map (λ word. word.now) words.now) }
{
    match words {
        [word, version] => *word == b"tlib".as_slice() && *version == b"1".as_slice(),
        _ => false,
    }
}

/// Whether the tokens are those of the last line.
fn is_last(words: &[&[u8]]) -> bool
    ensures { result ≡ is_last (map (λ word. word.now) words.now) }
{
    match words {
        [word] => *word == b"endlib".as_slice(),
        _ => false,
    }
}
