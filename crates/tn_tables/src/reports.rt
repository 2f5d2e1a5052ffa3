use crate::answers::push_hex;
use crate::cases::Line;
use crate::stops::Stop;
use std::alloc::Global;

/// What the tables gave: the text to print, and how many lines of the table at hand had what was to
/// come or had not.
#[derive(Drop)]
pub struct Report {
    text: String,
    lines: u64,
}

impl Report {
    pub fn new(alloc: Global) -> Report {
        Report {
            text: String::new(alloc),
            lines: 0,
        }
    }

    pub fn text(&self) -> &str {
        self.text.as_str()
    }

    /// Ends a case, and tells one that is none.
    pub fn end_case(&mut self, name: &str, ended: Result<(), Stop>) -> Result<(), Stop> {
        match ended {
            Ok(()) => Ok(()),
            Err(Stop::BadCase) => self.line(&[name, ": is no case"]),
            Err(Stop::NoMemory) => self.line(&[name, ": no memory"]),
        }
    }

    /// Ends a table, and tells how many lines it had.
    pub fn end_table(&mut self, alloc: Global, table: &str) -> Result<(), Stop> {
        let count = self.lines.to_string(alloc)?;
        self.lines = 0;
        self.line(&[table, " ", count.as_str()])
    }

    /// Counts a line of a case, and tells where it is not what was to come, or no line.
    pub fn answer(
        &mut self,
        alloc: Global,
        case: &str,
        line: &Line<'_>,
        came: Result<Vec<u8>, Stop>,
    ) -> Result<(), Stop> {
        match came {
            Ok(came) => self.compare(alloc, case, line.text, line.wanted(), &came),
            Err(Stop::BadCase) => self.line(&[case, ": ", line.text, ": is no line of its table"]),
            Err(Stop::NoMemory) => self.line(&[case, ": ", line.text, ": no memory"]),
        }
    }

    /// Counts a line, and tells where it is not what was to come.
    pub fn compare(
        &mut self,
        alloc: Global,
        case: &str,
        line: &str,
        wanted: &[u8],
        came: &[u8],
    ) -> Result<(), Stop> {
        self.lines = self.lines.saturating_add(1);
        if wanted == came {
            return Ok(());
        }
        let (wanted, came) = (shown(alloc, wanted)?, shown(alloc, came)?);
        self.line(&[case, ": ", line])?;
        self.line(&["  wanted ", wanted.as_str()])?;
        self.line(&["  came   ", came.as_str()])
    }

    fn line(&mut self, pieces: &[&str]) -> Result<(), Stop> {
        for piece in pieces {
            self.text.push_str(piece)?;
        }
        self.text.push('\n')?;
        Ok(())
    }
}

/// Bytes as a line of text: what is no printable character is `<` and `>` round its digits.
fn shown(alloc: Global, bytes: &[u8]) -> Result<String, Stop> {
    let mut text = String::new(alloc);
    for byte in bytes {
        if byte.is_ascii_graphic() || *byte == b' ' {
            text.push(char::from(*byte))?;
        } else {
            text.push('<')?;
            push_hex(&mut text, *byte)?;
            text.push('>')?;
        }
    }
    Ok(text)
}
