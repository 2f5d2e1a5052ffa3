use crate::bytes::add_bytes;
use crate::numbers::words_of;
use crate::stops::Stop;
use std::alloc::Global;

/// A line of a case: its text, the words before ` => `, what stands behind it, and the bytes of the
/// lines below.
#[derive(Drop)]
pub struct Line<'a> {
    pub text: &'a str,
    pub words: Vec<&'a str>,
    pub wanted: Option<&'a str>,
    pub bytes: Vec<u8>,
}

/// A case: its name and its lines.
#[derive(Drop)]
pub struct Case<'a> {
    pub name: &'a str,
    pub lines: Vec<Line<'a>>,
}

/// The cases of a table.
pub fn cases_of<'a>(alloc: Global, text: &'a str) -> Result<Vec<Case<'a>>, Stop> {
    let mut cases = Vec::new(alloc);
    for line in text.lines() {
        let (mark, rest) = line.split_once(' ').unwrap_or((line, ""));
        match mark {
            "" | ";" => {}
            "case" => cases.push(Case {
                name: rest,
                lines: Vec::new(alloc),
            })?,
            mark => add_to(alloc, &mut cases, mark, line, rest)?,
        }
    }
    Ok(cases)
}

/// Adds a line of text to the last case.
fn add_to<'a>(
    alloc: Global,
    cases: &mut Vec<Case<'a>>,
    mark: &'a str,
    line: &'a str,
    rest: &'a str,
) -> Result<(), Stop> {
    let case = cases.last_mut().ok_or(Stop::BadCase)?;
    match mark {
        "|" | "." | "#" | "*" | "#*" => {
            let line = case.lines.last_mut().ok_or(Stop::BadCase)?;
            add_bytes(&mut line.bytes, mark, rest)
        }
        _ => Ok(case.lines.push(line_of(alloc, line)?)?),
    }
}

/// The line of a text.
fn line_of<'a>(alloc: Global, text: &'a str) -> Result<Line<'a>, Stop> {
    let (asked, wanted) = match text.split_once(" =>") {
        Some((asked, wanted)) => (asked, Some(wanted.trim())),
        None => (text, None),
    };
    Ok(Line {
        text,
        words: words_of(alloc, asked)?,
        wanted,
        bytes: Vec::new(alloc),
    })
}

impl<'a> Line<'a> {
    /// What is to come.
    pub fn wanted(&self) -> &[u8] {
        match self.wanted {
            Some(text) => text.as_bytes(),
            None => self.bytes.as_slice(),
        }
    }
}
