ghost use Rattle.std.specs.Prelude.{◌≡◌, ℕ, ◌+◌, ◌<◌, ◌≤◌, ◌^◌, List, length, map, Ok, Err, IfOk};
ghost use Rattle.std.specs.Str.Lines.{lines};
ghost use Rattle.tn_text.specs.declared.limits.TheConstants.{LINE_LIMIT};
ghost use Rattle.tn_text.specs.Reading.{Gives, IsReading, placed};
ghost use Rattle.tn_schedule.specs.Schedules.{ScheduleState, ArePlaced, schedule_of, may_stand, SaysSchedule, IsSchedule};
ghost use Rattle.tn_schedule.specs.ScheduleFaults.{IsFirstFault, IsScheduleFault};
ghost use Rattle.tn_schedule.specs.ScheduleReading.{nothing_read, take, words_said, schedule_line, schedule_read, limited, GivesSchedule};
ghost use Rattle.tn_schedule.specs.Inner.Readers.{reader_of};

use crate::acts::{Line, Schedule, ScheduleFault};
use crate::keywords::{Keyword, keyword_named};
use crate::statements::{Statement, statement_said};
use std::alloc::Global;
use tn_text::limits::LINE_LIMIT;
use tn_text::{Cause, FaultCode, Name, ReadFault, next_line, read_tokens};

/// What the lines have said so far: how many they are, and what is to become a schedule.
#[derive(Drop)]
pub struct Reader {
    pub lines: u32,
    /// No line had tokens.
    pub first: bool,
    pub power: (u8, bool, bool),
    pub acts: Vec<Line>,
}

/// The schedule that a text stands for, where the processors have these names.
///
/// The first line with tokens may be `power N E H`, which fills the memories with byte N and sets
/// Error and HaltOnError where E and H are 1. The other lines, in any order and any number, are the
/// picks `p NAME CLOCK` and `p NAME CLOCK slice`, `s NAME L`, `t NAME L`, `hs` and `ht`; `settle K` and
/// `settle K back`; `release`; and what prints: `show NAME`, `links NAME`, `word NAME ADDRESS`, `host`,
/// `got I`, `steps` and `same`. Comments, blanks, names and numbers are as in all texts. The ranges are
/// this project's own: N is 0 to 255, L is 0 to 3, K is 0 to 100000000, I is 0 to 65535, CLOCK and
/// ADDRESS are any numbers.
///
/// `Lines` comes exactly where the text has more than 100,000 lines, and carries how many. Else the
/// fault is that of the first line with something wrong, the first of these: `NotAscii`; `BadLine` for a
/// first word that is none of these or may not stand there, or another number of tokens; the first
/// token that is not what its place wants: `NameTooLong` or `BadLine` for a name, `BadNumber` for a
/// number, `BadLine` for a word; `UnknownProcessor` for a name that no processor has.
#[tactic(auto, using(crate::proofs::ScheduleLaws::schedule_reading))]
pub fn read_schedule(alloc: Global, text: &[u8], names: &[Name]) -> Result<Schedule, ScheduleFault>
    requires text { length text.now < 2 ^ 30 }
    requires names { length names.now < 2 ^ 32 }
    ensures gives { GivesSchedule result (limited text.now (schedule_read names.now text.now)) }
    ensures reading { (names : List (List ℕ)) (text : List ℕ)
        → IsReading (SaysSchedule names text) (IsFirstFault names text) (schedule_read names text) }

    // So, unless there is no memory:
    ensures found { IfOk result (λ found. IsSchedule names.now text.now (schedule_of found)) }
    ensures few { IfOk result (λ found. length found.lines.items ≤ LINE_LIMIT) }
    ensures placed { IfOk result (λ found. ArePlaced (length names.now) found.lines.items) }
    ensures only { (s : ScheduleState) → IsSchedule names.now text.now s → GivesSchedule result (Ok s) }
    ensures fault { (fault : _) → result ≡ Err (ScheduleFault.Fault fault) → IsScheduleFault names.now text.now fault }
    ensures lines { (n : ℕ) → result ≡ Err (ScheduleFault.Lines n) → (n ≡ length (lines text.now)) × (LINE_LIMIT < n) }
{
    let count = count_lines(text);
    if count > LINE_LIMIT as u64 {
        return Err(ScheduleFault::Lines(count));
    }
    match read_all(alloc, text, names) {
        Ok(schedule) => Ok(schedule),
        Err(ReadFault::Fault(fault)) => Err(ScheduleFault::Fault(fault)),
        Err(ReadFault::NoMemory) => Err(ScheduleFault::NoMemory),
    }
}

/// How many lines a text has.
fn count_lines(text: &[u8]) -> u64
    ensures { result ≡ length (lines text.now) }
{
    let mut count = 0;
    let mut rest = text;
    while let Some((_, behind)) = next_line(rest) {
        count += 1;
        rest = behind;
    }
    count
}

/// Reads line by line.
fn read_all(alloc: Global, text: &[u8], names: &[Name]) -> Result<Schedule, ReadFault>
    requires text { length text.now < 2 ^ 30 }
    requires names { length names.now < 2 ^ 32 }
    ensures { Gives schedule_of result (schedule_read names.now text.now) }
{
    let mut reader = nothing_read(alloc);
    let mut rest = text;
    while let Some((line, behind)) = next_line(rest) {
        read_line(alloc, &mut reader, names, line)?;
        rest = behind;
    }
    Ok(Schedule {
        power: reader.power,
        lines: reader.acts,
    })
}

fn nothing_read(alloc: Global) -> Reader
    ensures { reader_of result ≡ nothing_read }
{
    Reader {
        lines: 0,
        first: true,
        power: (0, false, false),
        acts: Vec::new(alloc),
    }
}

/// One line more.
#[tactic(auto, unfolding(crate::specs::ScheduleReading::schedule_line))]
fn read_line(
    alloc: Global,
    reader: &mut Reader,
    names: &[Name],
    line: &[u8],
) -> Result<(), ReadFault>
    requires lines { reader.old.lines < 2 ^ 31 }
    requires names { length names.now < 2 ^ 32 }
    ensures { Gives (λ _. reader_of reader.new) result
        (placed (reader.old.lines + 1) (schedule_line names.now (reader_of reader.old) line.now)) }
{
    reader.lines += 1;
    let tokens = read_tokens(alloc, line, reader.lines)?;
    match tokens.as_slice() {
        [] => Ok(()),
        [word, arguments @ ..] => match words_said(names, reader.first, word, arguments) {
            Ok(statement) => take(reader, statement),
            Err(cause) => Err(ReadFault::Fault(cause.at(reader.lines))),
        },
    }
}

/// The statement of the tokens of a line. `BadLine` comes where the first is no keyword, or one that
/// may not stand here.
#[tactic(auto, unfolding(crate::specs::ScheduleReading::words_said))]
fn words_said(
    names: &[Name],
    first: bool,
    word: &[u8],
    arguments: &[&[u8]],
) -> Result<Statement, Cause>
    requires { length names.now < 2 ^ 32 }
    ensures { result ≡ words_said names.now first word.now (map (λ token. token.now) arguments.now) }
{
    match keyword_named(word) {
        Some(keyword) => {
            if may_stand(first, keyword) {
                statement_said(names, keyword, arguments)
            } else {
                Err(Cause::bare(FaultCode::BadLine))
            }
        }
        None => Err(Cause::bare(FaultCode::BadLine)),
    }
}

/// Whether a line that begins with this keyword may stand here.
#[tactic(auto, unfolding(crate::specs::Schedules::may_stand))]
fn may_stand(first: bool, keyword: Keyword) -> bool
    ensures { result ≡ may_stand first keyword }
{
    match keyword {
        Keyword::Power => first,
        Keyword::Step => true,
        Keyword::Send => true,
        Keyword::Take => true,
        Keyword::HostSend => true,
        Keyword::HostTake => true,
        Keyword::Settle => true,
        Keyword::Release => true,
        Keyword::Show => true,
        Keyword::Links => true,
        Keyword::Word => true,
        Keyword::Host => true,
        Keyword::Got => true,
        Keyword::Steps => true,
        Keyword::Same => true,
    }
}

/// One statement more, on the last line so far.
#[tactic(auto, unfolding(crate::specs::ScheduleReading::take))]
fn take(reader: &mut Reader, statement: Statement) -> Result<(), ReadFault>
    ensures { Gives (λ _. reader_of reader.new) result (Ok (take (reader_of reader.old) statement)) }
{
    reader.first = false;
    match statement {
        Statement::Power(byte, error, halt) => reader.power = (byte, error, halt),
        Statement::Does(act) => reader.acts.push(Line {
            line: reader.lines,
            act,
        })?,
    }
    Ok(())
}
