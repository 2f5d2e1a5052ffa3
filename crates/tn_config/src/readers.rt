ghost use Rattle.std.specs.Prelude.{◌≡◌, ℕ, ◌+◌, ◌-◌, ◌<◌, ◌≤◌, ◌^◌, All, IsTrue, List, length, map, Ok, Err, IfOk};
ghost use Rattle.std.specs.Result.{result_map_both};
ghost use Rattle.tn_text.specs.Lines.{is_ascii_line};
ghost use Rattle.tn_text.specs.declared.limits.TheConstants.{PROCESSOR_LIMIT};
ghost use Rattle.tn_text.specs.declared.faults.ReadFault.TheVariants as read;
ghost use Rattle.tn_text.specs.Reading.{Gives, IsReading, placed};
ghost use Rattle.tn_net.specs.Lines.{IsAdmitted};
ghost use Rattle.tn_config.specs.Configurations.{ConfigState, config_of, file_lines};
ghost use Rattle.tn_config.specs.Networks.{described};
ghost use Rattle.tn_config.specs.Writable.{IsWritable};
ghost use Rattle.tn_config.specs.Parts.{IsConfig};
ghost use Rattle.tn_config.specs.ConfigFaults.{may_stand, IsConfigFault};
ghost use Rattle.tn_config.specs.ConfigReading.{set_in, end_in, take, words_said, counted, config_line, finish, config_read, nothing_read};
ghost use Rattle.tn_config.specs.Inner.Readers.{reader_of};

use crate::configurations::{Block, Config, HostLine, WireLine};
use crate::drafts::{Draft, begun, ended, lacks, set};
use crate::keywords::{Keyword, keyword_named};
use crate::statements::{Setting, Statement, statement_said};
use std::alloc::Global;
use tn_text::{Cause, FaultCode, Lack, ReadFault, next_line, read_tokens};

/// What the lines have said so far: how many they are, and what is to become a configuration.
#[derive(Drop)]
pub struct Reader {
    pub lines: u32,
    pub blocks: Vec<Block>,
    pub host: Option<HostLine>,
    pub wires: Vec<WireLine>,
    /// The block that is not ended.
    pub draft: Option<Draft>,
}

/// The configuration that a text stands for.
///
/// Outside blocks stand the lines `processor NAME SIZE`, which begins a block, `host NAME L`, once at
/// most, and `wire NAME L NAME L`. A block has, in any order, one line each of `code ADDRESS`,
/// `data ADDRESS`, `workspace ADDRESS BELOW ABOVE` and `entry NAME`, one line or more of
/// `module FILE`, any number of `library FILE` and `arg NUMBER`, and ends with `end`. Comments,
/// blanks, names and numbers are as in all texts. The ranges are this project's own: SIZE is a
/// multiple of 4 from 4096 to 1048576, ADDRESS is #80000000 to #800FFFFF, BELOW and ABOVE are 0 to
/// 262144 words, L is 0 to 3.
///
/// The fault is that of the first line with something wrong, the first of these: `NotAscii`;
/// `BadLine` for a first word that is none of these or may not stand there, or another number of
/// tokens; the first token that is not what its place wants: `NameTooLong` or `BadLine` for a name,
/// `NameTooLong` for a file's name, `BadNumber` for a number; `Missing` at an `end`, with the first
/// that the block lacks of `code`, `data`, `workspace`, `entry`, `module`. A text that ends inside a
/// block is `Missing` with `end`, at the number of its lines plus 1.
#[tactic(auto, using(crate::proofs::ConfigLaws::config_reading))]
pub fn read_config(alloc: Global, text: &[u8]) -> Result<Config, ReadFault>
    requires { length text.now < 2 ^ 30 }
    ensures gives { Gives config_of result (config_read text.now) }
    ensures reading { (text : List ℕ) → IsReading (IsConfig text) (IsConfigFault text) (config_read text) }

    // So, unless there is no memory:
    ensures found { IfOk result (λ found. IsConfig text.now (config_of found)) }
    ensures only { (c : ConfigState) → IsConfig text.now c → Gives config_of result (Ok c) }
    ensures fault { (fault : _) → result ≡ Err (read.Fault fault) → IsConfigFault text.now fault }

    // And what was read may be written, and its network checked; fewer lines name files than the
    // text has bytes:
    ensures writable { IfOk result (λ found. IsWritable (config_of found)) }
    ensures admitted { IfOk result (λ found. length found.blocks.items ≤ PROCESSOR_LIMIT → IsAdmitted (described (config_of found))) }
    ensures files { IfOk result (λ found. file_lines (config_of found) ≤ length text.now - 1) }
{
    read_all(alloc, text)
}

/// Reads line by line.
fn read_all(alloc: Global, text: &[u8]) -> Result<Config, ReadFault>
    requires { length text.now < 2 ^ 30 }
    ensures { Gives config_of result (config_read text.now) }
{
    let mut reader = nothing_read(alloc);
    let mut rest = text;
    while let Some((line, behind)) = next_line(rest) {
        read_line(alloc, &mut reader, line)?;
        rest = behind;
    }
    let end = reader.lines + 1;
    match finish(reader) {
        Ok(config) => Ok(config),
        Err(cause) => Err(ReadFault::Fault(cause.at(end))),
    }
}

fn nothing_read(alloc: Global) -> Reader
    ensures { reader_of result ≡ nothing_read }
{
    Reader {
        lines: 0,
        blocks: Vec::new(alloc),
        host: None,
        wires: Vec::new(alloc),
        draft: None,
    }
}

/// One line more.
#[tactic(auto, unfolding(crate::specs::ConfigReading::config_line))]
fn read_line(alloc: Global, reader: &mut Reader, line: &[u8]) -> Result<(), ReadFault>
    requires { reader.old.lines < 2 ^ 31 }
    ensures { Gives (λ _. reader_of reader.new) result
        (placed (reader.old.lines + 1) (config_line (reader_of reader.old) line.now)) }
{
    reader.lines += 1;
    let tokens = read_tokens(alloc, line, reader.lines)?;
    match tokens.as_slice() {
        [] => Ok(()),
        [word, arguments @ ..] => match words_said(reader, word, arguments) {
            Ok(statement) => take(alloc, reader, statement),
            Err(cause) => Err(ReadFault::Fault(cause.at(reader.lines))),
        },
    }
}

/// The statement of the tokens of a line. `BadLine` comes where the first is no keyword, or one that
/// may not stand here.
#[tactic(auto, unfolding(crate::specs::ConfigReading::words_said))]
fn words_said(reader: &Reader, word: &[u8], arguments: &[&[u8]]) -> Result<Statement, Cause>
    requires { All (λ token. IsTrue (is_ascii_line token.now)) arguments.now }
    ensures { result ≡ words_said (reader_of reader.now) word.now (map (λ token. token.now) arguments.now) }
{
    match keyword_named(word) {
        Some(keyword) => {
            if may_stand(reader, keyword) {
                statement_said(keyword, arguments)
            } else {
                Err(Cause::bare(FaultCode::BadLine))
            }
        }
        None => Err(Cause::bare(FaultCode::BadLine)),
    }
}

/// Whether a line that begins with this keyword may stand here.
#[tactic(auto, unfolding(crate::specs::ConfigFaults::may_stand))]
fn may_stand(reader: &Reader, keyword: Keyword) -> bool
    ensures { result ≡ may_stand (reader_of reader.now) keyword }
{
    match &reader.draft {
        None => match keyword {
            Keyword::Processor => true,
            Keyword::Host => reader.host.is_none(),
            Keyword::Wire => true,
            Keyword::Code => false,
            Keyword::Data => false,
            Keyword::Workspace => false,
            Keyword::Module => false,
            Keyword::Library => false,
            Keyword::Entry => false,
            Keyword::Arg => false,
            Keyword::End => false,
        },
        Some(draft) => match keyword {
            Keyword::Processor => false,
            Keyword::Host => false,
            Keyword::Wire => false,
            Keyword::Code => draft.code.is_none(),
            Keyword::Data => draft.cells.is_none(),
            Keyword::Workspace => draft.workspace.is_none(),
            Keyword::Module => true,
            Keyword::Library => true,
            Keyword::Entry => draft.entry.is_none(),
            Keyword::Arg => true,
            Keyword::End => true,
        },
    }
}

/// One statement more, on the last line so far.
#[tactic(auto, unfolding(crate::specs::ConfigReading::take))]
fn take(alloc: Global, reader: &mut Reader, statement: Statement) -> Result<(), ReadFault>
    ensures { Gives (λ _. reader_of reader.new) result
        (placed reader.old.lines (take (reader_of reader.old) statement)) }
{
    let line = reader.lines;
    match statement {
        Statement::Processor(name, size) => {
            reader.draft = Some(begun(alloc, line, name, size));
            Ok(())
        }
        Statement::Host(name, link) => {
            reader.host = Some(HostLine { name, link, line });
            Ok(())
        }
        Statement::Wire(one, one_link, two, two_link) => {
            reader.wires.push(WireLine {
                one,
                one_link,
                two,
                two_link,
                line,
            })?;
            Ok(())
        }
        Statement::Set(setting) => set_in(reader, setting),
        Statement::End => end_in(reader),
    }
}

/// One line of the block more.
fn set_in(reader: &mut Reader, setting: Setting) -> Result<(), ReadFault>
    ensures { Gives (λ _. reader_of reader.new) result (Ok (set_in (reader_of reader.old) (reader_of reader.old).draft setting)) }
{
    if let Some(draft) = &mut reader.draft {
        set(draft, reader.lines, setting)?;
    }
    Ok(())
}

/// The block ends.
fn end_in(reader: &mut Reader) -> Result<(), ReadFault>
    ensures { Gives (λ _. reader_of reader.new) result
        (placed reader.old.lines (end_in (reader_of reader.old) (reader_of reader.old).draft)) }
{
    let Some(draft) = reader.draft.take() else {
        return Ok(());
    };
    match ended(draft) {
        Ok(block) => {
            reader.blocks.push(block)?;
            Ok(())
        }
        Err(cause) => Err(ReadFault::Fault(cause.at(reader.lines))),
    }
}

/// The configuration, where the text ends. `Missing` comes inside a block.
#[tactic(auto, unfolding(crate::specs::ConfigReading::finish))]
fn finish(reader: Reader) -> Result<Config, Cause>
    ensures { result_map_both config_of (λ cause. cause) result ≡ finish (reader_of reader) }
{
    if reader.draft.is_some() {
        return Err(lacks(Lack::End));
    }
    Ok(Config {
        blocks: reader.blocks,
        host: reader.host,
        wires: reader.wires,
        lines: reader.lines,
    })
}
