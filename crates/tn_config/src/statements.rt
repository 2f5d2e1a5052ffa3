ghost use Rattle.std.specs.Prelude.{◌≡◌, All, IsTrue, length, map};
ghost use Rattle.tn_text.specs.Lines.{is_ascii_line};
ghost use Rattle.tn_config.specs.Statements.{statement_said};
ghost use Rattle.tn_config.specs.Statements as said;

use crate::keywords::Keyword;
use crate::places::{address_at, argument_at, count_at, link_at, size_at, whole_name_at};
use tn_text::{Cause, FaultCode, FileName, Name, file_name_at};

/// What a line of a block says of its processor.
#[derive(Drop)]
pub enum Setting {
    /// The address of the code.
    Code(u32),
    /// The address of the static data.
    Data(u32),
    /// The workspace pointer, and the words below it and from it on.
    Workspace(u32, u32, u32),
    /// The file of a module.
    Module(FileName),
    /// The file of a library.
    Library(FileName),
    /// The label that the code begins at.
    Entry(Name),
    /// A word that the code finds in its workspace.
    Arg(u32),
}

/// What a line says.
#[derive(Drop)]
pub enum Statement {
    /// A block begins: name of the processor, size of its memory.
    Processor(Name, u32),
    /// The end that the host has.
    Host(Name, u8),
    /// Two ends that are wired.
    Wire(Name, u8, Name, u8),
    /// A line of a block.
    Set(Setting),
    /// A block ends.
    End,
}

/// What a keyword says with these tokens behind it. `BadLine` comes where it wants another number
/// of tokens, else the fault of the first token that is not what its place wants.
#[tactic(auto, unfolding(crate::specs::Statements::statement_said))]
pub fn statement_said(keyword: Keyword, arguments: &[&[u8]]) -> Result<Statement, Cause>
    requires { All (λ token. IsTrue (is_ascii_line token.now)) arguments.now }
    ensures { result ≡ statement_said keyword (map (λ token. token.now) arguments.now) }
{
    match keyword {
        Keyword::Processor => processor(arguments),
        Keyword::Host => host(arguments),
        Keyword::Wire => wire(arguments),
        Keyword::Code => code(arguments),
        Keyword::Data => data_address(arguments),
        Keyword::Workspace => workspace(arguments),
        Keyword::Module => module(arguments),
        Keyword::Library => library(arguments),
        Keyword::Entry => entry(arguments),
        Keyword::Arg => argument(arguments),
        Keyword::End => end(arguments),
    }
}

#[tactic(auto, unfolding(crate::specs::Statements::two_of))]
fn processor(arguments: &[&[u8]]) -> Result<Statement, Cause>
    ensures { result ≡ said.processor (map (λ token. token.now) arguments.now) }
{
    match arguments {
        [name, size] => processor_of(name, size),
        _ => Err(Cause::bare(FaultCode::BadLine)),
    }
}

#[tactic(auto, unfolding(crate::specs::Statements::two_of))]
fn host(arguments: &[&[u8]]) -> Result<Statement, Cause>
    ensures { result ≡ said.host (map (λ token. token.now) arguments.now) }
{
    match arguments {
        [name, link] => host_of(name, link),
        _ => Err(Cause::bare(FaultCode::BadLine)),
    }
}

#[tactic(auto, unfolding(crate::specs::Statements::four_of))]
fn wire(arguments: &[&[u8]]) -> Result<Statement, Cause>
    ensures { result ≡ said.wire (map (λ token. token.now) arguments.now) }
{
    match arguments {
        [one, one_link, two, two_link] => wire_of(one, one_link, two, two_link),
        _ => Err(Cause::bare(FaultCode::BadLine)),
    }
}

#[tactic(auto, unfolding(crate::specs::Statements::one_of))]
fn code(arguments: &[&[u8]]) -> Result<Statement, Cause>
    ensures { result ≡ said.code (map (λ token. token.now) arguments.now) }
{
    match arguments {
        [address] => Ok(Statement::Set(Setting::Code(address_at(address)?))),
        _ => Err(Cause::bare(FaultCode::BadLine)),
    }
}

#[tactic(auto, unfolding(crate::specs::Statements::one_of))]
fn data_address(arguments: &[&[u8]]) -> Result<Statement, Cause>
    ensures { result ≡ said.data_address (map (λ token. token.now) arguments.now) }
{
    match arguments {
        [address] => Ok(Statement::Set(Setting::Data(address_at(address)?))),
        _ => Err(Cause::bare(FaultCode::BadLine)),
    }
}

#[tactic(auto, unfolding(crate::specs::Statements::three_of))]
fn workspace(arguments: &[&[u8]]) -> Result<Statement, Cause>
    ensures { result ≡ said.workspace (map (λ token. token.now) arguments.now) }
{
    match arguments {
        [wptr, below, above] => workspace_of(wptr, below, above),
        _ => Err(Cause::bare(FaultCode::BadLine)),
    }
}

#[tactic(auto, unfolding(crate::specs::Statements::one_of))]
fn module(arguments: &[&[u8]]) -> Result<Statement, Cause>
    requires { All (λ token. IsTrue (is_ascii_line token.now)) arguments.now }
    ensures { result ≡ said.module_file (map (λ token. token.now) arguments.now) }
{
    match arguments {
        [file] => Ok(Statement::Set(Setting::Module(file_name_at(file)?))),
        _ => Err(Cause::bare(FaultCode::BadLine)),
    }
}

#[tactic(auto, unfolding(crate::specs::Statements::one_of))]
fn library(arguments: &[&[u8]]) -> Result<Statement, Cause>
    requires { All (λ token. IsTrue (is_ascii_line token.now)) arguments.now }
    ensures { result ≡ said.library_file (map (λ token. token.now) arguments.now) }
{
    match arguments {
        [file] => Ok(Statement::Set(Setting::Library(file_name_at(file)?))),
        _ => Err(Cause::bare(FaultCode::BadLine)),
    }
}

#[tactic(auto, unfolding(crate::specs::Statements::one_of))]
fn entry(arguments: &[&[u8]]) -> Result<Statement, Cause>
    ensures { result ≡ said.entry (map (λ token. token.now) arguments.now) }
{
    match arguments {
        [label] => Ok(Statement::Set(Setting::Entry(whole_name_at(label)?))),
        _ => Err(Cause::bare(FaultCode::BadLine)),
    }
}

#[tactic(auto, unfolding(crate::specs::Statements::one_of))]
fn argument(arguments: &[&[u8]]) -> Result<Statement, Cause>
    ensures { result ≡ said.argument (map (λ token. token.now) arguments.now) }
{
    match arguments {
        [word] => Ok(Statement::Set(Setting::Arg(argument_at(word)?))),
        _ => Err(Cause::bare(FaultCode::BadLine)),
    }
}

#[tactic(auto, unfolding(crate::specs::Statements::none_of))]
fn end(arguments: &[&[u8]]) -> Result<Statement, Cause>
    ensures { result ≡ said.end (map (λ token. token.now) arguments.now) }
{
    match arguments {
        [] => Ok(Statement::End),
        _ => Err(Cause::bare(FaultCode::BadLine)),
    }
}

fn processor_of(name: &[u8], size: &[u8]) -> Result<Statement, Cause>
    ensures { result ≡ said.processor_of name.now size.now }
{
    let name = whole_name_at(name)?;
    Ok(Statement::Processor(name, size_at(size)?))
}

fn host_of(name: &[u8], link: &[u8]) -> Result<Statement, Cause>
    ensures { result ≡ said.host_of name.now link.now }
{
    let name = whole_name_at(name)?;
    Ok(Statement::Host(name, link_at(link)?))
}

fn wire_of(one: &[u8], one_link: &[u8], two: &[u8], two_link: &[u8]) -> Result<Statement, Cause>
    ensures { result ≡ said.wire_of one.now one_link.now two.now two_link.now }
{
    let one = whole_name_at(one)?;
    let one_link = link_at(one_link)?;
    let two = whole_name_at(two)?;
    Ok(Statement::Wire(one, one_link, two, link_at(two_link)?))
}

fn workspace_of(wptr: &[u8], below: &[u8], above: &[u8]) -> Result<Statement, Cause>
    ensures { result ≡ said.workspace_of wptr.now below.now above.now }
{
    let wptr = address_at(wptr)?;
    let below = count_at(below)?;
    Ok(Statement::Set(Setting::Workspace(wptr, below, count_at(above)?)))
}
