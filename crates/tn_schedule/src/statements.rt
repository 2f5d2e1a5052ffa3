ghost use Rattle.std.specs.Prelude.{◌≡◌, ◌<◌, ◌^◌, length, map, codes};
ghost use Rattle.tn_schedule.specs.Places.{whole_name_at, link_at, word_at, byte_at, flag_at, picks_at, place_at};
ghost use Rattle.tn_schedule.specs.Statements.{statement_said, none_of, one_of, two_of, three_of, one_or_marked, two_or_marked};
ghost use Rattle.tn_schedule.specs.Statements.{of_processor};
ghost use Rattle.tn_schedule.specs.Statements as said;

use crate::acts::Act;
use crate::keywords::Keyword;
use crate::places::{
    byte_at, flag_at, link_at, picks_at, place_at, processor_named, whole_name_at, word_at,
};
use tn_network::Pick;
use tn_text::{Cause, FaultCode, Name};

/// What a line says.
#[derive(Clone, Copy)]
pub enum Statement {
    /// The byte that fills the memories, Error and HaltOnError.
    Power(u8, bool, bool),
    /// An act.
    Does(Act),
}

/// What a keyword says with these tokens behind it. `BadLine` comes where it wants another number
/// of tokens, else the fault of the first token that is not what its place wants, else
/// `UnknownProcessor` where no processor has the name.
#[tactic(auto, unfolding(crate::specs::Statements::statement_said))]
pub fn statement_said(
    names: &[Name],
    keyword: Keyword,
    arguments: &[&[u8]],
) -> Result<Statement, Cause>
    requires { length names.now < 2 ^ 32 }
    ensures { result ≡ statement_said names.now keyword (map (λ token. token.now) arguments.now) }
{
    match keyword {
        Keyword::Power => power(arguments),
        Keyword::Step => step(names, arguments),
        Keyword::Send => send(names, arguments),
        Keyword::Take => take(names, arguments),
        Keyword::HostSend => none(Act::Pick(Pick::HostSend), arguments),
        Keyword::HostTake => none(Act::Pick(Pick::HostTake), arguments),
        Keyword::Settle => settle(arguments),
        Keyword::Release => none(Act::Release, arguments),
        Keyword::Show => show(names, arguments),
        Keyword::Links => links(names, arguments),
        Keyword::Word => word(names, arguments),
        Keyword::Host => none(Act::Host, arguments),
        Keyword::Got => got(arguments),
        Keyword::Steps => none(Act::Steps, arguments),
        Keyword::Same => none(Act::Same, arguments),
    }
}

/// An act with no token behind its keyword.
#[tactic(auto, unfolding(crate::specs::Statements::none_of))]
fn none(act: Act, arguments: &[&[u8]]) -> Result<Statement, Cause>
    ensures { result ≡ none_of (Statement.Does act) (map (λ token. token.now) arguments.now) }
{
    match arguments {
        [] => Ok(Statement::Does(act)),
        _ => Err(Cause::bare(FaultCode::BadLine)),
    }
}

#[tactic(auto, unfolding(crate::specs::Statements::three_of))]
fn power(arguments: &[&[u8]]) -> Result<Statement, Cause>
    ensures { result ≡ said.power (map (λ token. token.now) arguments.now) }
{
    match arguments {
        [byte, error, halt] => power_of(byte, error, halt),
        _ => Err(Cause::bare(FaultCode::BadLine)),
    }
}

#[tactic(auto, unfolding(crate::specs::Statements::two_of, crate::specs::Statements::three_of))]
fn step(names: &[Name], arguments: &[&[u8]]) -> Result<Statement, Cause>
    requires { length names.now < 2 ^ 32 }
    ensures { result ≡ said.step names.now (map (λ token. token.now) arguments.now) }
{
    match arguments {
        [name, clock] => step_of(names, name, clock),
        [name, clock, word] => sliced_of(names, name, clock, word),
        _ => Err(Cause::bare(FaultCode::BadLine)),
    }
}

#[tactic(auto, unfolding(crate::specs::Statements::two_of))]
fn send(names: &[Name], arguments: &[&[u8]]) -> Result<Statement, Cause>
    requires { length names.now < 2 ^ 32 }
    ensures { result ≡ said.send names.now (map (λ token. token.now) arguments.now) }
{
    match arguments {
        [name, link] => send_of(names, name, link),
        _ => Err(Cause::bare(FaultCode::BadLine)),
    }
}

#[tactic(auto, unfolding(crate::specs::Statements::two_of))]
fn take(names: &[Name], arguments: &[&[u8]]) -> Result<Statement, Cause>
    requires { length names.now < 2 ^ 32 }
    ensures { result ≡ said.take names.now (map (λ token. token.now) arguments.now) }
{
    match arguments {
        [name, link] => take_of(names, name, link),
        _ => Err(Cause::bare(FaultCode::BadLine)),
    }
}

#[tactic(auto, unfolding(crate::specs::Statements::one_of, crate::specs::Statements::two_of))]
fn settle(arguments: &[&[u8]]) -> Result<Statement, Cause>
    ensures { result ≡ said.settle (map (λ token. token.now) arguments.now) }
{
    match arguments {
        [most] => Ok(Statement::Does(Act::Settle(picks_at(most)?, false))),
        [most, word] => settle_back(most, word),
        _ => Err(Cause::bare(FaultCode::BadLine)),
    }
}

#[tactic(auto, unfolding(crate::specs::Statements::one_of))]
fn show(names: &[Name], arguments: &[&[u8]]) -> Result<Statement, Cause>
    requires { length names.now < 2 ^ 32 }
    ensures { result ≡ said.show names.now (map (λ token. token.now) arguments.now) }
{
    match arguments {
        [name] => show_of(names, name),
        _ => Err(Cause::bare(FaultCode::BadLine)),
    }
}

#[tactic(auto, unfolding(crate::specs::Statements::one_of))]
fn links(names: &[Name], arguments: &[&[u8]]) -> Result<Statement, Cause>
    requires { length names.now < 2 ^ 32 }
    ensures { result ≡ said.links names.now (map (λ token. token.now) arguments.now) }
{
    match arguments {
        [name] => links_of(names, name),
        _ => Err(Cause::bare(FaultCode::BadLine)),
    }
}

#[tactic(auto, unfolding(crate::specs::Statements::two_of))]
fn word(names: &[Name], arguments: &[&[u8]]) -> Result<Statement, Cause>
    requires { length names.now < 2 ^ 32 }
    ensures { result ≡ said.word names.now (map (λ token. token.now) arguments.now) }
{
    match arguments {
        [name, address] => word_of(names, name, address),
        _ => Err(Cause::bare(FaultCode::BadLine)),
    }
}

#[tactic(auto, unfolding(crate::specs::Statements::one_of))]
fn got(arguments: &[&[u8]]) -> Result<Statement, Cause>
    ensures { result ≡ said.got (map (λ token. token.now) arguments.now) }
{
    match arguments {
        [place] => Ok(Statement::Does(Act::Got(place_at(place)?))),
        _ => Err(Cause::bare(FaultCode::BadLine)),
    }
}

fn power_of(byte: &[u8], error: &[u8], halt: &[u8]) -> Result<Statement, Cause>
    ensures { result ≡ said.power_of byte.now error.now halt.now }
{
    match byte_at(byte) {
        Ok(byte) => match flag_at(error) {
            Ok(error) => match flag_at(halt) {
                Ok(halt) => Ok(Statement::Power(byte, error, halt)),
                Err(cause) => Err(cause),
            },
            Err(cause) => Err(cause),
        },
        Err(cause) => Err(cause),
    }
}

fn step_of(names: &[Name], name: &[u8], clock: &[u8]) -> Result<Statement, Cause>
    requires { length names.now < 2 ^ 32 }
    ensures { result ≡ said.step_of names.now name.now clock.now }
{
    match whole_name_at(name) {
        Ok(name) => match word_at(clock) {
            Ok(clock) => stepped(names, name, false, clock),
            Err(cause) => Err(cause),
        },
        Err(cause) => Err(cause),
    }
}

fn sliced_of(names: &[Name], name: &[u8], clock: &[u8], word: &[u8]) -> Result<Statement, Cause>
    requires { length names.now < 2 ^ 32 }
    ensures { result ≡ said.sliced_of names.now name.now clock.now word.now }
{
    match whole_name_at(name) {
        Ok(name) => match word_at(clock) {
            Ok(clock) => match mark_at("slice", word) {
                Ok(slice) => stepped(names, name, slice, clock),
                Err(cause) => Err(cause),
            },
            Err(cause) => Err(cause),
        },
        Err(cause) => Err(cause),
    }
}

#[tactic(auto, unfolding(crate::specs::Statements::of_processor))]
fn stepped(names: &[Name], name: Name, slice: bool, clock: u32) -> Result<Statement, Cause>
    requires { length names.now < 2 ^ 32 }
    ensures { result ≡ of_processor names.now (λ p. Act.Pick (Pick.Proc p slice clock)) name }
{
    match processor_named(names, name) {
        Ok(p) => Ok(Statement::Does(Act::Pick(Pick::Proc(p, slice, clock)))),
        Err(cause) => Err(cause),
    }
}

#[tactic(auto, unfolding(crate::specs::Statements::of_processor))]
fn send_of(names: &[Name], name: &[u8], link: &[u8]) -> Result<Statement, Cause>
    requires { length names.now < 2 ^ 32 }
    ensures { result ≡ said.send_of names.now name.now link.now }
{
    match whole_name_at(name) {
        Ok(name) => match link_at(link) {
            Ok(link) => match processor_named(names, name) {
                Ok(p) => Ok(Statement::Does(Act::Pick(Pick::Send(p, link)))),
                Err(cause) => Err(cause),
            },
            Err(cause) => Err(cause),
        },
        Err(cause) => Err(cause),
    }
}

#[tactic(auto, unfolding(crate::specs::Statements::of_processor))]
fn take_of(names: &[Name], name: &[u8], link: &[u8]) -> Result<Statement, Cause>
    requires { length names.now < 2 ^ 32 }
    ensures { result ≡ said.take_of names.now name.now link.now }
{
    match whole_name_at(name) {
        Ok(name) => match link_at(link) {
            Ok(link) => match processor_named(names, name) {
                Ok(p) => Ok(Statement::Does(Act::Pick(Pick::Take(p, link)))),
                Err(cause) => Err(cause),
            },
            Err(cause) => Err(cause),
        },
        Err(cause) => Err(cause),
    }
}

fn settle_back(most: &[u8], word: &[u8]) -> Result<Statement, Cause>
    ensures { result ≡ said.settle_back most.now word.now }
{
    match picks_at(most) {
        Ok(most) => match mark_at("back", word) {
            Ok(back) => Ok(Statement::Does(Act::Settle(most, back))),
            Err(cause) => Err(cause),
        },
        Err(cause) => Err(cause),
    }
}

#[tactic(auto, unfolding(crate::specs::Statements::of_processor))]
fn show_of(names: &[Name], name: &[u8]) -> Result<Statement, Cause>
    requires { length names.now < 2 ^ 32 }
    ensures { result ≡ said.show_of names.now name.now }
{
    match whole_name_at(name) {
        Ok(name) => match processor_named(names, name) {
            Ok(p) => Ok(Statement::Does(Act::Show(p))),
            Err(cause) => Err(cause),
        },
        Err(cause) => Err(cause),
    }
}

#[tactic(auto, unfolding(crate::specs::Statements::of_processor))]
fn links_of(names: &[Name], name: &[u8]) -> Result<Statement, Cause>
    requires { length names.now < 2 ^ 32 }
    ensures { result ≡ said.links_of names.now name.now }
{
    match whole_name_at(name) {
        Ok(name) => match processor_named(names, name) {
            Ok(p) => Ok(Statement::Does(Act::Links(p))),
            Err(cause) => Err(cause),
        },
        Err(cause) => Err(cause),
    }
}

#[tactic(auto, unfolding(crate::specs::Statements::of_processor))]
fn word_of(names: &[Name], name: &[u8], address: &[u8]) -> Result<Statement, Cause>
    requires { length names.now < 2 ^ 32 }
    ensures { result ≡ said.word_of names.now name.now address.now }
{
    match whole_name_at(name) {
        Ok(name) => match word_at(address) {
            Ok(address) => match processor_named(names, name) {
                Ok(p) => Ok(Statement::Does(Act::Word(p, address))),
                Err(cause) => Err(cause),
            },
            Err(cause) => Err(cause),
        },
        Err(cause) => Err(cause),
    }
}

/// The token is the word. `BadLine` comes for any other.
#[tactic(auto, unfolding(crate::specs::Statements::mark_at))]
fn mark_at(word: &str, token: &[u8]) -> Result<bool, Cause>
    ensures { result ≡ said.mark_at word.now token.now }
{
    if token == word.as_bytes() {
        Ok(true)
    } else {
        Err(Cause::bare(FaultCode::BadLine))
    }
}
