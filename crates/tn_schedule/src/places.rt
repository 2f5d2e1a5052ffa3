ghost use Rattle.std.specs.Prelude.{◌≡◌, ◌<◌, ◌^◌, length, position, IfOk};
ghost use Rattle.std.specs.Str.{bytes_eq};
ghost use Rattle.tn_schedule.specs.Places.{number_up_to, byte_at, link_at, picks_at, place_at, flag_at, word_at, whole_name_at};
ghost use Rattle.tn_schedule.specs.Places.{processor_named, unknown};

use tn_text::limits::NAME_LIMIT;
use tn_text::{Cause, Detail, FaultCode, Name, name_at, number_at};

/// The most picks that one line may ask for.
const PICKS_MOST: u32 = 100_000_000;

/// The greatest place of a byte that the host keeps.
const PLACE_MOST: u32 = 65_535;

/// A number from 0 to `most`. `BadNumber` comes for any other token.
#[tactic(auto, unfolding(crate::specs::Places::number_up_to))]
fn number_up_to(token: &[u8], most: u32) -> Result<u32, Cause>
    ensures { result ≡ number_up_to most token.now }
{
    let number = number_at(token)?;
    if number <= most {
        Ok(number)
    } else {
        Err(Cause::bare(FaultCode::BadNumber))
    }
}

/// A byte.
#[tactic(auto, unfolding(crate::specs::Places::number_up_to))]
pub fn byte_at(token: &[u8]) -> Result<u8, Cause>
    ensures { result ≡ byte_at token.now }
{
    let number = number_at(token)?;
    if number <= 255 {
        Ok(number as u8)
    } else {
        Err(Cause::bare(FaultCode::BadNumber))
    }
}

/// The number of a link.
#[tactic(auto, unfolding(crate::specs::Places::number_up_to))]
pub fn link_at(token: &[u8]) -> Result<u8, Cause>
    ensures { result ≡ link_at token.now }
{
    let number = number_at(token)?;
    if number <= 3 {
        Ok(number as u8)
    } else {
        Err(Cause::bare(FaultCode::BadNumber))
    }
}

/// How many picks to make at most.
pub fn picks_at(token: &[u8]) -> Result<u32, Cause>
    ensures { result ≡ picks_at token.now }
{
    number_up_to(token, PICKS_MOST)
}

/// The place of a byte that the host got.
pub fn place_at(token: &[u8]) -> Result<u32, Cause>
    ensures { result ≡ place_at token.now }
{
    number_up_to(token, PLACE_MOST)
}

/// Whether 1 stands there, and not 0.
#[tactic(auto, unfolding(crate::specs::Places::flag_at))]
pub fn flag_at(token: &[u8]) -> Result<bool, Cause>
    ensures { result ≡ flag_at token.now }
{
    match number_up_to(token, 1) {
        Ok(number) => Ok(number == 1),
        Err(cause) => Err(cause),
    }
}

/// The word of any number.
#[tactic(auto, unfolding(crate::specs::Places::word_at))]
pub fn word_at(token: &[u8]) -> Result<u32, Cause>
    ensures { result ≡ word_at token.now }
{
    number_at(token)
}

/// The name of a processor.
#[tactic(auto, unfolding(crate::specs::Places::whole_name_at))]
pub fn whole_name_at(token: &[u8]) -> Result<Name, Cause>
    ensures { result ≡ whole_name_at token.now }
{
    name_at(token, NAME_LIMIT)
}

/// The first processor that has a name. `UnknownProcessor` comes where none has it.
#[tactic(auto, unfolding(crate::specs::Places::processor_named))]
pub fn processor_named(names: &[Name], name: Name) -> Result<u32, Cause>
    requires { length names.now < 2 ^ 32 }
    ensures { result ≡ processor_named names.now name }
{
    match place_of(names, name) {
        Some(p) => Ok(p as u32),
        None => Err(unknown(name)),
    }
}

/// The first place of a name.
fn place_of(names: &[Name], name: Name) -> Option<usize>
    ensures { result ≡ position (λ n. bytes_eq n name) names.now }
{
    names.iter().position(|n| n.bytes() == name.bytes())
}

/// No processor has the name.
fn unknown(name: Name) -> Cause
    ensures { result ≡ unknown name }
{
    Cause {
        code: FaultCode::UnknownProcessor,
        detail: Detail::Named(name),
    }
}
