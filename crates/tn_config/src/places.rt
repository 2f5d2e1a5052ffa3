ghost use Rattle.std.specs.Prelude.{◌≡◌};
ghost use Rattle.tn_config.specs.Places.{is_size, is_address, is_count, is_link, size_at, address_at, count_at, link_at};
ghost use Rattle.tn_config.specs.Places.{argument_at, whole_name_at};

use tn_mem::{MEMORY_SIZE_LEAST, MEMORY_SIZE_MOST};
use tn_text::limits::NAME_LIMIT;
use tn_text::{Cause, FaultCode, Name, name_at, number_at};
use tn_word::MOST_NEG;

/// The most words of workspace on either side of the workspace pointer.
const COUNT_MOST: u32 = 262_144;

/// The size of a memory.
#[tactic(auto, unfolding(crate::specs::Places::size_at))]
pub fn size_at(token: &[u8]) -> Result<u32, Cause>
    ensures { result ≡ size_at token.now }
{
    let number = number_at(token)?;
    if is_size(number) {
        Ok(number)
    } else {
        Err(Cause::bare(FaultCode::BadNumber))
    }
}

/// An address.
#[tactic(auto, unfolding(crate::specs::Places::address_at))]
pub fn address_at(token: &[u8]) -> Result<u32, Cause>
    ensures { result ≡ address_at token.now }
{
    let number = number_at(token)?;
    if is_address(number) {
        Ok(number)
    } else {
        Err(Cause::bare(FaultCode::BadNumber))
    }
}

/// A number of words of workspace.
#[tactic(auto, unfolding(crate::specs::Places::count_at))]
pub fn count_at(token: &[u8]) -> Result<u32, Cause>
    ensures { result ≡ count_at token.now }
{
    let number = number_at(token)?;
    if number <= COUNT_MOST {
        Ok(number)
    } else {
        Err(Cause::bare(FaultCode::BadNumber))
    }
}

/// The number of a link.
#[tactic(auto, unfolding(crate::specs::Places::link_at))]
pub fn link_at(token: &[u8]) -> Result<u8, Cause>
    ensures { result ≡ link_at token.now }
{
    let number = number_at(token)?;
    if number < 4 {
        Ok(number as u8)
    } else {
        Err(Cause::bare(FaultCode::BadNumber))
    }
}

/// The word of an argument.
#[tactic(auto, unfolding(crate::specs::Places::argument_at))]
pub fn argument_at(token: &[u8]) -> Result<u32, Cause>
    ensures { result ≡ argument_at token.now }
{
    number_at(token)
}

/// The name of a processor or a label.
#[tactic(auto, unfolding(crate::specs::Places::whole_name_at))]
pub fn whole_name_at(token: &[u8]) -> Result<Name, Cause>
    ensures { result ≡ whole_name_at token.now }
{
    name_at(token, NAME_LIMIT)
}

/// Whether a memory may have this size.
fn is_size(number: u32) -> bool
    ensures { result ≡ is_size number }
{
    MEMORY_SIZE_LEAST <= number && number <= MEMORY_SIZE_MOST && number % 4 == 0
}

/// Whether the greatest memory has this address.
fn is_address(number: u32) -> bool
    ensures { result ≡ is_address number }
{
    MOST_NEG <= number && number <= MOST_NEG + (MEMORY_SIZE_MOST - 1)
}
