ghost use Rattle.std.specs.Prelude.{◌≡◌};
ghost use Rattle.std.specs.Result.{result_map_both};
ghost use Rattle.std.specs.Prelude.{option_map};
ghost use Rattle.tn_asm.specs.Labels.{label_of, label_said};

use crate::statements::{Section, Statement};
use tn_module::{Cell, Item};
use tn_text::limits::NAME_LIMIT;
use tn_text::{Cause, FaultCode, is_name_spelling, name_at};

/// The name, however long, of a token that is a label: a name and a colon.
#[tactic(auto, unfolding(crate::specs::Labels::label_of))]
pub(crate) fn label_of(token: &[u8]) -> Option<&[u8]>
    ensures { option_map (λ name. name.now) result ≡ label_of token.now }
{
    match token {
        [name @ .., b':'] => {
            if is_name_spelling(name) {
                Some(name)
            } else {
                None
            }
        }
        _ => None,
    }
}

/// The label of a name in a section. `BadLine` comes before the module is named, `NameTooLong` where
/// the name is too long.
pub(crate) fn label_said(section: Section, name: &[u8]) -> Result<Statement, Cause>
    ensures { result ≡ label_said section name.now }
{
    match section {
        Section::Head => Err(Cause::bare(FaultCode::BadLine)),
        Section::Code => match name_at(name, NAME_LIMIT) {
            Ok(name) => Ok(Statement::Item(Item::Label(name))),
            Err(cause) => Err(cause),
        },
        Section::Data => match name_at(name, NAME_LIMIT) {
            Ok(name) => Ok(Statement::Cell(Cell::Label(name))),
            Err(cause) => Err(cause),
        },
    }
}
