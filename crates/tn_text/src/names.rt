ghost use Rattle.std.specs.Prelude.{◌≡◌, ℕ, ◌+◌, ◌-◌, ◌≤◌, Some, None, IsTrue, nat_eq, length, if◌then◌else◌};
ghost use Rattle.std.specs.Cmp.{on_equiv, on_per, partial_equiv_from_equiv};
ghost use Rattle.std.specs.Cmp.Lexicographic.{pointwise, nat_list_eq_equiv};
ghost use Rattle.std.specs.Cmp.Rules.{hashing};
ghost use Rattle.std.specs.Hash as fed;
ghost use Rattle.std.proofs.Common.{rules};
ghost use Rattle.std.specs.List.{list_all};
ghost use Rattle.tn_text.specs.Inner.HeldNames.{cells_of};
ghost use Rattle.tn_text.specs.Names.{begins_name, continues_name, is_name_spelling, is_name_up_to, is_name};

use crate::limits::NAME_LIMIT;
use std::fmt;
use std::hash::{Hash, Hasher};
use std::marker::Model;

/// A name: a letter or an underscore, then letters, digits and underscores, 1 to 64 bytes in all.
/// Case matters. It takes no memory of an allocator.
#[derive(Clone, Copy)]
pub struct Name {
    cells: [u8; NAME_LIMIT],
    len: usize,
}

impl Model for Name {
    ghost use Rattle.std.specs.Prelude.{List, ℕ, length, take};
    ghost use Rattle.tn_text.specs.Inner.HeldNames.{IsHeldName, cells_of, cells-held, length-held};

    ghost Value = { List ℕ };

    ghost view = { λ name. take name.len name.cells };

    ghost invariant = { λ name. IsHeldName name.cells name.len };

    ghost inverse = { λ bytes. record { cells = cells_of bytes; len = length bytes } };

    ghost inverse_ok = { λ name h i. record { cells = cells-held name.cells name.len h i; len = length-held name.cells name.len h i } };
}

impl Name {
    /// The name of these bytes. `None` exactly where `is_name` is false.
    pub fn of(bytes: &[u8]) -> Option<Name>
        ensures { result ≡ (if is_name bytes.now then Some bytes.now else None) }
    {
        if !is_name(bytes) {
            return None;
        }
        Some(Name {
            cells: cells_of(bytes),
            len: bytes.len(),
        })
    }

    /// The bytes of the name.
    pub fn bytes(&self) -> &[u8]
        ensures bytes { result.now ≡ self.now }
        ensures valid { IsTrue (is_name self.now) }
        ensures short { length self.now ≤ NAME_LIMIT }
    {
        &self.cells[..self.len]
    }

    /// An equal name. It takes no memory.
    pub fn copied(&self) -> Name
        ensures { result ≡ self.now }
    {
        *self
    }
}

impl PartialEq for Name {
    ghost eq = { λ a b. pointwise nat_eq a b };

    ghost laws = { partial_equiv_from_equiv nat_list_eq_equiv };

    fn eq(&self, other: &Self) -> bool {
        self.bytes() == other.bytes()
    }
}

impl Eq for Name {
    ghost laws = { nat_list_eq_equiv };
}

impl Hash for Name {
    ghost hash_input = { λ name. fed.slice fed.u8 name };

    ghost respects_eq = { Prim.search (hashing, rules) };

    fn hash<H: Hasher>(&self, state: &mut H) {
        self.bytes().hash(state);
    }
}

impl fmt::Debug for Name {
    fn fmt<W: fmt::Write>(&self, f: &mut fmt::Formatter<W>) -> fmt::Result {
        for byte in self.bytes() {
            f.write_char(char::from(*byte))?;
        }
        Ok(())
    }
}

/// Whether these bytes are a name.
pub fn is_name(bytes: &[u8]) -> bool
    ensures { result ≡ is_name bytes.now }
{
    is_name_spelling(bytes) && bytes.len() <= NAME_LIMIT
}

/// Whether these bytes spell a name, however long.
#[tactic(auto, unfolding(crate::specs::Names::is_name_spelling))]
pub fn is_name_spelling(bytes: &[u8]) -> bool
    ensures { result ≡ is_name_spelling bytes.now }
{
    match bytes {
        [] => false,
        [first, rest @ ..] => begins_name(*first) && continue_name(rest),
    }
}

/// Bytes at the front of a name's cells.
fn cells_of(bytes: &[u8]) -> [u8; NAME_LIMIT]
    requires { length bytes.now ≤ NAME_LIMIT }
    ensures { result ≡ cells_of bytes.now }
{
    let mut cells = [0; NAME_LIMIT];
    cells[..bytes.len()].copy_from_slice(bytes);
    cells
}

fn begins_name(byte: u8) -> bool
    ensures { result ≡ begins_name byte }
{
    byte.is_ascii_alphabetic() || byte == b'_'
}

fn continues_name(byte: u8) -> bool
    ensures { result ≡ continues_name byte }
{
    byte.is_ascii_alphanumeric() || byte == b'_'
}

fn continue_name(bytes: &[u8]) -> bool
    ensures { result ≡ list_all continues_name bytes.now }
{
    bytes.iter().all(|c| continues_name(*c))
}
