ghost use Rattle.std.specs.Prelude.{◌≡◌, nat_eq};
ghost use Rattle.std.specs.Cmp.{partial_equiv_from_equiv};
ghost use Rattle.std.specs.Cmp.Lexicographic.{pointwise, nat_list_eq_equiv};
ghost use Rattle.std.specs.Cmp.Rules.{hashing};
ghost use Rattle.std.specs.Hash as fed;
ghost use Rattle.std.proofs.Common.{rules};

use std::hash::{Hash, Hasher};
use std::marker::Model;
use tn_text::FileName;

/// The name of a file as a key.
#[derive(Drop)]
pub(crate) struct FileKey {
    name: FileName,
}

impl Model for FileKey {
    ghost use Rattle.std.specs.Prelude.{List, ℕ};

    ghost Value = { List ℕ };

    ghost view = { λ key. key.name };
}

impl FileKey {
    pub(crate) fn of(name: &FileName) -> FileKey
        ensures { result ≡ name.now }
    {
        FileKey {
            name: name.copied(),
        }
    }

    /// The name.
    pub(crate) fn name(&self) -> FileName
        ensures { result ≡ self.now }
    {
        self.name.copied()
    }

    fn bytes(&self) -> &[u8]
        ensures { result.now ≡ self.now }
    {
        self.name.text().as_bytes()
    }
}

impl PartialEq for FileKey {
    ghost eq = { λ a b. pointwise nat_eq a b };

    ghost laws = { partial_equiv_from_equiv nat_list_eq_equiv };

    fn eq(&self, other: &Self) -> bool {
        self.bytes() == other.bytes()
    }
}

impl Eq for FileKey {
    ghost laws = { nat_list_eq_equiv };
}

impl Hash for FileKey {
    ghost hash_input = { λ key. fed.slice fed.u8 key };

    ghost respects_eq = { Prim.search (hashing, rules) };

    fn hash<H: Hasher>(&self, state: &mut H) {
        self.bytes().hash(state);
    }
}
