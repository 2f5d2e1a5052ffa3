ghost use Rattle.std.specs.Prelude.{◌≡◌, Some, None, IsTrue, if◌then◌else◌};
ghost use Rattle.tn_text.specs.FileNames.{is_file_name};

use crate::limits::FILE_NAME_LIMIT;
use arrayvec::ArrayString;
use std::fmt;
use std::marker::Model;

/// The name of a file: a text of 1 to 255 bytes. It takes no memory of an allocator.
#[derive(Drop)]
pub struct FileName {
    text: ArrayString<FILE_NAME_LIMIT>,
}

impl Model for FileName {
    ghost use Rattle.std.specs.Prelude.{◌≡◌, List, ℕ, true};
    ghost use Rattle.tn_text.specs.FileNames.{is_file_name};

    ghost Value = { List ℕ };

    ghost view = { λ name. name.text.bytes };

    ghost invariant = { λ name. is_file_name name.text.bytes ≡ true };
}

impl FileName {
    /// The name that a text spells. `None` exactly where it is empty or has more than 255 bytes.
    pub fn of(text: &str) -> Option<FileName>
        ensures { result ≡ (if is_file_name text.now then Some text.now else None) }
    {
        if text.is_empty() || text.len() > FILE_NAME_LIMIT {
            return None;
        }
        let text = ArrayString::from(text).ok()?;
        Some(FileName { text })
    }

    /// The name as text.
    pub fn text(&self) -> &str
        ensures text { result.now ≡ self.now }
        ensures valid { IsTrue (is_file_name self.now) }
    {
        self.text.as_str()
    }

    /// An equal name. It takes no memory.
    pub fn copied(&self) -> FileName
        ensures { result ≡ self.now }
    {
        FileName { text: self.text }
    }
}

impl fmt::Debug for FileName {
    fn fmt<W: fmt::Write>(&self, f: &mut fmt::Formatter<W>) -> fmt::Result {
        fmt::Debug::fmt(&self.text(), f)
    }
}
