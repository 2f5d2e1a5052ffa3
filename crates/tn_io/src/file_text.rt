ghost use Rattle.std.specs.Prelude.{◌≡◌, ◌≤◌, ◌↔◌, length, IsSome, IfSome};

use arrayvec::ArrayString;
use std::marker::Model;
use tn_text::limits::FILE_NAME_LIMIT;

/// The name of a file: a text of at most 255 bytes. It takes no memory of an allocator.
#[derive(Drop)]
pub struct FileText {
    text: ArrayString<FILE_NAME_LIMIT>,
}

impl Model for FileText {
    ghost use Rattle.std.specs.Prelude.{List, ℕ, ◌≤◌, length};
    ghost use Rattle.tn_text.specs.declared.limits.TheConstants.{FILE_NAME_LIMIT};

    ghost Value = { List ℕ };

    ghost view = { λ name. name.text.bytes };

    ghost invariant = { λ name. length name.text.bytes ≤ FILE_NAME_LIMIT };
}

impl FileText {
    /// The name that a text spells. `None` exactly where it has more than 255 bytes.
    pub fn of(text: &str) -> Option<FileText>
        ensures short { IsSome result ↔ (length text.now ≤ FILE_NAME_LIMIT) }
        ensures value { IfSome result (λ name. name ≡ text.now) }
    {
        let text = ArrayString::from(text).ok()?;
        Some(FileText { text })
    }

    /// The name as text, of at most 255 bytes.
    pub fn as_str(&self) -> &str
        ensures text { result.now ≡ self.now }
        ensures short { length result.now ≤ FILE_NAME_LIMIT }
    {
        self.text.as_str()
    }
}
