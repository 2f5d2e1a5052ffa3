ghost use Rattle.std.specs.Prelude.{◌≡◌, find};
ghost use Rattle.std.specs.Str.{bytes_eq};
ghost use Rattle.tn_config.specs.Keywords.{keyword_word, keyword_named};

/// The first word of a line.
#[derive(Clone, Copy)]
pub enum Keyword {
    Processor,
    Host,
    Wire,
    Code,
    Data,
    Workspace,
    Module,
    Library,
    Entry,
    Arg,
    End,
}

/// The words that begin lines.
const KEYWORDS: [Keyword; 11] = [
    Keyword::Processor,
    Keyword::Host,
    Keyword::Wire,
    Keyword::Code,
    Keyword::Data,
    Keyword::Workspace,
    Keyword::Module,
    Keyword::Library,
    Keyword::Entry,
    Keyword::Arg,
    Keyword::End,
];

/// The keyword that a word is. `None` exactly where it is none.
#[tactic(auto, unfolding(crate::specs::Keywords::keyword_named))]
pub fn keyword_named(word: &[u8]) -> Option<Keyword>
    ensures { result ≡ keyword_named word.now }
{
    first_named(&KEYWORDS, word)
}

/// The first of the keywords that the word is.
fn first_named(table: &[Keyword], word: &[u8]) -> Option<Keyword>
    ensures { result ≡ find (λ k. bytes_eq (keyword_word k) word.now) table.now }
{
    table
        .iter()
        .copied()
        .find(|k| keyword_word(*k).as_bytes() == word)
}

/// The word of a keyword.
pub fn keyword_word(keyword: Keyword) -> &'static str
    ensures { result.now ≡ keyword_word keyword }
{
    match keyword {
        Keyword::Processor => "processor",
        Keyword::Host => "host",
        Keyword::Wire => "wire",
        Keyword::Code => "code",
        Keyword::Data => "data",
        Keyword::Workspace => "workspace",
        Keyword::Module => "module",
        Keyword::Library => "library",
        Keyword::Entry => "entry",
        Keyword::Arg => "arg",
        Keyword::End => "end",
    }
}
