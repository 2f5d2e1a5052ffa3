ghost use Rattle.std.specs.Prelude.{◌≡◌, find};
ghost use Rattle.std.specs.Str.{bytes_eq};
ghost use Rattle.tn_schedule.specs.Keywords.{keyword_word, keyword_named};

/// The first word of a line.
#[derive(Clone, Copy)]
pub enum Keyword {
    Power,
    Step,
    Send,
    Take,
    HostSend,
    HostTake,
    Settle,
    Release,
    Show,
    Links,
    Word,
    Host,
    Got,
    Steps,
    Same,
}

/// The words that begin lines.
const KEYWORDS: [Keyword; 15] = [
    Keyword::Power,
    Keyword::Step,
    Keyword::Send,
    Keyword::Take,
    Keyword::HostSend,
    Keyword::HostTake,
    Keyword::Settle,
    Keyword::Release,
    Keyword::Show,
    Keyword::Links,
    Keyword::Word,
    Keyword::Host,
    Keyword::Got,
    Keyword::Steps,
    Keyword::Same,
];

/// The keyword that a word is. `None` exactly where it is none.
#[tactic(auto, unfolding(crate::specs::Keywords::keyword_named))]
pub fn keyword_named(word: &[u8]) -> Option<Keyword>
    ensures { result ≡ keyword_named word.now }
{
    first_named(&KEYWORDS, word)
}

/// The first of the keywords that the word is.
fn first_named(table: &[Keyword], word: &[u8]) -> Option<Keyword>
    ensures { result ≡ find (λ k. bytes_eq (keyword_word k) word.now) table.now }
{
    table
        .iter()
        .copied()
        .find(|k| keyword_word(*k).as_bytes() == word)
}

/// The word of a keyword.
fn keyword_word(keyword: Keyword) -> &'static str
    ensures { result.now ≡ keyword_word keyword }
{
    match keyword {
        Keyword::Power => "power",
        Keyword::Step => "p",
        Keyword::Send => "s",
        Keyword::Take => "t",
        Keyword::HostSend => "hs",
        Keyword::HostTake => "ht",
        Keyword::Settle => "settle",
        Keyword::Release => "release",
        Keyword::Show => "show",
        Keyword::Links => "links",
        Keyword::Word => "word",
        Keyword::Host => "host",
        Keyword::Got => "got",
        Keyword::Steps => "steps",
        Keyword::Same => "same",
    }
}
