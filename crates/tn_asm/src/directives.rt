ghost use Rattle.std.specs.Prelude.{◌≡◌, find};
ghost use Rattle.std.specs.Str.{bytes_eq};
ghost use Rattle.tn_asm.specs.Directives.{directive_word, directive_named};

/// A first word of a statement that is no mnemonic.
#[derive(Clone, Copy)]
pub enum Directive {
    Module,
    Import,
    Export,
    Code,
    Data,
    Byte,
    Word,
    Address,
    Space,
    Align,
}

/// Each directive.
const DIRECTIVES: [Directive; 10] = [
    Directive::Module,
    Directive::Import,
    Directive::Export,
    Directive::Code,
    Directive::Data,
    Directive::Byte,
    Directive::Word,
    Directive::Address,
    Directive::Space,
    Directive::Align,
];

/// The directive that a word is. `None` exactly where it is none.
#[tactic(auto, unfolding(crate::specs::Directives::directive_named))]
pub(crate) fn directive_named(word: &[u8]) -> Option<Directive>
    ensures { result ≡ directive_named word.now }
{
    first_named(&DIRECTIVES, word)
}

/// The first of the directives that the word is.
fn first_named(table: &[Directive], word: &[u8]) -> Option<Directive>
    ensures { result ≡ find (λ d. bytes_eq (directive_word d) word.now) table.now }
{
    table
        .iter()
        .copied()
        .find(|d| directive_word(*d).as_bytes() == word)
}

/// The word of a directive.
fn directive_word(directive: Directive) -> &'static str
    ensures { result.now ≡ directive_word directive }
{
    match directive {
        Directive::Module => ".module",
        Directive::Import => ".import",
        Directive::Export => ".export",
        Directive::Code => ".code",
        Directive::Data => ".data",
        Directive::Byte => ".byte",
        Directive::Word => ".word",
        Directive::Address => ".address",
        Directive::Space => ".space",
        Directive::Align => ".align",
    }
}
