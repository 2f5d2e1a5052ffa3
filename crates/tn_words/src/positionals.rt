ghost use Rattle.std.specs.Prelude.{◌≡◌, ◌≤◌, ℕ, List, true, [], ◌∷◌, length, map, string_bytes, IfOk, IfErr, Some, codes, option_map};
ghost use Rattle.std.specs.List.{list_all};
ghost use Rattle.clap.specs.Lexer.{usize_max};
ghost use Rattle.clap.specs.Words.{kind_of, first_value, found_of, raw_values, matched_of};
ghost use Rattle.tn_words.specs.PlainWords.{is_plain_word};

use clap::error::ErrorKind;
use clap::{Arg, ArgMatches, Command, Error};
use std::alloc::Global;

/// The word of a command and one word behind it, as `clap` matches them. Where this is a plain word,
/// it fails for want of memory alone.
pub fn one_match<'a>(alloc: Global, words: &'a [String]) -> Result<ArgMatches<'a>, Error>
    ensures values { (command first : List ℕ) → map string_bytes words.entry.now ≡ command ∷ first ∷ []
        → is_plain_word first ≡ true → IfOk result (λ m. first_value (found_of m) (codes "first") ≡ Some first) }
    ensures wanting { (command first : List ℕ) → map string_bytes words.entry.now ≡ command ∷ first ∷ []
        → is_plain_word first ≡ true → IfErr result (λ e. kind_of e ≡ ErrorKind.OutOfMemory) }
{
    let first = Arg::new(alloc, "first").required(true);
    let command = Command::new(alloc, "tn").arg(first)?;
    command.try_get_matches_from(words)
}

/// The word of a command and two words behind it, as `clap` matches them. Where these are plain
/// words, it fails for want of memory alone.
pub fn two_matches<'a>(alloc: Global, words: &'a [String]) -> Result<ArgMatches<'a>, Error>
    ensures values { (command first second : List ℕ) → map string_bytes words.entry.now ≡ command ∷ first ∷ second ∷ []
        → list_all is_plain_word (first ∷ second ∷ []) ≡ true
        → IfOk result (λ m. (first_value (found_of m) (codes "first") ≡ Some first)
        × (first_value (found_of m) (codes "second") ≡ Some second)) }
    ensures wanting { (command first second : List ℕ) → map string_bytes words.entry.now ≡ command ∷ first ∷ second ∷ []
        → list_all is_plain_word (first ∷ second ∷ []) ≡ true → IfErr result (λ e. kind_of e ≡ ErrorKind.OutOfMemory) }
{
    let first = Arg::new(alloc, "first").required(true);
    let second = Arg::new(alloc, "second").required(true);
    let command = Command::new(alloc, "tn").arg(first)?.arg(second)?;
    command.try_get_matches_from(words)
}

/// The word of a command and three words behind it.
pub fn three_matches<'a>(alloc: Global, words: &'a [String]) -> Result<ArgMatches<'a>, Error>
    ensures values { (command first second third : List ℕ)
        → map string_bytes words.entry.now ≡ command ∷ first ∷ second ∷ third ∷ []
        → list_all is_plain_word (first ∷ second ∷ third ∷ []) ≡ true
        → IfOk result (λ m. (first_value (found_of m) (codes "first") ≡ Some first)
        × (first_value (found_of m) (codes "second") ≡ Some second)
        × (first_value (found_of m) (codes "third") ≡ Some third)) }
    ensures wanting { (command first second third : List ℕ)
        → map string_bytes words.entry.now ≡ command ∷ first ∷ second ∷ third ∷ []
        → list_all is_plain_word (first ∷ second ∷ third ∷ []) ≡ true
        → IfErr result (λ e. kind_of e ≡ ErrorKind.OutOfMemory) }
{
    let first = Arg::new(alloc, "first").required(true);
    let second = Arg::new(alloc, "second").required(true);
    let third = Arg::new(alloc, "third").required(true);
    let command = Command::new(alloc, "tn")
        .arg(first)?
        .arg(second)?
        .arg(third)?;
    command.try_get_matches_from(words)
}

/// The word of a command, a word behind it, and all others, of which there is one at least.
pub fn several_matches<'a>(alloc: Global, words: &'a [String]) -> Result<ArgMatches<'a>, Error>
    ensures values { (command first second : List ℕ) (rest : List (List ℕ))
        → map string_bytes words.entry.now ≡ command ∷ first ∷ second ∷ rest
        → list_all is_plain_word (first ∷ second ∷ rest) ≡ true
        → IfOk result (λ m. (first_value (found_of m) (codes "first") ≡ Some first)
        × (option_map raw_values (matched_of (found_of m) (codes "others")) ≡ Some (second ∷ rest))) }
    ensures wanting { (command first second : List ℕ) (rest : List (List ℕ))
        → map string_bytes words.entry.now ≡ command ∷ first ∷ second ∷ rest
        → list_all is_plain_word (first ∷ second ∷ rest) ≡ true
        → length (second ∷ rest) ≤ usize_max → IfErr result (λ e. kind_of e ≡ ErrorKind.OutOfMemory) }
{
    let first = Arg::new(alloc, "first").required(true);
    let others = Arg::new(alloc, "others").required(true).num_args(1..);
    let command = Command::new(alloc, "tn").arg(first)?.arg(others)?;
    command.try_get_matches_from(words)
}
