ghost use Rattle.std.specs.Prelude.{◌≡◌, ◌<◌, ◌≤◌, ℕ, List, [], ◌∷◌, true, false, Some, None, map, string_bytes, IfSome, IfOk, IfErr};
ghost use Rattle.std.specs.Prelude.{IsSomeAnd, is_some, if◌then◌else◌};
ghost use Rattle.std.specs.List.{list_all};
ghost use Rattle.std.specs.Option.{option_map};
ghost use Rattle.tn_words.specs.CommandWords.{flat, one, asm, lib, build, list, tree, replay, grid, is_file_word, link_named, size_named};
ghost use Rattle.tn_words.specs.CommandWords.{one_file, two_files, one_asked, lib_asked, grid_asked, asked};
ghost use Rattle.tn_words.specs.ReadWords.{IsReadAs, asked_by};
ghost use Rattle.tn_words.specs.Inner.WordReading.{behind, ReadsAs};

use crate::faults::NoMemory;
use crate::positionals::{one_match, several_matches, three_matches, two_matches};
use std::alloc::Global;
use tn_text::FileName;

/// What the words of a command line ask for.
#[derive(Drop)]
pub enum Command {
    /// Turn the flat source in one file into the code bytes in another.
    Flat {
        source: FileName,
        target: FileName,
    },
    /// Turn the flat source in one file into the stream, in another, that boots one processor by
    /// this link and runs the code.
    One {
        source: FileName,
        target: FileName,
        link: u8,
    },
    /// Turn the assembler source in one file into the module text in another.
    Asm {
        source: FileName,
        target: FileName,
    },
    /// Join the module texts in some files to the library text in another.
    Lib {
        target: FileName,
        sources: Vec<FileName>,
    },
    /// Build the system of a configuration, and write the stream that loads it.
    Build {
        config: FileName,
        target: FileName,
    },
    /// Build the system of a configuration, and list its processors.
    List {
        config: FileName,
    },
    /// Build the system of a configuration, and print its load tree.
    Tree {
        config: FileName,
    },
    /// Build the system of a configuration, and replay the lines of a schedule in its network.
    Replay {
        config: FileName,
        schedule: FileName,
    },
    /// Make a grid of `size` by `size` processors, and print what its loading and its run come to.
    Grid {
        size: u32,
    },
}

/// The command that the words after the program's name spell, if they spell one. A file's name is
/// not empty, doesn't begin with `-`, and has at most 255 bytes. Words that spell a command are read
/// by `clap`, which may want memory.
#[tactic(auto, unfolding(crate::specs::CommandWords::asked))]
pub fn command_of(alloc: Global, words: &[String]) -> Option<Result<Command, NoMemory>>
    ensures { IsReadAs asked_by (asked (map string_bytes words.now)) result }
{
    let [command, ..] = words else {
        return None;
    };
    match command.as_str() {
        "flat" => flat_words(alloc, words),
        "one" => one_words(alloc, words),
        "asm" => asm_words(alloc, words),
        "lib" => lib_words(alloc, words),
        "build" => build_words(alloc, words),
        "list" => list_words(alloc, words),
        "tree" => tree_words(alloc, words),
        "replay" => replay_words(alloc, words),
        "grid" => grid_words(alloc, words),
        _ => None,
    }
}

/// The words of `flat IN OUT`.
fn flat_words(alloc: Global, words: &[String]) -> Option<Result<Command, NoMemory>>
    ensures { IsReadAs asked_by (option_map (λ f. flat f.0 f.1) (two_files (behind (map string_bytes words.now)))) result }
{
    match two_file_words(alloc, words)? {
        Ok((source, target)) => Some(Ok(Command::Flat { source, target })),
        Err(want) => Some(Err(want)),
    }
}

/// The words of `one IN OUT K`.
fn one_words(alloc: Global, words: &[String]) -> Option<Result<Command, NoMemory>>
    ensures { IsReadAs asked_by (one_asked (behind (map string_bytes words.now))) result }
{
    if !spell_one(words) {
        return None;
    }
    read_one(alloc, words).transpose()
}

/// The words of `asm IN OUT`.
fn asm_words(alloc: Global, words: &[String]) -> Option<Result<Command, NoMemory>>
    ensures { IsReadAs asked_by (option_map (λ f. asm f.0 f.1) (two_files (behind (map string_bytes words.now)))) result }
{
    match two_file_words(alloc, words)? {
        Ok((source, target)) => Some(Ok(Command::Asm { source, target })),
        Err(want) => Some(Err(want)),
    }
}

/// The words of `lib OUT IN..`.
fn lib_words(alloc: Global, words: &[String]) -> Option<Result<Command, NoMemory>>
    ensures { IsReadAs asked_by (lib_asked (behind (map string_bytes words.now))) result }
{
    if !spell_lib(words) {
        return None;
    }
    read_lib(alloc, words).transpose()
}

/// The words of `build CONFIG OUT`.
fn build_words(alloc: Global, words: &[String]) -> Option<Result<Command, NoMemory>>
    ensures { IsReadAs asked_by (option_map (λ f. build f.0 f.1) (two_files (behind (map string_bytes words.now)))) result }
{
    match two_file_words(alloc, words)? {
        Ok((config, target)) => Some(Ok(Command::Build { config, target })),
        Err(want) => Some(Err(want)),
    }
}

/// The words of `list CONFIG`.
fn list_words(alloc: Global, words: &[String]) -> Option<Result<Command, NoMemory>>
    ensures { IsReadAs asked_by (option_map list (one_file (behind (map string_bytes words.now)))) result }
{
    match one_file_words(alloc, words)? {
        Ok(config) => Some(Ok(Command::List { config })),
        Err(want) => Some(Err(want)),
    }
}

/// The words of `tree CONFIG`.
fn tree_words(alloc: Global, words: &[String]) -> Option<Result<Command, NoMemory>>
    ensures { IsReadAs asked_by (option_map tree (one_file (behind (map string_bytes words.now)))) result }
{
    match one_file_words(alloc, words)? {
        Ok(config) => Some(Ok(Command::Tree { config })),
        Err(want) => Some(Err(want)),
    }
}

/// The words of `replay CONFIG SCHEDULE`.
fn replay_words(alloc: Global, words: &[String]) -> Option<Result<Command, NoMemory>>
    ensures { IsReadAs asked_by (option_map (λ f. replay f.0 f.1) (two_files (behind (map string_bytes words.now)))) result }
{
    match two_file_words(alloc, words)? {
        Ok((config, schedule)) => Some(Ok(Command::Replay { config, schedule })),
        Err(want) => Some(Err(want)),
    }
}

/// The words of `grid N`.
fn grid_words(alloc: Global, words: &[String]) -> Option<Result<Command, NoMemory>>
    ensures { IsReadAs asked_by (grid_asked (behind (map string_bytes words.now))) result }
{
    if !spell_grid(words) {
        return None;
    }
    read_grid(alloc, words).transpose()
}

/// The file that the word behind a command's word names.
fn one_file_words(alloc: Global, words: &[String]) -> Option<Result<FileName, NoMemory>>
    ensures { IsReadAs (λ file. file) (one_file (behind (map string_bytes words.now))) result }
{
    if !spell_one_file(words) {
        return None;
    }
    read_one_file(alloc, words).transpose()
}

/// Whether the words behind a command's word name one file.
fn spell_one_file(words: &[String]) -> bool
    ensures { result ≡ is_some (one_file (behind (map string_bytes words.now))) }
{
    match words {
        [_, file] => is_file_word(file),
        _ => false,
    }
}

/// The two files that the words behind a command's word name.
fn two_file_words(alloc: Global, words: &[String]) -> Option<Result<(FileName, FileName), NoMemory>>
    ensures { IsReadAs (λ files. files) (two_files (behind (map string_bytes words.now))) result }
{
    if !spell_two_files(words) {
        return None;
    }
    read_two(alloc, words).transpose()
}

/// Whether the words behind a command's word name two files.
fn spell_two_files(words: &[String]) -> bool
    ensures { result ≡ is_some (two_files (behind (map string_bytes words.now))) }
{
    match words {
        [_, first, second] => is_file_word(first) && is_file_word(second),
        _ => false,
    }
}

/// Whether the words behind a command's word name two files and a link.
fn spell_one(words: &[String]) -> bool
    ensures { result ≡ is_some (one_asked (behind (map string_bytes words.now))) }
{
    match words {
        [_, source, target, link] => {
            is_file_word(source) && is_file_word(target) && link_of(link).is_some()
        }
        _ => false,
    }
}

/// Whether the word behind a command's word names the size of a grid.
fn spell_grid(words: &[String]) -> bool
    ensures { result ≡ is_some (grid_asked (behind (map string_bytes words.now))) }
{
    match words {
        [_, size] => size_of(size).is_some(),
        _ => false,
    }
}

/// Whether the words behind a command's word name two files at least.
fn spell_lib(words: &[String]) -> bool
    ensures { result ≡ is_some (lib_asked (behind (map string_bytes words.now))) }
{
    match words {
        [_, target, source, sources @ ..] => {
            is_file_word(target) && is_file_word(source) && are_file_words(sources)
        }
        _ => false,
    }
}

/// The word of a file, as `clap` reads it.
fn read_one_file(alloc: Global, words: &[String]) -> Result<Option<FileName>, NoMemory>
    ensures { ReadsAs (λ file. file) (one_file (behind (map string_bytes words.now))) result }
{
    let matches = one_match(alloc, words)?;
    Ok(file_of(matches.get_str("first")))
}

/// The two words of two files, as `clap` reads them.
fn read_two(alloc: Global, words: &[String]) -> Result<Option<(FileName, FileName)>, NoMemory>
    ensures { ReadsAs (λ files. files) (two_files (behind (map string_bytes words.now))) result }
{
    let matches = two_matches(alloc, words)?;
    let (first, second) = (matches.get_str("first"), matches.get_str("second"));
    Ok(file_of(first).zip(file_of(second)))
}

/// The three words of `one`, as `clap` reads them.
fn read_one(alloc: Global, words: &[String]) -> Result<Option<Command>, NoMemory>
    ensures { ReadsAs asked_by (one_asked (behind (map string_bytes words.now))) result }
{
    let matches = three_matches(alloc, words)?;
    let source = matches.get_str("first");
    let target = matches.get_str("second");
    let link = matches.get_str("third");
    Ok(one_command(source, target, link))
}

/// The command `one` of the words of two files and of a link, where they are there.
fn one_command(source: Option<&str>, target: Option<&str>, link: Option<&str>) -> Option<Command>
    ensures { (s t l : List ℕ) → option_map (λ w. w.now) source.entry ≡ Some s → option_map (λ w. w.now) target.entry ≡ Some t
        → option_map (λ w. w.now) link.entry ≡ Some l → is_file_word s ≡ true → is_file_word t ≡ true
        → option_map asked_by result ≡ option_map (λ k. one s t k) (link_named l) }
{
    let (source, target) = (file_of(source)?, file_of(target)?);
    let link = link_of(link?)?;
    Some(Command::One {
        source,
        target,
        link,
    })
}

/// The word of `grid`, as `clap` reads it.
fn read_grid(alloc: Global, words: &[String]) -> Result<Option<Command>, NoMemory>
    ensures { ReadsAs asked_by (grid_asked (behind (map string_bytes words.now))) result }
{
    let matches = one_match(alloc, words)?;
    Ok(grid_command(matches.get_str("first")))
}

/// The command `grid` of the word of a size, where it is there.
fn grid_command(size: Option<&str>) -> Option<Command>
    ensures { (word : List ℕ) → option_map (λ w. w.now) size.entry ≡ Some word
        → option_map asked_by result ≡ option_map grid (size_named word) }
{
    let size = size_of(size?)?;
    Some(Command::Grid { size })
}

/// The words of `lib`, as `clap` reads them.
fn read_lib(alloc: Global, words: &[String]) -> Result<Option<Command>, NoMemory>
    ensures { ReadsAs asked_by (lib_asked (behind (map string_bytes words.now))) result }
{
    let matches = several_matches(alloc, words)?;
    let target = matches.get_str("first");
    lib_command(alloc, target, matches.get_raw("others"))
}

/// The command `lib` of the word of a file and those of others, where they are there.
fn lib_command(
    alloc: Global,
    target: Option<&str>,
    sources: Option<&[&str]>,
) -> Result<Option<Command>, NoMemory>
    ensures { (t : List ℕ) (ss : List (List ℕ)) → option_map (λ w. w.now) target.entry ≡ Some t
        → option_map (λ ws. map (λ w. w.now) ws.now) sources.entry ≡ Some ss → is_file_word t ≡ true → list_all is_file_word ss ≡ true
        → IfOk result (λ o. IsSomeAnd o (λ c. asked_by c ≡ lib t ss)) }
{
    let (Some(target), Some(words)) = (file_of(target), sources) else {
        return Ok(None);
    };
    match files_of(alloc, words)? {
        Some(sources) => Ok(Some(Command::Lib { target, sources })),
        None => Ok(None),
    }
}

/// The files that words name, where each names one.
fn files_of(alloc: Global, words: &[&str]) -> Result<Option<Vec<FileName>>, NoMemory>
    ensures { list_all is_file_word (map (λ w. w.now) words.now) ≡ true
        → IfOk result (λ o. IsSomeAnd o (λ files. files.items ≡ map (λ w. w.now) words.now)) }
{
    let mut files = Vec::new(alloc);
    for word in words {
        match FileName::of(word) {
            Some(name) => files.push(name)?,
            None => return Ok(None),
        }
    }
    Ok(Some(files))
}

/// The link that a word names: `0` to `3`.
#[tactic(auto, using(std::proofs::lemmas::Bool::Decides::nat_tests), unfolding(crate::specs::CommandWords::link_named))]
fn link_of(word: &str) -> Option<u8>
    ensures value { result ≡ link_named word.now }
    ensures within { IfSome result (λ link. link < 4) }
{
    match word.as_bytes() {
        [digit @ b'0'..=b'3'] => Some(digit - b'0'),
        _ => None,
    }
}

/// The size of a grid that a word names: `1` to `8`.
#[tactic(auto, using(std::proofs::lemmas::Bool::Decides::nat_tests), unfolding(crate::specs::CommandWords::size_named))]
fn size_of(word: &str) -> Option<u32>
    ensures value { result ≡ size_named word.now }
    ensures within { IfSome result (λ size. (1 ≤ size) × (size ≤ 8)) }
{
    match word.as_bytes() {
        [digit @ b'1'..=b'8'] => Some(u32::from(digit - b'0')),
        _ => None,
    }
}

/// The file that a word names, where there is a word.
fn file_of(word: Option<&str>) -> Option<FileName>
    ensures { (text : List ℕ) → option_map (λ w. w.now) word.entry ≡ Some text → is_file_word text ≡ true → result ≡ Some text }
{
    FileName::of(word?)
}

/// Whether words may name files.
fn are_file_words(words: &[String]) -> bool
    ensures { result ≡ list_all is_file_word (map string_bytes words.now) }
{
    for word in words {
        if !is_file_word(word) {
            return false;
        }
    }
    true
}

/// Whether a word may name a file.
fn is_file_word(word: &str) -> bool
    ensures { result ≡ is_file_word word.now }
{
    word.as_bytes().first() != Some(&b'-') && FileName::of(word).is_some()
}
