ghost use Rattle.std.specs.Prelude.{◌≡◌, ◌++◌, ◌∷◌, [], map, OnOk, IfOk};
ghost use Rattle.std.specs.Fmt.{decimal};
ghost use Rattle.std.specs.List.{flat_map};
ghost use Rattle.std.specs.Option.{option_to_list};
ghost use Rattle.tn_text.specs.WordTexts.{word_text, spaced};
ghost use Rattle.tn_config.specs.declared.statements.Setting.TheVariants as setting;
ghost use Rattle.tn_config.specs.declared.statements.Statement.TheVariants as statement;
ghost use Rattle.tn_config.specs.Statements.{keyword_of, setting_keyword};
ghost use Rattle.tn_config.specs.Configurations.{ConfigState, block_of, config_of};
ghost use Rattle.tn_config.specs.Spellings.{argument_tokens, setting_tokens, statement_spelling, block_settings};
ghost use Rattle.tn_config.specs.Spellings.{block_statements, host_statement, wire_statement, config_spelling};
ghost use Rattle.tn_config.specs.Writable.{IsWritable, IsReadBack};

use crate::configurations::{Block, Config, HostLine, WireLine};
use crate::keywords::{Keyword, keyword_word};
use crate::statements::{Setting, Statement};
use std::alloc::{AllocError, Global};
use std::string::ToString;
use tn_text::{FileName, Name, word_text};

/// The text of a configuration: block by block the lines `processor`, `code`, `data`, `workspace`,
/// `module`.., `library`.., `entry`, `arg`.., `end`, then `host`, then the wires. Addresses and
/// arguments are `#` with eight upper-case digits, other numbers decimal; tokens stand one blank
/// apart, and each line ends with a line feed.
///
/// Where the numbers lie in the ranges that `read_config` takes, each block has a module and each
/// file's name is one token, reading the text gives the same configuration, but for the numbers of
/// its lines.
#[tactic(auto, using(crate::proofs::ReadBack::read_back))]
pub fn write_config(alloc: Global, config: &Config) -> Result<Vec<u8>, AllocError>
    ensures spelling { IfOk result (λ text. text.items ≡ config_spelling (config_of config.now)) }
    ensures law { (c : ConfigState) → IsWritable c → IsReadBack (config_spelling c) c }
    ensures read_back { IfOk result (λ text. IsWritable (config_of config.now) → IsReadBack text.items (config_of config.now)) }
{
    let mut text = Vec::new(alloc);
    put_config(alloc, config, &mut text)?;
    Ok(text)
}

/// Puts the lines of a configuration.
fn put_config(alloc: Global, config: &Config, out: &mut Vec<u8>) -> Result<(), AllocError>
    ensures { OnOk result (out.new.items ≡ out.old.items ++ config_spelling (config_of config.now)) }
{
    put_blocks(alloc, &config.blocks, out)?;
    put_host(alloc, &config.host, out)?;
    put_wires(alloc, &config.wires, out)
}

fn put_blocks(alloc: Global, blocks: &[Block], out: &mut Vec<u8>) -> Result<(), AllocError>
    ensures { OnOk result (out.new.items ≡ out.old.items
        ++ flat_map statement_spelling (flat_map block_statements (map block_of blocks.now))) }
{
    for block in blocks {
        put_block(alloc, block, out)?;
    }
    Ok(())
}

fn put_host(alloc: Global, host: &Option<HostLine>, out: &mut Vec<u8>) -> Result<(), AllocError>
    ensures { OnOk result (out.new.items ≡ out.old.items
        ++ flat_map statement_spelling (map host_statement (option_to_list host.now))) }
{
    match host {
        Some(host) => put_statement(alloc, &Statement::Host(host.name, host.link), out),
        None => Ok(()),
    }
}

fn put_wires(alloc: Global, wires: &[WireLine], out: &mut Vec<u8>) -> Result<(), AllocError>
    ensures { OnOk result (out.new.items ≡ out.old.items ++ flat_map statement_spelling (map wire_statement wires.now)) }
{
    for wire in wires {
        let wired = Statement::Wire(wire.one, wire.one_link, wire.two, wire.two_link);
        put_statement(alloc, &wired, out)?;
    }
    Ok(())
}

/// Puts the lines of a block.
fn put_block(alloc: Global, block: &Block, out: &mut Vec<u8>) -> Result<(), AllocError>
    ensures { OnOk result (out.new.items ≡ out.old.items ++ flat_map statement_spelling (block_statements (block_of block.now))) }
{
    put_statement(alloc, &Statement::Processor(block.name, block.size), out)?;
    put_settings(alloc, block, out)?;
    put_statement(alloc, &Statement::End, out)
}

/// Puts the lines of a block between its first and its last.
fn put_settings(alloc: Global, block: &Block, out: &mut Vec<u8>) -> Result<(), AllocError>
    ensures { OnOk result (out.new.items ≡ out.old.items
        ++ flat_map statement_spelling (map statement.Set (block_settings (block_of block.now)))) }
{
    put_setting(alloc, Setting::Code(block.code), out)?;
    put_setting(alloc, Setting::Data(block.cells), out)?;
    let workspace = Setting::Workspace(block.wptr, block.below, block.above);
    put_setting(alloc, workspace, out)?;
    put_modules(alloc, &block.modules, out)?;
    put_libraries(alloc, &block.libraries, out)?;
    put_setting(alloc, Setting::Entry(block.entry), out)?;
    put_args(alloc, &block.args, out)
}

fn put_modules(alloc: Global, files: &[FileName], out: &mut Vec<u8>) -> Result<(), AllocError>
    ensures { OnOk result (out.new.items ≡ out.old.items
        ++ flat_map statement_spelling (map statement.Set (map setting.Module files.now))) }
{
    for file in files {
        put_setting(alloc, Setting::Module(file.copied()), out)?;
    }
    Ok(())
}

fn put_libraries(alloc: Global, files: &[FileName], out: &mut Vec<u8>) -> Result<(), AllocError>
    ensures { OnOk result (out.new.items ≡ out.old.items
        ++ flat_map statement_spelling (map statement.Set (map setting.Library files.now))) }
{
    for file in files {
        put_setting(alloc, Setting::Library(file.copied()), out)?;
    }
    Ok(())
}

fn put_args(alloc: Global, words: &[u32], out: &mut Vec<u8>) -> Result<(), AllocError>
    ensures { OnOk result (out.new.items ≡ out.old.items
        ++ flat_map statement_spelling (map statement.Set (map setting.Arg words.now))) }
{
    for word in words {
        put_setting(alloc, Setting::Arg(*word), out)?;
    }
    Ok(())
}

/// Puts a line of a block.
fn put_setting(alloc: Global, setting: Setting, out: &mut Vec<u8>) -> Result<(), AllocError>
    ensures { OnOk result (out.new.items ≡ out.old.items ++ statement_spelling (statement.Set setting)) }
{
    put_statement(alloc, &Statement::Set(setting), out)
}

/// Puts the line of a statement, and its line feed.
#[tactic(auto, unfolding(crate::specs::Spellings::statement_line))]
fn put_statement(alloc: Global, said: &Statement, out: &mut Vec<u8>) -> Result<(), AllocError>
    ensures { OnOk result (out.new.items ≡ out.old.items ++ statement_spelling said.now) }
{
    out.extend_from_slice(keyword_word(keyword_of(said)).as_bytes())?;
    put_arguments(alloc, said, out)?;
    out.push(b'\n')?;
    Ok(())
}

/// The first word of the line of a statement.
fn keyword_of(said: &Statement) -> Keyword
    ensures { result ≡ keyword_of said.now }
{
    match said {
        Statement::Processor(_, _) => Keyword::Processor,
        Statement::Host(_, _) => Keyword::Host,
        Statement::Wire(_, _, _, _) => Keyword::Wire,
        Statement::Set(setting) => setting_keyword(setting),
        Statement::End => Keyword::End,
    }
}

fn setting_keyword(setting: &Setting) -> Keyword
    ensures { result ≡ setting_keyword setting.now }
{
    match setting {
        Setting::Code(_) => Keyword::Code,
        Setting::Data(_) => Keyword::Data,
        Setting::Workspace(_, _, _) => Keyword::Workspace,
        Setting::Module(_) => Keyword::Module,
        Setting::Library(_) => Keyword::Library,
        Setting::Entry(_) => Keyword::Entry,
        Setting::Arg(_) => Keyword::Arg,
    }
}

/// Puts the tokens behind the first word of a line, a blank before each.
fn put_arguments(alloc: Global, said: &Statement, out: &mut Vec<u8>) -> Result<(), AllocError>
    ensures { OnOk result (out.new.items ≡ out.old.items ++ flat_map spaced (argument_tokens said.now)) }
{
    match said {
        Statement::Processor(name, size) => put_named(alloc, name, *size, out),
        Statement::Host(name, link) => put_named(alloc, name, u32::from(*link), out),
        Statement::Wire(one, one_link, two, two_link) => {
            put_named(alloc, one, u32::from(*one_link), out)?;
            put_named(alloc, two, u32::from(*two_link), out)
        }
        Statement::Set(setting) => put_values(alloc, setting, out),
        Statement::End => Ok(()),
    }
}

/// Puts what a line of a block says.
fn put_values(alloc: Global, setting: &Setting, out: &mut Vec<u8>) -> Result<(), AllocError>
    ensures { OnOk result (out.new.items ≡ out.old.items ++ flat_map spaced (setting_tokens setting.now)) }
{
    match setting {
        Setting::Code(address) => put_token(&word_text(*address), out),
        Setting::Data(address) => put_token(&word_text(*address), out),
        Setting::Workspace(wptr, below, above) => {
            put_token(&word_text(*wptr), out)?;
            put_number(alloc, *below, out)?;
            put_number(alloc, *above, out)
        }
        Setting::Module(file) => put_token(file.text().as_bytes(), out),
        Setting::Library(file) => put_token(file.text().as_bytes(), out),
        Setting::Entry(label) => put_token(label.bytes(), out),
        Setting::Arg(word) => put_token(&word_text(*word), out),
    }
}

/// Puts a name and a number.
fn put_named(alloc: Global, name: &Name, number: u32, out: &mut Vec<u8>) -> Result<(), AllocError>
    ensures { OnOk result (out.new.items ≡ out.old.items ++ flat_map spaced (name.now ∷ decimal number ∷ [])) }
{
    put_token(name.bytes(), out)?;
    put_number(alloc, number, out)
}

/// Puts a blank and a number.
fn put_number(alloc: Global, number: u32, out: &mut Vec<u8>) -> Result<(), AllocError>
    ensures { OnOk result (out.new.items ≡ out.old.items ++ spaced (decimal number)) }
{
    let text = number.to_string(alloc)?;
    put_token(text.as_bytes(), out)
}

/// Puts a blank and a token.
#[tactic(auto, unfolding(tn_text::specs::WordTexts::spaced))]
fn put_token(token: &[u8], out: &mut Vec<u8>) -> Result<(), AllocError>
    ensures { OnOk result (out.new.items ≡ out.old.items ++ spaced token.now) }
{
    out.push(b' ')?;
    out.extend_from_slice(token)?;
    Ok(())
}
