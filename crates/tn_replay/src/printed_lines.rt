ghost use Rattle.std.specs.Prelude.{◌≡◌, ◌%◌, ◌++◌, ◌∷◌, [], true, codes, OnOk};
ghost use Rattle.std.specs.Fmt.{decimal, digit_glyph};
ghost use Rattle.tn_text.specs.WordTexts.{word_text};
ghost use Rattle.tn_replay.specs.PrintedLines.{joined, reg_text, why_word, mode_word, has_pointers, pointer_text, flag_text};
ghost use Rattle.tn_replay.specs.PrintedLines.{state_line, byte_text, byte_or, input_text, output_text, link_line, loaded_text, word_line};
ghost use Rattle.tn_replay.specs.PrintedLines.{symbol_text, host_line, got_line, steps_line, settle_line, stopped_line};

use std::alloc::{AllocError, Global};
use std::string::ToString;
use tn_cpu::{CpuView, Reg, Why};
use tn_mem::{Memory, Touch};
use tn_node::{Engine, LinkView, Mode, Node};
use tn_text::{Name, word_text};

/// Puts the line of a processor's state behind a text.
pub fn put_state(
    alloc: Global,
    name: &Name,
    symbol: Option<(Name, u32)>,
    node: &Node<Memory>,
    out: &mut Vec<u8>,
) -> Result<(), AllocError>
    ensures { OnOk result (out.new.items ≡ out.old.items ++ state_line name.now symbol node.now) }
{
    let registers = node.cpu().view();
    let mode = node.mode();
    put_mode(name, mode, out)?;
    put_pointers(mode, registers.iptr, registers.wptr, out)?;
    put_stack(registers, out)?;
    put_flags(registers, out)?;
    put_symbol(alloc, symbol, out)?;
    out.push(b'\n')?;
    Ok(())
}

/// Puts a name and the word of a mode.
#[tactic(auto, using(crate::proofs::TextLaws::text_steps))]
fn put_mode(name: &Name, mode: Mode, out: &mut Vec<u8>) -> Result<(), AllocError>
    ensures { OnOk result (out.new.items ≡ out.old.items ++ joined (name.now ∷ codes " " ∷ mode_word mode ∷ [])) }
{
    out.extend_from_slice(name.bytes())?;
    out.push(b' ')?;
    put_mode_word(mode, out)
}

/// Puts the word of a mode.
fn put_mode_word(mode: Mode, out: &mut Vec<u8>) -> Result<(), AllocError>
    ensures { OnOk result (out.new.items ≡ out.old.items ++ mode_word mode) }
{
    match mode {
        Mode::Reset => put(b"reset", out),
        Mode::Poking => put(b"poking", out),
        Mode::Peeking => put(b"peeking", out),
        Mode::Replying => put(b"replying", out),
        Mode::Booting => put(b"booting", out),
        Mode::Running => put(b"running", out),
        Mode::Idle => put(b"idle", out),
        Mode::Stopped(why) => put_stop_word(why, out),
    }
}

/// Puts the word of the mode of a processor that stopped.
#[tactic(auto, using(crate::proofs::TextLaws::text_steps))]
fn put_stop_word(why: Why, out: &mut Vec<u8>) -> Result<(), AllocError>
    ensures { OnOk result (out.new.items ≡ out.old.items ++ (codes "stopped-" ++ why_word why)) }
{
    out.extend_from_slice(b"stopped-")?;
    out.extend_from_slice(why_word(why).as_bytes())?;
    Ok(())
}

/// Puts the line of a processor that stopped the symbolic network.
#[tactic(auto, using(crate::proofs::TextLaws::text_steps), unfolding(crate::specs::PrintedLines::stopped_line))]
pub fn put_stopped(name: &[u8], why: Why, out: &mut Vec<u8>) -> Result<(), AllocError>
    ensures { OnOk result (out.new.items ≡ out.old.items ++ stopped_line name.now why) }
{
    out.extend_from_slice(b"stopped ")?;
    out.extend_from_slice(name)?;
    out.push(b' ')?;
    out.extend_from_slice(why_word(why).as_bytes())?;
    out.push(b'\n')?;
    Ok(())
}

/// Puts the instruction pointer and the workspace pointer.
fn put_pointers(mode: Mode, iptr: u32, wptr: u32, out: &mut Vec<u8>) -> Result<(), AllocError>
    ensures { OnOk result (out.new.items ≡ out.old.items ++ joined (codes " i=" ∷ pointer_text (has_pointers mode) iptr
        ∷ codes " w=" ∷ pointer_text (has_pointers mode) wptr ∷ [])) }
{
    let told = has_pointers(mode);
    put_pointer(b" i=", told, iptr, out)?;
    put_pointer(b" w=", told, wptr, out)
}

/// Puts the three registers of the stack.
fn put_stack(registers: CpuView, out: &mut Vec<u8>) -> Result<(), AllocError>
    ensures { OnOk result (out.new.items ≡ out.old.items ++ joined (codes " a=" ∷ reg_text registers.a ∷ codes " b="
        ∷ reg_text registers.b ∷ codes " c=" ∷ reg_text registers.c ∷ [])) }
{
    put_reg(b" a=", registers.a, out)?;
    put_reg(b" b=", registers.b, out)?;
    put_reg(b" c=", registers.c, out)
}

/// Puts the operand register, Error, HaltOnError and the front of the queue.
fn put_flags(registers: CpuView, out: &mut Vec<u8>) -> Result<(), AllocError>
    ensures { OnOk result (out.new.items ≡ out.old.items ++ joined (codes " o=" ∷ word_text registers.oreg ∷ codes " e="
        ∷ flag_text registers.error ∷ codes " h=" ∷ flag_text registers.halt ∷ codes " f=" ∷ reg_text registers.front ∷ [])) }
{
    put_word_of(b" o=", registers.oreg, out)?;
    put_flag(b" e=", registers.error, out)?;
    put_flag(b" h=", registers.halt, out)?;
    put_reg(b" f=", registers.front, out)
}

/// Puts the label that an address belongs to, where there is one.
fn put_symbol(
    alloc: Global,
    symbol: Option<(Name, u32)>,
    out: &mut Vec<u8>,
) -> Result<(), AllocError>
    ensures { OnOk result (out.new.items ≡ out.old.items ++ symbol_text symbol) }
{
    match symbol {
        Some((label, offset)) => put_offset(alloc, &label, offset, out),
        None => Ok(()),
    }
}

/// Puts a label and how far behind it an address lies.
fn put_offset(alloc: Global, label: &Name, offset: u32, out: &mut Vec<u8>) -> Result<(), AllocError>
    ensures { OnOk result (out.new.items ≡ out.old.items ++ joined (codes " @ " ∷ label.now ∷ codes "+" ∷ decimal offset ∷ [])) }
{
    out.extend_from_slice(b" @ ")?;
    out.extend_from_slice(label.bytes())?;
    put_number(alloc, b"+", u64::from(offset), out)
}

/// Puts the line of a link.
pub fn put_link(
    alloc: Global,
    name: &Name,
    l: u8,
    link: LinkView,
    latch: Option<u8>,
    out: &mut Vec<u8>,
) -> Result<(), AllocError>
    ensures { OnOk result (out.new.items ≡ out.old.items ++ link_line name.now l link.input link.output latch) }
{
    out.extend_from_slice(name.bytes())?;
    put_number(alloc, b".", u64::from(l), out)?;
    put_input(alloc, link.input, out)?;
    put_output(alloc, link.output, out)?;
    put_latch(latch, out)
}

/// Puts what an engine takes.
fn put_input(alloc: Global, engine: Option<Engine>, out: &mut Vec<u8>) -> Result<(), AllocError>
    ensures { OnOk result (out.new.items ≡ out.old.items ++ joined (codes " in " ∷ input_text engine ∷ [])) }
{
    match engine {
        Some(engine) => put_engine(alloc, b" in ", engine, out),
        None => put(b" in - -", out),
    }
}

/// Puts what an engine sends.
fn put_output(alloc: Global, engine: Option<Engine>, out: &mut Vec<u8>) -> Result<(), AllocError>
    ensures { OnOk result (out.new.items ≡ out.old.items ++ joined (codes " out " ∷ output_text engine ∷ [])) }
{
    match engine {
        Some(engine) => {
            put_engine(alloc, b" out ", engine, out)?;
            put_flag(b" ", engine.sent, out)
        }
        None => put(b" out - - -", out),
    }
}

/// Puts a label, the pointer of an engine, and how many bytes it has left.
fn put_engine(
    alloc: Global,
    label: &[u8],
    engine: Engine,
    out: &mut Vec<u8>,
) -> Result<(), AllocError>
    ensures { OnOk result (out.new.items ≡ out.old.items
        ++ joined (label.now ∷ word_text engine.pointer ∷ codes " " ∷ decimal engine.left ∷ [])) }
{
    put_word_of(label, engine.pointer, out)?;
    put_number(alloc, b" ", u64::from(engine.left), out)
}

/// Puts what a latch holds at the end of a line.
fn put_latch(latch: Option<u8>, out: &mut Vec<u8>) -> Result<(), AllocError>
    ensures { OnOk result (out.new.items ≡ out.old.items ++ joined (codes " latch " ∷ byte_or (codes "-") latch ∷ codes "\n" ∷ [])) }
{
    put_byte(b" latch ", b"-", latch, out)?;
    out.push(b'\n')?;
    Ok(())
}

/// Puts the line of a word of memory.
#[tactic(auto, using(crate::proofs::TextLaws::text_steps), unfolding(crate::specs::PrintedLines::word_line))]
pub fn put_word(
    name: &Name,
    address: u32,
    word: Result<u32, Touch>,
    out: &mut Vec<u8>,
) -> Result<(), AllocError>
    ensures { OnOk result (out.new.items ≡ out.old.items ++ word_line name.now address word) }
{
    out.extend_from_slice(name.bytes())?;
    put_word_of(b" ", address, out)?;
    put_loaded(word, out)?;
    out.push(b'\n')?;
    Ok(())
}

/// Puts a word that was loaded, or that it may not be.
fn put_loaded(word: Result<u32, Touch>, out: &mut Vec<u8>) -> Result<(), AllocError>
    ensures { OnOk result (out.new.items ≡ out.old.items ++ joined (codes " " ∷ loaded_text word ∷ [])) }
{
    match word {
        Ok(word) => put_word_of(b" ", word, out),
        Err(_) => put(b" ?", out),
    }
}

/// Puts the line of the host's bytes.
#[tactic(auto, using(crate::proofs::TextLaws::text_steps), unfolding(crate::specs::PrintedLines::host_line))]
pub fn put_host(alloc: Global, left: u64, got: u64, out: &mut Vec<u8>) -> Result<(), AllocError>
    ensures { OnOk result (out.new.items ≡ out.old.items ++ host_line left got) }
{
    put_number(alloc, b"host left ", left, out)?;
    put_number(alloc, b" got ", got, out)?;
    out.push(b'\n')?;
    Ok(())
}

/// Puts the line of a byte that the host got.
#[tactic(auto, using(crate::proofs::TextLaws::text_steps), unfolding(crate::specs::PrintedLines::got_line))]
pub fn put_got(
    alloc: Global,
    place: u32,
    byte: Option<u8>,
    out: &mut Vec<u8>,
) -> Result<(), AllocError>
    ensures { OnOk result (out.new.items ≡ out.old.items ++ got_line place byte) }
{
    put_number(alloc, b"got ", u64::from(place), out)?;
    put_byte(b" ", b"?", byte, out)?;
    out.push(b'\n')?;
    Ok(())
}

/// Puts the line of the picks that were made.
#[tactic(auto, using(crate::proofs::TextLaws::text_steps), unfolding(crate::specs::PrintedLines::steps_line))]
pub fn put_steps(alloc: Global, steps: u64, out: &mut Vec<u8>) -> Result<(), AllocError>
    ensures { OnOk result (out.new.items ≡ out.old.items ++ steps_line steps) }
{
    put_counted(alloc, b"steps ", steps, out)
}

/// Puts the line of a network that was settled.
#[tactic(auto, using(crate::proofs::TextLaws::text_steps), unfolding(crate::specs::PrintedLines::settle_line))]
pub fn put_settled(
    alloc: Global,
    rest: bool,
    made: u64,
    out: &mut Vec<u8>,
) -> Result<(), AllocError>
    ensures { OnOk result (out.new.items ≡ out.old.items ++ settle_line rest made) }
{
    if rest {
        put_counted(alloc, b"rest ", made, out)
    } else {
        put_counted(alloc, b"budget ", made, out)
    }
}

/// Puts a line of a label and a number.
#[tactic(auto, using(crate::proofs::TextLaws::text_steps))]
fn put_counted(
    alloc: Global,
    label: &[u8],
    number: u64,
    out: &mut Vec<u8>,
) -> Result<(), AllocError>
    ensures { OnOk result (out.new.items ≡ out.old.items ++ joined (label.now ∷ decimal number ∷ codes "\n" ∷ [])) }
{
    put_number(alloc, label, number, out)?;
    out.push(b'\n')?;
    Ok(())
}

/// Why a processor stopped.
fn why_word(why: Why) -> &'static str
    ensures { result.now ≡ why_word why }
{
    match why {
        Why::Undefined => "undefined",
        Why::Outside => "outside",
        Why::Halted => "halted",
        Why::BadOp => "badop",
        Why::Code => "code",
        Why::Stray => "stray",
    }
}

/// Whether the instruction pointer and the workspace pointer are those of a program.
pub fn has_pointers(mode: Mode) -> bool
    ensures { result ≡ has_pointers mode }
{
    match mode {
        Mode::Running => true,
        Mode::Stopped(_) => true,
        Mode::Reset => false,
        Mode::Poking => false,
        Mode::Peeking => false,
        Mode::Replying => false,
        Mode::Booting => false,
        Mode::Idle => false,
    }
}

/// Puts a label and a pointer, or a question mark where it is not told.
fn put_pointer(label: &[u8], told: bool, word: u32, out: &mut Vec<u8>) -> Result<(), AllocError>
    ensures { OnOk result (out.new.items ≡ out.old.items ++ joined (label.now ∷ pointer_text told word ∷ [])) }
{
    if told {
        put_word_of(label, word, out)
    } else {
        put_unknown(label, out)
    }
}

/// Puts a label and a register.
fn put_reg(label: &[u8], reg: Reg, out: &mut Vec<u8>) -> Result<(), AllocError>
    ensures { OnOk result (out.new.items ≡ out.old.items ++ joined (label.now ∷ reg_text reg ∷ [])) }
{
    match reg {
        Reg::Word(word) => put_word_of(label, word, out),
        Reg::Undefined => put_unknown(label, out),
    }
}

/// Puts a label and 1, or 0.
#[tactic(auto, using(crate::proofs::TextLaws::text_steps))]
fn put_flag(label: &[u8], flag: bool, out: &mut Vec<u8>) -> Result<(), AllocError>
    ensures { OnOk result (out.new.items ≡ out.old.items ++ joined (label.now ∷ flag_text flag ∷ [])) }
{
    out.extend_from_slice(label)?;
    out.push(if flag { b'1' } else { b'0' })?;
    Ok(())
}

/// Puts a label and a word.
#[tactic(auto, using(crate::proofs::TextLaws::text_steps))]
fn put_word_of(label: &[u8], word: u32, out: &mut Vec<u8>) -> Result<(), AllocError>
    ensures { OnOk result (out.new.items ≡ out.old.items ++ joined (label.now ∷ word_text word ∷ [])) }
{
    out.extend_from_slice(label)?;
    out.extend_from_slice(&word_text(word))?;
    Ok(())
}

/// Puts a label and a question mark.
#[tactic(auto, using(crate::proofs::TextLaws::text_steps))]
fn put_unknown(label: &[u8], out: &mut Vec<u8>) -> Result<(), AllocError>
    ensures { OnOk result (out.new.items ≡ out.old.items ++ joined (label.now ∷ codes "?" ∷ [])) }
{
    out.extend_from_slice(label)?;
    out.push(b'?')?;
    Ok(())
}

/// Puts a label and a number.
#[tactic(auto, using(crate::proofs::TextLaws::text_steps))]
fn put_number(alloc: Global, label: &[u8], number: u64, out: &mut Vec<u8>) -> Result<(), AllocError>
    ensures { OnOk result (out.new.items ≡ out.old.items ++ joined (label.now ∷ decimal number ∷ [])) }
{
    let text = number.to_string(alloc)?;
    out.extend_from_slice(label)?;
    out.extend_from_slice(text.as_bytes())?;
    Ok(())
}

/// Puts a label and a byte, or another text where there is none.
#[tactic(auto, using(crate::proofs::TextLaws::text_steps))]
fn put_byte(
    label: &[u8],
    other: &[u8],
    byte: Option<u8>,
    out: &mut Vec<u8>,
) -> Result<(), AllocError>
    ensures { OnOk result (out.new.items ≡ out.old.items ++ joined (label.now ∷ byte_or other.now byte ∷ [])) }
{
    out.extend_from_slice(label)?;
    match byte {
        Some(byte) => put(&byte_text(byte), out),
        None => put(other, out),
    }
}

fn byte_text(byte: u8) -> [u8; 3]
    ensures { result ≡ byte_text byte }
{
    [b'#', low_digit(byte / 16), low_digit(byte)]
}

/// The lowest hexadecimal digit of a byte.
fn low_digit(byte: u8) -> u8
    ensures { result ≡ digit_glyph true (byte % 16) }
{
    let digit = byte % 16;
    if digit < 10 {
        b'0' + digit
    } else {
        b'A' + (digit - 10)
    }
}

/// Puts a text.
pub fn put(text: &[u8], out: &mut Vec<u8>) -> Result<(), AllocError>
    ensures { OnOk result (out.new.items ≡ out.old.items ++ text.now) }
{
    out.extend_from_slice(text)?;
    Ok(())
}
