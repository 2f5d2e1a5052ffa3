use std::alloc::Global;
use tn_cpu::{CpuView, Reg};
use tn_mem::{Space, Touch};
use tn_tables::{Stop, said};

/// What a processor's registers hold.
pub fn registers(alloc: Global, view: &CpuView) -> Result<Vec<u8>, Stop> {
    let stack = stack(alloc, view)?;
    let pointers = pointers(alloc, view)?;
    Ok(format!(in alloc; "{stack} {pointers}")?.into_bytes())
}

fn stack(alloc: Global, view: &CpuView) -> Result<String, Stop> {
    let (a, b, c) = (
        register(alloc, view.a)?,
        register(alloc, view.b)?,
        register(alloc, view.c)?,
    );
    Ok(format!(in alloc; "a={a} b={b} c={c}")?)
}

fn pointers(alloc: Global, view: &CpuView) -> Result<String, Stop> {
    let front = register(alloc, view.front)?;
    let (o, i, w, back) = (view.oreg, view.iptr, view.wptr, view.back);
    let (error, halt) = (u8::from(view.error), u8::from(view.halt));
    Ok(format!(in alloc; "o={o:X} i={i:X} w={w:X} f={front} k={back:X} e={error} h={halt}")?)
}

fn register(alloc: Global, register: Reg) -> Result<String, Stop> {
    match register {
        Reg::Word(word) => Ok(format!(in alloc; "{word:X}")?),
        Reg::Undefined => Ok(String::from_str(alloc, "?")?),
    }
}

/// The word of an access, or its refusal.
pub fn word(alloc: Global, word: Result<u32, Touch>) -> Result<Vec<u8>, Stop> {
    match word {
        Ok(word) => Ok(format!(in alloc; "{word:X}")?.into_bytes()),
        Err(touch) => said(alloc, refusal(touch)),
    }
}

/// Whether an access was made, or its refusal.
pub fn done(alloc: Global, made: Result<(), Touch>) -> Result<Vec<u8>, Stop> {
    match made {
        Ok(()) => said(alloc, "done"),
        Err(touch) => said(alloc, refusal(touch)),
    }
}

pub fn refusal(touch: Touch) -> &'static str {
    match touch {
        Touch::Outside => "outside",
        Touch::Code => "code",
    }
}

/// The word that hexadecimal digits spell, from MostNeg where `@` goes before them.
pub fn hexadecimal(text: &str) -> Result<u32, Stop> {
    let (digits, base) = match text.strip_prefix('@') {
        Some(digits) => (digits, 0x8000_0000),
        None => (text, 0),
    };
    let value = u32::from_str_radix(digits, 16).ok().ok_or(Stop::BadCase)?;
    Ok(value.wrapping_add(base))
}

/// The word at an address of a space.
pub fn word_of<M: Space>(alloc: Global, memory: &M, address: &str) -> Result<Vec<u8>, Stop> {
    word(alloc, memory.word(hexadecimal(address)?))
}
