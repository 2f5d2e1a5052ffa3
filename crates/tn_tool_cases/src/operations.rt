use std::alloc::Global;
use tn_isa::{
    Mnemonic, fun_code, fun_of, mnemonic_name, mnemonic_of, mnemonic_spelled, op_code, op_of,
};
use tn_tables::{Line, Stop, byte, number, said};

/// What a line of the table of functions and operations gives.
pub fn answer(alloc: Global, line: &Line<'_>) -> Result<Vec<u8>, Stop> {
    match line.words.as_slice() {
        ["function", text] => function(alloc, text),
        ["operation", text] => operation(alloc, text),
        ["mnemonic"] => mnemonic(alloc, mnemonic_of("")),
        ["mnemonic", word] => mnemonic(alloc, mnemonic_of(word)),
        ["spelled", word] => mnemonic(alloc, mnemonic_spelled(word.as_bytes())),
        _ => Err(Stop::BadCase),
    }
}

/// A function's name and code.
fn function(alloc: Global, text: &str) -> Result<Vec<u8>, Stop> {
    let fun = fun_of(byte(text)?);
    let (name, code) = (mnemonic_name(Mnemonic::Direct(fun)), fun_code(fun));
    Ok(format!(in alloc; "{name} {code:X}")?.into_bytes())
}

/// An operation's name and code.
fn operation(alloc: Global, text: &str) -> Result<Vec<u8>, Stop> {
    let Some(op) = op_of(number(text)?) else {
        return said(alloc, "none");
    };
    let (name, code) = (mnemonic_name(Mnemonic::Plain(op)), op_code(op));
    Ok(format!(in alloc; "{name} {code:X}")?.into_bytes())
}

/// What a word names, with its code.
fn mnemonic(alloc: Global, found: Option<Mnemonic>) -> Result<Vec<u8>, Stop> {
    match found {
        Some(Mnemonic::Direct(fun)) => {
            let code = fun_code(fun);
            Ok(format!(in alloc; "function {code:X}")?.into_bytes())
        }
        Some(Mnemonic::Plain(op)) => {
            let code = op_code(op);
            Ok(format!(in alloc; "operation {code:X}")?.into_bytes())
        }
        None => said(alloc, "none"),
    }
}
