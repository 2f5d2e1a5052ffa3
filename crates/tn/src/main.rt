//! `tn`, a linker and boot-stream builder for networks of Inmos T425 transputers.
#![tactic(auto)]

use std::process::ExitCode;
use std::{env, io};
use tn_io::{HostOut, HostStore};
use tn_top::{Status, code, run};

/// Runs the command that the words after the program's name spell, on the host's files and
/// streams. Where the words can't be had, nothing is read or written.
fn main(rt: HostRuntime) -> ExitCode {
    let status = match words_of(&rt) {
        Ok(words) => {
            let mut store = HostStore::new(&rt);
            let mut out = HostOut::standard(&rt);
            let mut err = HostOut::error(&rt);
            run(rt.alloc(), &words, &mut store, &mut out, &mut err)
        }
        Err(status) => status,
    };
    ExitCode::from(code(status))
}

/// The words after the program's name: want of memory is told apart from words that aren't text.
fn words_of(rt: &HostRuntime) -> Result<Vec<String>, Status> {
    match env::args(rt) {
        Ok(words) => words
            .skip(1)
            .collect(rt.alloc())
            .map_err(|_| Status::NoMemory),
        Err(error) if error.kind() == io::ErrorKind::OutOfMemory => Err(Status::NoMemory),
        Err(_) => Err(Status::Usage),
    }
}
