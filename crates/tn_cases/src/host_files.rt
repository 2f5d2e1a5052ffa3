use std::alloc::Global;
use tn_io::{HostOut, HostStore, Out};
use tn_tables::{Case, Report, Stop, said};
use tn_tool_cases::store_answer;

/// Runs a case of the table of the host's files and streams. Each case begins with no file open.
pub fn run_case(rt: &HostRuntime, case: &Case<'_>, report: &mut Report) -> Result<(), Stop> {
    let mut store = HostStore::new(rt);
    for line in case.lines.iter() {
        let came = match line.words.as_slice() {
            ["out"] => written(rt.alloc(), HostOut::standard(rt), &line.bytes),
            ["err"] => written(rt.alloc(), HostOut::error(rt), &line.bytes),
            _ => store_answer(rt.alloc(), &mut store, line),
        };
        report.answer(rt.alloc(), case.name, line, came)?;
    }
    Ok(())
}

/// What an output answers to a write.
fn written<O: Out + Drop>(alloc: Global, mut out: O, bytes: &[u8]) -> Result<Vec<u8>, Stop> {
    match out.write(bytes) {
        Ok(()) => said(alloc, "done"),
        Err(fault) => Ok(fault.to_string(alloc)?.into_bytes()),
    }
}
