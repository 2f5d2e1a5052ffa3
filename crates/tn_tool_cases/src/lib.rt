//! Runs the cases of the tools: stores, texts, sources, modules, layouts, links, configurations and streams.
//!
//! A table is a row of `run_case`, or of `answer` where no line rests on those before.
#![tactic(auto)]

mod codings;
mod configs;
mod faults;
mod flat_sources;
mod layouts;
mod links;
mod loader;
mod module_texts;
mod modules;
mod operations;
mod sources;
mod stores;
mod streams;
mod texts;

use std::alloc::Global;
pub use stores::store_answer;
use tn_tables::{Case, Line, Report, Stop};

/// Runs a case of a table of the tools.
pub fn run_case(
    alloc: Global,
    table: &str,
    case: &Case<'_>,
    report: &mut Report,
) -> Result<(), Stop> {
    match table {
        "stores" => stores::run_case(alloc, case, report),
        "layouts" => layouts::run_case(alloc, case, report),
        "modules" => modules::run_case(alloc, case, report),
        "configs" => configs::run_case(alloc, case, report),
        "links" => links::run_case(alloc, case, report),
        table => run_lines(alloc, table, case, report),
    }
}

/// Runs each line of a case by itself.
fn run_lines(alloc: Global, table: &str, case: &Case<'_>, report: &mut Report) -> Result<(), Stop> {
    for line in case.lines.iter() {
        let came = answer(alloc, table, line);
        report.answer(alloc, case.name, line, came)?;
    }
    Ok(())
}

/// What a line gives.
fn answer(alloc: Global, table: &str, line: &Line<'_>) -> Result<Vec<u8>, Stop> {
    match table {
        "texts" => texts::answer(alloc, line),
        "faults" => faults::answer(alloc, line),
        "flat_sources" => flat_sources::answer(alloc, line),
        "operations" => operations::answer(alloc, line),
        "codings" => codings::answer(alloc, line),
        "loader" => loader::answer(alloc, line),
        "streams" => streams::answer(alloc, line),
        "sources" => sources::answer(alloc, line),
        "module_texts" => module_texts::answer(alloc, line),
        _ => Err(Stop::BadCase),
    }
}
