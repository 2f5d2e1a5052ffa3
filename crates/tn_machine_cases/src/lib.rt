//! Runs the cases of the machine: arithmetic, memories, instructions, processors, nodes and networks.
//!
//! A table is a row of `run_case`.
#![tactic(auto)]

mod arithmetic;
mod descriptions;
mod executions;
mod instructions;
mod memories;
mod networks;
mod nodes;
mod processors;
mod shown;

use std::alloc::Global;
use tn_tables::{Case, Report, Stop};

/// Runs a case of a table of the machine.
pub fn run_case(
    alloc: Global,
    table: &str,
    case: &Case<'_>,
    report: &mut Report,
) -> Result<(), Stop> {
    match table {
        "arithmetic" => arithmetic::run_case(alloc, case, report),
        "memories" => memories::run_case(alloc, case, report),
        "instructions" => instructions::run_case(alloc, case, report),
        "processors" => processors::run_case(alloc, case, report),
        "nodes" => nodes::run_case(alloc, case, report),
        "networks" => networks::run_case(alloc, case, report),
        _ => Err(Stop::BadCase),
    }
}
