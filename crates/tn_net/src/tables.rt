ghost use Rattle.std.specs.Prelude.{◌≡◌, ℕ, ◌+◌, ◌*◌, ◌≤◌, ◌<◌, ◌≢◌, length, slice_set, MatchOption, MatchResult, IfOk};
ghost use Rattle.tn_text.specs.declared.limits.TheConstants.{PROCESSOR_LIMIT};
ghost use Rattle.tn_text.specs.declared.faults.ReadFault.TheVariants as read;
ghost use Rattle.tn_net.specs.Lines.{AreDistinct, HasLinks, line_at, DifferInNumber};
ghost use Rattle.tn_net.specs.Inner.Tables.{entry, IsNext, AllBefore, Joins, Refuses, IsWired, IsFirstWrongLine};

use crate::lines::{EndLine, LinkEnd, Refusal};
use crate::names::processor;
use crate::networks::Far;
use std::alloc::Global;
use tn_text::{Name, ReadFault};

/// The far ends of all links, four for each processor in order. The lines are read by their
/// numbers; the fault is that of the first with something wrong. Each line takes an end, so few are
/// read, however many there are.
pub fn wired(
    alloc: Global,
    names: &[(Name, u32, u32)],
    lines: &[EndLine],
) -> Result<Vec<Far>, ReadFault>
    requires few { length names.now ≤ PROCESSOR_LIMIT }
    requires distinct { AreDistinct names.now (length names.now) }
    requires links { (k : ℕ) → k < length lines.now → HasLinks (line_at lines.now k) }
    requires numbers { DifferInNumber lines.now }
    ensures wired { IfOk result (λ fars. IsWired names.now lines.now fars.items) }
    ensures fault { (fault : _) → result ≡ Err (read.Fault fault) → IsFirstWrongLine names.now lines.now fault }
{
    let mut fars = vec![in alloc; Far::Nothing; 4 * names.len()]?;
    let mut from: u64 = 0;
    while let Some(k) = next_line(lines, from) {
        let line = lines[k];
        if let Err(refusal) = join(names, &line, &mut fars) {
            return Err(ReadFault::Fault(refusal.cause().at(line.line)));
        }
        from = u64::from(line.line) + 1;
    }
    Ok(fars)
}

/// The place of the line with the least number from this one on.
fn next_line(lines: &[EndLine], from: u64) -> Option<usize>
    ensures { MatchOption result (AllBefore lines.now from (length lines.now)) (λ k. IsNext lines.now from (length lines.now) k) }
{
    let mut best: Option<usize> = None;
    for (j, line) in lines.iter().enumerate() {
        if u64::from(line.line) < from {
            continue;
        }
        match best {
            Some(k) if lines[k].line <= line.line => {}
            _ => best = Some(j),
        }
    }
    best
}

/// Puts the ends of a line into the table.
fn join(names: &[(Name, u32, u32)], line: &EndLine, fars: &mut [Far]) -> Result<(), Refusal>
    requires few { length names.now ≤ PROCESSOR_LIMIT }
    requires links { HasLinks line.now }
    requires room { length fars.old ≡ 4 * length names.now }
    ensures { MatchResult result (λ _. Joins names.now line.now fars.old fars.new)
        (λ refusal. Refuses names.now line.now fars.old refusal) }
{
    let p = processor(names, &line.one)?;
    let Some(two) = line.two else {
        return put(fars, p, &line.one, Far::Host);
    };
    let q = processor(names, &two)?;
    put(fars, p, &line.one, Far::Link(q, two.link))?;
    put(fars, q, &two, Far::Link(p, line.one.link))
}

/// Puts what is at the far end of an end into the table, where nothing is there yet.
fn put(fars: &mut [Far], p: u32, end: &LinkEnd, far: Far) -> Result<(), Refusal>
    requires { 4 * p + end.now.link < length fars.old }
    ensures { MatchResult result (λ _. (entry fars.old p end.now.link ≡ Far.Nothing)
        × (fars.new ≡ slice_set fars.old (4 * p + end.now.link) far))
        (λ refusal. (entry fars.old p end.now.link ≢ Far.Nothing) × (refusal ≡ Refusal.Taken end.now)) }
{
    let at = 4 * p as usize + usize::from(end.link);
    if fars[at] != Far::Nothing {
        return Err(Refusal::Taken(*end));
    }
    fars[at] = far;
    Ok(())
}
