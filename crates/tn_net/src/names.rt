ghost use Rattle.std.specs.Prelude.{◌≡◌, ◌≤◌, ◌<◌, length, MatchOption, MatchResult};
ghost use Rattle.tn_text.specs.declared.limits.TheConstants.{PROCESSOR_LIMIT};
ghost use Rattle.tn_net.specs.Lines.{IsNamed, IsKnown, IsRepeated, AreDistinct};

use crate::lines::{LinkEnd, Refusal};
use tn_text::Name;

/// The first processor with this name.
pub fn named(names: &[(Name, u32, u32)], name: &Name) -> Option<usize>
    ensures { MatchOption result (IsKnown names.now name.now → ⊥) (λ p. IsNamed names.now name.now p) }
{
    for (p, processor) in names.iter().enumerate() {
        if processor.0 == *name {
            return Some(p);
        }
    }
    None
}

/// The first processor whose name an earlier one has.
pub fn first_repeated(names: &[(Name, u32, u32)]) -> Option<usize>
    ensures { MatchOption result (AreDistinct names.now (length names.now))
        (λ i. (i < length names.now) × AreDistinct names.now i × IsRepeated names.now i) }
{
    for (i, processor) in names.iter().enumerate() {
        if named(&names[..i], &processor.0).is_some() {
            return Some(i);
        }
    }
    None
}

/// The processor of an end.
pub fn processor(names: &[(Name, u32, u32)], end: &LinkEnd) -> Result<u32, Refusal>
    requires { length names.now ≤ PROCESSOR_LIMIT }
    ensures { MatchResult result (λ p. IsNamed names.now end.now.name p)
        (λ refusal. (IsKnown names.now end.now.name → ⊥) × (refusal ≡ Refusal.Unknown end.now)) }
{
    match named(names, &end.name) {
        Some(p) => Ok(p as u32),
        None => Err(Refusal::Unknown(*end)),
    }
}
