ghost use Rattle.std.specs.Prelude.{◌≡◌, ℕ, ◌+◌, ◌-◌, ◌-ℤ◌, ◌*◌, ◌%◌, ◌^◌, ◌<◌, ◌≤◌, pos, true, false, List, length, All};
ghost use Rattle.std.specs.Prelude.{vec_len, IfOk, OnOk, OnErr};
ghost use Rattle.std.specs.List.{Contains};
ghost use Rattle.tn_text.specs.declared.limits.TheConstants.{ITEM_LIMIT};
ghost use Rattle.tn_layout.specs.Sizes.{needed, NamesUpTo, AreNamed};
ghost use Rattle.tn_layout.specs.Spans.{references};
ghost use Rattle.tn_layout.specs.Inner.SegmentTrees.{sum_from, IsJoined};
ghost use Rattle.tn_layout.specs.Inner.Layouts.{IsSummed, IsKept, potential};

use crate::marks::mark;
use crate::pieces::Piece;
use crate::segment_trees::{Greatest, SegmentTree, Sum};
use crate::sizes::first_sizes;
use crate::spans::{references, span};
use crate::steps::{Steps, length_counted};
use std::alloc::{AllocError, Global};
use std::collections::VecDeque;
use std::sync::ledger::Ledger;

/// Sizes that grow until each reference has what it needs.
///
/// `order` has the references in the order of the beginnings of their spans. A reference that is to be
/// looked at again waits in `waiting` by its place in the order.
#[derive(Drop)]
pub struct Layout {
    pub sizes: Vec<u8>,
    pub sums: SegmentTree,
    pub order: Vec<u32>,
    pub ends: SegmentTree,
    pub waiting: VecDeque<u32>,
}

impl Layout {
    /// The first sizes, where each reference waits.
    pub fn begin(alloc: Global, pieces: &[Piece]) -> Result<Layout, AllocError>
        requires short { length pieces.now ≤ ITEM_LIMIT }
        requires named { AreNamed pieces.now }
        ensures kept { IfOk result (λ layout. IsKept pieces.now layout) }
        ensures all { IfOk result (λ layout. length layout.waiting.items ≡ length (references pieces.now)) }
    {
        let sizes = first_sizes(alloc, pieces)?;
        let sums = sums_of(alloc, &sizes)?;
        let order = references(alloc, pieces)?;
        let ends = SegmentTree::over::<Greatest>(alloc, order.len())?;
        let waiting = all_below(alloc, order.len())?;
        Ok(Layout {
            sizes,
            sums,
            order,
            ends,
            waiting,
        })
    }

    /// Looks at the reference that has waited longest, if one waits: whether there was one. Where it has to
    /// grow, those wait again whose span holds it.
    pub fn look<L: Ledger>(
        &mut self,
        pieces: &[Piece],
        steps: &mut Steps<L>,
    ) -> Result<bool, AllocError>
        requires short { length pieces.now ≤ ITEM_LIMIT }
        requires named { AreNamed pieces.now }
        requires kept { IsKept pieces.now self.old }
        ensures kept { OnOk result (IsKept pieces.now self.new) }
        ensures done { IfOk result (λ more. more ≡ false → length self.new.waiting.items ≡ 0) }
        ensures fewer { IfOk result (λ more. more ≡ true → length self.new.waiting.items + 1 + potential pieces.now self.old.sizes.items
            ≤ length self.old.waiting.items + potential pieces.now self.new.sizes.items) }
        ensures step { steps.new ≤ steps.old + 1 }
        ensures none { IfOk result (λ more. more ≡ false → (steps.new ≡ steps.old) × (self.new.sizes.items ≡ self.old.sizes.items)) }
        ensures some { OnErr result (0 < length self.old.waiting.items) }
    {
        let Some(j) = self.waiting.pop_front() else {
            return Ok(false);
        };
        let i = self.order[j as usize] as usize;
        let piece = &pieces[i];
        self.ends.set::<Greatest>(j as usize, span(i, piece).1 + 1);
        let size = needed(&self.sums, i, piece, steps);
        if size > self.sizes[i] {
            self.sizes[i] = size;
            self.sums.set::<Sum>(i, u32::from(size));
            mark(pieces, &self.order, i, &mut self.ends, &mut self.waiting)?;
        }
        Ok(true)
    }

    /// The sizes, moved out.
    pub fn into_sizes(self) -> Vec<u8>
        ensures { result.items ≡ self.sizes.items }
    {
        self.sizes
    }
}

/// How many bytes the piece at a place needs, by the sums of the sizes before each place. It is one step
/// for a reference.
fn needed<L: Ledger>(sums: &SegmentTree, i: usize, piece: &Piece, steps: &mut Steps<L>) -> u8
    requires here { i < ITEM_LIMIT }
    requires named { NamesUpTo ITEM_LIMIT piece.now }
    requires wide { i + 1 < sums.now.width }
    requires names { NamesUpTo (sums.now.width - 1) piece.now }
    requires joined { IsJoined (λ left right. (left + right) % 2 ^ 32) sums.now.nodes.items sums.now.width }
    requires bounded { (k : ℕ) → k ≤ ITEM_LIMIT → sum_from sums.now.nodes.items sums.now.width k ≤ 255 * ITEM_LIMIT }
    ensures needed { (sizes : List ℕ) → IsSummed sizes sums.now.nodes.items sums.now.width → result ≡ needed sizes i piece.now }
    ensures step { steps.new ≤ steps.old + 1 }
{
    match *piece {
        Piece::Fixed(size) => size,
        Piece::Rel { to } => length_counted(distance(sums, to as usize, i + 1), steps),
        Piece::Diff { high, low } => {
            length_counted(distance(sums, high as usize, low as usize), steps)
        }
    }
}

/// How far the position of one place lies behind that of another.
fn distance(sums: &SegmentTree, high: usize, low: usize) -> i32
    requires few { high ≤ ITEM_LIMIT }
    requires also { low ≤ ITEM_LIMIT }
    requires high { high < sums.now.width }
    requires low { low < sums.now.width }
    requires joined { IsJoined (λ left right. (left + right) % 2 ^ 32) sums.now.nodes.items sums.now.width }
    requires bounded { (k : ℕ) → k ≤ ITEM_LIMIT → sum_from sums.now.nodes.items sums.now.width k ≤ 255 * ITEM_LIMIT }
    ensures { result ≡ pos (sum_from sums.now.nodes.items sums.now.width high) -ℤ pos (sum_from sums.now.nodes.items sums.now.width low) }
{
    sums.sum_before(high) as i32 - sums.sum_before(low) as i32
}

/// A tree of sums whose leaves are the sizes.
fn sums_of(alloc: Global, sizes: &[u8]) -> Result<SegmentTree, AllocError>
    requires short { length sizes.now ≤ ITEM_LIMIT }
    ensures { IfOk result (λ sums. IsSummed sizes.now sums.nodes.items sums.width) }
{
    let mut sums = SegmentTree::over::<Sum>(alloc, sizes.len())?;
    for (i, size) in sizes.iter().enumerate() {
        sums.set::<Sum>(i, u32::from(*size));
    }
    Ok(sums)
}

/// All numbers below another, in a queue.
fn all_below(alloc: Global, count: usize) -> Result<VecDeque<u32>, AllocError>
    requires few { count ≤ ITEM_LIMIT }
    ensures each { IfOk result (λ queue. (x : ℕ) → x < count → Contains queue.items x) }
    ensures below { IfOk result (λ queue. All (λ x. x < count) queue.items) }
    ensures long { IfOk result (λ queue. length queue.items ≡ count) }
{
    let mut queue = VecDeque::new(alloc);
    for x in 0..count {
        queue.push_back(x as u32)?;
    }
    Ok(queue)
}
