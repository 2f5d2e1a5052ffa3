ghost use Rattle.std.specs.Prelude.{◌≡◌, ◌≢◌, ℕ, ◌+◌, ◌<◌, ◌≤◌, max, true, false, List, length, get_or, All, OnOk, IfSome, IfNone};
ghost use Rattle.std.specs.List.{count_by};
ghost use Rattle.tn_text.specs.declared.limits.TheConstants.{ITEM_LIMIT};
ghost use Rattle.tn_layout.specs.Spans.{is_within};
ghost use Rattle.tn_layout.specs.Inner.SegmentTrees.{IsJoined, leaf};
ghost use Rattle.tn_layout.specs.Inner.Orders.{IsOrder};
ghost use Rattle.tn_layout.specs.Inner.Marks.{AreMarks, IsMarked, holds_at};

use crate::pieces::Piece;
use crate::segment_trees::{Greatest, SegmentTree};
use crate::spans::span;
use std::alloc::AllocError;
use std::collections::VecDeque;

/// Has each reference wait whose span holds the piece at a place and that doesn't wait yet.
///
/// `ends` has a leaf for each reference of the order: one more than the end of its span, or 0 where it
/// waits.
pub fn mark(
    pieces: &[Piece],
    order: &[u32],
    place: usize,
    ends: &mut SegmentTree,
    waiting: &mut VecDeque<u32>,
) -> Result<(), AllocError>
    requires short { length pieces.now ≤ ITEM_LIMIT }
    requires here { place < length pieces.now }
    requires order { IsOrder pieces.now order.now }
    requires few { length order.now ≤ ITEM_LIMIT }
    requires joined { IsJoined (λ left right. max left right) ends.old.nodes.items ends.old.width }
    requires marks { AreMarks pieces.now order.now (λ j. leaf ends.old.nodes.items ends.old.width j) }
    requires wide { length order.now < ends.old.width }
    ensures joined { IsJoined (λ left right. max left right) ends.new.nodes.items ends.new.width }
    ensures width { ends.new.width ≡ ends.old.width }
    ensures marks { AreMarks pieces.now order.now (λ j. leaf ends.new.nodes.items ends.new.width j) }
    ensures marked { OnOk result (IsMarked pieces.now order.now place (λ j. leaf ends.old.nodes.items ends.old.width j)
        (λ j. leaf ends.new.nodes.items ends.new.width j) waiting.old.items waiting.new.items) }
    ensures count { length waiting.new.items ≤ length waiting.old.items + count_by (λ i. is_within pieces.now i place) order.now }
{
    while let Some(j) = next_held(pieces, order, place, ends) {
        ends.set::<Greatest>(j, 0);
        waiting.push_back(j as u32)?;
    }
    Ok(())
}

/// A reference of the order that doesn't wait and whose span holds the piece at a place, if there is one.
///
/// The first leaf above the next place is that of the reference whose span begins first, of all that don't
/// wait and whose spans end behind the place.
fn next_held(pieces: &[Piece], order: &[u32], place: usize, ends: &SegmentTree) -> Option<usize>
    requires short { length pieces.now ≤ ITEM_LIMIT }
    requires here { place < length pieces.now }
    requires order { IsOrder pieces.now order.now }
    requires joined { IsJoined (λ left right. max left right) ends.now.nodes.items ends.now.width }
    requires marks { AreMarks pieces.now order.now (λ j. leaf ends.now.nodes.items ends.now.width j) }
    ensures here { IfSome result (λ j. j < length order.now) }
    ensures resting { IfSome result (λ j. 0 < leaf ends.now.nodes.items ends.now.width j) }
    ensures held { IfSome result (λ j. holds_at pieces.now order.now place j ≡ true) }
    ensures none { IfNone result ((j : ℕ) → j < length order.now → leaf ends.now.nodes.items ends.now.width j ≢ 0
        → holds_at pieces.now order.now place j ≡ false) }
{
    let Some(j) = ends.first_above(place as u32 + 1) else {
        return None;
    };
    let i = order[j] as usize;
    if span(i, &pieces[i]).0 as usize > place {
        return None;
    }
    Some(j)
}
