ghost use Rattle.std.specs.Prelude.{◌≡◌, ℕ, ◌+◌, ◌*◌, ◌%◌, ◌^◌, ◌<◌, ◌≤◌, ◌==◌, max, length, get_or, if◌then◌else◌};
ghost use Rattle.std.specs.Prelude.{vec_len, IfOk, IfNone, IfSome};
ghost use Rattle.tn_layout.specs.Inner.SegmentTrees.{IsJoined, leaf, sum_from};

use std::alloc::{AllocError, Global};

/// How a node of a tree is made of its two children.
pub trait Join {
    ghost joined: { ℕ → ℕ → ℕ };

    fn join(left: u32, right: u32) -> u32
        ensures { result ≡ joined left right };
}

/// The sum, modulo 2^32.
pub struct Sum;

impl Join for Sum {
    ghost joined = { λ left right. (left + right) % 2 ^ 32 };

    fn join(left: u32, right: u32) -> u32 {
        left.wrapping_add(right)
    }
}

/// The greater.
pub struct Greatest;

impl Join for Greatest {
    ghost joined = { λ left right. max left right };

    fn join(left: u32, right: u32) -> u32 {
        left.max(right)
    }
}

/// Numbers as the leaves of a tree with two children at each node, so that a change of one of them, and
/// what a search asks of many, takes as many steps as the tree has levels.
///
/// Node 1 is the root, and nodes 2v and 2v + 1 are the children of node v. The leaves are the nodes from
/// `width` on.
#[derive(Drop)]
pub struct SegmentTree {
    pub nodes: Vec<u32>,
    pub width: usize,
    pub depth: u32,
    ghost levels: { width ≡ 2 ^ depth },
    ghost whole: { vec_len nodes ≡ 2 * width },
    ghost bounded: { width ≤ 2 ^ 20 },
}

impl SegmentTree {
    /// A tree with more leaves than `count`, all of them 0.
    pub fn over<J: Join>(alloc: Global, count: usize) -> Result<SegmentTree, AllocError>
        requires few { count < 2 ^ 19 }
        requires nothing { J.joined 0 0 ≡ 0 }
        ensures joined { IfOk result (λ tree. IsJoined J.joined tree.nodes.items tree.width) }
        ensures wide { IfOk result (λ tree. count < tree.width) }
        ensures empty { IfOk result (λ tree. (i : ℕ) → leaf tree.nodes.items tree.width i ≡ 0) }
    {
        let mut width: usize = 1;
        let mut depth: u32 = 0;
        while width <= count {
            width *= 2;
            depth += 1;
        }
        Ok(SegmentTree {
            nodes: vec![in alloc; 0; 2 * width]?,
            width,
            depth,
        })
    }

    /// Makes a leaf this number.
    pub fn set<J: Join>(&mut self, i: usize, number: u32)
        requires here { i < self.old.width }
        ensures joined { IsJoined J.joined self.old.nodes.items self.old.width → IsJoined J.joined self.new.nodes.items self.new.width }
        ensures leaves { (k : ℕ) → leaf self.new.nodes.items self.new.width k
            ≡ if k == i then number else leaf self.old.nodes.items self.old.width k }
        ensures width { self.new.width ≡ self.old.width }
    {
        let mut v = self.width + i;
        self.nodes[v] = number;
        while v > 1 {
            v /= 2;
            self.nodes[v] = J::join(self.nodes[2 * v], self.nodes[2 * v + 1]);
        }
    }

    /// The sum of the first leaves, as many as `count`, modulo 2^32.
    pub fn sum_before(&self, count: usize) -> u32
        requires here { count < self.now.width }
        requires joined { IsJoined (λ left right. (left + right) % 2 ^ 32) self.now.nodes.items self.now.width }
        ensures { result ≡ sum_from self.now.nodes.items self.now.width count % 2 ^ 32 }
    {
        let mut first = self.width;
        let mut before = count;
        let mut level = self.depth;
        let mut sum: u32 = 0;
        while level > 0 {
            if before % 2 == 1 {
                sum = sum.wrapping_add(self.nodes[first + before - 1]);
            }
            before /= 2;
            first /= 2;
            level -= 1;
        }
        sum
    }

    /// The first leaf above a number, if there is one.
    pub fn first_above(&self, number: u32) -> Option<usize>
        requires joined { IsJoined (λ left right. max left right) self.now.nodes.items self.now.width }
        ensures none { IfNone result ((i : ℕ) → leaf self.now.nodes.items self.now.width i ≤ number) }
        ensures here { IfSome result (λ i. i < self.now.width) }
        ensures above { IfSome result (λ i. number < leaf self.now.nodes.items self.now.width i) }
        ensures first { IfSome result (λ i. (k : ℕ) → k < i → leaf self.now.nodes.items self.now.width k ≤ number) }
    {
        if self.nodes[1] <= number {
            return None;
        }
        let mut v = 1;
        for _level in 0..self.depth {
            v *= 2;
            if self.nodes[v] <= number {
                v += 1;
            }
        }
        Some(v - self.width)
    }
}
