ghost use Rattle.std.specs.Prelude.{◌≡◌, ℕ, ◌+◌, ◌<◌, ◌≤◌, List, length, IfOk, MatchBool, MatchOption, Err};
ghost use Rattle.tn_text.specs.declared.limits.TheConstants.{PROCESSOR_LIMIT};
ghost use Rattle.tn_net.specs.declared.trees.TreeFault.TheVariants as tree;
ghost use Rattle.tn_net.specs.Networks.{NetworkState};
ghost use Rattle.tn_net.specs.Inner.Walks.{AreReached, step_at};
ghost use Rattle.tn_net.specs.WholeTrees.{IsWholeTree};
ghost use Rattle.tn_net.specs.Trees.{IsLoadTree, IsFirstUnreachable, children_below, is_parent};
ghost use Rattle.tn_net.specs.Inner.Loads.{IsThere, AreThere, ArePaths, HasEachPlace, IsInLoadOrder, IsFamily, EndsAt, IsParentAt};
ghost use Rattle.tn_net.specs.Inner.Loads.{AreParents, IsNodeOf, AreNodes, place_at, parent_at};

use crate::networks::Network;
use crate::paths::{Reached, is_reached, walk};
use std::alloc::{AllocError, Global};
use std::marker::Model;
use thiserror::Error;

/// A processor in a load tree: the place of its parent and the parent's link that leads to it, its
/// own link at that wire, from which it boots, and the places of its children by the links to them.
#[derive(Drop)]
pub struct TreeNode {
    pub processor: u32,
    pub parent: Option<u32>,
    pub parent_link: u8,
    pub boot_link: u8,
    pub children: Vec<u32>,
}

impl Model for TreeNode {
    ghost use Rattle.tn_net.specs.Trees.{LoadNode};

    ghost Value = { LoadNode };

    ghost view = { λ n. record {
      processor = n.processor;
      parent = n.parent;
      parent_link = n.parent_link;
      boot_link = n.boot_link;
      children = n.children.items;
    } };
}

/// The processors in load order: a parent comes before each child's subtree.
#[derive(Drop)]
pub struct Tree {
    pub nodes: Vec<TreeNode>,
}

/// Why a network has no load tree.
#[derive(Clone, Copy, Debug, Error)]
pub enum TreeFault {
    /// No path leads to this processor.
    #[error("a processor that no path reaches")]
    Unreachable(u32),
    #[error("no memory")]
    NoMemory,
}

impl From<AllocError> for TreeFault {
    ghost from_gives = { λ _ fault. fault ≡ tree.NoMemory };

    fn from(_error: AllocError) -> TreeFault {
        TreeFault::NoMemory
    }
}

/// The load tree, whose nodes are those of all processors, or the first processor that no path
/// leads to.
pub fn load_tree(alloc: Global, network: &Network) -> Result<Tree, TreeFault>
    ensures tree { IfOk result (λ tree. IsLoadTree network.now tree.nodes.items) }
    ensures whole { IfOk result (λ tree. IsWholeTree tree.nodes.items (length network.now.sizes)) }
    ensures reachable { IfOk result (λ tree. (p : _) → IsFirstUnreachable network.now p → ⊥) }
    ensures unreachable { (p : _) → result ≡ Err (tree.Unreachable p) → IsFirstUnreachable network.now p }
{
    let order = walk(alloc, network)?;
    if let Some(p) = first_missing(&order, network.count()) {
        return Err(TreeFault::Unreachable(p));
    }
    Ok(Tree {
        nodes: tree_nodes(alloc, &order)?,
    })
}

/// The first processor that no step is to.
fn first_missing(order: &[Reached], count: u32) -> Option<u32>
    ensures { MatchOption result ((q : ℕ) → q < count → IsThere order.now q)
        (λ p. (p < count) × (IsThere order.now p → ⊥) × ((q : ℕ) → q < p → IsThere order.now q)) }
{
    for p in 0..count {
        if !is_reached(order, p) {
            return Some(p);
        }
    }
    None
}

/// The nodes of the load tree with these steps.
fn tree_nodes(alloc: Global, order: &[Reached]) -> Result<Vec<TreeNode>, AllocError>
    requires few { length order.now ≤ PROCESSOR_LIMIT }
    requires paths { (paths : List (List ℕ)) × ArePaths order.now paths }
    ensures tree { IfOk result (λ nodes. (n : NetworkState) → AreReached n order.now → AreThere n order.now → IsLoadTree n nodes.items) }
    ensures few { IfOk result (λ nodes. length nodes.items ≤ PROCESSOR_LIMIT) }
{
    let load = load_order(alloc, order)?;
    let parents = parents(alloc, order, &load)?;
    nodes(alloc, order, &load, &parents)
}

/// The places of the steps in load order.
fn load_order(alloc: Global, order: &[Reached]) -> Result<Vec<usize>, AllocError>
    requires { (paths : List (List ℕ)) × ArePaths order.now paths }
    ensures { IfOk result (λ load. IsInLoadOrder order.now load.items (length order.now)) }
{
    let mut load = Vec::new(alloc);
    load.push(0)?;
    for place in 1..order.len() {
        let end = family_end(order, &load, order[place].parent);
        load.insert(end, place)?;
    }
    Ok(load)
}

/// Where the last of a parent and its children stands, plus 1.
fn family_end(order: &[Reached], load: &[usize], parent: usize) -> usize
    requires { (t : ℕ) → t < length load.now → place_at load.now t < length order.now }
    ensures { EndsAt order.now load.now parent (length load.now) result }
{
    let mut end = 0;
    for (t, place) in load.iter().enumerate() {
        if is_family(order, parent, *place) {
            end = t + 1;
        }
    }
    end
}

/// Whether the step at this place is the parent or a child of it.
fn is_family(order: &[Reached], parent: usize, place: usize) -> bool
    requires { place < length order.now }
    ensures { MatchBool result (IsFamily order.now parent place) (IsFamily order.now parent place → ⊥) }
{
    place == parent || (place > 0 && order[place].parent == parent)
}

/// Where the parents of the steps stand in load order.
fn parents(alloc: Global, order: &[Reached], load: &[usize]) -> Result<Vec<Option<u32>>, AllocError>
    requires few { length load.now ≤ PROCESSOR_LIMIT }
    requires paths { (paths : List (List ℕ)) × ArePaths order.now paths }
    requires whole { HasEachPlace load.now (length order.now) }
    ensures { IfOk result (λ parents. AreParents order.now load.now parents.items (length load.now)) }
{
    let mut parents = Vec::new(alloc);
    for place in load {
        parents.push(parent_of(order, load, *place))?;
    }
    Ok(parents)
}

/// Where the parent of the step at this place stands in load order.
fn parent_of(order: &[Reached], load: &[usize], place: usize) -> Option<u32>
    requires few { length load.now ≤ PROCESSOR_LIMIT }
    requires here { place < length order.now }
    requires paths { (paths : List (List ℕ)) × ArePaths order.now paths }
    requires whole { HasEachPlace load.now (length order.now) }
    ensures { IsParentAt order.now load.now place result }
{
    if place == 0 {
        return None;
    }
    Some(position(load, order[place].parent))
}

/// Where the place stands.
fn position(load: &[usize], place: usize) -> u32
    requires few { length load.now ≤ PROCESSOR_LIMIT }
    requires there { (t : ℕ) × (t < length load.now) × (place_at load.now t ≡ place) }
    ensures here { result < length load.now }
    ensures is { place_at load.now result ≡ place }
{
    for (t, other) in load.iter().enumerate() {
        if *other == place {
            return t as u32;
        }
    }
    unreachable!()
}

/// The nodes of the steps in load order.
fn nodes(
    alloc: Global,
    order: &[Reached],
    load: &[usize],
    parents: &[Option<u32>],
) -> Result<Vec<TreeNode>, AllocError>
    requires few { length load.now ≤ PROCESSOR_LIMIT }
    requires room { length parents.now ≡ length load.now }
    requires places { (t : ℕ) → t < length load.now → place_at load.now t < length order.now }
    ensures { IfOk result (λ nodes. AreNodes order.now load.now parents.now nodes.items (length load.now)) }
{
    let mut nodes = Vec::new(alloc);
    for (k, place) in load.iter().enumerate() {
        nodes.push(node(alloc, &order[*place], parents, k)?)?;
    }
    Ok(nodes)
}

/// The node of a step.
fn node(
    alloc: Global,
    step: &Reached,
    parents: &[Option<u32>],
    k: usize,
) -> Result<TreeNode, AllocError>
    requires few { length parents.now ≤ PROCESSOR_LIMIT }
    requires here { k < length parents.now }
    ensures { IfOk result (λ node. IsNodeOf step.now parents.now k node) }
{
    let children = children_of(alloc, parents, k as u32)?;
    Ok(TreeNode {
        processor: step.processor,
        parent: parents[k],
        parent_link: step.parent_link,
        boot_link: step.boot_link,
        children,
    })
}

/// The places whose parent this one is.
fn children_of(alloc: Global, parents: &[Option<u32>], k: u32) -> Result<Vec<u32>, AllocError>
    requires { length parents.now ≤ PROCESSOR_LIMIT }
    ensures { IfOk result (λ children. children.items ≡ children_below (λ c. parent_at parents.now c) k (length parents.now)) }
{
    let mut children = Vec::new(alloc);
    for (c, parent) in parents.iter().enumerate() {
        if is_parent(*parent, k) {
            children.push(c as u32)?;
        }
    }
    Ok(children)
}

fn is_parent(parent: Option<u32>, k: u32) -> bool
    ensures { result ≡ is_parent parent k }
{
    match parent {
        Some(p) => p == k,
        None => false,
    }
}
