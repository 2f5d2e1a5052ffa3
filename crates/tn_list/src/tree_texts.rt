ghost use Rattle.std.specs.Prelude.{◌≡◌, ◌<◌, ◌≤◌, ◌++◌, length, codes, slice_index};
ghost use Rattle.std.specs.Fmt.{decimal};
ghost use Rattle.tn_text.specs.Puts.{Puts};
ghost use Rattle.tn_text.specs.WordTexts.{spaced};
ghost use Rattle.tn_net.specs.Trees.{node_at};
ghost use Rattle.tn_net.specs.WholeTrees.{IsWholeTree};
ghost use Rattle.tn_list.specs.Lists.{Lists};
ghost use Rattle.tn_list.specs.TreeTexts.{word_and_number, source_text, boot_text, from_text, last_text, node_line};
ghost use Rattle.tn_list.specs.TreeTexts.{node_lines, count_line, tree_text};

use crate::faults::ListFault;
use crate::printed::Printed;
use tn_io::Out;
use tn_net::{Tree, TreeNode};
use tn_text::{Name, Put, PutRefused, put_spaced, put_spaced_decimal};

/// Prints a load tree: a line for each node in load order, `NAME boot K from host received R` for the
/// first and `NAME boot K from PARENT L received R` for each other, and the lines `stream LENGTH` and
/// `steps N`.
///
/// The names are those of the processors, by their numbers. `received` says for each node how many
/// bytes its processor gets on its boot link, with what it sends on, which of the first is the length
/// of the stream. The tree is whole for the names, and each node has such a number.
///
/// `Out` comes only where the output's count of faults rose, and leaves a prefix of the text printed.
pub fn tree_text<O: Out>(
    names: &[Name],
    tree: &Tree,
    received: &[u64],
    steps: u64,
    out: &mut O,
) -> Result<(), ListFault>
    requires whole { IsWholeTree tree.now.nodes.items (length names.now) }
    requires counted { length received.now ≡ length tree.now.nodes.items }
    ensures lists { Lists (tree_text names.now tree.now.nodes.items (λ k. slice_index received.now k) steps)
        result (O.printed out.old) (O.printed out.new) }
    ensures goes_on { O.goes_on out.old out.new }
{
    put_tree(names, tree, received, steps, &mut Printed { out })?;
    Ok(())
}

/// Puts the lines of a load tree.
#[tactic(auto, unfolding(crate::specs::TreeTexts::tree_text))]
fn put_tree<P: Put>(
    names: &[Name],
    tree: &Tree,
    received: &[u64],
    steps: u64,
    out: &mut P,
) -> Result<(), PutRefused>
    requires whole { IsWholeTree tree.now.nodes.items (length names.now) }
    requires counted { length received.now ≡ length tree.now.nodes.items }
    ensures puts { Puts (tree_text names.now tree.now.nodes.items (λ k. slice_index received.now k) steps)
        result (P.taken out.old) (P.taken out.new) }
    ensures goes_on { P.goes_on out.old out.new }
{
    put_nodes(names, tree, received, out)?;
    put_count(b"stream", received[0], out)?;
    put_count(b"steps", steps, out)
}

/// Puts the lines of the nodes.
fn put_nodes<P: Put>(
    names: &[Name],
    tree: &Tree,
    received: &[u64],
    out: &mut P,
) -> Result<(), PutRefused>
    requires whole { IsWholeTree tree.now.nodes.items (length names.now) }
    requires counted { length received.now ≡ length tree.now.nodes.items }
    ensures puts { Puts (node_lines names.now tree.now.nodes.items (λ k. slice_index received.now k) (length tree.now.nodes.items))
        result (P.taken out.old) (P.taken out.new) }
    ensures goes_on { P.goes_on out.old out.new }
{
    for place in 0..tree.nodes.len() {
        put_node(names, tree, place, received[place], out)?;
    }
    Ok(())
}

/// Puts the line of the node at a place.
#[tactic(auto, unfolding(crate::specs::TreeTexts::node_line))]
fn put_node<P: Put>(
    names: &[Name],
    tree: &Tree,
    place: usize,
    received: u64,
    out: &mut P,
) -> Result<(), PutRefused>
    requires whole { IsWholeTree tree.now.nodes.items (length names.now) }
    requires here { place < length tree.now.nodes.items }
    ensures puts { Puts (node_line names.now tree.now.nodes.items (node_at tree.now.nodes.items place) received)
        result (P.taken out.old) (P.taken out.new) }
    ensures goes_on { P.goes_on out.old out.new }
{
    put_boot(names, &tree.nodes[place], out)?;
    put_from(names, tree, place, out)?;
    put_last(b"received", received, out)
}

/// Puts the name of a node's processor and the link that it boots by.
#[tactic(auto, unfolding(crate::specs::TreeTexts::boot_text))]
fn put_boot<P: Put>(names: &[Name], node: &TreeNode, out: &mut P) -> Result<(), PutRefused>
    requires { node.now.processor < length names.now }
    ensures puts { Puts (boot_text names.now node.now) result (P.taken out.old) (P.taken out.new) }
    ensures goes_on { P.goes_on out.old out.new }
{
    out.put(names[node.processor as usize].bytes())?;
    put_word_and_number(b"boot", u64::from(node.boot_link), out)
}

/// Puts what the node at a place boots from.
#[tactic(auto, unfolding(crate::specs::TreeTexts::from_text))]
fn put_from<P: Put>(
    names: &[Name],
    tree: &Tree,
    place: usize,
    out: &mut P,
) -> Result<(), PutRefused>
    requires whole { IsWholeTree tree.now.nodes.items (length names.now) }
    requires here { place < length tree.now.nodes.items }
    ensures puts { Puts (from_text names.now tree.now.nodes.items (node_at tree.now.nodes.items place))
        result (P.taken out.old) (P.taken out.new) }
    ensures goes_on { P.goes_on out.old out.new }
{
    put_spaced(b"from", out)?;
    put_source(names, tree, place, out)
}

/// Puts `host`, or the node's parent and the link of the parent.
#[tactic(auto, unfolding(crate::specs::TreeTexts::source_text))]
fn put_source<P: Put>(
    names: &[Name],
    tree: &Tree,
    place: usize,
    out: &mut P,
) -> Result<(), PutRefused>
    requires whole { IsWholeTree tree.now.nodes.items (length names.now) }
    requires here { place < length tree.now.nodes.items }
    ensures puts { Puts (source_text names.now tree.now.nodes.items (node_at tree.now.nodes.items place).parent
        (node_at tree.now.nodes.items place).parent_link) result (P.taken out.old) (P.taken out.new) }
    ensures goes_on { P.goes_on out.old out.new }
{
    let node = &tree.nodes[place];
    let link = u64::from(node.parent_link);
    match node.parent {
        Some(parent) => {
            let above = &tree.nodes[parent as usize];
            put_word_and_number(names[above.processor as usize].bytes(), link, out)
        }
        None => put_spaced(b"host", out),
    }
}

/// Puts a word and a number at the end of a line.
#[tactic(auto, unfolding(crate::specs::TreeTexts::last_text))]
fn put_last<P: Put>(word: &[u8], number: u64, out: &mut P) -> Result<(), PutRefused>
    ensures puts { Puts (last_text word.now number) result (P.taken out.old) (P.taken out.new) }
    ensures goes_on { P.goes_on out.old out.new }
{
    put_word_and_number(word, number, out)?;
    out.put(b"\n")
}

/// Puts a line of a word and a number.
#[tactic(auto, unfolding(crate::specs::TreeTexts::count_line))]
fn put_count<P: Put>(word: &[u8], number: u64, out: &mut P) -> Result<(), PutRefused>
    ensures puts { Puts (count_line word.now number) result (P.taken out.old) (P.taken out.new) }
    ensures goes_on { P.goes_on out.old out.new }
{
    out.put(word)?;
    put_spaced_decimal(number, out)?;
    out.put(b"\n")
}

/// Puts a word and a number, a blank before each.
#[tactic(auto, unfolding(crate::specs::TreeTexts::word_and_number))]
fn put_word_and_number<P: Put>(word: &[u8], number: u64, out: &mut P) -> Result<(), PutRefused>
    ensures puts { Puts (word_and_number word.now number) result (P.taken out.old) (P.taken out.new) }
    ensures goes_on { P.goes_on out.old out.new }
{
    put_spaced(word, out)?;
    put_spaced_decimal(number, out)
}
