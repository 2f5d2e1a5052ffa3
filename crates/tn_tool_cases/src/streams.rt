ghost use Rattle.std.specs.Prelude.{◌≡◌, ◌<◌, ◌≤◌, ◌^◌, length, vec_len, IfOk};
ghost use Rattle.tn_net.specs.WholeTrees.{IsWholeTree};
ghost use Rattle.tn_stream.specs.Images.{image_of, images_of, IsImage, AreImages};

use std::alloc::{AllocError, Global};
use tn_io::MemOut;
use tn_net::{Tree, TreeNode};
use tn_stream::{Image, Segment, StreamFault, collect};
use tn_tables::{Line, Stop};
use tn_word::LOAD_BASE;

/// What a line of the table of streams gives: how many bytes the stream has, and how many of them
/// the output then holds.
pub fn answer(alloc: Global, line: &Line<'_>) -> Result<Vec<u8>, Stop> {
    let (link, failing) = match line.words.as_slice() {
        ["collect", link] => (link, None),
        ["collect", link, "refused"] => (link, Some(0)),
        _ => return Err(Stop::BadCase),
    };
    let link = link.parse::<u8>().ok().ok_or(Stop::BadCase)?;
    if link >= 4 || line.bytes.len() > 1024 {
        return Err(Stop::BadCase);
    }
    collected(alloc, link, &line.bytes, failing)
}

/// The stream that boots one processor with code.
fn collected(alloc: Global, link: u8, code: &[u8], failing: Option<u64>) -> Result<Vec<u8>, Stop>
    requires link { link < 4 }
    requires code { length code.now ≤ 2 ^ 10 }
{
    let tree = single_tree(alloc, link)?;
    let images = [image(alloc, code)?];
    let mut calls = Vec::new(alloc);
    if let Some(call) = failing {
        calls.push(call)?;
    }
    let mut out = MemOut::new(calls);
    let collected = collect(&tree, &images, &mut out);
    told(alloc, collected, out.bytes().len())
}

/// The load tree of one processor, which boots by this link.
fn single_tree(alloc: Global, link: u8) -> Result<Tree, AllocError>
    requires { link < 4 }
    ensures { IfOk result (λ tree. IsWholeTree tree.nodes.items 1) }
{
    let root = TreeNode {
        processor: 0,
        parent: None,
        parent_link: 0,
        boot_link: link,
        children: Vec::new(alloc),
    };
    let mut nodes = Vec::new(alloc);
    nodes.push(root)?;
    Ok(Tree { nodes })
}

/// An image of the code alone, or of nothing.
fn image(alloc: Global, code: &[u8]) -> Result<Image, AllocError>
    requires { length code.now ≤ 2 ^ 10 }
    ensures { IfOk result (λ image. IsImage (image_of image)) }
{
    let mut segments = Vec::new(alloc);
    if !code.is_empty() {
        segments.push(Segment {
            base: LOAD_BASE,
            bytes: Vec::from_slice(alloc, code)?,
        })?;
    }
    Ok(Image {
        segments,
        entry: LOAD_BASE,
        wptr: LOAD_BASE + 68,
    })
}

fn told(alloc: Global, collected: Result<u64, StreamFault>, held: usize) -> Result<Vec<u8>, Stop> {
    match collected {
        Ok(count) => Ok(format!(in alloc; "{count}, held {held}")?.into_bytes()),
        Err(StreamFault::Out) => Ok(format!(in alloc; "refused, held {held}")?.into_bytes()),
        Err(StreamFault::NoMemory) => Err(Stop::NoMemory),
    }
}
