ghost use Rattle.std.specs.Prelude.{◌≡◌, ◌<◌, ◌≤◌, [], ◌∷◌, vec_len, IfOk};
ghost use Rattle.tn_text.specs.declared.limits.TheConstants.{CODE_LIMIT};
ghost use Rattle.tn_stream.specs.Images.{image_of, images_of, AreImages, IsImage};
ghost use Rattle.tn_top.specs.OneProcessor.{code_image, boot_stream};
ghost use Rattle.tn_top.specs.Inner.Ends.{Puts};
ghost use Rattle.tn_top.specs.Inner.OneTrees.{IsOneTree};

use crate::refusals::Refusal;
use crate::stream_files::write_stream;
use std::alloc::{AllocError, Global};
use tn_io::Store;
use tn_net::{Tree, TreeNode};
use tn_stream::{Image, Segment};
use tn_text::FileName;
use tn_word::LOAD_BASE;

/// Writes to a file the stream that boots one processor with code, and ends the command.
pub fn write_code_stream<S: Store>(
    alloc: Global,
    name: &FileName,
    link: u8,
    code: Vec<u8>,
    store: &mut S,
) -> Result<(), Refusal>
    requires link { link < 4 }
    requires within { vec_len code ≤ CODE_LIMIT }
    ensures { Puts name.now (boot_stream link code.items) (S.stored store.old) (S.stored store.new) result }
{
    let image = image_of_code(alloc, code)?;
    let tree = tree_of_one(alloc, link)?;
    let mut images = Vec::new(alloc);
    images.push(image)?;
    write_stream(name, &tree, &images, store)
}

/// The load tree of one processor, which boots by this link.
fn tree_of_one(alloc: Global, link: u8) -> Result<Tree, AllocError>
    requires { link < 4 }
    ensures { IfOk result (IsOneTree link) }
{
    let root = TreeNode {
        processor: 0,
        parent: None,
        parent_link: 0,
        boot_link: link,
        children: Vec::new(alloc),
    };
    let mut nodes = Vec::new(alloc);
    nodes.push(root)?;
    Ok(Tree { nodes })
}

/// The image of code alone: it lies at the least address that an image may use and begins there,
/// with its workspace sixteen words above it.
fn image_of_code(alloc: Global, code: Vec<u8>) -> Result<Image, AllocError>
    requires { vec_len code ≤ CODE_LIMIT }
    ensures image { IfOk result (λ image. image_of image ≡ code_image code.items) }
    ensures fits { IfOk result (λ image. IsImage (image_of image)) }
{
    let wptr = LOAD_BASE + 4 * code.len().div_ceil(4) as u32 + 64;
    let mut segments = Vec::new(alloc);
    if !code.is_empty() {
        segments.push(Segment {
            base: LOAD_BASE,
            bytes: code,
        })?;
    }
    Ok(Image {
        segments,
        entry: LOAD_BASE,
        wptr,
    })
}
