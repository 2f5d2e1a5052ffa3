ghost use Rattle.std.specs.Prelude.{◌≡◌, ◌≤◌, length, None, Some};
ghost use Rattle.tn_text.specs.declared.limits.TheConstants.{FILE_NAME_LIMIT};
ghost use Rattle.tn_io.specs.FileOuts.{IsThere};
ghost use Rattle.tn_net.specs.WholeTrees.{IsWholeTree};
ghost use Rattle.tn_stream.specs.Images.{images_of, AreImages};
ghost use Rattle.tn_stream.specs.Lengths.{all_lengths};
ghost use Rattle.tn_stream.specs.LoadBranches.{whole_branch};
ghost use Rattle.tn_stream.specs.Streams.{stream};
ghost use Rattle.tn_top.specs.Inner.Ends.{Puts, PutsFile, Extends};

use crate::endings::after_put;
use crate::refusals::Refusal;
use tn_io::{FileOut, PutFault, PutKind, Store};
use tn_net::Tree;
use tn_stream::{Image, LengthTable, collect_with, lengths};
use tn_text::FileName;

/// Writes to a file the stream that loads the processors of a tree with these images, and ends the
/// command. All that takes memory, but for the store, was done before the file is made.
pub fn write_stream<S: Store>(
    name: &FileName,
    tree: &Tree,
    images: &[Image],
    store: &mut S,
) -> Result<(), Refusal>
    requires whole { IsWholeTree tree.now.nodes.items (length images.now) }
    requires images { AreImages (images_of images.now) }
    ensures { Puts name.now (stream (whole_branch (images_of images.now) tree.now.nodes.items))
        (S.stored store.old) (S.stored store.new) result }
{
    let table = lengths(tree, images);
    let put = put_stream(store, name.text(), tree, images, &table);
    after_put(name, put)
}

/// Writes a stream to a file. `Failed` comes only where the count of write faults rose; a refusal
/// leaves the file as it was, or a prefix of the stream in it.
fn put_stream<S: Store>(
    store: &mut S,
    name: &str,
    tree: &Tree,
    images: &[Image],
    table: &LengthTable,
) -> Result<(), PutFault>
    requires name { length name.now ≤ FILE_NAME_LIMIT }
    requires whole { IsWholeTree tree.now.nodes.items (length images.now) }
    requires images { AreImages (images_of images.now) }
    requires lengths { table.now ≡ all_lengths (images_of images.now) tree.now.nodes.items }
    ensures { PutsFile name.now (stream (whole_branch (images_of images.now) tree.now.nodes.items)) result
        (S.stored store.old) (S.stored store.new) }
{
    store.create(name)?;
    emit(store, name, tree, images, table)?;
    store.close()
}

/// Writes a stream to the open file, which has this name.
fn emit<S: Store>(
    store: &mut S,
    name: &str,
    tree: &Tree,
    images: &[Image],
    table: &LengthTable,
) -> Result<(), PutFault>
    requires whole { IsWholeTree tree.now.nodes.items (length images.now) }
    requires images { AreImages (images_of images.now) }
    requires lengths { table.now ≡ all_lengths (images_of images.now) tree.now.nodes.items }
    requires is_open { (S.stored store.old).opened ≡ Some name.now }
    requires there { IsThere (S.stored store.old).opened (S.stored store.old).files }
    ensures { Extends name.now (stream (whole_branch (images_of images.now) tree.now.nodes.items)) result
        (S.stored store.old) (S.stored store.new) }
{
    let mut out = FileOut {
        store: &mut *store,
        kind: None,
        refused: 0,
    };
    emit_to(&mut out, name, tree, images, table)
}

/// Writes a stream to the open file under an output that was not yet used.
fn emit_to<S: Store>(
    out: &mut FileOut<'_, S>,
    name: &str,
    tree: &Tree,
    images: &[Image],
    table: &LengthTable,
) -> Result<(), PutFault>
    requires whole { IsWholeTree tree.now.nodes.items (length images.now) }
    requires images { AreImages (images_of images.now) }
    requires lengths { table.now ≡ all_lengths (images_of images.now) tree.now.nodes.items }
    requires is_open { (S.stored out.old.store.now).opened ≡ Some name.now }
    requires there { IsThere (S.stored out.old.store.now).opened (S.stored out.old.store.now).files }
    requires no_kind { out.old.kind ≡ None }
    requires unrefused { out.old.refused ≡ 0 }
    ensures extends { Extends name.now (stream (whole_branch (images_of images.now) tree.now.nodes.items)) result
        (S.stored out.old.store.now) (S.stored out.new.store.now) }
    ensures same_reference { out.new.store.ghost_name ≡ out.old.store.ghost_name }
{
    match collect_with(tree, images, table, out) {
        Ok(_) => Ok(()),
        Err(_) => match out.kind {
            Some(PutKind::NoMemory) => Err(PutFault::NoMemory),
            _ => Err(PutFault::Failed),
        },
    }
}
