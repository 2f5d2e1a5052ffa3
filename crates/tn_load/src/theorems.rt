//! The loading theorem as the law of a function. Nothing runs here.

ghost use Rattle.tn_load.specs.Boots.{Loading, LoadingOne};

/// The stream of a load tree brings its network from power-up to rest after exactly its number of
/// steps, in every order of steps and whatever the memories, Error and HaltOnError are at first. The
/// state is then one and the same: each image is whole, each processor at its entry, and the rest of
/// each memory as it was. Of any beginning of the stream too, there are no more steps, and no
/// processor stands at its entry before all images are whole.
pub fn boots()
    ensures law { Loading }
{}

/// The same for any single processor, whichever link the host is wired to.
pub fn boots_one()
    ensures law { LoadingOne }
{}
