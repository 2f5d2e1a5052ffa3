/// One of the three waves of a stream, each of which goes through the whole tree.
#[derive(Clone, Copy)]
pub enum Wave {
    /// Loads each processor, a parent before its children.
    Load,
    /// Comes by each processor when all before it are loaded.
    Sync,
    /// Starts each processor, a parent after its children.
    Start,
}
