/// A register that holds a word, or whose value nothing defines.
#[derive(Clone, Copy, PartialEq, Eq)]
pub enum Reg {
    /// No row of the guide's tables, or of this project, says which word stands here.
    Undefined,
    /// The word that stands here.
    Word(u32),
}
