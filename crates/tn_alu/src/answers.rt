/// What an operation on registers B and A leaves: the word that it joins, and whether it sets
/// Error.
#[derive(Clone, Copy)]
pub struct Answer {
    /// The word, or `None` where the result is undefined.
    pub value: Option<u32>,
    /// Whether the operation sets Error.
    pub error: bool,
}
