/// Why an access is refused.
#[derive(Clone, Copy)]
pub enum Touch {
    /// The access is unaligned, or not wholly inside the memory above word 8.
    Outside,
    /// The access is inside, and meets the region that a [`CodeFree`](crate::CodeFree) guards.
    Code,
}
