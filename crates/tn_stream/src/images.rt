/// Bytes that are loaded into the memory of a processor.
#[derive(Drop)]
pub struct Segment {
    /// The address of the first byte.
    pub base: u32,
    pub bytes: Vec<u8>,
}

/// What a processor is loaded with.
#[derive(Drop)]
pub struct Image {
    pub segments: Vec<Segment>,
    /// The address at which the program begins.
    pub entry: u32,
    /// The workspace pointer with which it begins.
    pub wptr: u32,
}
