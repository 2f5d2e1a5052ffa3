/// The fewest bytes that a memory has, which is the on-chip memory of a T425 by its data sheet.
pub const MEMORY_SIZE_LEAST: u32 = 4096;

/// The most bytes that a memory has, by this project's rule. Each size is whole words.
pub const MEMORY_SIZE_MOST: u32 = 1_048_576;
