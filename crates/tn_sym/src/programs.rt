use tn_link::Linked;
use tn_symbols::Chosen;

/// The program of a processor: its modules as they were linked, and which modules these are.
#[derive(Drop)]
pub struct Program {
    pub linked: Linked,
    pub chosen: Chosen,
}
