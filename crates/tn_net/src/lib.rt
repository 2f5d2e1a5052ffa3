//! Networks of processors: what a configuration says of one, whether that is a network, and what is
//! at the far end of each link.
#![tactic(auto)]

mod lines;
mod names;
mod networks;
mod paths;
mod tables;
mod trees;

pub use lines::RawNetwork;
pub use networks::{Far, Network};
pub use trees::{Tree, TreeFault, TreeNode, load_tree};
