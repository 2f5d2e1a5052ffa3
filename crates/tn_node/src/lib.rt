//! A T425 with its bootstrap and the engines of its four links, after the T425 data sheet. Where
//! that leaves a case open the definitions in specs/Bootstraps.antt and specs/Links.antt decide.
#![tactic(auto)]

mod bootstraps;
mod engines;
mod links;
mod modes;
mod nodes;
mod runs;

pub use engines::{Engine, LinkView};
pub use modes::{Expects, Made, Mode};
pub use nodes::{NoMemory, Node};
