//! What `settle` does of a network, as the laws of two functions. Nothing runs here.

ghost use Rattle.tn_load.specs.SettledNets.{MakesPicks, ShowsBoots};

/// What `settle` makes of a network are its picks in order from the front, or with `back` from the
/// back: as many as the steps that it answers, each enabled when it comes.
pub fn makes_picks()
    ensures law { MakesPicks }
{}

/// Where bytes boot a network in a number of steps, `settle` shows it in both orders: called on the
/// network after power-up with that number or a larger one, it answers the number and that the network
/// is at rest, and the network is then loaded, so that `loaded` answers true.
pub fn shows_boots()
    ensures law { ShowsBoots }
{}
