//! Laws of networks whose processors have lone runs. Nothing runs here: each function carries a law.

ghost use Rattle.tn_network.specs.NodeOps.{NodeOps};
ghost use Rattle.tn_load.specs.Keep.{Keep, GoesAlong, GoesOn, EndsOnce};
ghost use Rattle.tn_load.specs.Exchange.{Commute, Exchange};

/// Every pick that is enabled leaves a network under way, and takes one off the picks that are left.
pub fn keep<N>()
    ensures law { (ops : NodeOps N) → Keep ops }
{}

/// So do picks one after the other.
pub fn goes_along<N>()
    ensures law { (ops : NodeOps N) → GoesAlong ops }
{}

/// While picks are left, some pick is enabled.
pub fn goes_on<N>()
    ensures law { (ops : NodeOps N) → GoesOn ops }
{}

/// Picks in any order end at rest exactly where they are as many as were left at first, and the state
/// is then one and the same.
pub fn ends_once<N>()
    ensures law { (ops : NodeOps N) → EndsOnce ops }
{}

/// Two picks that are enabled lead to the same state, or each is enabled behind the other and both
/// orders lead to the same state.
pub fn commute<N>()
    ensures law { (ops : NodeOps N) → Commute ops }
{}

/// Where some picks lead to rest, picks in any other order come to the same rest behind as many.
pub fn exchange<N>()
    ensures law { (ops : NodeOps N) → Exchange ops }
{}
