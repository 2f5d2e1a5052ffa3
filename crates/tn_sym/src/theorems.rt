//! The theorem of execution as the law of a function. Nothing runs here.

ghost use Rattle.tn_sym.specs.Follows.{Execution};

/// From every state in which a network is loaded with the images of its programs and its hold is lifted,
/// its runs are those of the symbolic network that begins there, until that one stops. In whatever order
/// the steps come, each step of the network but a prefix byte is one of the symbolic network; the two are
/// then in the same state, and the same picks are enabled in both.
#[tactic(auto, using(crate::proofs::Beginning::execution))]
pub fn follows()
    ensures law { Execution }
{}
