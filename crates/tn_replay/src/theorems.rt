//! What lines tell is true, as the law of a function. Nothing runs here.

ghost use Rattle.tn_replay.specs.Truth.{TellsTruth};

/// Wherever a line `same` prints that the symbolic network has not stopped, it is in the same state as
/// the network, and the same picks are enabled in both.
pub fn tells_truth()
    ensures law { TellsTruth }
{}
