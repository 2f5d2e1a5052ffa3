//! The theorem of execution for systems, as the law of a function. Nothing runs here.

ghost use Rattle.tn_system.specs.Sources.{Sources};
ghost use Rattle.tn_system.specs.Systems.{SystemState, IsSystem};
ghost use Rattle.tn_system.specs.Executions.{Executes};

/// From every state in which the network of a system is loaded with its images and its hold is lifted, a
/// symbolic network of its programs begins, and what the network does that one does too, until it stops.
pub fn executes()
    ensures law { (s : Sources) (y : SystemState) → IsSystem s y → Executes y }
{}
