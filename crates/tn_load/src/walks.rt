ghost use Rattle.std.specs.Prelude.{◌≡◌, IsTrue, ◌↔◌, Bool};
ghost use Rattle.tn_load.specs.NetWalks.{NetAtRest, net_walked};

use tn_network::Net;

/// A state that can be stepped until it is at rest, by either of two orders.
pub trait Walk {
    /// A state is at rest.
    ghost AtRest: { Self → Type 0 };

    /// The state one step further, by the order from the front or from the back.
    ghost next: { Bool → Self → Self };

    /// Whether the state is at rest.
    fn at_rest(&self) -> bool
        ensures { IsTrue result ↔ AtRest self.now };

    /// Makes one step of a state that is not at rest: the first in order, or with `back` the last.
    fn walk(&mut self, back: bool)
        requires { AtRest self.old → ⊥ }
        ensures { self.new ≡ next back self.old };
}

/// A network is at rest where no pick is enabled, and a step is the pick that is enabled and comes
/// first, or with `back` last.
impl Walk for Net {
    ghost AtRest = { NetAtRest };

    ghost next = { net_walked };

    fn at_rest(&self) -> bool {
        Net::at_rest(self)
    }

    fn walk(&mut self, back: bool) {
        if let Some(pick) = self.first(back) {
            let _made = self.apply(pick);
        }
    }
}
