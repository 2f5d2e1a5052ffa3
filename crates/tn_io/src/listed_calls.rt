ghost use Rattle.std.specs.Prelude.{◌≡◌, ◌+◌, ◌-◌, ◌^◌, ◌↔◌, min, IsTrue, Contains};

/// Calls that are to be refused, by their numbers, and how many calls there were. The first call
/// has the number 0.
#[derive(Drop)]
pub struct ListedCalls {
    pub failing: Vec<u64>,
    pub calls: u64,
}

impl ListedCalls {
    /// Counts a call, and tells whether it is to be refused.
    pub fn next(&mut self) -> bool
        ensures listed { IsTrue result ↔ Contains self.old.failing.items self.old.calls }
        ensures counted { self.new ≡ record self.old { calls = min (self.old.calls + 1) (2 ^ 64 - 1) } }
    {
        let refused = self.failing.contains(&self.calls);
        self.calls = self.calls.saturating_add(1);
        refused
    }
}
