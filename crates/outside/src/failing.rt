// Calls that are told to fail.
ghost use Rattle.std.specs.Prelude.{◌≡◌, ◌↔◌, IsTrue};
ghost use Rattle.outside.specs.Calls.{Calls, NextFails, after_call};

use std::marker::Model;

/// The number of calls made so far, and the numbers of those that fail.
#[derive(Drop)]
pub struct FailingCalls {
    made: u64,
    failing: Vec<u64>,
}

impl Model for FailingCalls {
    ghost use Rattle.outside.specs.Calls.{Calls};

    ghost Value = { Calls };

    ghost view = { λ c. record { made = c.made; failing = c.failing.items } };
}

impl FailingCalls {
    /// No call was made yet.
    pub fn new(failing: Vec<u64>) -> Self
        ensures { result ≡ record { made = 0; failing = failing.items } }
    {
        FailingCalls { made: 0, failing }
    }

    /// Counts a call, and says whether it fails. The number of a call stops at 2^64 - 1.
    pub fn count_call(&mut self) -> bool
        ensures fails { IsTrue result ↔ NextFails self.old }
        ensures counted { self.new ≡ after_call self.old }
    {
        self.made = self.made.saturating_add(1);
        self.failing.as_slice().contains(&self.made)
    }
}
