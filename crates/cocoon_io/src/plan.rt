//! Plans of which calls fail, so that a test can have any call fail that it chooses.
ghost use Rattle.std.specs.Prelude.{◌≡◌, ◌≤◌};
ghost use Rattle.cocoon_io.specs.Plans.{fails_next, after_call};

use std::marker::Model;

/// The numbers of the calls that fail, and how many calls there were.
#[derive(Drop)]
pub struct Plan {
    failing: Vec<u64>,
    calls: u64,
}

impl Model for Plan {
    ghost use Rattle.std.specs.Prelude.{◌≤◌};
    ghost use Rattle.cocoon_io.specs.Plans.{PlannedCalls, last_call};

    ghost Value = { PlannedCalls };

    ghost view = { λ a. record { failing = a.failing.items; calls = a.calls } };

    ghost invariant = { λ a. a.calls ≤ last_call };
}

impl Plan {
    /// No call so far, and these fail.
    pub fn new(failing: Vec<u64>) -> Plan
        ensures { result ≡ record { failing = failing.items; calls = 0 } }
    {
        Plan { failing, calls: 0 }
    }

    /// Counts a call, and says whether it fails.
    pub fn next_fails(&mut self) -> bool
        ensures planned { result ≡ fails_next self.old }
        ensures counted { self.new ≡ after_call self.old }
        ensures grows { self.old.calls ≤ self.new.calls }
    {
        if self.calls == u64::MAX {
            return false;
        }
        self.calls += 1;
        self.failing.contains(&self.calls)
    }
}
