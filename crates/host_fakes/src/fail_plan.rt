// Calls that are counted, some of which are to fail.
ghost use Rattle.std.specs.Prelude.{◌≡◌, ◌≤◌, ◌↔◌, IsTrue};
ghost use Rattle.host_fakes.specs.Memory.{no_calls, counted, IsFailing};

use plain::Items;
use std::marker::Model;

/// The calls of a fake, and which of them fail.
pub struct FailPlan {
    fails: Items<u64>,
    made: u64,
    faults: u64,
}

impl Drop for FailPlan {
    fn drop(self) {
        let FailPlan {
            fails: _,
            made: _,
            faults: _,
        } = self;
    }
}

impl Model for FailPlan {
    ghost use Rattle.host_fakes.specs.Memory.{PlanData};

    ghost Value = { PlanData };

    ghost view = { λ c. record { fails = c.fails; made = c.made; faults = c.faults } };
}

impl FailPlan {
    /// No call was made yet. Those with these numbers will fail.
    pub fn new(fails: Items<u64>) -> Self
        ensures { result ≡ no_calls fails }
    {
        FailPlan {
            fails,
            made: 0,
            faults: 0,
        }
    }

    /// Counts a call, and says whether it is to fail.
    pub fn count(&mut self) -> bool
        ensures fails { IsTrue result ↔ IsFailing self.old }
        ensures counted { self.new ≡ record self.old { made = counted self.old.made } }
    {
        self.made = self.made.saturating_add(1);
        self.fails.as_slice().contains(&self.made)
    }

    /// Counts a failure.
    pub fn fail(&mut self)
        ensures counted { self.new ≡ record self.old { faults = counted self.old.faults } }
        ensures later { self.old.faults ≤ self.new.faults }
    {
        self.faults = self.faults.saturating_add(1);
    }
}
