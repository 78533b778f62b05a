// What a session keeps of the work that its host does beside its jobs.
ghost use Rattle.std.specs.Prelude.{◌≡◌};
ghost use Rattle.activities.specs.Activities.{no_activities_at};

use crate::checks::Checks;
use crate::discovery::Discovery;
use crate::priming::Priming;
use crate::test_run::Tests;
use std::alloc::Global;

/// What a session keeps of the work that its host does beside its jobs.
pub struct Activities {
    pub checks: Checks,
    pub tests: Tests,
    pub discovery: Discovery,
    pub priming: Priming,
}

impl Drop for Activities {
    fn drop(self) {
        let Activities {
            checks: _,
            tests: _,
            discovery: _,
            priming: _,
        } = self;
    }
}

impl Activities {
    /// Nothing goes on, and so many discoveries were ordered before.
    pub fn new_at(alloc: Global, discoveries: u64) -> Activities
        ensures { result ≡ no_activities_at discoveries }
    {
        Activities {
            checks: Checks::new(alloc),
            tests: Tests::new(alloc),
            discovery: Discovery::new_at(alloc, discoveries),
            priming: Priming::new(alloc),
        }
    }
}
