// How a query learns that it is out of date.
ghost use Rattle.std.specs.Prelude.{◌≡◌, ℕ, ◌^◌, ◌-◌, ◌<◌, List, [], Option, None, IfSome};
ghost use Rattle.analysis_host.specs.Polls.{Counts, last_seen};

/// What a query polls.
pub trait Cancel {
    /// What is polled, and for which job: no call changes it.
    ghost key: { Self → List ℕ };

    /// A poll gives a number only above it.
    ghost floor: { Self → ℕ };

    /// The last number that a poll gave.
    ghost held: { Self → Option ℕ };

    /// How often it was polled, up to the greatest number of `u64`.
    ghost polls: { Self → ℕ };

    /// A revision above the floor, where the query is out of date.
    fn poll(&mut self) -> Option<u64>
        ensures key { key self.new ≡ key self.old }
        ensures floor { floor self.new ≡ floor self.old }
        ensures above { IfSome result (λ saw. floor self.old < saw) }
        ensures held { held self.new ≡ last_seen (held self.old) result }
        ensures polls { Counts (polls self.old) (polls self.new) };

    /// The last number that a poll gave.
    fn held(&self) -> Option<u64>
        ensures { result ≡ held self.now };

    ghost above_floor: { (c : Self) → IfSome (held c) (λ saw. floor c < saw) };
}

/// Polls that never give a number.
#[derive(Drop)]
pub struct Never {
    polls: u64,
}

impl Never {
    pub fn new() -> Self
        ensures { result.polls ≡ 0 }
    {
        Never { polls: 0 }
    }
}

impl Cancel for Never {
    ghost key = { λ _. [] };

    ghost floor = { λ _. 2 ^ 64 - 1 };

    ghost held = { λ _. None };

    ghost polls = { λ c. c.polls };

    ghost above_floor = { λ _. tt };

    fn poll(&mut self) -> Option<u64> {
        self.polls = self.polls.saturating_add(1);
        None
    }

    fn held(&self) -> Option<u64> {
        None
    }
}
