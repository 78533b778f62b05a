// Laws of the numbers.
ghost use Rattle.std.specs.Prelude.{◌≡◌, ◌<◌, ◌≤◌, ℕ, None};
ghost use Rattle.std.specs.FinMap as map;
ghost use Rattle.lsp_frame.specs.declared.message.RequestId.{RequestId};
ghost use Rattle.lsp_frame.specs.Outgoing.{Outgoing, AreGiven, number_limit, none_waiting, registered, completed};

/// A number is given once: whatever comes and goes, each number that waits was given before, and the next one does not wait.
pub fn numbers_are_given_once<K>()
    ensures none { (given : ℕ) → given ≤ number_limit → AreGiven {K = K} (none_waiting given) }
    ensures registered { (then : K) (o : Outgoing K) → o.given < number_limit → AreGiven o → AreGiven (registered then o) }
    ensures completed { (id : RequestId) (o : Outgoing K) → AreGiven o → AreGiven (completed id o) }
    ensures fresh { (o : Outgoing K) → AreGiven o → map.get o.waiting o.given ≡ None }
{}
