// Laws of whole runs of the calls.
ghost use Rattle.std.specs.Prelude.{◌≡◌, ◌↔◌, ℕ, List, [], ◌∷◌, ◌++◌, None, Some};
ghost use Rattle.host_orders.specs.declared.due_reply.DueReply.{DueReply};
ghost use Rattle.host_orders.specs.HostOrders.{HostOrders, next};
ghost use Rattle.host_orders.specs.Runs.{Act, kept_after, given, versions_in, tasks_in, versions_set, tasks_deferred, IsNewestTimer, IsDue};

/// What was given and what is kept are together what was ordered, in order; so nothing else is given, and nothing twice.
/// A version is given alone, the oldest first; the tasks are given all at once.
pub fn each_order_is_given_once<D>()
    ensures versions { (run : List (Act D)) → versions_in (given run) ++ (kept_after run).loaders ≡ versions_set run }
    ensures tasks { (run : List (Act D)) → tasks_in (given run) ++ (kept_after run).deferred ≡ tasks_deferred run }
    ensures due { (o : HostOrders D) (kept : DueReply D) → next o ≡ Some kept → IsDue kept o }
{}

/// The timer that is kept is the newest that was set, if no timer was given since, and no other; and no other is given.
pub fn a_replaced_timer_is_never_given<D>()
    ensures kept { (run : List (Act D)) (ticket : ℕ) → ((kept_after run).timer ≡ Some ticket) ↔ IsNewestTimer ticket run }
    ensures given { (run : List (Act D)) (ticket : ℕ) → next (kept_after run) ≡ Some (DueReply.Timer ticket) → IsNewestTimer ticket run }
{}

/// Tasks are given once all versions were, the timer once all versions and tasks were, and nothing once all were.
pub fn kinds_are_given_in_order<D>()
    ensures tasks { (run : List (Act D)) (tasks : List D) → next (kept_after run) ≡ Some (DueReply.Deferred tasks)
        → versions_in (given run) ≡ versions_set run }
    ensures timer { (run : List (Act D)) (ticket : ℕ) → next (kept_after run) ≡ Some (DueReply.Timer ticket)
        → (versions_in (given run) ≡ versions_set run) × (tasks_in (given run) ≡ tasks_deferred run) }
    ensures none { (run : List (Act D)) → next (kept_after run) ≡ None
        → (versions_in (given run) ≡ versions_set run) × (tasks_in (given run) ≡ tasks_deferred run) × ((kept_after run).timer ≡ None) }
{}
