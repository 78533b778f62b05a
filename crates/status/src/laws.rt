// Laws of the definitions.
ghost use Rattle.std.specs.Prelude.{◌≡◌, Decides};
ghost use Rattle.status.specs.Same.{is_same_status};
ghost use Rattle.status.specs.declared.status.Status.{Status};

/// Two statuses are the same exactly where they are equal.
pub fn the_same_statuses_are_equal()
    ensures { (one other : Status) → Decides (is_same_status one other) (one ≡ other) }
{}
