//! What the definitions of what is affected and of what restarts come to.
ghost use Rattle.std.specs.Prelude.{◌≡◌, ℕ, Bool, List, length};
ghost use Rattle.project_model.specs.declared.check_scope.Restart.{Restart};
ghost use Rattle.project_model.specs.declared.crates.CrateInfo.{CrateInfo};
ghost use Rattle.project_model.specs.declared.workspace.ProjectWorkspace.{ProjectWorkspace};
ghost use Rattle.check_restarts.specs.Affected.{affected_of};
ghost use Rattle.check_restarts.specs.Dependents.{AreAffected};
ghost use Rattle.check_restarts.specs.Restarts.{AreRestarts, restarts_of};

/// The rounds find just the crates from which a chain of dependencies, of any length, leads to one
/// whose root is among these.
pub fn what_is_affected_has_a_chain_of_dependencies()
    ensures is { (crates : List CrateInfo) (paths roots : List (List ℕ))
        → length paths ≡ length crates
        → AreAffected crates paths roots (affected_of crates paths roots) }
    ensures only { (crates : List CrateInfo) (paths roots affected : List (List ℕ))
        → length paths ≡ length crates
        → AreAffected crates paths roots affected → affected ≡ affected_of crates paths roots }
{}

/// What restarts is the package's own check, and the others by whichever crates are affected.
pub fn what_restarts_follows_from_what_is_affected()
    ensures is { (check_workspace : Bool) (crates : List CrateInfo) (paths roots : List (List ℕ))
        (workspaces : List ProjectWorkspace) (checks saved : List ℕ) → length paths ≡ length crates
        → AreRestarts check_workspace crates paths roots workspaces checks saved
        (restarts_of check_workspace crates paths roots workspaces checks saved) }
    ensures only { (check_workspace : Bool) (crates : List CrateInfo) (paths roots : List (List ℕ))
        (workspaces : List ProjectWorkspace) (checks saved : List ℕ) (list : List Restart)
        → length paths ≡ length crates
        → AreRestarts check_workspace crates paths roots workspaces checks saved list
        → list ≡ restarts_of check_workspace crates paths roots workspaces checks saved }
{}
