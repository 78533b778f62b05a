// What a request meets.
ghost use Rattle.std.specs.Prelude.{◌≡◌, IfOk};
ghost use Rattle.desk.specs.Scene.{Scene};

use analysis_host::GlobalStateSnapshot;
use std::alloc::AllocError;

/// What a request meets beside the desk: the present of the session. Its snapshot is made where a request needs one.
pub trait Present {
    ghost scene: { Self → Scene };

    /// The snapshot of the present.
    fn snapshot(&self) -> Result<GlobalStateSnapshot, AllocError>
        ensures { IfOk result (λ snapshot. snapshot ≡ (scene self.now).snapshot) };

    /// The revision of that snapshot.
    fn revision(&self) -> u64
        ensures { result ≡ (scene self.now).snapshot.revision };

    /// Whether files are loading.
    fn is_loading(&self) -> bool
        ensures { result ≡ (scene self.now).loading };

    /// Whether the crate graph is not complete.
    fn is_incomplete(&self) -> bool
        ensures { result ≡ (scene self.now).incomplete };
}
