//! What a worker is started for.
ghost use Rattle.std.specs.Prelude.{◌≡◌, ◌≤◌, None};

use atomic_revision::RevisionCancel;
use inbox::WorkerEnd;
use session_port::Job;

/// A job, with a seat at the revision word that has looked at nothing yet, and an end of the inbox.
#[derive(Drop)]
pub struct Assignment {
    pub job: Job,
    pub cancel: RevisionCancel,
    pub end: WorkerEnd,
    ghost floor: { job.snapshot.revision ≤ cancel.floor },
    ghost unseen: { cancel.seen ≡ None },
    ghost fresh: { cancel.seat.me.0.loads ≡ 0 },
}
