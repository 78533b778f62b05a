use crate::class::PoolClass;

/// What is done for a request. Where it is by other than a refusal or a default, its params are read first.
#[derive(Clone, Copy, PartialEq, Eq, PartialOrd, Ord, Hash)]
pub enum Plan {
    /// The session is to shut down, also where it was told so before.
    Shutdown,
    /// It is refused, since the session is to shut down.
    Refuse,
    /// It is refused, since no row has its method.
    Unknown,
    /// It is answered by the row's default, and its params are not read.
    Default,
    /// It is answered by its own params.
    Identity,
    /// It changes the session's own state.
    State,
    /// It is answered by a query in this turn.
    OnLoop,
    /// It is answered by a job for these workers.
    Job(PoolClass),
}
