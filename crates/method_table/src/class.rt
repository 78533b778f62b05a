/// How the requests of a row are answered.
#[derive(Clone, Copy, Debug, PartialEq, Eq, PartialOrd, Ord, Hash)]
pub enum Class {
    /// By a change of the session's own state, in the turn that reads the request.
    State,
    /// By a query on the session's own thread, in the turn that reads the request.
    OnLoop,
    /// By a job for the formatting workers, also while files are loading.
    Formatting,
    /// By a job that a user waits for at the keyboard; while files are loading by the default.
    Latency,
    /// By a job; while files are loading or the crate graph is incomplete by the default.
    DocumentDiagnostic,
    /// By a job; while files are loading by the default.
    Worker,
    /// By a job; while files are loading by the request's own params.
    Identity,
}

/// Which workers a job is for.
#[derive(Clone, Copy, Debug, PartialEq, Eq, PartialOrd, Ord, Hash)]
pub enum PoolClass {
    Worker,
    Latency,
    Formatting,
}
