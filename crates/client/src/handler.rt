// What follows an answer.

/// What follows the answer to a request of the session's own.
#[derive(Clone, Copy, Debug, PartialEq, Eq)]
pub enum ReqHandler {
    Ignore,
    /// It says the client's settings.
    Settings,
    /// Where an action was chosen, the client is to open the logs.
    OpenLogs,
}
