use std::error::Error;
use std::fmt;

/// That a query stopped before it had an answer, since it was out of date.
#[derive(Clone, Copy, Debug, PartialEq, Eq)]
pub struct HandlerCancelledError {
    /// The revision that the query saw.
    pub saw: u64,
}

impl fmt::Display for HandlerCancelledError {
    ghost use Rattle.std.specs.Prelude.{Some, codes};

    ghost output = { λ _. Some (codes "Cancelled") };

    fn fmt<W: fmt::Write>(&self, f: &mut fmt::Formatter<W>) -> fmt::Result {
        f.write_str("Cancelled")
    }
}

impl Error for HandlerCancelledError {}
