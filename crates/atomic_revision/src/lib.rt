//! The revision word: one thread raises it, and each worker looks at it through a seat of its own.
#![tactic(auto)]

mod atomic_revision;
mod observed;
mod revision_cancel;
mod writer;

pub use atomic_revision::AtomicRevision;
pub use observed::{Observed, ReaderHandle};
pub use plain::NoMemory;
pub use revision_cancel::RevisionCancel;
pub use writer::Writer;
