//! What a client's notifications tell, and what the server's own messages say.
#![tactic(auto)]

mod cancelling;
mod changing;
mod fault;
mod flychecks;
mod named;
mod notice;
mod objects;
mod opening;
mod outgo;
mod progress;
mod progressing;
mod publishing;
mod reading;
mod registering;
mod showing;
mod testing;
mod uris;
mod writing;

pub use fault::NoticeFault;
pub use lsp_types::Watcher;
pub use named::notification_is;
pub use notice::{DidChange, DidOpen, Notice};
pub use outgo::{MessageKind, Outgo, ProgressValue, TestReport};
pub use plain::NoMemory;
pub use progress::Progress;
pub use reading::read_notice;
pub use writing::{is_request, outgo_body};
