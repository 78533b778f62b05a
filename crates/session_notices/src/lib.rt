//! What a client and a loader tell a session: what is heard in a notification, documents, saved files, settings, folders, watched
//! files and answers.
#![tactic(auto)]

mod answering;
mod asking;
mod causes;
mod checking;
mod filing;
mod hearing;
mod notifications;
mod saving;
mod settings;
mod timing;
mod watching;

pub use asking::complete_request;
pub use filing::{on_loader, process, process_changes};
pub use hearing::heard_of;
pub use notifications::on_notification;
pub use timing::set_timer;
