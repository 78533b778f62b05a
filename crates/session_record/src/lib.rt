//! Records of sessions: how a session began, and the events that its host gave, as bytes. A record is decoded exactly
//! where it is the encoding of a session, which has one encoding. And a host that records what another gives.
#![tactic(auto)]

mod beginning;
mod fault;
mod record;
mod recorder;
mod recording;
mod start;

pub use beginning::Beginning;
pub use fault::RecordFault;
pub use record::{decode, encode, one_spelling, recorded_again};
pub use recorder::Recorder;
pub use recording::Recording;
pub use start::StartConfig;
