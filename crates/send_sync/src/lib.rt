//! What a host with threads hands to them. JSON, a message of the client, settings, a snapshot, a job, its messages, a
//! loader's messages, an event and a command may go to another thread, and threads may share a snapshot and a job: the
//! functions here say no more than that these bounds hold. A crate above, whose types or closures hold one of these, cites
//! the rulesets `sends` and `syncs` of `proofs/Sent.antt`.
#![tactic(auto)]

use analysis_host::GlobalStateSnapshot;
use lsp_frame::Message;
use plain::{Json, SharedJson};
use ra_config::Config;
use session_port::{Command, HostEvent, Job, JobResult, LoaderMsg, TaskMsg};

/// Lets go of a value that may go to another thread.
fn sends<T: Send + Drop>(x: T) {
    drop(x)
}

/// Lets go of a value that threads may share.
fn shares<T: Sync + Drop>(x: T) {
    drop(x)
}

pub fn json_is_sent(x: Json) {
    sends(x)
}

pub fn json_is_shared(x: Json) {
    shares(x)
}

pub fn shared_json_is_sent(x: SharedJson) {
    sends(x)
}

pub fn client_message_is_sent(x: Message) {
    sends(x)
}

pub fn settings_are_sent(x: Config) {
    sends(x)
}

pub fn settings_are_shared(x: Config) {
    shares(x)
}

pub fn snapshot_is_sent(x: GlobalStateSnapshot) {
    sends(x)
}

pub fn snapshot_is_shared(x: GlobalStateSnapshot) {
    shares(x)
}

pub fn job_is_sent(x: Job) {
    sends(x)
}

pub fn job_is_shared(x: Job) {
    shares(x)
}

pub fn result_is_sent(x: JobResult) {
    sends(x)
}

pub fn message_is_sent(x: TaskMsg) {
    sends(x)
}

pub fn loader_message_is_sent(x: LoaderMsg) {
    sends(x)
}

pub fn event_is_sent(x: HostEvent) {
    sends(x)
}

pub fn command_is_sent(x: Command) {
    sends(x)
}
