// The settings behind notifications, and behind responses to the session's own requests.
use super::asking::agree;
use std::test::Fail;

// Whether checks run when a file is saved, and how many folders there are, after some messages.
const SETTINGS: &str = r#"settings > checked, 1 folder
tell workspace/didChangeConfiguration {} then answer [{"checkOnSave":false}] then settings > unchecked, 1 folder
tell workspace/didChangeWorkspaceFolders {"event":{"added":[{"uri":"file:///x"}],"removed":[]}} then settings > checked, 2 folders"#;

#[test]
fn messages_change_settings(rt: HostRuntime) -> Result<(), Fail> {
    agree(rt.alloc(), SETTINGS)
}
