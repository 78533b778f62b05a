// Why fetches of workspaces are asked for: the cause on the queue, and the path of the fetch.
use super::asking::agree;
use std::test::Fail;

// The start, requests, other settings and folders, files that changed, whose fetch waits for its timer first, and saved documents. The
// newest one takes the place of one that waits, and is forced where that is.
const CAUSES: &str = r#"as by hand then cause > no fetch
as by hand then start then cause > no fetch
as by hand then start then start then fetched then cause > startup, no path
as by hand then ask rust-analyzer/reloadWorkspace null then cause > reload workspace request, no path
as by hand then tell workspace/didChangeWorkspaceFolders {"event":{"added":[{"uri":"file:///x"}],"removed":[]}} then cause > client workspaces changed, no path
as by hand then tell workspace/didChangeConfiguration {} then answer [{"linkedProjects":["a/Cargo.toml"],"cargo":{"autoreload":false}}] then cause > discovered projects changed, no path
as by hand then tell workspace/didChangeConfiguration {} then answer [{"cargo":{"target":"x","autoreload":false}}] then cause > cargo config changed, no path
as by hand then tell workspace/didChangeConfiguration {} then answer [{"cfg":{"setTest":false},"cargo":{"autoreload":false}}] then cause > cfg_set_test config changed, no path
as by hand then file /w/b.rs a then cause > no fetch
as by hand then file /w/b.rs a then timer 1 then cause > project structure change, /w/b.rs
as by hand then file /w/Cargo.toml a then save /w/Cargo.toml then cause > workspace vfs file change saved /w/Cargo.toml, /w/Cargo.toml
as by hand then start then alone /w/a.rs then open then save /w/a.rs then cause > detached file saved /w/a.rs, /w/a.rs
as by hand then start then crate /w/Cargo.toml /w/lib.rs then file /w/lib.rs a then timer 2 then cause > forced project structure change, /w/lib.rs
as by hand then start then crate /w/Cargo.toml /w/lib.rs then file /w/lib.rs a then timer 2 then ask rust-analyzer/reloadWorkspace null then cause > forced reload workspace request, no path
as by hand then ask rust-analyzer/reloadWorkspace null then cause then cause > no fetch"#;

#[test]
fn each_fetch_has_its_cause(rt: HostRuntime) -> Result<(), Fail> {
    agree(rt.alloc(), CAUSES)
}
