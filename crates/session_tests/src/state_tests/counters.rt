// The ends of counters.
use super::asking::agree;
use std::test::Fail;

// What a session does with an event that needs one of a counter, where none is used, where one is left, and where none is. Refreshes,
// registrations and a button need a number of a request.
const NEEDS: &str = r#"left all then tell $/nothing null
left one of turns then tell $/nothing null
left none of turns then tell $/nothing null > no more turns
left all then ask textDocument/hover {"a":1} > Worker
left one of jobs then ask textDocument/hover {"a":1} > Worker
left none of jobs then ask textDocument/hover {"a":1} > no more jobs
left all then start > Worker
left one of jobs then start > Worker
left none of jobs then start > no more jobs
left all then ask rust-analyzer/rebuildProcMacros null > Content-Length: 38\r\n\r\n{"id":5,"jsonrpc":"2.0","result":null}Worker
left one of jobs then ask rust-analyzer/rebuildProcMacros null > Content-Length: 38\r\n\r\n{"id":5,"jsonrpc":"2.0","result":null}Worker
left none of jobs then ask rust-analyzer/rebuildProcMacros null > no more jobs
left all then deferred 0 > check
left one of jobs then deferred 0 > check
left none of jobs then deferred 0 > no more jobs
left all then open > deferrevisetimer 1
left one of revisions then open > deferrevisetimer 1
left none of revisions then open > no more revisions
left one of revisions then open then deferred
left one of revisions then open then tell textDocument/didChange {"textDocument":{"uri":"file:///w/a.rs","version":2},"contentChanges":[{"text":"b"}]} > no more revisions
left all then tell workspace/didChangeConfiguration null > Content-Length: 108\r\n\r\n{"id":0,"jsonrpc":"2.0","method":"workspace/configuration","params":{"items":[{"section":"rust-analyzer"}]}}
left one of outgoing then tell workspace/didChangeConfiguration null > Content-Length: 117\r\n\r\n{"id":2147483647,"jsonrpc":"2.0","method":"workspace/configuration","params":{"items":[{"section":"rust-analyzer"}]}}
left none of outgoing then tell workspace/didChangeConfiguration null > no more outgoing
left all then open > deferrevisetimer 1
left one of files then open > deferrevisetimer 1
left none of files then open > no more files
left one of files then open then tell textDocument/didOpen {"textDocument":{"uri":"file:///w/b.rs","version":1,"text":"b"}} > no more files
left none of files then file /w/a.rs
left none of files then read /w/a.rs a > no more files
left all then start then brought /w/Cargo.toml > loadchecksWorkerrevise
left one of loader settings then start then brought /w/Cargo.toml > load anewchecksWorkerrevise
left none of loader settings then start then brought /w/Cargo.toml > no more loader settings
as refreshes then left one of outgoing then start then fetched > no more outgoing
as hints then left one of outgoing then start then fetched > Content-Length: 72\r\n\r\n{"id":2147483647,"jsonrpc":"2.0","method":"workspace/inlayHint/refresh"}Content-Length: 106\r\n\r\n{"jsonrpc":"2.0","method":"window/showMessage","params":{"message":"Failed to load workspaces.","type":1}}fetch error
as saves then left none of outgoing then start > no more outgoing
as none then left none of outgoing then start > Worker
as watches then left none of outgoing then start then brought /w/Cargo.toml > no more outgoing
as none then left none of outgoing then start then brought /w/Cargo.toml > loadchecksWorkerrevise
as logs then left none of outgoing then start then fetched > no more outgoing
as shows then left none of outgoing then start then fetched > Content-Length: 106\r\n\r\n{"jsonrpc":"2.0","method":"window/showMessage","params":{"message":"Failed to load workspaces.","type":1}}fetch error"#;

#[test]
fn counters_end(rt: HostRuntime) -> Result<(), Fail> {
    agree(rt.alloc(), NEEDS)
}
