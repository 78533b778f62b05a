// Settings files that change, and the roots that their settings are of.
use super::asking::agree;
use std::test::Fail;

// Any file in a local root may turn its diagnostics off, of two the smaller path; what no root is asked for stays.
const FILES: &str = r#"start then at first > checked, diagnosed
start then brought /w/Cargo.toml then file /w/rust-analyzer.toml checkOnSave = false then settings > checked, 1 folder
start then brought /w/Cargo.toml then file /w/a/rust-analyzer.toml diagnostics.enable = false then at first > checked, undiagnosed
start then brought /w/Cargo.toml then file /w/rust-analyzer.toml diagnostics.enable = true then file /w/a/rust-analyzer.toml diagnostics.enable = false then at first > checked, diagnosed"#;

// A root that lies below another has not its settings yet, where no file has changed behind the switch that brought both.
const ROOTS: &str =
    r#"tell workspace/didChangeConfiguration {} then answer [{"cargo":{"buildScripts":{"enable":false}}}] then brought /w/Cargo.toml then file /w/rust-analyzer.toml checkOnSave = false then ask rust-analyzer/reloadWorkspace null then brought second /w/Cargo.toml,/w/a/Cargo.toml then at second > checked, diagnosed"#;

// Of two files of a root and kind that change at once the smaller path holds. One of each kind holds.
const FURTHER: &str =
    r#"start then brought /w/Cargo.toml then loading then file /w/b/rust-analyzer.toml diagnostics.enable = true then file /w/a/rust-analyzer.toml diagnostics.enable = false then loaded then at first > checked, undiagnosed
start then brought /w/Cargo.toml then loading then file /w/rust-analyzer.toml checkOnSave = false then file /w/a/rust-analyzer.toml diagnostics.enable = false then loaded then at first > unchecked, undiagnosed"#;

// The world gets the roots of the last switch with crate data, and where a file comes or goes; a switch whose crate data waits for its
// macros leaves the roots of the world as they are.
const WORLDS: &str = r#"start then root > no root
start then loading then brought /w/Cargo.toml then root > no root
start then brought /w/Cargo.toml then root > first root
start then brought /w/Cargo.toml,/w/a/Cargo.toml then root > second root
start then brought /w/Cargo.toml then ask rust-analyzer/reloadWorkspace null then brought third /w/Cargo.toml,/w/a/Cargo.toml then root > first root
tell workspace/didChangeConfiguration {} then answer [{"cargo":{"buildScripts":{"enable":false}}}] then brought /w/Cargo.toml then ask rust-analyzer/reloadWorkspace null then brought second /w/Cargo.toml,/w/a/Cargo.toml then root > first root
tell workspace/didChangeConfiguration {} then answer [{"cargo":{"buildScripts":{"enable":false}}}] then brought /w/Cargo.toml then ask rust-analyzer/reloadWorkspace null then brought second /w/Cargo.toml,/w/a/Cargo.toml then macros third then root > second root
tell workspace/didChangeConfiguration {} then answer [{"cargo":{"buildScripts":{"enable":false}}}] then brought /w/Cargo.toml then ask rust-analyzer/reloadWorkspace null then brought second /w/Cargo.toml,/w/a/Cargo.toml then failed third then root > second root
tell workspace/didChangeConfiguration {} then answer [{"cargo":{"buildScripts":{"enable":false}}}] then brought /w/Cargo.toml then ask rust-analyzer/reloadWorkspace null then brought second /w/Cargo.toml,/w/a/Cargo.toml then file /x/b.rs a then root > second root
tell workspace/didChangeConfiguration {} then answer [{"cargo":{"buildScripts":{"enable":false}}}] then brought /w/Cargo.toml then file /x/b.rs a then ask rust-analyzer/reloadWorkspace null then brought second /w/Cargo.toml,/w/a/Cargo.toml then file /x/b.rs b then root > first root
tell workspace/didChangeConfiguration {} then answer [{"cargo":{"buildScripts":{"enable":false}}}] then brought /w/Cargo.toml then file /x/b.rs a then ask rust-analyzer/reloadWorkspace null then brought second /w/Cargo.toml,/w/a/Cargo.toml then file /x/b.rs then root > second root
tell workspace/didChangeConfiguration {} then answer [{"cargo":{"buildScripts":{"enable":false}}}] then brought /w/Cargo.toml then ask rust-analyzer/reloadWorkspace null then brought second /w/Cargo.toml,/w/a/Cargo.toml then loading then file /x/b.rs a then root > first root
tell workspace/didChangeConfiguration {} then answer [{"cargo":{"buildScripts":{"enable":false}}}] then brought /w/Cargo.toml then ask rust-analyzer/reloadWorkspace null then brought second /w/Cargo.toml,/w/a/Cargo.toml then loading then file /x/b.rs a then loaded then root > second root
tell workspace/didChangeConfiguration {} then answer [{"cargo":{"buildScripts":{"enable":false}}}] then brought /w/Cargo.toml then ask rust-analyzer/reloadWorkspace null then brought second /x/Cargo.toml then macros third then root > no root"#;

// Behind a whole reload, before the load of macros has ended and behind it.
const RELOADED: &str =
    r#"as hints then start then read /w/a.rs fn a() { and /w/b.rs ) then tell textDocument/didOpen {"textDocument":{"uri":"file:///w/a.rs","version":1,"text":"fn a() {"}} then tell textDocument/didOpen {"textDocument":{"uri":"file:///w/b.rs","version":1,"text":")"}} then described /w/Cargo.toml then loaded then timer 1 then scripts second then described third /w/Cargo.toml then reloaded then root > first root
as hints then start then read /w/a.rs fn a() { and /w/b.rs ) then tell textDocument/didOpen {"textDocument":{"uri":"file:///w/a.rs","version":1,"text":"fn a() {"}} then tell textDocument/didOpen {"textDocument":{"uri":"file:///w/b.rs","version":1,"text":")"}} then described /w/Cargo.toml then loaded then timer 1 then scripts second then described third /w/Cargo.toml then reloaded then macros fourth then root > first root"#;

#[test]
fn settings_files_change_settings(rt: HostRuntime) -> Result<(), Fail> {
    agree(rt.alloc(), FILES)?;
    agree(rt.alloc(), ROOTS)?;
    agree(rt.alloc(), FURTHER)
}

#[test]
fn worlds_get_their_roots(rt: HostRuntime) -> Result<(), Fail> {
    agree(rt.alloc(), WORLDS)?;
    agree(rt.alloc(), RELOADED)
}
