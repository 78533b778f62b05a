// All that is told of a session.
use super::made::{path_at, push, put, text_of, workspace};
use plain::Items;
use project_model::ProjectWorkspace;
use status::{Health, StatusInput, current_status};
use std::alloc::Global;
use std::test::Fail;
use test_support::expect;

/// A workspace of which nothing could be read.
fn with_errors(alloc: Global) -> Option<ProjectWorkspace> {
    let mut made = workspace(alloc, "cargo /w")?;
    put(&mut made.manifest, path_at(alloc, "/w/Cargo.toml"));
    put(&mut made.error, text_of(alloc, "one"));
    put(&mut made.sysroot_error, text_of(alloc, "two"));
    put(&mut made.sysroot_metadata_error, text_of(alloc, "three"));
    put(&mut made.rustc_error, text_of(alloc, "four"));
    Some(made)
}

/// A session of which all is to be told.
fn all_facts(alloc: Global) -> StatusInput {
    let mut workspaces = Items::new(alloc);
    push(&mut workspaces, with_errors(alloc));
    StatusInput {
        reload_needed: true,
        build_deps_changed: true,
        build_error: true,
        config_errors: text_of(alloc, "settings"),
        check_error: text_of(alloc, "check"),
        no_projects: false,
        workspace_error: true,
        linked: Items::new(alloc),
        workspaces,
        fully_ready: false,
    }
}

const ALL: &str =
    "Auto-reloading is disabled and the workspace has changed, a manual workspace reload is required.\n\n\
    Proc-macros and/or build scripts have changed and need to be rebuilt.\n\n\
    Failed to run build scripts of some packages.\n\nPlease refer to the language server logs for more details on the errors.\
    settings\ncheck\nFailed to load workspaces.\n\n\
    Failed to read Cargo metadata with dependencies for `/w/Cargo.toml`: one\n\n\
    Workspace `/w/Cargo.toml` has sysroot errors: two\n\n\
    Failed to read Cargo metadata with dependencies for sysroot of `/w/Cargo.toml`: three\n\n\
    Failed loading rustc_private crates for workspace `/w/Cargo.toml`: four";

/// Whether all of it is told, as an error, of a session that isn't at rest.
fn is_told(alloc: Global, input: &StatusInput) -> bool {
    match &current_status(alloc, input) {
        Ok(status) => match &status.message {
            Some(text) => text.is(ALL) && status.health == Health::Error && !status.quiescent,
            None => false,
        },
        Err(_) => false,
    }
}

#[test]
fn facts_are_told_in_order(rt: HostRuntime) -> Result<(), Fail> {
    let input = all_facts(rt.alloc());
    let is = is_told(rt.alloc(), &input);
    drop(input);
    expect("all is told", is)
}
