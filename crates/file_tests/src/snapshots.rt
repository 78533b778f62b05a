// A snapshot of a world with one file, `/w/a.rs` with the number 0, the text `mod b;` and the version 3, at revision 9, with one workspace.
use crate::calls::{host_with, is_free, one, path_at, text_of};
use analysis_host::{GlobalStateSnapshot, SnapshotParts, Versions, World};
use docs_vfs::{FileExcluded, FileId};
use file_ids::FileIds;
use plain::{Items, Text};
use project_model::{Package, ProjectWorkspace, Target, TargetKind, WorkspaceKind};
use ra_config::Config;
use std::alloc::Global;
use std::sync::Arc;

/// Settings as they are by default.
fn settings(alloc: Global) -> Option<Arc<Config, Global>> {
    let config = Config::new(alloc, path_at(alloc, "/w")?, 4).ok()?;
    Arc::new(alloc, config).ok()
}

/// `/w/a.rs` with the number 0.
fn numbers(alloc: Global) -> FileIds {
    let mut ids = FileIds::new(alloc);
    if let Some(path) = path_at(alloc, "/w/a.rs") {
        if is_free(&ids, &path, FileId(0)) {
            let _ = ids.put(path, Some((FileId(0), FileExcluded::No)));
        }
    }
    ids
}

/// Versions that say 3 at `/w/a.rs`.
fn third_versions(alloc: Global) -> Option<Versions> {
    let versions = Versions::new(alloc).ok()?;
    versions
        .set(alloc, path_at(alloc, "/w/a.rs")?, Some(3))
        .ok()
}

fn word(alloc: Global, words: &str) -> Text {
    text_of(alloc, words).unwrap_or(Text::new(alloc))
}

/// A workspace at `/w` that is described as JSON. Its package `p` has the target `/w/a.rs` and depends on `b`.
fn workspaces(alloc: Global) -> Option<Arc<Items<ProjectWorkspace>, Global>> {
    let (file, (manifest, root)) = path_at(alloc, "/w/a.rs").zip(path_at(alloc, "/w/BUCK").zip(
        path_at(alloc, "/w"),
    ))?;
    let target = Target {
        name: word(alloc, "a"),
        kind: TargetKind::Lib,
        root: file,
        required_features: Items::new(alloc),
    };
    let package = Package {
        id: word(alloc, "p"),
        manifest,
        targets: one(alloc, target),
        features: Items::new(alloc),
        member_deps: Some(one(alloc, word(alloc, "b"))),
    };
    let workspace = ProjectWorkspace {
        kind: WorkspaceKind::Json,
        manifest: None,
        root,
        roots: Items::new(alloc),
        packages: one(alloc, package),
        crates: Items::new(alloc),
        build_files: Items::new(alloc),
        toolchain: None,
        error: None,
        sysroot_root: None,
        sysroot_error: None,
        sysroot_metadata_error: None,
        rustc_error: None,
        build: None,
    };
    Arc::new(alloc, one(alloc, workspace)).ok()
}

fn world(alloc: Global) -> Option<World> {
    let host = host_with(alloc, "/w/a.rs", "mod b;")?;
    let world = host.world().ok();
    drop(host);
    world
}

/// The snapshot.
pub fn snapshot(alloc: Global) -> Option<GlobalStateSnapshot> {
    let shared = settings(alloc).zip(workspaces(alloc));
    let ((world, versions), (config, workspaces)) = world(alloc)
        .zip(third_versions(alloc))
        .zip(shared)?;
    GlobalStateSnapshot::new(SnapshotParts {
        world,
        file_ids: numbers(alloc),
        versions,
        config,
        check_fixes: Arc::new(alloc, Items::new(alloc)).ok()?,
        proc_macros_loaded: true,
        workspaces,
        workspaces_version: 5,
        revision: 9,
    })
    .ok()
}
