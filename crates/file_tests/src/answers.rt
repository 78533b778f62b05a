// What a snapshot answers of its file.
use crate::calls::{path_at, text_of};
use crate::snapshots::snapshot;
use analysis_host::{
    GlobalStateSnapshot, LensKind, LensResolve, annotation, file_position, file_range,
};
use docs_vfs::FileId;
use project_model::{PackageSpecifier, TargetSpec};
use std::alloc::Global;
use text_core::{Position, Range};

const URL: &str = "file:///w/a.rs";

const AT: Position = Position {
    line: 0,
    character: 4,
};

const RANGE: Range = Range {
    start: Position {
        line: 0,
        character: 0,
    },
    end: AT,
};

/// Whether a position and a range are found.
fn finds_places(alloc: Global, snapshot: &GlobalStateSnapshot) -> Option<bool> {
    let place = file_position(alloc, snapshot, URL, AT).ok()??;
    let places = file_range(alloc, snapshot, URL, RANGE).ok()??;
    Some(place.offset == 4 && places.start == 0 && places.end == 4)
}

/// Whether a lens is found.
fn finds_lens(alloc: Global, snapshot: &GlobalStateSnapshot) -> Option<bool> {
    let lens = LensResolve {
        version: 3,
        kind: LensKind::References,
        url: text_of(alloc, URL)?,
        position: AT,
    };
    let found = annotation(alloc, snapshot, RANGE, &lens).ok();
    drop(lens);
    let found = found??;
    Some(found.start == 0 && found.end == 4 && found.pos.offset == 4)
}

/// Whether a file has this URL, and this URL is that of a path beside it.
fn has_urls(alloc: Global, snapshot: &GlobalStateSnapshot) -> bool {
    if let Ok(Some(file)) = snapshot.url_to_file_id(alloc, URL) {
        let url = snapshot.file_id_to_url(alloc, file).ok();
        let beside = snapshot.anchored_path(alloc, file, "b.rs").ok();
        return match (&url, &beside) {
            (Some(url), Some(Some(beside))) => url.is(URL) && beside.is("file:///w/b.rs"),
            _ => false,
        };
    }
    false
}

/// Whether a path has the number 0, and its URL the version 3.
fn has_number(alloc: Global, snapshot: &GlobalStateSnapshot) -> Option<bool> {
    let path = path_at(alloc, "/w/a.rs")?;
    let file = snapshot.vfs_path_to_file_id(&path).ok()??;
    let version = snapshot.url_file_version(alloc, URL).ok()?;
    Some(file.0 == 0 && version == Some(3))
}

/// How many lines a file has.
fn lines(snapshot: &GlobalStateSnapshot, file: FileId) -> Option<u64> {
    let found = snapshot.file_line_index(file).ok()??;
    let lines = found.index.lines();
    drop(found);
    Some(lines)
}

/// Whether a target has this label.
fn has_target(alloc: Global, snapshot: &GlobalStateSnapshot) -> Option<bool> {
    let path = path_at(alloc, "/w/a.rs")?;
    let spec = snapshot.target_spec_for_file(alloc, &path).ok();
    let has_label = match &spec {
        Some(Some(TargetSpec::ProjectJson { label, .. })) => label.is("p"),
        _ => false,
    };
    drop(spec);
    Some(has_label)
}

/// Whether a package depends on this one.
fn has_dependency(alloc: Global, snapshot: &GlobalStateSnapshot) -> Option<bool> {
    let package = PackageSpecifier::BuildInfo {
        label: text_of(alloc, "p")?,
    };
    let packages = snapshot
        .all_workspace_dependencies_for_package(alloc, &package)
        .ok();
    drop(package);
    let is_found = match &packages {
        Some(Some(packages)) => match packages.get(0) {
            Some(first) => first.id().as_str() == "b",
            None => false,
        },
        _ => false,
    };
    drop(packages);
    Some(is_found)
}

/// Whether a snapshot answers a call.
fn answers_call(alloc: Global, snapshot: &GlobalStateSnapshot, call: &str) -> Option<bool> {
    match call {
        "places in a snapshot" => finds_places(alloc, snapshot),
        "a lens in a snapshot" => finds_lens(alloc, snapshot),
        "URLs in a snapshot" => Some(has_urls(alloc, snapshot)),
        "a number in a snapshot" => has_number(alloc, snapshot),
        "lines in a snapshot" => Some(lines(snapshot, FileId(0)) == Some(1)),
        "a target in a snapshot" => has_target(alloc, snapshot),
        "a package in a snapshot" => has_dependency(alloc, snapshot),
        _ => None,
    }
}

/// The same of a snapshot that is made.
pub fn answers(alloc: Global, call: &str) -> Option<bool> {
    let snapshot = snapshot(alloc);
    let found = match &snapshot {
        Some(snapshot) => answers_call(alloc, snapshot, call),
        None => None,
    };
    drop(snapshot);
    found
}
