//! The files that a client is to watch.
ghost use Rattle.std.specs.Prelude.{◌≡◌, ◌++◌, ◌∷◌, [], true, false, map, IfOk, OnOk};
ghost use Rattle.docs_vfs.specs.FileUrls.{url_of};
ghost use Rattle.reload.specs.Watchers.{glob_below, below_include, below_includes, below_root, below_roots, below_workspaces, is_json, as_text, of_build_files, all_build_files, of_manifest, all_manifests, watchers_of};
ghost use Rattle.lsp_types.specs.declared.watcher.Watcher.TheVariants.{Relative};

use docs_vfs::{Root, VfsPath, url_of_path};
use lsp_types::Watcher;
use plain::{Items, NoMemory, Text};
use project_model::{ProjectWorkspace, WorkspaceKind};
use std::alloc::Global;

const RUST_FILES: &str = "**/*.rs";

const SETTINGS_FILES: &str = "**/rust-analyzer.toml";

fn glob_below(alloc: Global, folder: &VfsPath, pattern: &str) -> Result<Text, NoMemory>
    ensures { IfOk result (λ text. text ≡ glob_below folder.now pattern.now) }
{
    let mut text = Text::from_str(alloc, folder.as_str())?;
    if !folder.is_root() {
        text.push_str("/")?;
    }
    text.push_str(pattern)?;
    Ok(text)
}

fn push_glob(
    alloc: Global,
    list: &mut Items<Watcher>,
    folder: &VfsPath,
    pattern: &str,
) -> Result<(), NoMemory>
    ensures { OnOk result (list.new ≡ list.old ++ as_text (glob_below folder.now pattern.now) ∷ []) }
{
    list.push(Watcher::Text(glob_below(alloc, folder, pattern)?))?;
    Ok(())
}

fn push_relative(
    alloc: Global,
    list: &mut Items<Watcher>,
    folder: &VfsPath,
    pattern: &str,
) -> Result<(), NoMemory>
    ensures { OnOk result (list.new ≡ list.old ++ Relative (url_of folder.now) pattern.now ∷ []) }
{
    list.push(Watcher::Relative {
        base_uri: url_of_path(alloc, folder)?,
        pattern: Text::from_str(alloc, pattern)?,
    })?;
    Ok(())
}

/// Adds what is watched with patterns that are relative to a folder's URL.
fn push_relatives(
    alloc: Global,
    list: &mut Items<Watcher>,
    include: &VfsPath,
) -> Result<(), NoMemory>
    ensures { OnOk result (list.new ≡ list.old ++ below_include true include.now) }
{
    push_relative(alloc, list, include, RUST_FILES)?;
    push_relative(alloc, list, include, "**/Cargo.{lock,toml}")?;
    push_relative(alloc, list, include, SETTINGS_FILES)?;
    Ok(())
}

/// Adds what is watched with whole patterns.
fn push_globs(alloc: Global, list: &mut Items<Watcher>, include: &VfsPath) -> Result<(), NoMemory>
    ensures { OnOk result (list.new ≡ list.old ++ below_include false include.now) }
{
    push_glob(alloc, list, include, RUST_FILES)?;
    push_glob(alloc, list, include, "**/Cargo.{toml,lock}")?;
    push_glob(alloc, list, include, SETTINGS_FILES)?;
    Ok(())
}

fn push_include(
    alloc: Global,
    list: &mut Items<Watcher>,
    relative: bool,
    include: &VfsPath,
) -> Result<(), NoMemory>
    ensures { OnOk result (list.new ≡ list.old ++ below_include relative include.now) }
{
    if relative {
        push_relatives(alloc, list, include)
    } else {
        push_globs(alloc, list, include)
    }
}

fn push_includes(
    alloc: Global,
    list: &mut Items<Watcher>,
    relative: bool,
    includes: &[VfsPath],
) -> Result<(), NoMemory>
    ensures { OnOk result (list.new ≡ list.old ++ below_includes relative includes.now) }
{
    for include in includes {
        push_include(alloc, list, relative, include)?;
    }
    Ok(())
}

fn push_root(
    alloc: Global,
    list: &mut Items<Watcher>,
    relative: bool,
    root: &Root,
) -> Result<(), NoMemory>
    ensures { OnOk result (list.new ≡ list.old ++ below_root relative root.now) }
{
    if root.is_local {
        push_includes(alloc, list, relative, root.include.as_slice())
    } else {
        Ok(())
    }
}

fn push_roots(
    alloc: Global,
    list: &mut Items<Watcher>,
    relative: bool,
    roots: &[Root],
) -> Result<(), NoMemory>
    ensures { OnOk result (list.new ≡ list.old ++ below_roots relative roots.now) }
{
    for root in roots {
        push_root(alloc, list, relative, root)?;
    }
    Ok(())
}

fn push_below(
    alloc: Global,
    list: &mut Items<Watcher>,
    relative: bool,
    workspaces: &[ProjectWorkspace],
) -> Result<(), NoMemory>
    ensures { OnOk result (list.new ≡ list.old ++ below_workspaces relative workspaces.now) }
{
    for workspace in workspaces {
        push_roots(alloc, list, relative, workspace.roots.as_slice())?;
    }
    Ok(())
}

fn is_json(kind: WorkspaceKind) -> bool
    ensures { result ≡ is_json kind }
{
    match kind {
        WorkspaceKind::Cargo => false,
        WorkspaceKind::Json => true,
        WorkspaceKind::DetachedFile => false,
    }
}

fn push_texts(list: &mut Items<Watcher>, texts: &[Text]) -> Result<(), NoMemory>
    ensures { OnOk result (list.new ≡ list.old ++ map as_text texts.now) }
{
    for text in texts {
        list.push(Watcher::Text(text.clone()?))?;
    }
    Ok(())
}

fn push_build_files(list: &mut Items<Watcher>, workspace: &ProjectWorkspace) -> Result<(), NoMemory>
    ensures { OnOk result (list.new ≡ list.old ++ of_build_files workspace.now) }
{
    if is_json(workspace.kind) {
        push_texts(list, workspace.build_files.as_slice())
    } else {
        Ok(())
    }
}

fn push_all_build_files(
    list: &mut Items<Watcher>,
    workspaces: &[ProjectWorkspace],
) -> Result<(), NoMemory>
    ensures { OnOk result (list.new ≡ list.old ++ all_build_files workspaces.now) }
{
    for workspace in workspaces {
        push_build_files(list, workspace)?;
    }
    Ok(())
}

fn push_manifest(
    alloc: Global,
    list: &mut Items<Watcher>,
    manifest: &Option<VfsPath>,
) -> Result<(), NoMemory>
    ensures { OnOk result (list.new ≡ list.old ++ of_manifest manifest.now) }
{
    match manifest {
        None => Ok(()),
        Some(manifest) => {
            list.push(Watcher::Text(Text::from_str(alloc, manifest.as_str())?))?;
            Ok(())
        }
    }
}

fn push_manifests(
    alloc: Global,
    list: &mut Items<Watcher>,
    workspaces: &[ProjectWorkspace],
) -> Result<(), NoMemory>
    ensures { OnOk result (list.new ≡ list.old ++ all_manifests workspaces.now) }
{
    for workspace in workspaces {
        push_manifest(alloc, list, &workspace.manifest)?;
    }
    Ok(())
}

/// The files that a client is to watch for these workspaces, with patterns that are relative to the folders' URLs or
/// with whole ones.
pub fn watchers(
    alloc: Global,
    workspaces: &[ProjectWorkspace],
    relative: bool,
) -> Result<Items<Watcher>, NoMemory>
    ensures { IfOk result (λ list. list ≡ watchers_of relative workspaces.now) }
{
    let mut list = Items::new(alloc);
    push_below(alloc, &mut list, relative, workspaces)?;
    push_all_build_files(&mut list, workspaces)?;
    push_manifests(alloc, &mut list, workspaces)?;
    Ok(list)
}
