//! Settings files as a change of settings.
ghost use Rattle.std.specs.Prelude.{◌≡◌, ◌++◌, Some, option_to_list, IfOk, OnOk};
ghost use Rattle.std.specs.Option.{option_copied};
ghost use Rattle.text_core.specs.LineEnds.{normalized};
ghost use Rattle.change_effects.specs.Filing.{filed_change, crate_file, crate_files, file_in, is_at_workspace, is_folder, text_in, workspace_file, workspace_files};

use crate::effects::SettingsFile;
use docs_vfs::{SharedBytes, SourceRoots, VfsPath};
use layered_settings::{ConfigChange, SettingsFile as RootFile};
use plain::{ArcText, Items, NoMemory, Text};
use project_model::ProjectWorkspace;
use std::alloc::Global;
use text_core::LineEndings;

/// A text with LF for each CR LF.
fn normalized(text: ArcText) -> Result<Text, NoMemory>
    ensures { IfOk result (λ made. made ≡ normalized text) }
{
    let (text, _endings) = LineEndings::normalize(text.into_text()?);
    Ok(text)
}

/// The text that bytes are, normalised.
#[tactic(auto, using(crate::proofs::TextLemmas::bytes_texts))]
fn text_of(alloc: Global, bytes: &SharedBytes) -> Result<Option<Text>, NoMemory>
    ensures { IfOk result (λ text. text ≡ text_in (Some bytes.now)) }
{
    if bytes.as_slice().len() > u32::MAX as usize {
        return Ok(None);
    }
    match bytes.to_text(alloc)? {
        Some(text) => Ok(Some(normalized(text)?)),
        None => Ok(None),
    }
}

/// The same of a file, which has none where it was deleted.
fn text_in(alloc: Global, contents: &Option<SharedBytes>) -> Result<Option<Text>, NoMemory>
    ensures { IfOk result (λ text. text ≡ text_in contents.now) }
{
    match contents {
        Some(bytes) => text_of(alloc, bytes),
        None => Ok(None),
    }
}

fn is_folder(folder: Option<&str>, root: &VfsPath) -> bool
    ensures { result ≡ is_folder (option_copied folder.entry) root.now }
{
    match folder {
        None => false,
        Some(folder) => folder == root.as_str(),
    }
}

/// Whether a path stands right at the root of a workspace.
fn is_at_workspace(workspaces: &[ProjectWorkspace], path: &VfsPath) -> bool
    ensures { result ≡ is_at_workspace workspaces.now path.now }
{
    let folder = path.parent_str();
    workspaces
        .iter()
        .any(|workspace| is_folder(folder, &workspace.root))
}

/// A file in a local root, with its root.
fn file_in(
    alloc: Global,
    roots: &SourceRoots,
    file: &SettingsFile,
) -> Result<Option<RootFile>, NoMemory>
    ensures { IfOk result (λ found. found ≡ file_in roots.now file.now) }
{
    let root = roots.root_of(&file.path);
    if !roots.is_local(root) {
        return Ok(None);
    }
    Ok(Some(RootFile {
        root,
        path: file.path.clone()?,
        text: text_in(alloc, &file.contents)?,
    }))
}

fn workspace_file(
    alloc: Global,
    roots: &SourceRoots,
    workspaces: &[ProjectWorkspace],
    file: &SettingsFile,
) -> Result<Option<RootFile>, NoMemory>
    ensures { IfOk result (λ found. found ≡ workspace_file roots.now workspaces.now file.now) }
{
    if is_at_workspace(workspaces, &file.path) {
        file_in(alloc, roots, file)
    } else {
        Ok(None)
    }
}

fn crate_file(
    alloc: Global,
    roots: &SourceRoots,
    workspaces: &[ProjectWorkspace],
    file: &SettingsFile,
) -> Result<Option<RootFile>, NoMemory>
    ensures { IfOk result (λ found. found ≡ crate_file roots.now workspaces.now file.now) }
{
    if is_at_workspace(workspaces, &file.path) {
        Ok(None)
    } else {
        file_in(alloc, roots, file)
    }
}

fn push_found(list: &mut Items<RootFile>, found: Option<RootFile>) -> Result<(), NoMemory>
    ensures { OnOk result (list.new ≡ list.old ++ option_to_list found) }
{
    if let Some(file) = found {
        list.push(file)?;
    }
    Ok(())
}

/// The files of workspaces.
fn workspace_files(
    alloc: Global,
    roots: &SourceRoots,
    workspaces: &[ProjectWorkspace],
    files: &[SettingsFile],
) -> Result<Items<RootFile>, NoMemory>
    ensures { IfOk result (λ list. list ≡ workspace_files roots.now workspaces.now files.now) }
{
    let mut list = Items::new(alloc);
    for file in files {
        push_found(&mut list, workspace_file(alloc, roots, workspaces, file)?)?;
    }
    Ok(list)
}

/// The files of crates.
fn crate_files(
    alloc: Global,
    roots: &SourceRoots,
    workspaces: &[ProjectWorkspace],
    files: &[SettingsFile],
) -> Result<Items<RootFile>, NoMemory>
    ensures { IfOk result (λ list. list ≡ crate_files roots.now workspaces.now files.now) }
{
    let mut list = Items::new(alloc);
    for file in files {
        push_found(&mut list, crate_file(alloc, roots, workspaces, file)?)?;
    }
    Ok(list)
}

/// The change of settings that changed files come to: by their roots, each of those in local roots with its text, or
/// with none where it was deleted. The roots have these parents from then on, where some are given.
pub fn settings_change(
    alloc: Global,
    roots: &SourceRoots,
    parents: Option<Items<(u32, u32)>>,
    workspaces: &[ProjectWorkspace],
    files: &[SettingsFile],
) -> Result<ConfigChange, NoMemory>
    ensures { IfOk result (λ change. change ≡ filed_change roots.now parents workspaces.now files.now) }
{
    Ok(ConfigChange {
        client: None,
        user: None,
        workspace_toml: workspace_files(alloc, roots, workspaces, files)?,
        crate_toml: crate_files(alloc, roots, workspaces, files)?,
        parents,
    })
}
