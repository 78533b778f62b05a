//! What a list of changes has a session do.
ghost use Rattle.std.specs.Prelude.{◌≡◌, ◌++◌, find, option_to_list, IfOk, OnOk};
ghost use Rattle.std.specs.Option.{option_copied};
ghost use Rattle.change_effects.specs.Changes.{asks_fetch, settings_of, source_of};
ghost use Rattle.change_effects.specs.Effects.{have_come_or_gone, are_awaited, settings_among, sources_among, macro_sources_of, fetch_for, effects_of};

use crate::changes::{asks_fetch, came_or_went, is_awaited, is_settings_file, is_source};
use docs_vfs::{ByPath, ChangedFile, FileId, SharedBytes, VfsPath};
use plain::{Items, NoMemory, Text, copy};
use std::alloc::Global;
use workspaces::FetchRequest;

/// A settings file that changed, and what it contains now: nothing where it was deleted.
#[derive(Drop)]
pub struct SettingsFile {
    pub path: VfsPath,
    pub contents: Option<SharedBytes>,
}

/// What a session has to do because files changed.
#[derive(Drop)]
pub struct ChangeEffects {
    /// Whether the source roots are renewed.
    pub renews_roots: bool,
    /// The settings files that changed, in the order of the changes.
    pub settings: Items<SettingsFile>,
    /// The modified files of Rust, in order, which are to be checked for sources of macros. None where the fetch is
    /// forced, since the crates are then made anew.
    pub macro_sources: Option<Items<FileId>>,
    /// The fetch of workspaces that is asked for.
    pub fetch: Option<FetchRequest>,
}

fn have_come_or_gone(changes: &[ChangedFile]) -> bool
    ensures { result ≡ have_come_or_gone changes.now }
{
    changes.iter().any(|change| came_or_went(change))
}

fn are_awaited(asked: &ByPath<()>, changes: &[ChangedFile]) -> bool
    ensures { result ≡ are_awaited asked.now changes.now }
{
    changes.iter().any(|change| is_awaited(asked, change))
}

fn push_settings(list: &mut Items<SettingsFile>, change: &ChangedFile) -> Result<(), NoMemory>
    ensures { OnOk result (list.new ≡ list.old ++ option_to_list (settings_of change.now)) }
{
    if is_settings_file(&change.path) {
        list.push(SettingsFile {
            path: copy(&change.path)?,
            contents: copy(&change.contents)?,
        })?;
    }
    Ok(())
}

fn settings_among(alloc: Global, changes: &[ChangedFile]) -> Result<Items<SettingsFile>, NoMemory>
    ensures { IfOk result (λ list. list ≡ settings_among changes.now) }
{
    let mut list = Items::new(alloc);
    for change in changes {
        push_settings(&mut list, change)?;
    }
    Ok(list)
}

fn push_source(list: &mut Items<FileId>, change: &ChangedFile) -> Result<(), NoMemory>
    ensures { OnOk result (list.new ≡ list.old ++ option_to_list (source_of change.now)) }
{
    if is_source(change) {
        list.push(change.file)?;
    }
    Ok(())
}

fn sources_among(alloc: Global, changes: &[ChangedFile]) -> Result<Items<FileId>, NoMemory>
    ensures { IfOk result (λ list. list ≡ sources_among changes.now) }
{
    let mut list = Items::new(alloc);
    for change in changes {
        push_source(&mut list, change)?;
    }
    Ok(list)
}

/// The sources to be checked, unless the fetch is forced.
fn macro_sources_of(
    alloc: Global,
    is_forced: bool,
    changes: &[ChangedFile],
) -> Result<Option<Items<FileId>>, NoMemory>
    ensures { IfOk result (λ list. list ≡ macro_sources_of is_forced changes.now) }
{
    if is_forced {
        Ok(None)
    } else {
        Ok(Some(sources_among(alloc, changes)?))
    }
}

fn first_asking<'a>(additional: &[Text], changes: &'a [ChangedFile]) -> Option<&'a ChangedFile>
    ensures { option_copied result ≡ find (asks_fetch additional.now) changes.now }
{
    changes.iter().find(|change| asks_fetch(additional, change))
}

/// The fetch that the changes ask for.
fn fetch_for(
    force: bool,
    additional: &[Text],
    changes: &[ChangedFile],
) -> Result<Option<FetchRequest>, NoMemory>
    ensures { IfOk result (λ request. request ≡ fetch_for force additional.now changes.now) }
{
    match first_asking(additional, changes) {
        None => Ok(None),
        Some(change) => Ok(Some(FetchRequest {
            path: Some(copy(&change.path)?),
            force,
        })),
    }
}

/// What follows from changes, in the order of their paths, where crate data asked for some paths, and a change of a file
/// with one of the additional names asks for a fetch too.
pub fn effects_of(
    alloc: Global,
    changes: &[ChangedFile],
    asked: &ByPath<()>,
    additional: &[Text],
) -> Result<ChangeEffects, NoMemory>
    ensures { IfOk result (λ effects. effects ≡ effects_of asked.now additional.now changes.now) }
{
    let is_forced = are_awaited(asked, changes);
    Ok(ChangeEffects {
        renews_roots: have_come_or_gone(changes),
        settings: settings_among(alloc, changes)?,
        macro_sources: macro_sources_of(alloc, is_forced, changes)?,
        fetch: fetch_for(is_forced, additional, changes)?,
    })
}
