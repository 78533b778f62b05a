//! What a status tells of workspaces.
ghost use Rattle.std.specs.Prelude.{◌≡◌, IfOk, OnOk};
ghost use Rattle.status.specs.Drafts.{add_all, add_each};
ghost use Rattle.status.specs.Facts.{error_if, all_of, warning, errors_of, add_workspace, add_workspaces};
ghost use Rattle.status.specs.Texts.{error_text};

use crate::draft::{Draft, add};
use crate::health::Health;
use plain::{NoMemory, Text};
use project_model::ProjectWorkspace;
use std::alloc::Global;

fn error_text(
    alloc: Global,
    front: &str,
    name: &str,
    middle: &str,
    error: &str,
) -> Result<Text, NoMemory>
    ensures { IfOk result (λ text. text ≡ error_text front.now name.now middle.now error.now) }
{
    let mut text = Text::from_str(alloc, front)?;
    text.push_str(name)?;
    text.push_str(middle)?;
    text.push_str(error)?;
    text.push_str("\n")?;
    text.push_str("\n")?;
    Ok(text)
}

/// Adds an error of a workspace, where there is one.
fn add_error(
    alloc: Global,
    draft: &mut Draft,
    front: &str,
    name: &str,
    middle: &str,
    error: &Option<Text>,
) -> Result<(), NoMemory>
    ensures { OnOk result (draft.new ≡ add_all (error_if front.now name.now middle.now error.now) draft.old) }
{
    match error {
        None => Ok(()),
        Some(error) => {
            let text = error_text(alloc, front, name, middle, error.as_str())?;
            add(draft, Health::Warning, text.as_str())
        }
    }
}

/// Adds the errors of a workspace with this name.
fn add_errors(
    alloc: Global,
    draft: &mut Draft,
    name: &str,
    workspace: &ProjectWorkspace,
) -> Result<(), NoMemory>
    ensures { OnOk result (draft.new ≡ add_each all_of (errors_of name.now workspace.now) draft.old) }
{
    add_error(
        alloc,
        draft,
        "Failed to read Cargo metadata with dependencies for `",
        name,
        "`: ",
        &workspace.error,
    )?;
    add_error(
        alloc,
        draft,
        "Workspace `",
        name,
        "` has sysroot errors: ",
        &workspace.sysroot_error,
    )?;
    add_error(
        alloc,
        draft,
        "Failed to read Cargo metadata with dependencies for sysroot of `",
        name,
        "`: ",
        &workspace.sysroot_metadata_error,
    )?;
    add_error(
        alloc,
        draft,
        "Failed loading rustc_private crates for workspace `",
        name,
        "`: ",
        &workspace.rustc_error,
    )?;
    Ok(())
}

fn add_workspace(
    alloc: Global,
    draft: &mut Draft,
    workspace: &ProjectWorkspace,
) -> Result<(), NoMemory>
    ensures { OnOk result (draft.new ≡ add_workspace workspace.now draft.old) }
{
    add_errors(
        alloc,
        draft,
        workspace.manifest_or_root().as_str(),
        workspace,
    )
}

/// Adds the errors of each workspace.
pub(crate) fn add_workspaces(
    alloc: Global,
    draft: &mut Draft,
    workspaces: &[ProjectWorkspace],
) -> Result<(), NoMemory>
    ensures { OnOk result (draft.new ≡ add_workspaces workspaces.now draft.old) }
{
    for workspace in workspaces {
        add_workspace(alloc, draft, workspace)?;
    }
    Ok(())
}

/// Adds each of these warnings.
pub(crate) fn add_warnings(draft: &mut Draft, texts: &[Text]) -> Result<(), NoMemory>
    ensures { OnOk result (draft.new ≡ add_each warning texts.now draft.old) }
{
    for text in texts {
        add(draft, Health::Warning, text.as_str())?;
    }
    Ok(())
}
