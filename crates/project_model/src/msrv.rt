// Warnings of workspaces whose compiler is older than the oldest that is supported.
ghost use Rattle.std.specs.Prelude.{◌≡◌, ◌++◌, false, Some, Ok, option_to_list, IfOk, OnOk, MatchOption};
ghost use Rattle.std.specs.List.{filter_map};
ghost use Rattle.semver.specs.Identifiers.{parts_of};
ghost use Rattle.semver.specs.Parse.{version_parts};
ghost use Rattle.project_model.specs.Msrv.{is_outdated, msrv_text, text_of_toolchain, text_of_workspace, msrv_texts};

use crate::workspace::ProjectWorkspace;
use plain::{Items, NoMemory, Text};
use semver::{Error, Version};
use std::alloc::{AllocError, Global};
use std::cmp::Ordering;

/// The version that a text is, where it is one.
fn version_of(alloc: Global, text: &str) -> Result<Option<Version>, NoMemory>
    ensures { IfOk result (λ version. MatchOption version (is_outdated text.now ≡ false)
        (λ v. version_parts text.now ≡ Ok (parts_of v))) }
{
    match Version::parse(alloc, text) {
        Ok(version) => Ok(Some(version)),
        Err(error) => {
            if error == Error::from(AllocError) {
                Err(AllocError)
            } else {
                Ok(None)
            }
        }
    }
}

/// Whether a text is a version below the oldest that is supported.
fn is_outdated(alloc: Global, toolchain: &str) -> Result<bool, NoMemory>
    ensures { IfOk result (λ outdated. outdated ≡ is_outdated toolchain.now) }
{
    match version_of(alloc, toolchain)? {
        None => Ok(false),
        Some(version) => match version.cmp_precedence(&Version::new(1, 78, 0)) {
            Ordering::Less => Ok(true),
            Ordering::Equal => Ok(false),
            Ordering::Greater => Ok(false),
        },
    }
}

/// What is told of a workspace with this name and toolchain.
fn msrv_text(alloc: Global, name: &str, toolchain: &str) -> Result<Text, NoMemory>
    ensures { IfOk result (λ text. text ≡ msrv_text name.now toolchain.now) }
{
    let mut text = Text::from_str(alloc, "Workspace `")?;
    text.push_str(name)?;
    text.push_str("` is using an outdated toolchain version `")?;
    text.push_str(toolchain)?;
    text.push_str("` but rust-analyzer only supports `1.78.0` and higher.")?;
    text.push_str("\n")?;
    text.push_str("Consider using the rust-analyzer rustup component for your toolchain or")?;
    text.push_str("\n")?;
    text.push_str("upgrade your toolchain to a supported version.")?;
    text.push_str("\n")?;
    text.push_str("\n")?;
    Ok(text)
}

fn push_toolchain(
    alloc: Global,
    texts: &mut Items<Text>,
    name: &str,
    toolchain: &Text,
) -> Result<(), NoMemory>
    ensures { OnOk result (texts.new ≡ texts.old ++ option_to_list (text_of_toolchain name.now (Some toolchain.now))) }
{
    if is_outdated(alloc, toolchain.as_str())? {
        texts.push(msrv_text(alloc, name, toolchain.as_str())?)?;
    }
    Ok(())
}

fn push_workspace(
    alloc: Global,
    texts: &mut Items<Text>,
    workspace: &ProjectWorkspace,
) -> Result<(), NoMemory>
    ensures { OnOk result (texts.new ≡ texts.old ++ option_to_list (text_of_workspace workspace.now)) }
{
    match &workspace.toolchain {
        None => Ok(()),
        Some(toolchain) => {
            push_toolchain(
                alloc,
                texts,
                workspace.manifest_or_root().as_str(),
                toolchain,
            )
        }
    }
}

/// A text for each workspace whose toolchain reads as a version below 1.78.0.
pub fn check_workspaces_msrv(
    alloc: Global,
    workspaces: &[ProjectWorkspace],
) -> Result<Items<Text>, NoMemory>
    ensures { IfOk result (λ texts. texts ≡ msrv_texts workspaces.now) }
{
    let mut texts = Items::new(alloc);
    for workspace in workspaces {
        push_workspace(alloc, &mut texts, workspace)?;
    }
    Ok(texts)
}
