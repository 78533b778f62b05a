//! What the settings link, as it is told where workspaces couldn't be loaded.
ghost use Rattle.std.specs.Prelude.{◌≡◌, ◌++◌, [], IfOk, OnOk};
ghost use Rattle.std.specs.List.{list_any, filter_map};
ghost use Rattle.status.specs.Texts.{manifest_of, is_object, front_of, lines_behind, linked_text, load_text};

use docs_vfs::VfsPath;
use plain::{NoMemory, Text};
use ra_settings::LinkedProject;
use std::alloc::Global;

fn is_object(project: &LinkedProject) -> bool
    ensures { result ≡ is_object project.now }
{
    match project {
        LinkedProject::ProjectManifest(_) => false,
        LinkedProject::InlineProjectJson { .. } => true,
    }
}

fn has_objects(linked: &[LinkedProject]) -> bool
    ensures { result ≡ list_any is_object linked.now }
{
    linked.iter().any(|project| is_object(project))
}

fn front_of(first: bool) -> &'static str
    ensures { result.now ≡ front_of first }
{
    if first { "" } else { "\n    " }
}

fn push_behind(text: &mut Text, first: bool, path: &VfsPath) -> Result<(), NoMemory>
    ensures { OnOk result (text.new ≡ text.old ++ front_of first ++ path.now) }
{
    text.push_str(front_of(first))?;
    text.push_str(path.as_str())
}

/// The manifests among these, each on a line of its own.
fn manifest_lines(alloc: Global, linked: &[LinkedProject]) -> Result<Text, NoMemory>
    ensures { IfOk result (λ text. text ≡ lines_behind [] (filter_map manifest_of linked.now)) }
{
    let mut text = Text::new(alloc);
    let mut first = true;
    for project in linked {
        if let LinkedProject::ProjectManifest(path) = project {
            push_behind(&mut text, first, path)?;
            first = false;
        }
    }
    Ok(text)
}

fn linked_text(alloc: Global, linked: &[LinkedProject]) -> Result<Text, NoMemory>
    ensures { IfOk result (λ text. text ≡ linked_text linked.now) }
{
    if linked.is_empty() {
        return Ok(Text::new(alloc));
    }
    let lines = manifest_lines(alloc, linked)?;
    let mut text = Text::from_str(
        alloc,
        "`rust-analyzer.linkedProjects` have been specified, which may be incorrect. Specified project paths:",
    )?;
    text.push_str("\n")?;
    text.push_str("    ")?;
    text.push_str(lines.as_str())?;
    if has_objects(linked) {
        text.push_str("\nAdditionally, one or more project jsons are specified")?;
    }
    Ok(text)
}

/// That workspaces couldn't be loaded.
pub(crate) fn load_text(alloc: Global, linked: &[LinkedProject]) -> Result<Text, NoMemory>
    ensures { IfOk result (λ text. text ≡ load_text linked.now) }
{
    let linked = linked_text(alloc, linked)?;
    let mut text = Text::from_str(alloc, "Failed to load workspaces.")?;
    text.push_str(linked.as_str())?;
    text.push_str("\n")?;
    text.push_str("\n")?;
    Ok(text)
}
