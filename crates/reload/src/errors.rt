ghost use Rattle.std.specs.Prelude.{◌≡◌, ◌++◌, map, IfOk, OnOk};
ghost use Rattle.std.specs.Option.{option_copied};
ghost use Rattle.std.specs.List.{concat};
ghost use Rattle.reload.specs.Errors.{unless_empty, line_of_failed, line_of_workspace, text_of_fetch, fetch_error, line_of_error, line_of_build, build_error};

use plain::{NoMemory, Text};
use project_model::{BuildScripts, ProjectWorkspace};
use std::alloc::Global;

fn unless_empty(text: Text) -> Option<Text>
    ensures { result ≡ unless_empty text }
{
    if text.len() == 0 { None } else { Some(text) }
}

fn push_line(text: &mut Text, error: &Text) -> Result<(), NoMemory>
    ensures { OnOk result (text.new ≡ text.old ++ line_of_error (Some error.now)) }
{
    text.push_str(error.as_str())?;
    text.push_str("\n")
}

fn push_failed(text: &mut Text, error: &Text) -> Result<(), NoMemory>
    ensures { OnOk result (text.new ≡ text.old ++ line_of_failed error.now) }
{
    text.push_str("rust-analyzer failed to load workspace: ")?;
    push_line(text, error)?;
    Ok(())
}

fn push_workspace(text: &mut Text, fetched: &Result<ProjectWorkspace, Text>) -> Result<(), NoMemory>
    ensures { OnOk result (text.new ≡ text.old ++ line_of_workspace fetched.now) }
{
    match fetched {
        Ok(_) => Ok(()),
        Err(error) => push_failed(text, error),
    }
}

fn text_of_fetch(
    alloc: Global,
    last: &[Result<ProjectWorkspace, Text>],
    discover: bool,
) -> Result<Text, NoMemory>
    ensures { IfOk result (λ text. text ≡ text_of_fetch last.now discover) }
{
    if last.is_empty() && !discover {
        return Text::from_str(alloc, "rust-analyzer failed to fetch workspace");
    }
    let mut text = Text::new(alloc);
    for fetched in last {
        push_workspace(&mut text, fetched)?;
    }
    Ok(text)
}

/// What is told of the last fetch of workspaces, where it failed: a line for each error, and one text where it
/// found none although projects aren't discovered.
pub fn fetch_workspace_error(
    alloc: Global,
    last: Option<&[Result<ProjectWorkspace, Text>]>,
    discover: bool,
) -> Result<Option<Text>, NoMemory>
    ensures { IfOk result (λ error. error ≡ fetch_error (option_copied last.entry) discover) }
{
    match last {
        None => Ok(None),
        Some(last) => Ok(unless_empty(text_of_fetch(alloc, last, discover)?)),
    }
}

fn push_error(text: &mut Text, error: &Option<Text>) -> Result<(), NoMemory>
    ensures { OnOk result (text.new ≡ text.old ++ line_of_error error.now) }
{
    match error {
        None => Ok(()),
        Some(error) => push_line(text, error),
    }
}

fn push_build(text: &mut Text, run: &Result<BuildScripts, Text>) -> Result<(), NoMemory>
    ensures { OnOk result (text.new ≡ text.old ++ line_of_build run.now) }
{
    match run {
        Ok(scripts) => push_error(text, &scripts.error),
        Err(error) => push_line(text, error),
    }
}

fn text_of_builds(alloc: Global, last: &[Result<BuildScripts, Text>]) -> Result<Text, NoMemory>
    ensures { IfOk result (λ text. text ≡ concat (map line_of_build last.now)) }
{
    let mut text = Text::new(alloc);
    for run in last {
        push_build(&mut text, run)?;
    }
    Ok(text)
}

/// What is told of the last run of build scripts, where some failed: a line for each error.
pub fn fetch_build_data_error(
    alloc: Global,
    last: Option<&[Result<BuildScripts, Text>]>,
) -> Result<Option<Text>, NoMemory>
    ensures { IfOk result (λ error. error ≡ build_error (option_copied last.entry)) }
{
    match last {
        None => Ok(None),
        Some(last) => Ok(unless_empty(text_of_builds(alloc, last)?)),
    }
}
