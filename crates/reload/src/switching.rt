//! The cases of a switch.
ghost use Rattle.std.specs.Prelude.{◌≡◌, IfOk};
ghost use Rattle.std.specs.Option.{option_copied};
ghost use Rattle.reload.specs.Switch.{workspaces_fetched, are_same, scripts_of, with_build, with_builds, runs_on, anew_if, kept, replacing, switch_of, HasOneEach};

use crate::errors::fetch_workspace_error;
use crate::switch::Switch;
use plain::{Items, NoMemory, Text};
use project_model::{BuildScripts, ProjectWorkspace, check_workspaces_msrv};
use std::alloc::Global;

/// A workspace that was fetched, or why it wasn't.
type Fetched = Result<ProjectWorkspace, Text>;

/// What the build scripts of a workspace made, or why they didn't run.
type Run = Result<BuildScripts, Text>;

/// Whether the workspaces that were fetched are these, but for their build data.
fn are_same(fetched: &[Fetched], present: &[ProjectWorkspace]) -> bool
    ensures { result ≡ are_same (workspaces_fetched fetched.now) present.now }
{
    let mut rest = present;
    for one in fetched {
        if let Ok(workspace) = one {
            match rest.split_first() {
                None => return false,
                Some((first, later)) => {
                    if !workspace.eq_ignore_build_data(first) {
                        return false;
                    }
                    rest = later;
                }
            }
        }
    }
    rest.is_empty()
}

/// The workspaces that were fetched.
fn workspaces_fetched(
    alloc: Global,
    fetched: &[Fetched],
) -> Result<Items<ProjectWorkspace>, NoMemory>
    ensures { IfOk result (λ list. list ≡ workspaces_fetched fetched.now) }
{
    let mut list = Items::new(alloc);
    for one in fetched {
        if let Ok(workspace) = one {
            list.push(workspace.clone()?)?;
        }
    }
    Ok(list)
}

fn scripts_of(alloc: Global, run: &Run) -> Result<BuildScripts, NoMemory>
    ensures { IfOk result (λ scripts. scripts ≡ scripts_of run.now) }
{
    match run {
        Ok(scripts) => scripts.clone(),
        Err(_) => Ok(BuildScripts {
            error: None,
            macro_paths: Items::new(alloc),
        }),
    }
}

fn with_build(
    alloc: Global,
    workspace: &ProjectWorkspace,
    run: &Run,
) -> Result<ProjectWorkspace, NoMemory>
    ensures { IfOk result (λ made. made ≡ with_build workspace.now run.now) }
{
    let mut made = workspace.clone()?;
    made.build = Some(scripts_of(alloc, run)?);
    Ok(made)
}

/// Each workspace with what its build made.
fn with_builds(
    alloc: Global,
    runs: &[Run],
    workspaces: &[ProjectWorkspace],
) -> Result<Items<ProjectWorkspace>, NoMemory>
    ensures { IfOk result (λ list. list ≡ with_builds runs.now workspaces.now) }
{
    let mut list = Items::new(alloc);
    let mut rest = workspaces;
    for run in runs {
        match rest.split_first() {
            None => return Ok(list),
            Some((workspace, later)) => {
                list.push(with_build(alloc, workspace, run)?)?;
                rest = later;
            }
        }
    }
    Ok(list)
}

fn runs_on(version: u64, build_version: u64, build: Option<&[Run]>) -> Option<&[Run]>
    ensures { option_copied result ≡ runs_on version build_version (option_copied build.entry) }
{
    if build_version == version {
        build
    } else {
        None
    }
}

fn anew_if(forced: bool) -> Switch
    ensures { result ≡ anew_if forced }
{
    if forced {
        Switch::CrateData
    } else {
        Switch::End
    }
}

/// The fetched workspaces are the present ones.
fn kept(
    alloc: Global,
    present: &[ProjectWorkspace],
    runs: Option<&[Run]>,
    forced: bool,
) -> Result<Switch, NoMemory>
    ensures { IfOk result (λ switch. switch ≡ kept present.now (option_copied runs.entry) forced) }
{
    if present.is_empty() {
        return Ok(Switch::End);
    }
    match runs {
        None => Ok(anew_if(forced)),
        Some(runs) => Ok(Switch::Join {
            workspaces: with_builds(alloc, runs, present)?,
        }),
    }
}

/// The fetched workspaces aren't the present ones.
fn replacing(
    alloc: Global,
    new: Items<ProjectWorkspace>,
    present: &[ProjectWorkspace],
    build_scripts: bool,
) -> Result<Switch, NoMemory>
    ensures { IfOk result (λ switch. switch ≡ replacing new present.now build_scripts) }
{
    let msrv = check_workspaces_msrv(alloc, new.as_slice())?;
    Ok(Switch::Replace {
        workspaces: new,
        msrv,
        ask_build: build_scripts,
        go_on: !build_scripts || present.is_empty(),
    })
}

/// What becomes of the present workspaces, of this version, after a fetch and a run of build scripts on the
/// workspaces of some version. Build data is joined only to workspaces of the version that it was run on.
pub fn switch_workspaces(
    alloc: Global,
    fetched: Option<&[Result<ProjectWorkspace, Text>]>,
    forced: bool,
    discover: bool,
    present: &[ProjectWorkspace],
    version: u64,
    build: Option<&[Result<BuildScripts, Text>]>,
    build_version: u64,
    build_scripts: bool,
) -> Result<Switch, NoMemory>
    requires { HasOneEach (runs_on version build_version (option_copied build)) present.now }
    ensures { IfOk result (λ switch. switch ≡ switch_of (option_copied fetched.entry) forced discover present.now
        (runs_on version build_version (option_copied build.entry)) build_scripts) }
{
    let Some(list) = fetched else {
        return Ok(Switch::End);
    };
    let error = fetch_workspace_error(alloc, fetched, discover)?;
    if error.is_some() && !present.is_empty() {
        return Ok(anew_if(forced));
    }
    if are_same(list, present) {
        return kept(
            alloc,
            present,
            runs_on(version, build_version, build),
            forced,
        );
    }
    replacing(
        alloc,
        workspaces_fetched(alloc, list)?,
        present,
        build_scripts,
    )
}
