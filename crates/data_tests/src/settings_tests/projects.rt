// The projects that a command discovers, and the roots that params name.
use super::calls::settings;
use crate::text_tests::calls::json;
use plain::{Json, Text};
use ra_config::{Config, ConfigFault, LinkedProject, initial_roots};
use std::alloc::Global;
use std::test::Fail;
use test_support::expect;

fn discover(alloc: Global, config: &mut Config, project: Json, file: Text) -> Option<()> {
    config
        .add_discovered_project_from_command(alloc, project, file)
        .ok()
}

/// Discovers a project by a file.
fn discover_by(alloc: Global, config: &mut Config, project: &str, file: &str) -> Option<()> {
    let file = Text::from_str(alloc, file).ok()?;
    discover(alloc, config, json(alloc, project)?, file)
}

fn is_number(project: Option<&LinkedProject>, number: u64) -> bool {
    match project {
        Some(LinkedProject::InlineProjectJson { project, .. }) => {
            project.as_value().as_u64() == Some(number)
        }
        _ => false,
    }
}

/// Whether there are two projects, and these.
fn are_two(alloc: Global, config: &Config, first: u64, second: u64) -> Option<bool> {
    let projects = config.linked_or_discovered_projects(alloc).ok()?;
    let are = projects.len() == 2
        && is_number(projects.get(0), first)
        && is_number(projects.get(1), second);
    drop(projects);
    Some(are)
}

/// Of one file the newer project takes the older one's place.
fn discover_three(alloc: Global, config: &mut Config) -> Option<()> {
    discover_by(alloc, config, "1", "a")?;
    discover_by(alloc, config, "2", "b")?;
    discover_by(alloc, config, "3", "a")
}

/// Whether a copy has what was discovered.
fn is_discovered(alloc: Global) -> Option<bool> {
    let mut config = settings(alloc, "{}")?;
    let done = discover_three(alloc, &mut config);
    let copy = config.clone().ok();
    drop(config);
    done?;
    let copy = copy?;
    let is = are_two(alloc, &copy, 3, 2);
    drop(copy);
    is
}

/// How many roots params name; 0 where there are none.
fn roots_in(alloc: Global, params: &str) -> Option<usize> {
    let params = json(alloc, params)?;
    match initial_roots(alloc, &params).ok()? {
        None => Some(0),
        Some(roots) => Some(roots.len()),
    }
}

#[test]
fn projects_and_roots(rt: HostRuntime) -> Result<(), Fail> {
    let named =
        r#"{"rootUri":"file:///r","workspaceFolders":[{"uri":"file:///a"},{"uri":"x"},{"uri":"file:///b"}]}"#;
    expect("discovered", is_discovered(rt.alloc()) == Some(true))?;
    expect(named, roots_in(rt.alloc(), named) == Some(2))?;
    expect("no roots", roots_in(rt.alloc(), "{}") == Some(0))?;
    let fault = format!(in rt.alloc(); "{}", ConfigFault::NoRoot)?;
    let text = "neither a workspace folder nor the root names a path";
    expect(text, fault.as_str() == text)
}
