// A setting of each kind, as its call answers it.
use super::calls::{all_agree, settings};
use crate::text_tests::calls::json;
use plain::{Items, Json, Text};
use ra_config::{CargoFeatures, Config, FilesWatcher, InvocationStrategy, LinkedProject, Row};
use ra_settings::{ROWS, Reading, find_at, read_value};
use std::alloc::Global;
use std::test::Fail;
use test_support::{cut, expect};

/// The first of some texts.
fn first(texts: &[Text]) -> &str {
    match texts {
        [] => "none",
        [text, ..] => text.as_str(),
    }
}

fn first_item(texts: &Items<Text>) -> &str {
    first(texts.as_slice())
}

fn first_project(projects: &[LinkedProject]) -> &str {
    match projects {
        [] => "none",
        [LinkedProject::ProjectManifest(path), ..] => path.as_str(),
        [LinkedProject::InlineProjectJson { .. }, ..] => "an object",
    }
}

/// A setting of one kind that is one word, by its name.
fn word<'a>(config: &'a Config, name: &str) -> &'a str {
    match name {
        "checkOnSave" => {
            if config.check_on_save(None) {
                "true"
            } else {
                "false"
            }
        }
        "check.command" => config.check_command(None),
        "cargo.target" => config.cargo_target(None).unwrap_or("null"),
        "files.watcher" => match config.files_watcher() {
            FilesWatcher::Client => "client",
            FilesWatcher::Server => "server",
        },
        "check.invocationStrategy" => match config.check_invocation_strategy(None) {
            InvocationStrategy::PerWorkspace => "per_workspace",
            InvocationStrategy::Once => "once",
        },
        "cachePriming.numThreads" => match config.cache_priming_num_threads() {
            0 => "0",
            255 => "255",
            _ => "another number",
        },
        "numThreads" => match config.num_threads() {
            4 => "4",
            64 => "64",
            _ => "another number",
        },
        _ => "no setting",
    }
}

/// What stands first in a setting that is a list, by its name, or the setting that is a word.
fn shown<'a>(config: &'a Config, name: &str) -> &'a str {
    match name {
        "linkedProjects" => first_project(config.linked_projects()),
        "files.exclude" => match config.files_exclude() {
            [] => "none",
            [path, ..] => path.as_str(),
        },
        "check.overrideCommand" => match config.check_override_command(None) {
            None => "null",
            Some(words) => first(words),
        },
        "cargo.features" => match config.cargo_features(None) {
            CargoFeatures::All => "all",
            CargoFeatures::Selected(names) => first_item(names),
        },
        "cargo.extraEnv" => match config.cargo_extra_env(None) {
            [] => "none",
            [(name, None), ..] => name.as_str(),
            [(_, Some(value)), ..] => value.as_str(),
        },
        "procMacro.ignored" => match config.proc_macro_ignored(None) {
            [] => "none",
            [(_, names), ..] => first_item(names),
        },
        "workspace.discoverConfig" => match config.workspace_discover_config() {
            None => "null",
            Some(command) => first_item(&command.files_to_watch),
        },
        _ => word(config, name),
    }
}

/// Whether a setting is shown so where the client's options are these.
fn is_shown(alloc: Global, options: &str, name: &str, want: &str) -> Option<bool> {
    let config = settings(alloc, options)?;
    let is = shown(&config, name) == want;
    drop(config);
    Some(is)
}

/// Whether a setting has its default without options, and with them the value of the line.
fn agrees(alloc: Global, line: &str) -> Option<bool> {
    let (name, rest) = cut(line, " > ");
    let (default, rest) = cut(rest, " > ");
    let (options, want) = cut(rest, " > ");
    Some(is_shown(alloc, "{}", name, default)? && is_shown(alloc, options, name, want)?)
}

/// A setting of each kind, its default, options of the client, and what it is by them: of a list what stands first.
const KINDS: &str = r#"checkOnSave > true > {"checkOnSave":false} > false
check.command > check > {"check":{"command":"clippy"}} > clippy
cargo.target > null > {"cargo":{"target":"t"}} > t
check.overrideCommand > null > {"check":{"overrideCommand":["a","b"]}} > a
files.watcher > client > {"files":{"watcher":"server"}} > server
check.invocationStrategy > per_workspace > {"check":{"invocationStrategy":"once"}} > once
files.exclude > none > {"files":{"exclude":["a/../p"]}} > /w/p
linkedProjects > none > {"linkedProjects":["a/../p","/q",{"k":[1]}]} > /w/p
linkedProjects > none > {"linkedProjects":[{"k":[1]}]} > an object
cargo.features > none > {"cargo":{"features":"all"}} > all
cargo.features > none > {"cargo":{"features":["f","g"]}} > f
cargo.extraEnv > none > {"cargo":{"extraEnv":{"b":null,"a":"1"}}} > 1
procMacro.ignored > none > {"procMacro":{"ignored":{"p":["m"]}}} > m
cachePriming.numThreads > 0 > {"cachePriming":{"numThreads":255}} > 255
numThreads > 4 > {"numThreads":64} > 64
workspace.discoverConfig > null > {"workspace":{"discoverConfig":{"command":["c"],"progressLabel":"l","filesToWatch":["f"]}}} > f
checkOnSave > true > {"checkOnSave":1,"numThreads":2} > true"#;

#[test]
fn a_setting_of_each_kind(rt: HostRuntime) -> Result<(), Fail> {
    all_agree(rt.alloc(), KINDS, "\n", agrees)
}

/// A value of each kind.
const EACH: &str =
    r#"{"checkOnSave":false,"check":{"command":"c","invocationStrategy":"once","overrideCommand":["a"]},"cargo":{"extraEnv":{"a":"1","b":null},"features":["f"],"target":"t"},"files":{"exclude":["p"],"watcher":"server"},"linkedProjects":["p",{"k":1}],"procMacro":{"ignored":{"p":["m"]}},"cachePriming":{"numThreads":255},"numThreads":64,"workspace":{"discoverConfig":{"command":["c"],"progressLabel":"l","filesToWatch":["f"]}}}"#;

/// Whether a row has a value in a tree, and it is the same as its copy.
fn is_copied(alloc: Global, row: Row, config: &Config, tree: &Json) -> Option<bool> {
    let facts = row.facts();
    let value = find_at(tree.as_value(), facts.path)?;
    match read_value(alloc, facts.kind, config.root_path(), value).ok()? {
        Reading::Value(value) => Some(value.clone().ok()?.is_same(&value)),
        Reading::Refused(_) => None,
    }
}

/// How many rows of the tree have a value that is the same as its copy.
fn copied(alloc: Global) -> Option<usize> {
    let config = settings(alloc, "{}")?;
    let tree = json(alloc, EACH)?;
    let mut copied = 0_usize;
    for row in ROWS {
        if is_copied(alloc, row, &config, &tree) == Some(true) {
            copied = copied.saturating_add(1);
        }
    }
    drop(config);
    Some(copied)
}

#[test]
fn values_are_copied(rt: HostRuntime) -> Result<(), Fail> {
    expect("14 values are copied", copied(rt.alloc()) == Some(14))
}
