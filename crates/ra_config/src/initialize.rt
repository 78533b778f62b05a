// What a session starts with, by the params of `initialize`.
ghost use Rattle.std.specs.Prelude.{◌≡◌, ◌↔◌, ◌++◌, None, Err, IfOk, OnOk, codes, option_to_list};
ghost use Rattle.serde_json.specs.View.{view, items_view};
ghost use Rattle.serde_json.specs.Find.{get};
ghost use Rattle.ra_config.specs.declared.initialize.ConfigFault.TheVariants.{NoRoot};
ghost use Rattle.ra_config.specs.Initialize.{path_at, folder_paths, folders_of, paths_of, roots_of, first_client, config_from, initial_config};

use crate::capabilities::capabilities_of;
use crate::config::Config;
use docs_vfs::{VfsPath, path_named};
use plain::{Items, Json, Text};
use ra_settings::{Layer, Source};
use serde_json::Value;
use std::alloc::{AllocError, Global};
use thiserror::Error;

/// Why a session has no settings.
#[derive(Clone, Copy, Debug, PartialEq, Eq, PartialOrd, Ord, Hash, Error)]
pub enum ConfigFault {
    #[error("neither a workspace folder nor the root names a path")]
    NoRoot,
}

fn path_at(alloc: Global, value: &Value, name: &str) -> Result<Option<VfsPath>, AllocError>
    ensures { IfOk result (λ path. path ≡ path_at name.now (view value.now)) }
{
    match value.get(name).and_then(Value::as_str) {
        Some(url) => path_named(alloc, url),
        None => Ok(None),
    }
}

// Adds the path of a folder, if it has one.
fn push_folder(alloc: Global, folder: &Value, paths: &mut Items<VfsPath>) -> Result<(), AllocError>
    ensures { OnOk result (paths.new ≡ paths.old
        ++ option_to_list (path_at (codes "uri") (view folder.now))) }
{
    if let Some(path) = path_at(alloc, folder, "uri")? {
        paths.push(path)?;
    }
    Ok(())
}

fn folder_paths(alloc: Global, folders: &Vec<Value>) -> Result<Items<VfsPath>, AllocError>
    ensures { IfOk result (λ paths. paths ≡ folder_paths (items_view folders.now.items)) }
{
    let mut paths = Items::new(alloc);
    for folder in folders {
        push_folder(alloc, folder, &mut paths)?;
    }
    Ok(paths)
}

fn folders_of(alloc: Global, params: &Value) -> Result<Items<VfsPath>, AllocError>
    ensures { IfOk result (λ paths. paths ≡ folders_of (view params.now)) }
{
    match params.get("workspaceFolders").and_then(Value::as_array) {
        Some(folders) => folder_paths(alloc, folders),
        None => Ok(Items::new(alloc)),
    }
}

fn paths_of(alloc: Global, params: &Value) -> Result<Items<VfsPath>, AllocError>
    ensures { IfOk result (λ paths. paths ≡ paths_of (view params.now)) }
{
    let mut paths = folders_of(alloc, params)?;
    if paths.is_empty() {
        if let Some(root) = path_at(alloc, params, "rootUri")? {
            paths.push(root)?;
        }
    }
    Ok(paths)
}

/// The roots of a session's workspaces: the paths of its folders, else that of its root. None where neither has the
/// URL of a file.
#[tactic(auto, unfolding(crate::specs::Initialize::roots_of))]
pub fn initial_roots(alloc: Global, params: &Json) -> Result<Option<Items<VfsPath>>, AllocError>
    ensures { IfOk result (λ roots. roots ≡ roots_of params.now) }
{
    let paths = paths_of(alloc, params.as_value())?;
    if paths.is_empty() {
        Ok(None)
    } else {
        Ok(Some(paths))
    }
}

/// The values that the client sets at first. Their errors are dropped.
fn client_layer(alloc: Global, root: &VfsPath, params: &Value) -> Result<Layer, AllocError>
    ensures { IfOk result (λ layer. layer ≡ first_client root.now (get (codes "initializationOptions") (view params.now))) }
{
    match params.get("initializationOptions") {
        Some(tree) => {
            let place = Text::new(alloc);
            Ok(Layer::read(alloc, Source::Client, &place, root, tree)?.layer)
        }
        None => Layer::empty(alloc),
    }
}

/// The settings with these workspaces and this root.
#[tactic(auto, unfolding(crate::specs::Initialize::config_from))]
fn config_from(
    alloc: Global,
    params: &Json,
    root: VfsPath,
    roots: Items<VfsPath>,
    threads: u32,
) -> Result<Config, AllocError>
    ensures { IfOk result (λ config. config ≡ config_from params.now threads root roots) }
{
    let client = client_layer(alloc, &root, params.as_value())?;
    let config = Config::new(alloc, root, threads)?;
    Ok(config.with_client(roots, capabilities_of(params), client))
}

impl Config {
    /// The settings that a client's `initialize` asks for.
    #[tactic(auto, using(crate::proofs::InitialLaws::roots), unfolding(crate::specs::Initialize::initial_config, crate::specs::Initialize::roots_of))]
    pub fn from_initialize(
        alloc: Global,
        params: &Json,
        threads: u32,
    ) -> Result<Result<Config, ConfigFault>, AllocError>
        ensures value { IfOk result (λ answer. answer ≡ initial_config params.now threads) }
        ensures no_root { IfOk result (λ answer. (answer ≡ Err NoRoot) ↔ (roots_of params.now ≡ None)) }
    {
        let roots = paths_of(alloc, params.as_value())?;
        let root = match roots.get(0) {
            Some(root) => root.clone()?,
            None => return Ok(Err(ConfigFault::NoRoot)),
        };
        Ok(Ok(config_from(alloc, params, root, roots, threads)?))
    }
}
