// Folders that the client adds and removes.
ghost use Rattle.std.specs.Prelude.{◌≡◌, ◌++◌, IfOk, OnOk};
ghost use Rattle.client.specs.Folds.{paths_named, without_each};
ghost use Rattle.client.specs.Steps.{folders_changed, misses};
ghost use Rattle.session_port.specs.Refines.{RefinesTotal};

use crate::state::Client;
use docs_vfs::{VfsPath, path_named};
use plain::{Items, Text};
use ra_config::Config;
use session_port::{Command, LogCode, TurnError, TurnOut};
use std::alloc::{AllocError, Global};
use std::sync::Arc;

// The paths that URLs name. Those that name none are logged.
fn read_paths(
    alloc: Global,
    urls: Items<Text>,
    out: &mut TurnOut,
) -> Result<Items<VfsPath>, AllocError>
    ensures paths { IfOk result (λ paths. paths ≡ paths_named urls) }
    ensures logged { IfOk result (λ _. out.new ≡ record out.old { commands = out.old.commands ++ misses urls }) }
{
    let mut paths = Items::new(alloc);
    for url in urls.into_vec() {
        match path_named(alloc, url.as_str())? {
            Some(path) => paths.push(path)?,
            None => out.order(Command::Log(LogCode::BadPath, url))?,
        }
    }
    Ok(paths)
}

// Takes these out of the workspaces, one after another.
fn remove_each(settings: &mut Config, paths: &[VfsPath])
    ensures { settings.new ≡ record settings.old { workspace_roots = without_each paths.now settings.old.workspace_roots } }
{
    for path in paths {
        settings.remove_workspace(path);
    }
}

impl Client {
    // The workspaces without the removed ones, and then the added ones.
    fn put_workspaces(
        &mut self,
        added: Items<VfsPath>,
        removed: &[VfsPath],
    ) -> Result<(), AllocError>
        ensures { OnOk result (self.new ≡ record self.old {
          settings = record self.old.settings {
            workspace_roots = without_each removed.now self.old.settings.workspace_roots ++ added;
          };
        }) }
    {
        let before: &Config = &self.settings;
        let mut settings = before.clone()?;
        remove_each(&mut settings, removed);
        settings.add_workspaces(added)?;
        self.settings = Arc::new(self.alloc, settings)?;
        Ok(())
    }

    /// The client adds and removes folders. After an `Err` the client is poisoned.
    #[tactic(auto, unfolding(crate::specs::Steps::folders_changed))]
    pub fn change_folders(
        &mut self,
        added: Items<Text>,
        removed: Items<Text>,
        out: &mut TurnOut,
    ) -> Result<(), TurnError>
        ensures { RefinesTotal result (folders_changed added removed (record { state = self.old; out = out.old })) self.new out.new }
    {
        let removed = read_paths(self.alloc, removed, out)?;
        let added = read_paths(self.alloc, added, out)?;
        self.put_workspaces(added, removed.as_slice())?;
        Ok(())
    }
}
