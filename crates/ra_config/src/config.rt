ghost use Rattle.std.specs.Prelude.{◌≡◌, ◌↔◌, ◌++◌, None, IsTrue, IfOk, OnOk, OnErr};
ghost use Rattle.ra_config.specs.Projects.{with_discovered, without};
ghost use Rattle.layered_settings.specs.Change.{after, errors_after, has_parents, passed_over, HasChanged};
ghost use Rattle.ra_config.specs.Config.{config_at, projects_of, roots_used, HaveSameSources};
ghost use Rattle.layered_settings.specs.Search.{setting};

use crate::capabilities::Capabilities;
use crate::projects::{
    Discovered, are_same_discovered, are_same_paths, push_discovered, push_linked, push_manifests,
    remove_root, with_discovered,
};
use docs_vfs::VfsPath;
use layered_settings::{ConfigChange, Settings};
use plain::{ExactClone, Items, Json, Text};
use ra_settings::{ConfigErrors, Layer, LinkedProject, Row};
use std::alloc::{AllocError, Global};
use std::marker::Model;
use std::sync::Arc;

/// What a change of settings comes to.
#[derive(Drop)]
pub struct Applied {
    pub config: Config,
    /// The errors of the values that the change brings.
    pub errors: ConfigErrors,
    /// Whether the client's or the user's values changed.
    pub changed: bool,
    /// The changed files that don't hold, since one of their root and kind has a smaller path: the
    /// workspace files in order, and then the crate files.
    pub passed_over: Items<VfsPath>,
}

/// The settings of a session.
pub struct Config {
    root_path: VfsPath,
    workspace_roots: Vec<VfsPath>,
    threads: u32,
    capabilities: Capabilities,
    settings: Settings,
    discovered: Arc<Items<Discovered>, Global>,
}

impl Drop for Config {
    fn drop(self) {
        let Config {
            root_path: _,
            workspace_roots: _,
            threads: _,
            capabilities: _,
            settings: _,
            discovered: _,
        } = self;
    }
}

impl Model for Config {
    ghost use Rattle.std.specs.Coded.{codes};
    ghost use Rattle.ra_config.specs.Config.{ConfigData};
    ghost use Rattle.ra_config.specs.contracts.capabilities.Capabilities as capabilities_row;
    ghost use Rattle.ra_config.specs.contracts.projects.Discovered as discovered_row;
    ghost use Rattle.layered_settings.specs.contracts.settings.Settings as settings_row;

    ghost Value = { ConfigData };

    ghost coded = { Prim.hlevel (codes, capabilities_row.the_row.coded, discovered_row.the_row.coded, settings_row.the_row.coded) };

    ghost view = { λ c. record {
      root_path = c.root_path;
      workspace_roots = c.workspace_roots.items;
      threads = c.threads;
      capabilities = c.capabilities;
      settings = c.settings;
      discovered = c.discovered.value;
    } };
}

impl Config {
    /// The settings for a client without capabilities, with one workspace: the root.
    pub fn new(alloc: Global, root: VfsPath, threads: u32) -> Result<Config, AllocError>
        ensures { IfOk result (λ config. config ≡ config_at root threads) }
    {
        let mut workspace_roots = Vec::new(alloc);
        workspace_roots.push(root.clone()?)?;
        Ok(Config {
            root_path: root,
            workspace_roots,
            threads,
            capabilities: Capabilities::none(),
            settings: Settings::new(alloc)?,
            discovered: Arc::new(alloc, Items::new(alloc))?,
        })
    }

    pub fn root_path(&self) -> &VfsPath
        ensures { result.now ≡ self.now.root_path }
    {
        &self.root_path
    }

    /// The roots of the workspaces, in order.
    pub fn workspace_roots(&self) -> &[VfsPath]
        ensures { result.now ≡ self.now.workspace_roots }
    {
        self.workspace_roots.as_slice()
    }

    /// How many threads were handed in.
    pub fn threads(&self) -> u32
        ensures { result ≡ self.now.threads }
    {
        self.threads
    }

    /// What is set.
    pub(crate) fn settings(&self) -> &Settings
        ensures { result.now ≡ self.now.settings }
    {
        &self.settings
    }

    /// What the client can do.
    pub fn capabilities(&self) -> Capabilities
        ensures { result ≡ self.now.capabilities }
    {
        self.capabilities
    }

    /// The same settings with these workspaces, for this client, which sets these values.
    pub(crate) fn with_client(
        self,
        workspace_roots: Items<VfsPath>,
        capabilities: Capabilities,
        client: Layer,
    ) -> Config
        ensures { result ≡ record self {
          workspace_roots = workspace_roots;
          capabilities = capabilities;
          settings = record self.settings { client = client };
        } }
    {
        let Config {
            root_path,
            workspace_roots: _,
            threads,
            capabilities: _,
            settings,
            discovered,
        } = self;
        Config {
            root_path,
            workspace_roots: workspace_roots.into_vec(),
            threads,
            capabilities,
            settings: settings.with_client(client),
            discovered,
        }
    }

    /// The settings after a change, and what is to be told of it.
    pub fn apply_change(&self, alloc: Global, change: ConfigChange) -> Result<Applied, AllocError>
        ensures config { IfOk result (λ r. r.config
            ≡ record self.now { settings = after self.now.root_path change self.now.settings }) }
        ensures errors { IfOk result (λ r. r.errors ≡ errors_after self.now.root_path change) }
        ensures truth { IfOk result (λ r. IsTrue r.changed ↔ HasChanged r.config.settings self.now.settings) }
        ensures passed { IfOk result (λ r. r.passed_over ≡ passed_over change) }
    {
        let changed = self.settings.after(alloc, &self.root_path, change)?;
        let config = Config {
            root_path: self.root_path.clone()?,
            workspace_roots: self.workspace_roots.clone()?,
            threads: self.threads,
            capabilities: self.capabilities,
            settings: changed.settings,
            discovered: self.discovered.clone()?,
        };
        Ok(Applied {
            config,
            errors: ConfigErrors::new(alloc, changed.errors)?,
            changed: changed.changed,
            passed_over: changed.passed_over,
        })
    }

    /// Whether the parents of the roots are just those of these pairs, of which the first of a root
    /// holds.
    pub fn has_parents(&self, alloc: Global, pairs: &[(u32, u32)]) -> Result<bool, AllocError>
        ensures { IfOk result (λ has. has ≡ has_parents self.now.settings.parents pairs.now) }
    {
        self.settings.has_parents(alloc, pairs)
    }

    /// Adds roots of workspaces after those that are there.
    pub fn add_workspaces(&mut self, paths: Items<VfsPath>) -> Result<(), AllocError>
        ensures ok { OnOk result (self.new ≡ record self.old { workspace_roots = self.old.workspace_roots ++ paths }) }
        ensures err { OnErr result (self.new ≡ self.old) }
    {
        self.workspace_roots.append(&mut paths.into_vec())
    }

    /// Takes the first root of a workspace out that is equal.
    pub fn remove_workspace(&mut self, path: &VfsPath)
        ensures { self.new ≡ record self.old { workspace_roots = without path.now self.old.workspace_roots } }
    {
        remove_root(&mut self.workspace_roots, path);
    }

    /// The projects that the session works on: those that are linked and then those that were
    /// discovered, or where there is none the manifest of each workspace.
    pub fn linked_or_discovered_projects(
        &self,
        alloc: Global,
    ) -> Result<Items<LinkedProject>, AllocError>
        ensures { IfOk result (λ projects. projects ≡ projects_of self.now) }
    {
        let mut projects = Items::new(alloc);
        push_linked(&mut projects, self.linked_projects())?;
        let discovered: &Items<Discovered> = &self.discovered;
        push_discovered(alloc, &mut projects, discovered.as_slice())?;
        if projects.len() == 0 {
            push_manifests(&mut projects, self.workspace_roots())?;
        }
        Ok(projects)
    }

    fn discovered(&self) -> &[Discovered]
        ensures { result.now ≡ self.now.discovered }
    {
        let discovered: &Items<Discovered> = &self.discovered;
        discovered.as_slice()
    }

    /// The roots whose manifests are the projects.
    fn roots_used(&self) -> &[VfsPath]
        ensures { result.now ≡ roots_used self.now }
    {
        if self.linked_projects().is_empty() && self.discovered().is_empty() {
            self.workspace_roots()
        } else {
            &[]
        }
    }

    /// Whether a row has the same value in both, at no root.
    pub fn is_same_at(&self, other: &Config, row: Row) -> bool
        ensures { IsTrue result
            ↔ (setting row None self.now.settings ≡ setting row None other.now.settings) }
    {
        let (one, two) = (self.settings.get(row, None), other.settings.get(row, None));
        one.is_same(two)
    }

    /// Whether the projects of both come from the same: what is linked, what was discovered, and where
    /// there is neither, the roots of the workspaces.
    #[tactic(auto, using(crate::proofs::ProjectLaws::same_projects))]
    pub fn has_same_projects(&self, other: &Config) -> bool
        ensures same { IsTrue result ↔ HaveSameSources self.now other.now }
        ensures projects { IsTrue result → projects_of self.now ≡ projects_of other.now }
    {
        self.is_same_at(other, Row::LinkedProjects)
            && are_same_discovered(self.discovered(), other.discovered())
            && are_same_paths(self.roots_used(), other.roots_used())
    }

    /// Adds a project that the command found by a file. Of one file the newer project takes the older
    /// one's place.
    pub fn add_discovered_project_from_command(
        &mut self,
        alloc: Global,
        project: Json,
        buildfile: Text,
    ) -> Result<(), AllocError>
        ensures ok { OnOk result (self.new ≡ record self.old {
          discovered = with_discovered (record { project = project; buildfile = buildfile }) self.old.discovered;
        }) }
        ensures err { OnErr result (self.new ≡ self.old) }
    {
        let new = Discovered::new(alloc, project, buildfile)?;
        let discovered: &Items<Discovered> = &self.discovered;
        let discovered = with_discovered(alloc, new, discovered)?;
        self.discovered = Arc::new(alloc, discovered)?;
        Ok(())
    }
}

impl Clone for Config {
    ghost is_clone = { λ config copy. copy ≡ config };

    fn clone(&self) -> Result<Config, AllocError> {
        Ok(Config {
            root_path: self.root_path.clone()?,
            workspace_roots: self.workspace_roots.clone()?,
            threads: self.threads,
            capabilities: self.capabilities,
            settings: self.settings.clone()?,
            discovered: self.discovered.clone()?,
        })
    }
}

impl ExactClone for Config {
    ghost copies = { λ x y h. h };
}
