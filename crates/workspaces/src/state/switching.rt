// Switches to what was fetched and built.
ghost use Rattle.std.specs.Prelude.{◌≡◌, ◌+◌, ◌<◌, ◌^◌, ◌↔◌, IsTrue, IfOk, MatchResult};
ghost use Rattle.std.specs.Arc.{arc_value};
ghost use Rattle.reload.specs.Switch.{is_empty};
ghost use Rattle.workspaces.specs.Switching.{decided, new_workspaces_cause, asks_build, presents, next_version, going_on, renewed_by, switch_to, switched, SwitchesAs};
ghost use Rattle.workspaces.specs.declared.follows.SwitchFault.TheVariants.{Exhausted};

use crate::follows::{Follows, SwitchFault};
use crate::outputs::{list_fetched, runs_built, version_built, was_forced};
use crate::state::Workspaces;
use plain::{Items, NoMemory, Text};
use project_model::ProjectWorkspace;
use reload::{Switch, switch_workspaces};
use std::alloc::Global;
use std::sync::Arc;

fn is_empty(present: &[ProjectWorkspace]) -> bool
    ensures { result ≡ is_empty present.now }
{
    present.is_empty()
}

/// The loader's next version, where all that follows a switch is to be done.
fn next_version(go_on: bool, version: u32) -> Result<Option<u32>, SwitchFault>
    ensures { MatchResult result (λ next. next_version go_on version ≡ Some next)
        (λ e. (e ≡ Exhausted) × (next_version go_on version ≡ None)) }
{
    if !go_on {
        return Ok(None);
    }
    if version == u32::MAX {
        return Err(SwitchFault::Exhausted);
    }
    Ok(Some(version + 1))
}

impl Workspaces {
    // What the last fetch and the last build data decide.
    fn decide(&self, discover: bool, build_scripts: bool) -> Result<Switch, NoMemory>
        ensures { IfOk result (λ to. to ≡ decided discover build_scripts self.now) }
    {
        let fetched = self.fetches.last_op_result();
        let built = self.builds.last_op_result();
        switch_workspaces(
            self.alloc,
            list_fetched(fetched),
            was_forced(fetched),
            discover,
            self.present.as_slice(),
            self.version,
            runs_built(built),
            version_built(built),
            build_scripts,
        )
    }

    // These workspaces are present from now on.
    fn put_present(&mut self, workspaces: Arc<Items<ProjectWorkspace>, Global>)
        requires { self.old.version + 1 < 2 ^ 64 }
        ensures { self.new ≡ presents (arc_value workspaces) self.old }
    {
        self.present = workspaces;
        self.version += 1;
        self.switch_wanted = false;
    }

    fn ask_build_if(&mut self, ask_build: bool, cause: Text)
        requires { cause ≡ new_workspaces_cause }
        ensures { self.new ≡ asks_build ask_build self.old }
    {
        if ask_build {
            self.ask_build(cause);
            self.build_deps_changed = false;
        }
    }

    fn follow(&mut self, msrv: Items<Text>, initial: bool, loader_version: Option<u32>) -> Follows
        ensures { (result, self.new) ≡ going_on msrv initial self.old loader_version }
    {
        match loader_version {
            None => Follows::Wait { msrv },
            Some(loader_version) => {
                self.loader_version = loader_version;
                Follows::GoOn {
                    msrv,
                    loader_version,
                    initial,
                }
            }
        }
    }

    // New workspaces are present.
    fn renew(
        &mut self,
        workspaces: Items<ProjectWorkspace>,
        msrv: Items<Text>,
        ask_build: bool,
        go_on: bool,
    ) -> Result<Follows, SwitchFault>
        requires { self.old.version + 1 < 2 ^ 64 }
        ensures { SwitchesAs (renewed_by workspaces msrv ask_build go_on self.old) self.old result self.new }
    {
        let loader_version = next_version(go_on, self.loader_version)?;
        let cause = Text::from_str(self.alloc, "workspace updated")?;
        let initial = is_empty(self.present.as_slice());
        let workspaces = Arc::new(self.alloc, workspaces)?;
        self.put_present(workspaces);
        self.ask_build_if(ask_build, cause);
        Ok(self.follow(msrv, initial, loader_version))
    }

    fn switch_to(&mut self, to: Switch) -> Result<Follows, SwitchFault>
        requires { self.old.version + 1 < 2 ^ 64 }
        ensures { SwitchesAs (switch_to to self.old) self.old result self.new }
    {
        match to {
            Switch::End => {
                self.switch_wanted = false;
                Ok(Follows::Nothing)
            }
            Switch::CrateData => {
                self.switch_wanted = false;
                Ok(Follows::CrateData)
            }
            Switch::Join { workspaces } => {
                self.renew(workspaces, Items::new(self.alloc), false, true)
            }
            Switch::Replace {
                workspaces,
                msrv,
                ask_build,
                go_on,
            } => self.renew(workspaces, msrv, ask_build, go_on),
        }
    }

    /// Whether the workspaces can get a further version.
    pub fn has_next_version(&self) -> bool
        ensures { IsTrue result ↔ (self.now.version + 1 < 2 ^ 64) }
    {
        self.version < u64::MAX
    }

    /// Makes a switch, by the last fetch and the last build data, the settings that projects are discovered and that build
    /// scripts run. After an `Err` the workspaces are as before.
    pub fn switch(&mut self, discover: bool, build_scripts: bool) -> Result<Follows, SwitchFault>
        requires { self.old.version + 1 < 2 ^ 64 }
        ensures { SwitchesAs (switched discover build_scripts self.old) self.old result self.new }
    {
        let to = self.decide(discover, build_scripts)?;
        self.switch_to(to)
    }
}
