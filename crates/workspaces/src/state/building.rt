// Runs of build data.
ghost use Rattle.std.specs.Prelude.{◌≡◌, true, length, is_some, IfOk, OnOk, OnErr};
ghost use Rattle.std.specs.Option.{option_copied};
ghost use Rattle.reload.specs.Errors.{build_error};
ghost use Rattle.workspaces.specs.Builds.{ask_build, build_to_start, start_build, end_build, rebuild, rebuild_macros, reload};
ghost use Rattle.workspaces.specs.Switching.{runs_built};

use crate::outputs::{BuildOutput, runs_built};
use crate::requests::FetchRequest;
use crate::runs::runs_of;
use crate::state::Workspaces;
use plain::{Items, NoMemory, Text};
use project_model::BuildScripts;
use reload::fetch_build_data_error;

impl Workspaces {
    /// Asks for build data, for this cause.
    pub fn ask_build(&mut self, cause: Text)
        ensures { self.new ≡ record self.old { builds = ask_build cause self.old.builds } }
    {
        self.builds.request_op(cause, ());
    }

    /// What build data depends on has changed.
    pub fn change_build_deps(&mut self)
        ensures { self.new ≡ record self.old { build_deps_changed = true } }
    {
        self.build_deps_changed = true;
    }

    /// A file was saved: build data is asked for where what it depends on changed.
    pub fn rebuild(&mut self) -> Result<(), NoMemory>
        ensures ok { OnOk result (self.new ≡ rebuild self.old) }
        ensures err { OnErr result (self.new ≡ self.old) }
    {
        if self.build_deps_changed {
            let cause = Text::from_str(self.alloc, "build_deps_changed - save notification")?;
            self.ask_build(cause);
            self.build_deps_changed = false;
        }
        Ok(())
    }

    /// A client asks for its workspaces anew.
    pub fn reload(&mut self) -> Result<(), NoMemory>
        ensures ok { OnOk result (self.new ≡ reload self.old) }
        ensures err { OnErr result (self.new ≡ self.old) }
    {
        let cause = Text::from_str(self.alloc, "reload workspace request")?;
        self.ask_fetch(cause, FetchRequest::unforced());
        self.build_deps_changed = false;
        Ok(())
    }

    /// A client asks for its macros anew.
    pub fn rebuild_macros(&mut self) -> Result<(), NoMemory>
        ensures ok { OnOk result (self.new ≡ rebuild_macros self.old) }
        ensures err { OnErr result (self.new ≡ self.old) }
    {
        let cause = Text::from_str(self.alloc, "rebuild proc macros request")?;
        self.ask_build(cause);
        self.build_deps_changed = false;
        Ok(())
    }

    /// Whether a run of build data is in progress.
    pub fn is_building(&self) -> bool
        ensures { result ≡ self.now.builds.queue.in_progress }
    {
        self.builds.op_in_progress()
    }

    /// Whether a run of build data waits.
    pub fn is_build_requested(&self) -> bool
        ensures { result ≡ is_some self.now.builds.queue.waiting }
    {
        self.builds.op_requested()
    }

    /// Starts the run of build data that waits, where neither a fetch nor another run is in progress. Answers the version
    /// of the workspaces that it is on.
    pub fn start_build(&mut self) -> Option<u64>
        ensures value { result ≡ build_to_start self.old.fetches.queue.in_progress self.old.version self.old.builds }
        ensures after { self.new ≡ record self.old { builds = start_build self.old.fetches.queue.in_progress self.old.version (length self.old.present) self.old.builds } }
    {
        if self.fetches.op_in_progress() {
            return None;
        }
        match self.builds.should_start_op() {
            None => None,
            Some(_) => {
                self.build_version = self.version;
                self.build_count = self.present.len();
                Some(self.version)
            }
        }
    }

    /// Keeps what the run of build data in progress made of each workspace that it was started on, or why it failed as a
    /// whole. A switch is wanted.
    pub fn end_build(
        &mut self,
        made: Result<Items<Result<BuildScripts, Text>>, Text>,
    ) -> Result<(), NoMemory>
        requires { self.old.builds.queue.in_progress ≡ true }
        ensures ok { OnOk result (self.new ≡ record self.old { builds = end_build made self.old.builds; switch_wanted = true }) }
        ensures err { OnErr result (self.new ≡ self.old) }
    {
        let runs = runs_of(self.alloc, made, self.build_count)?;
        self.builds.op_completed(BuildOutput {
            version: self.build_version,
            runs,
        });
        self.switch_wanted = true;
        Ok(())
    }

    /// What is told of the last run of build data, where some of it failed: a line for each error.
    pub fn build_error(&self) -> Result<Option<Text>, NoMemory>
        ensures { IfOk result (λ error. error ≡ build_error (runs_built self.now.builds.queue.last)) }
    {
        fetch_build_data_error(self.alloc, runs_built(self.builds.last_op_result()))
    }

    /// What the last run of build data made.
    pub fn last_build(&self) -> Option<&BuildOutput>
        ensures { option_copied result ≡ self.now.builds.queue.last }
    {
        self.builds.last_op_result()
    }
}
