// Loads of macros.
ghost use Rattle.std.specs.Prelude.{◌≡◌, true, Some, option_map, IfOk, OnOk, OnErr};
ghost use Rattle.workspaces.specs.Loads.{ask_load, load_to_start, start_load, end_load, loaded_crates, listed_for, macros_of, macros_put, was_loaded};

use crate::macros::{listed_in, macros_of};
use crate::requests::{LoadRequest, WaitingCrates};
use crate::state::Workspaces;
use plain::{Items, NoMemory, Text};
use project_model::{CrateData, MacroPath, MacroState};
use std::alloc::Global;

/// What was told of the macros of crates, or why they couldn't be loaded at all.
type Told = Result<Items<(u32, MacroState)>, Text>;

fn macros_for(
    alloc: Global,
    told: &Told,
    waiting: &Option<WaitingCrates>,
) -> Result<Items<(u32, MacroState)>, NoMemory>
    ensures { IfOk result (λ macros. macros ≡ macros_of told.now (listed_for waiting.now)) }
{
    match waiting {
        None => macros_of(alloc, told, &[]),
        Some(crates) => macros_of(alloc, told, crates.listed.as_slice()),
    }
}

fn put_macros(waiting: Option<WaitingCrates>, macros: Items<(u32, MacroState)>) -> Option<CrateData>
    ensures { result ≡ option_map (macros_put macros) waiting }
{
    match waiting {
        None => None,
        Some(waiting) => Some(CrateData {
            crates: waiting.crates.crates,
            env: waiting.crates.env,
            macros,
        }),
    }
}

impl Workspaces {
    /// Lets crate data wait for its macros, for this cause: those of the crates of these lists, with their libraries.
    pub fn ask_load(
        &mut self,
        cause: Text,
        crates: CrateData,
        paths: Items<Items<(u32, MacroPath)>>,
    ) -> Result<(), NoMemory>
        ensures ok { OnOk result (self.new ≡ record self.old { loads = ask_load cause crates paths self.old.loads }) }
        ensures err { OnErr result (self.new ≡ self.old) }
    {
        let listed = listed_in(self.alloc, paths.as_slice())?;
        self.loads.request_op(
            cause,
            LoadRequest {
                crates,
                listed,
                paths,
            },
        );
        Ok(())
    }

    /// Starts the load of macros that waits, where neither a fetch nor another load is in progress. Answers the libraries.
    pub fn start_load(&mut self) -> Option<Items<Items<(u32, MacroPath)>>>
        ensures value { result ≡ load_to_start self.old.fetches.queue.in_progress self.old.loads }
        ensures after { self.new ≡ record self.old { loads = start_load self.old.fetches.queue.in_progress self.old.loads } }
    {
        if self.fetches.op_in_progress() {
            return None;
        }
        let (_cause, request) = self.loads.should_start_op()?;
        self.loading = Some(WaitingCrates {
            crates: request.crates,
            listed: request.listed,
        });
        Some(request.paths)
    }

    /// The load of macros in progress has ended. Answers the crate data that waited for it, in which each crate that was
    /// listed has one state.
    pub fn end_load(&mut self, told: Told) -> Result<Option<CrateData>, NoMemory>
        requires { self.old.loads.queue.in_progress ≡ true }
        ensures value { IfOk result (λ crates. crates ≡ loaded_crates told self.old.loads) }
        ensures ok { OnOk result (self.new ≡ record self.old { loads = end_load told self.old.loads }) }
        ensures err { OnErr result (self.new ≡ self.old) }
    {
        let macros = macros_for(self.alloc, &told, &self.loading)?;
        self.loads.op_completed(told.is_ok());
        Ok(put_macros(self.loading.take(), macros))
    }

    /// Whether a load of macros is in progress.
    pub fn is_loading(&self) -> bool
        ensures { result ≡ self.now.loads.queue.in_progress }
    {
        self.loads.op_in_progress()
    }

    /// Whether the last load of macros succeeded.
    pub fn are_macros_loaded(&self) -> bool
        ensures { result ≡ was_loaded self.now.loads.queue.last }
    {
        matches!(self.loads.last_op_result(), Some(true))
    }
}
