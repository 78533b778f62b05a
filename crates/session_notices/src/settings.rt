// Settings files that changed.
ghost use Rattle.std.specs.Prelude.{◌≡◌, Some, IfOk, OnOk};
ghost use Rattle.session_port.specs.Refines.{RefinesTotal};
ghost use Rattle.session_model.specs.Machine.{further_logged, settings_filed};
ghost use Rattle.session_model.specs.Sources.{is_settled, parents_told};
ghost use Rattle.session_model.specs.State.{State};
ghost use Rattle.change_effects.specs.Filing.{filed_change};

use change_effects::{SettingsFile, settings_change};
use docs_vfs::VfsPath;
use plain::{Items, NoMemory, Text};
use ra_config::ConfigChange;
use session_model::TurnError;
use session_port::{LogCode, TurnOut};
use session_store::{Store, log};
use std::alloc::Global;

// Whether no parents wait, and no settings file has changed.
fn is_settled(store: &Store, files: &Items<SettingsFile>) -> bool
    ensures { result ≡ is_settled files.now store.now.sources }
{
    store.parents.is_none() && files.is_empty()
}

// The change of settings that settings files are by the roots of the world, with the parents of the roots that are present,
// which the settings have from then on.
fn take_change(store: &mut Store, files: &[SettingsFile]) -> Result<ConfigChange, NoMemory>
    ensures change { IfOk result (λ change. change
        ≡ filed_change store.old.files.host.world.roots store.old.sources.parents store.old.workspaces.present files.now) }
    ensures after { OnOk result (store.new ≡ record store.old { sources = parents_told store.old.sources }) }
{
    let parents = store.parents.take();
    settings_change(
        store.alloc,
        store.files.roots(),
        parents,
        store.workspaces.present(),
        files,
    )
}

// Further settings files of a root and kind, of which another holds, are logged.
#[tactic(auto, unfolding(session_model::specs::Machine::further_logged))]
fn log_further(alloc: Global, paths: Items<VfsPath>, out: &mut TurnOut) -> Result<(), TurnError>
    ensures { (state : State) → RefinesTotal result (further_logged paths (record { state = state; out = out.old })) state out.new }
{
    for path in paths.into_vec() {
        let text = Text::from_str(alloc, path.as_str())?;
        log(LogCode::SecondSettingsFile, text, out)?;
    }
    Ok(())
}

// Settings files that changed, and the parents of new roots, go into the settings.
#[tactic(auto, using(crate::proofs::Settled::settled_stays), unfolding(session_model::specs::Machine::settings_filed, session_model::specs::Machine::further_logged))]
pub(crate) fn file_settings(
    store: &mut Store,
    files: Items<SettingsFile>,
    out: &mut TurnOut,
) -> Result<(), TurnError>
    ensures { RefinesTotal result (settings_filed files (record { state = store.old; out = out.old })) store.new out.new }
{
    if is_settled(store, &files) {
        return Ok(());
    }
    let change = take_change(store, files.as_slice())?;
    let further = store.client.change_settings(change)?;
    log_further(store.alloc, further, out)
}
