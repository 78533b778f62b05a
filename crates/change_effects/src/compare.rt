ghost use Rattle.std.specs.Prelude.{◌≡◌, IfOk};
ghost use Rattle.change_effects.specs.Update.{is_same_at, are_same_at, check_rows, cargo_rows, update_of};

use crate::projects::have_same_projects;
use crate::update::ConfigUpdate;
use plain::NoMemory;
use ra_config::{Config, Row};
use std::alloc::Global;

/// Whether a row has the same value in both, at no root.
fn is_same_at(old: &Config, new: &Config, row: Row) -> bool
    ensures { result ≡ is_same_at old.now new.now row }
{
    old.is_same_at(new, row)
}

fn has_same_checks(old: &Config, new: &Config) -> bool
    ensures { result ≡ are_same_at old.now new.now check_rows }
{
    is_same_at(old, new, Row::CheckCommand)
        && is_same_at(old, new, Row::CheckWorkspace)
        && is_same_at(old, new, Row::CheckInvocationStrategy)
        && is_same_at(old, new, Row::CheckOverrideCommand)
}

fn has_same_cargo(old: &Config, new: &Config) -> bool
    ensures { result ≡ are_same_at old.now new.now cargo_rows }
{
    is_same_at(old, new, Row::CargoBuildScriptsEnable)
        && is_same_at(old, new, Row::CargoBuildScriptsRebuildOnSave)
        && is_same_at(old, new, Row::CargoExtraEnv)
        && is_same_at(old, new, Row::CargoFeatures)
        && is_same_at(old, new, Row::CargoAllTargets)
        && is_same_at(old, new, Row::CargoTarget)
}

/// What the change from old to new settings asks for.
#[tactic(auto, unfolding(crate::specs::Update::update_of))]
pub fn update_of(alloc: Global, old: &Config, new: &Config) -> Result<ConfigUpdate, NoMemory>
    ensures { IfOk result (λ update. update ≡ update_of old.now new.now) }
{
    let same_projects = have_same_projects(alloc, old, new)?;
    Ok(ConfigUpdate {
        projects: !same_projects,
        checks: same_projects && !has_same_checks(old, new),
        cargo: !has_same_cargo(old, new),
        set_test: !is_same_at(old, new, Row::CfgSetTest),
    })
}
