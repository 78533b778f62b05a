ghost use Rattle.std.specs.Prelude.{◌≡◌, ◌↔◌, IsTrue, IfOk};
ghost use Rattle.change_effects.specs.Update.{has_same_projects, HaveSameProjects};

use plain::NoMemory;
use ra_config::{Config, SettingValue};
use std::alloc::Global;

fn is_same_value(one: &SettingValue, two: &SettingValue) -> bool
    ensures { IsTrue result ↔ (one.now ≡ two.now) }
{
    one.is_same(two)
}

// Where they come from the same, they are not made.
fn are_projects_equal(alloc: Global, old: &Config, new: &Config) -> Result<bool, NoMemory>
    ensures { IfOk result (λ same. IsTrue same ↔ HaveSameProjects old.now new.now) }
{
    if old.has_same_projects(new) {
        return Ok(true);
    }
    let one = SettingValue::Projects(old.linked_or_discovered_projects(alloc)?);
    let two = SettingValue::Projects(new.linked_or_discovered_projects(alloc)?);
    Ok(is_same_value(&one, &two))
}

/// Whether the projects are the same.
pub(crate) fn have_same_projects(
    alloc: Global,
    old: &Config,
    new: &Config,
) -> Result<bool, NoMemory>
    ensures { IfOk result (λ same. same ≡ has_same_projects old.now new.now) }
{
    are_projects_equal(alloc, old, new)
}
