// The settings of a session over generated messages.
ghost use Rattle.std.specs.Prelude.{◌≡◌, false, IfOk};
ghost use Rattle.serde_json.specs.Data.{boolean};
ghost use Rattle.session_generate.specs.Settings.{client_settings, quiet_change, session_settings, switched};

use docs_vfs::VfsPath;
use layered_settings::ConfigChange;
use plain::{Items, Json, JsonObject, NoMemory};
use ra_config::Config;
use std::alloc::{AllocError, Global};

/// How many threads the session may use.
const THREADS: u32 = 4;

fn switched_off(alloc: Global) -> Result<Json, NoMemory>
    ensures { IfOk result (λ json. json ≡ switched (boolean false)) }
{
    let mut members = JsonObject::new(alloc);
    members.put(alloc, "enable", Json::from_bool(false))?;
    Ok(members.into_json())
}

fn client_settings(alloc: Global) -> Result<Json, NoMemory>
    ensures { IfOk result (λ json. json ≡ client_settings) }
{
    let mut members = JsonObject::new(alloc);
    members.put(alloc, "diagnostics", switched_off(alloc)?)?;
    members.put(alloc, "cachePriming", switched_off(alloc)?)?;
    Ok(members.into_json())
}

fn quiet_change(alloc: Global) -> Result<ConfigChange, NoMemory>
    ensures { IfOk result (λ change. change ≡ quiet_change) }
{
    Ok(ConfigChange {
        client: Some(client_settings(alloc)?),
        user: None,
        workspace_toml: Items::new(alloc),
        crate_toml: Items::new(alloc),
        parents: None,
    })
}

/// Settings whose session asks neither for diagnostics nor to prime caches by itself.
pub(crate) fn session_settings(alloc: Global) -> Result<Config, NoMemory>
    ensures { IfOk result (λ config. config ≡ session_settings) }
{
    let Some(root) = VfsPath::new(alloc, "/w")? else {
        return Err(AllocError);
    };
    let config = Config::new(alloc, root, THREADS)?;
    let applied = config.apply_change(alloc, quiet_change(alloc)?)?;
    Ok(applied.config)
}
