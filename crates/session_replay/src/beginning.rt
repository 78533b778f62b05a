// The settings that a session begins with.
ghost use Rattle.std.specs.Prelude.{◌≡◌, IfOk};
ghost use Rattle.session_replay.specs.Beginning.{config_of};

use ra_config::Config;
use session_record::StartConfig;
use std::alloc::{AllocError, Global};

/// The settings of a session that begins so; none where the params of `initialize` name no root.
pub fn config_of(alloc: Global, begin: &StartConfig) -> Result<Option<Config>, AllocError>
    ensures { IfOk result (λ config. config ≡ config_of begin.now) }
{
    match begin {
        StartConfig::New { root, threads } => {
            let config = Config::new(alloc, root.clone()?, *threads)?;
            Ok(Some(config))
        }
        StartConfig::Initialize { params, threads } => {
            match Config::from_initialize(alloc, params, *threads)? {
                Ok(config) => Ok(Some(config)),
                Err(_) => Ok(None),
            }
        }
    }
}
