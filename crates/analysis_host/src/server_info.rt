// What a server says of itself.
ghost use Rattle.std.specs.Prelude.{◌≡◌, IfOk};
ghost use Rattle.serde_json.specs.Data.{no_members};
ghost use Rattle.analysis_host.specs.declared.server_info.ServerInfo.{ServerInfo as InfoData};

use plain::{JsonObject, Text};
use std::alloc::{AllocError, Global};

/// What a server says of itself to a client that begins (LSP 3.17, InitializeResult).
#[derive(Drop)]
pub struct ServerInfo {
    pub name: Text,
    pub version: Text,
    /// What it can do beside what the session announces: the members of an object, as `hoverProvider`. Where one has a
    /// name that the session announces, as `positionEncoding`, the session's stays.
    pub capabilities: JsonObject,
}

impl ServerInfo {
    /// With no capabilities.
    pub fn new(alloc: Global, name: &str, version: &str) -> Result<ServerInfo, AllocError>
        ensures { let made : InfoData = record { name = name.now; version = version.now; capabilities = no_members } in
            IfOk result (λ info. info ≡ made) }
    {
        Ok(ServerInfo {
            name: Text::from_str(alloc, name)?,
            version: Text::from_str(alloc, version)?,
            capabilities: JsonObject::new(alloc),
        })
    }
}
