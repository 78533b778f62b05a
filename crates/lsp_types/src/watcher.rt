// The files that a client is to watch (LSP 3.17, FileSystemWatcher and GlobPattern).
ghost use Rattle.std.specs.Prelude.{◌≡◌, IfOk};
ghost use Rattle.lsp_types.specs.Values.{pattern_value, relative_value, watcher_value};
ghost use Rattle.lsp_types.specs.Shallow.{watcher_shallow};

use crate::to_json::ToJson;
use plain::{Json, JsonObject, NoMemory, Text};
use std::alloc::Global;

/// Which files a client is to watch.
#[derive(Drop)]
pub enum Watcher {
    /// What the pattern names below the folder with this URL.
    Relative { base_uri: Text, pattern: Text },
    /// What the pattern names, or the path.
    Text(Text),
}

fn relative_json(alloc: Global, base_uri: &Text, pattern: &Text) -> Result<Json, NoMemory>
    ensures { IfOk result (λ json. json ≡ relative_value base_uri.now pattern.now) }
{
    let mut members = JsonObject::new(alloc);
    members.put(alloc, "baseUri", Json::from_text(base_uri.clone()?))?;
    members.put(alloc, "pattern", Json::from_text(pattern.clone()?))?;
    Ok(members.into_json())
}

fn pattern_json(alloc: Global, watcher: &Watcher) -> Result<Json, NoMemory>
    ensures { IfOk result (λ json. json ≡ pattern_value watcher.now) }
{
    match watcher {
        Watcher::Relative { base_uri, pattern } => relative_json(alloc, base_uri, pattern),
        Watcher::Text(pattern) => Ok(Json::from_text(pattern.clone()?)),
    }
}

impl ToJson for Watcher {
    ghost json = { watcher_value };

    ghost shallow = { watcher_shallow };

    fn to_json(&self, alloc: Global) -> Result<Json, NoMemory> {
        let mut members = JsonObject::new(alloc);
        members.put(alloc, "globPattern", pattern_json(alloc, self)?)?;
        Ok(members.into_json())
    }
}
