// What a client is asked to tell of (LSP 3.17, RegistrationParams).
ghost use Rattle.std.specs.Prelude.{◌≡◌, [], ◌++◌, codes, IfOk};
ghost use Rattle.notify.specs.Registering.{patterns, registering, registration, save_options, watch_options};

use crate::objects::{alone, list_of_objects, one, text};
use lsp_types::{Watcher, list_json};
use plain::{Items, Json, JsonObject, NoMemory, Text};
use std::alloc::Global;

fn registration(alloc: Global, method: &str, options: Json) -> Result<Json, NoMemory>
    ensures { IfOk result (λ json. json ≡ registration method.now options) }
{
    let mut members = JsonObject::new(alloc);
    members.put(alloc, "id", text(alloc, method)?)?;
    members.put(alloc, "method", text(alloc, method)?)?;
    members.put(alloc, "registerOptions", options)?;
    Ok(members.into_json())
}

/// One registration, under its method's name.
fn registering(alloc: Global, method: &str, options: Json) -> Result<Json, NoMemory>
    ensures { IfOk result (λ json. json ≡ registering method.now options) }
{
    one(
        alloc,
        "registrations",
        alone(alloc, registration(alloc, method, options)?)?,
    )
}

fn below(alloc: Global, file: &str) -> Result<Text, NoMemory>
    ensures { IfOk result (λ pattern. pattern ≡ codes "**/" ++ file.now) }
{
    let mut pattern = Text::from_str(alloc, "**/")?;
    pattern.push_str(file)?;
    Ok(pattern)
}

// The patterns of the documents of Rust and Cargo.
fn own_patterns(alloc: Global) -> Result<Items<Text>, NoMemory>
    ensures { IfOk result (λ all. all ≡ patterns []) }
{
    let mut patterns = Items::new(alloc);
    patterns.push(Text::from_str(alloc, "**/*.rs")?)?;
    patterns.push(Text::from_str(alloc, "**/Cargo.toml")?)?;
    patterns.push(Text::from_str(alloc, "**/Cargo.lock")?)?;
    Ok(patterns)
}

fn patterns(alloc: Global, files: &[Text]) -> Result<Items<Text>, NoMemory>
    ensures { IfOk result (λ all. all ≡ patterns files.now) }
{
    let mut patterns = own_patterns(alloc)?;
    for file in files {
        patterns.push(below(alloc, file.as_str())?)?;
    }
    Ok(patterns)
}

fn save_options(alloc: Global, files: &Items<Text>) -> Result<Json, NoMemory>
    ensures { IfOk result (λ json. json ≡ save_options files.now) }
{
    let selector = list_of_objects(alloc, "pattern", patterns(alloc, files.as_slice())?)?;
    let mut members = JsonObject::new(alloc);
    members.put(alloc, "documentSelector", selector)?;
    members.put(alloc, "includeText", Json::from_bool(false))?;
    Ok(members.into_json())
}

fn watch_options(alloc: Global, watchers: &[Watcher]) -> Result<Json, NoMemory>
    ensures { IfOk result (λ json. json ≡ watch_options watchers.now) }
{
    one(alloc, "watchers", list_json(alloc, watchers)?)
}

/// The params that ask to be told of saved documents.
pub(crate) fn registering_save(alloc: Global, files: &Items<Text>) -> Result<Json, NoMemory>
    ensures { IfOk result (λ json. json ≡ registering (codes "textDocument/didSave") (save_options files.now)) }
{
    registering(alloc, "textDocument/didSave", save_options(alloc, files)?)
}

/// The params that ask to be told of changed files.
pub(crate) fn registering_watch(alloc: Global, watchers: &[Watcher]) -> Result<Json, NoMemory>
    ensures { IfOk result (λ json. json ≡ registering (codes "workspace/didChangeWatchedFiles") (watch_options watchers.now)) }
{
    registering(
        alloc,
        "workspace/didChangeWatchedFiles",
        watch_options(alloc, watchers)?,
    )
}
