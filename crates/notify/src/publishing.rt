// The diagnostics of a file (LSP 3.17, PublishDiagnosticsParams).
ghost use Rattle.std.specs.Prelude.{◌≡◌, IfOk};
ghost use Rattle.notify.specs.Publishing.{publish_params, version_value};

use lsp_types::{Diagnostic, list_json, put_some};
use plain::{Items, Json, JsonObject, NoMemory, Text};
use std::alloc::Global;

fn version_json(version: Option<i32>) -> Option<Json>
    ensures { result ≡ version_value version }
{
    match version {
        Some(version) => Some(Json::from_i32(version)),
        None => None,
    }
}

/// The params of a publication.
pub(crate) fn publish_params(
    alloc: Global,
    diagnostics: &Items<Diagnostic>,
    uri: Text,
    version: Option<i32>,
) -> Result<Json, NoMemory>
    ensures { IfOk result (λ json. json ≡ publish_params diagnostics.now uri version) }
{
    let mut members = JsonObject::new(alloc);
    members.put(
        alloc,
        "diagnostics",
        list_json(alloc, diagnostics.as_slice())?,
    )?;
    members.put(alloc, "uri", Json::from_text(uri))?;
    put_some(&mut members, alloc, "version", version_json(version))?;
    Ok(members.into_json())
}
