// Diagnostics as JSON (LSP 3.17, Diagnostic and DiagnosticRelatedInformation).
ghost use Rattle.std.specs.Prelude.{◌≡◌, IfOk};
ghost use Rattle.lsp_types.specs.Values.{diagnostic_value, location_value, related_value, related_values, severity_value};
ghost use Rattle.lsp_types.specs.Shallow.{diagnostic_shallow, related_shallow};

use crate::diagnostic::{Diagnostic, Related};
use crate::members::{put_some, text_json};
use crate::to_json::{ToJson, list_json};
use docs_vfs::{VfsPath, url_of_path};
use plain::{Json, JsonObject, NoMemory};
use std::alloc::Global;
use text_core::Range;

fn location_json(alloc: Global, path: &VfsPath, range: &Range) -> Result<Json, NoMemory>
    ensures { IfOk result (λ json. json ≡ location_value path.now range.now) }
{
    let mut members = JsonObject::new(alloc);
    members.put(alloc, "uri", Json::from_text(url_of_path(alloc, path)?))?;
    members.put(alloc, "range", range.to_json(alloc)?)?;
    Ok(members.into_json())
}

impl ToJson for Related {
    ghost json = { related_value };

    ghost shallow = { related_shallow };

    fn to_json(&self, alloc: Global) -> Result<Json, NoMemory> {
        let mut members = JsonObject::new(alloc);
        members.put(
            alloc,
            "location",
            location_json(alloc, &self.path, &self.range)?,
        )?;
        members.put(alloc, "message", Json::from_text(self.message.clone()?))?;
        Ok(members.into_json())
    }
}

fn severity_json(severity: Option<u8>) -> Option<Json>
    ensures { result ≡ severity_value severity }
{
    match severity {
        Some(severity) => Some(Json::from_u32(u32::from(severity))),
        None => None,
    }
}

fn related_json(alloc: Global, related: &[Related]) -> Result<Option<Json>, NoMemory>
    ensures { IfOk result (λ json. json ≡ related_values related.now) }
{
    match related {
        [] => Ok(None),
        _ => Ok(Some(list_json(alloc, related)?)),
    }
}

impl ToJson for Diagnostic {
    ghost json = { diagnostic_value };

    ghost shallow = { diagnostic_shallow };

    fn to_json(&self, alloc: Global) -> Result<Json, NoMemory> {
        let mut members = JsonObject::new(alloc);
        members.put(alloc, "range", self.range.to_json(alloc)?)?;
        put_some(
            &mut members,
            alloc,
            "severity",
            severity_json(self.severity),
        )?;
        put_some(&mut members, alloc, "code", text_json(&self.code)?)?;
        put_some(&mut members, alloc, "source", text_json(&self.source)?)?;
        members.put(alloc, "message", Json::from_text(self.message.clone()?))?;
        let related = related_json(alloc, self.related.as_slice())?;
        put_some(&mut members, alloc, "relatedInformation", related)?;
        Ok(members.into_json())
    }
}
