// Positions, ranges and text edits as JSON (LSP 3.17, Position, Range and TextEdit).
ghost use Rattle.lsp_types.specs.Values.{position_value, range_value, text_edit_value};
ghost use Rattle.lsp_types.specs.Shallow.{position_shallow, range_shallow, text_edit_shallow};

use crate::to_json::ToJson;
use plain::{Json, JsonObject, NoMemory};
use std::alloc::Global;
use text_core::{Position, Range, TextEdit};

impl ToJson for Position {
    ghost json = { position_value };

    ghost shallow = { position_shallow };

    fn to_json(&self, alloc: Global) -> Result<Json, NoMemory> {
        let mut members = JsonObject::new(alloc);
        let Position { line, character } = *self;
        members.put(alloc, "line", Json::from_u32(line))?;
        members.put(alloc, "character", Json::from_u32(character))?;
        Ok(members.into_json())
    }
}

impl ToJson for Range {
    ghost json = { range_value };

    ghost shallow = { range_shallow };

    fn to_json(&self, alloc: Global) -> Result<Json, NoMemory> {
        let mut members = JsonObject::new(alloc);
        members.put(alloc, "start", self.start.to_json(alloc)?)?;
        members.put(alloc, "end", self.end.to_json(alloc)?)?;
        Ok(members.into_json())
    }
}

impl ToJson for TextEdit {
    ghost json = { text_edit_value };

    ghost shallow = { text_edit_shallow };

    fn to_json(&self, alloc: Global) -> Result<Json, NoMemory> {
        let mut members = JsonObject::new(alloc);
        members.put(alloc, "range", self.range.to_json(alloc)?)?;
        members.put(alloc, "newText", Json::from_text(self.new_text.clone()?))?;
        Ok(members.into_json())
    }
}
