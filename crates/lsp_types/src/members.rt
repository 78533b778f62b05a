// The members of an object that is written.
ghost use Rattle.std.specs.Prelude.{◌≡◌, IfOk, OnOk, option_map};
ghost use Rattle.serde_json.specs.Data.{string};
ghost use Rattle.lsp_types.specs.Values.{put_some};

use plain::{Json, JsonObject, NoMemory, Text};
use std::alloc::Global;

/// Puts a value at a key, if there is one.
pub fn put_some(
    members: &mut JsonObject,
    alloc: Global,
    key: &str,
    value: Option<Json>,
) -> Result<(), NoMemory>
    ensures { OnOk result (members.new ≡ put_some key.now value members.old) }
{
    match value {
        Some(value) => members.put(alloc, key, value),
        None => Ok(()),
    }
}

/// The text, if there is one, as JSON.
pub(crate) fn text_json(text: &Option<Text>) -> Result<Option<Json>, NoMemory>
    ensures { IfOk result (λ json. json ≡ option_map string text.now) }
{
    match text {
        Some(text) => Ok(Some(Json::from_text(text.clone()?))),
        None => Ok(None),
    }
}
