//! A TOML text as the JSON value that the rows are read from.
ghost use Rattle.std.specs.Prelude.{◌≡◌, IfOk, map};
ghost use Rattle.serde_json.specs.Data.{no_members};
ghost use Rattle.serde_json.specs.View.{view as json_view};
ghost use Rattle.toml.specs.View.{view, items_view, table_view};
ghost use Rattle.ra_settings.specs.Toml.{tree_of, list_of, members_of, toml_tree, has_mark, no_setting};

use plain::{Json, JsonObject, Text};
use serde_json::Value as JsonValue;
use std::alloc::{AllocError, Global};
use toml::{Table, Value};

/// What stands for a float or a date, which no setting takes.
pub const NO_SETTING: f64 = 0.5;

fn no_setting() -> Json
    ensures { result ≡ no_setting }
{
    Json::new(JsonValue::from(NO_SETTING))
}

/// Whether a text begins with a byte order mark.
fn has_mark(text: &str) -> bool
    ensures { result ≡ has_mark text.now }
{
    text.as_bytes().starts_with(&[0xEF, 0xBB, 0xBF])
}

/// The tree of a TOML text, or none where it is no TOML. Here one with a byte order mark is none.
pub fn toml_tree(alloc: Global, text: &str) -> Result<Option<Json>, AllocError>
    ensures { IfOk result (λ tree. tree ≡ toml_tree text.now) }
{
    if has_mark(text) {
        return Ok(None);
    }
    match toml::table_from_str(alloc, text) {
        Ok(table) => Ok(Some(members_of(alloc, &table)?.into_json())),
        Err(error) if error.is_memory() => Err(AllocError),
        Err(_) => Ok(None),
    }
}

#[cycle(tree)]
fn tree_of(alloc: Global, value: &Value) -> Result<Json, AllocError>
    ensures { IfOk result (λ tree. tree ≡ tree_of (view value.now)) }
{
    match value {
        Value::String(text) => Ok(Json::from_text(Text::from_str(alloc, text.as_str())?)),
        Value::Integer(n) => Ok(Json::new(JsonValue::from(*n))),
        Value::Boolean(truth) => Ok(Json::new(JsonValue::Bool(*truth))),
        Value::Float(_) | Value::Datetime(_) => Ok(no_setting()),
        Value::Array(list) => Ok(Json::new(JsonValue::Array(list_of(alloc, list)?))),
        Value::Table(table) => Ok(members_of(alloc, table)?.into_json()),
    }
}

#[cycle(tree)]
fn list_of(alloc: Global, list: &Vec<Value>) -> Result<Vec<JsonValue>, AllocError>
    ensures { IfOk result (λ made. map json_view made.items ≡ list_of (items_view list.now.items)) }
{
    let mut made = Vec::new(alloc);
    for item in list {
        made.push(tree_of(alloc, item)?.into_value())?;
    }
    Ok(made)
}

#[cycle(tree)]
fn members_of(alloc: Global, table: &Table) -> Result<JsonObject, AllocError>
    ensures { IfOk result (λ made. made ≡ members_of no_members (table_view table.now)) }
{
    let mut made = JsonObject::new(alloc);
    for (key, value) in table.iter() {
        let tree = tree_of(alloc, value)?;
        made.put(alloc, key.as_str(), tree)?;
    }
    Ok(made)
}
