// Small pieces of JSON.
ghost use Rattle.std.specs.Prelude.{◌≡◌, [], ◌∷◌, map, IfOk};
ghost use Rattle.serde_json.specs.Data.{array, string};
ghost use Rattle.serde_json.specs.View.{items_view, view};
ghost use Rattle.notify.specs.Objects.{list, one, optional_number, optional_text, with_text};

use plain::{Items, Json, JsonObject, NoMemory, Text};
use serde_json::Value;
use std::alloc::Global;

pub(crate) fn text(alloc: Global, text: &str) -> Result<Json, NoMemory>
    ensures { IfOk result (λ json. json ≡ string text.now) }
{
    Ok(Json::from_text(Text::from_str(alloc, text)?))
}

/// The text, if there is one.
pub(crate) fn optional_text(text: Option<Text>) -> Option<Json>
    ensures { result ≡ optional_text text }
{
    match text {
        Some(text) => Some(Json::from_text(text)),
        None => None,
    }
}

/// The number, if there is one.
pub(crate) fn optional_number(number: Option<u32>) -> Option<Json>
    ensures { result ≡ optional_number number }
{
    match number {
        Some(number) => Some(Json::from_u32(number)),
        None => None,
    }
}

/// The object with one member.
pub(crate) fn one(alloc: Global, key: &str, value: Json) -> Result<Json, NoMemory>
    ensures { IfOk result (λ json. json ≡ one key.now value) }
{
    let mut members = JsonObject::new(alloc);
    members.put(alloc, key, value)?;
    Ok(members.into_json())
}

/// The object with one member, a text.
pub(crate) fn with_text(alloc: Global, key: &str, text: Text) -> Result<Json, NoMemory>
    ensures { IfOk result (λ json. json ≡ with_text key.now text) }
{
    one(alloc, key, Json::from_text(text))
}

pub(crate) fn array(values: Vec<Value>) -> Json
    ensures { result ≡ array (items_view values.items) }
{
    Json::new(Value::Array(values))
}

/// The list of one value.
pub(crate) fn alone(alloc: Global, value: Json) -> Result<Json, NoMemory>
    ensures { IfOk result (λ json. json ≡ list (value ∷ [])) }
{
    let mut values = Vec::new(alloc);
    values.push(value.into_value())?;
    Ok(array(values))
}

fn objects(alloc: Global, key: &str, texts: Items<Text>) -> Result<Vec<Value>, NoMemory>
    ensures { IfOk result (λ values. map view values.items ≡ map (with_text key.now) texts) }
{
    let mut values = Vec::new(alloc);
    for text in texts.into_vec() {
        values.push(with_text(alloc, key, text)?.into_value())?;
    }
    Ok(values)
}

/// The list of objects with one member, a text each.
pub(crate) fn list_of_objects(
    alloc: Global,
    key: &str,
    texts: Items<Text>,
) -> Result<Json, NoMemory>
    ensures { IfOk result (λ json. json ≡ list (map (with_text key.now) texts)) }
{
    Ok(array(objects(alloc, key, texts)?))
}
