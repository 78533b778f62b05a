ghost use Rattle.std.specs.Prelude.{◌≡◌, map, true, IfOk};
ghost use Rattle.plain.specs.Plain.{is_plain};
ghost use Rattle.serde_json.specs.Data.{Data, array};
ghost use Rattle.serde_json.specs.View.{items_view, view};
ghost use Rattle.lsp_types.specs.Values.{IsShallow, list_value};

use plain::{Json, NoMemory};
use serde_json::Value;
use std::alloc::Global;

/// A value that stands in messages as JSON.
pub trait ToJson {
    ghost json: { Self → Data };

    fn to_json(&self, alloc: Global) -> Result<Json, NoMemory>
        ensures { IfOk result (λ written. written ≡ json self.now) };

    // It has no float and nests a few levels deep, so that a list of such values is plain.
    ghost shallow: { (x : Self) → IsShallow (json x) };
}

fn values<T: ToJson>(alloc: Global, items: &[T]) -> Result<Vec<Value>, NoMemory>
    ensures { IfOk result (λ values. map view values.items ≡ map T.json items.now) }
{
    let mut values = Vec::new(alloc);
    for item in items {
        values.push(item.to_json(alloc)?.into_value())?;
    }
    Ok(values)
}

fn array(values: Vec<Value>) -> Json
    ensures { result ≡ array (items_view values.items) }
{
    Json::new(Value::Array(values))
}

/// The list of values as JSON.
pub fn list_json<T: ToJson>(alloc: Global, items: &[T]) -> Result<Json, NoMemory>
    ensures value { IfOk result (λ written. written ≡ list_value T.json items.now) }
    ensures plain { IfOk result (λ written. is_plain written ≡ true) }
{
    Ok(array(values(alloc, items)?))
}
