// Params that say nothing.
ghost use Rattle.std.specs.Prelude.{◌≡◌};
ghost use Rattle.serde_json.specs.View.{items_view, members_view};
ghost use Rattle.method_table.specs.Unit.{is_unit, has_no_items, has_no_members};

use plain::Json;
use serde_json::{Map, Value};

fn has_no_items(items: &Vec<Value>) -> bool
    ensures { result ≡ has_no_items (items_view items.now.items) }
{
    items.is_empty()
}

fn has_no_members(members: &Map<String, Value>) -> bool
    ensures { result ≡ has_no_members (members_view members.now.entries) }
{
    members.is_empty()
}

/// Whether params are null, `{}` or `[]`.
pub fn is_unit(params: &Json) -> bool
    ensures { result ≡ is_unit params.now }
{
    match params.as_value() {
        Value::Null => true,
        Value::Array(items) => has_no_items(items),
        Value::Object(members) => has_no_members(members),
        _ => false,
    }
}
