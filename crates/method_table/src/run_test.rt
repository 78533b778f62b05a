// The params of a request to run tests.
ghost use Rattle.std.specs.Prelude.{◌≡◌, IfOk, option_map};
ghost use Rattle.serde_json.specs.View.{items_view, view};
ghost use Rattle.method_table.specs.RunTest.{optional_texts, run_test_of, texts_in};

use crate::request::RunTest;
use plain::{Items, Json, NoMemory, Text};
use serde_json::Value;
use std::alloc::Global;

/// The texts that the items are, where each is one.
fn texts_in(alloc: Global, list: &[Value]) -> Result<Option<Items<Text>>, NoMemory>
    ensures { IfOk result (λ texts. texts ≡ texts_in (items_view list.now)) }
{
    let mut texts = Items::new(alloc);
    for item in list {
        match item.as_str() {
            Some(text) => texts.push(Text::from_str(alloc, text)?)?,
            None => return Ok(None),
        }
    }
    Ok(Some(texts))
}

/// The texts of a member, which may be missing or null, or nothing where it is something else.
fn optional_texts(
    alloc: Global,
    member: Option<&Value>,
) -> Result<Option<Option<Items<Text>>>, NoMemory>
    ensures { IfOk result (λ texts. texts ≡ optional_texts (option_map (λ d. view d.now) member.entry)) }
{
    match member {
        None | Some(Value::Null) => Ok(Some(None)),
        Some(Value::Array(list)) => match texts_in(alloc, list)? {
            Some(texts) => Ok(Some(Some(texts))),
            None => Ok(None),
        },
        Some(_) => Ok(None),
    }
}

/// The tests that params ask for, or none where they are malformed: an object is wanted whose `include` and
/// `exclude` are each missing, null or a list of texts.
pub fn read_run_test(alloc: Global, params: &Json) -> Result<Option<RunTest>, NoMemory>
    ensures { IfOk result (λ run. run ≡ run_test_of params.now) }
{
    let Value::Object(_) = params.as_value() else {
        return Ok(None);
    };
    let Some(include) = optional_texts(alloc, params.as_value().get("include"))? else {
        return Ok(None);
    };
    let Some(exclude) = optional_texts(alloc, params.as_value().get("exclude"))? else {
        return Ok(None);
    };
    Ok(Some(RunTest { include, exclude }))
}
