// What a client is told of tests.
ghost use Rattle.std.specs.Prelude.{◌≡◌, map, IfOk};
ghost use Rattle.serde_json.specs.View.{view};
ghost use Rattle.notify.specs.Testing.{discovered_params, failed_value, report_value, test_state};

use crate::objects::{array, list_of_objects, one, text};
use crate::outgo::TestReport;
use plain::{Items, Json, JsonObject, NoMemory, Text};
use serde_json::Value;
use std::alloc::Global;

fn values(alloc: Global, items: Items<Json>) -> Result<Vec<Value>, NoMemory>
    ensures { IfOk result (λ values. map view values.items ≡ items) }
{
    let mut values = Vec::new(alloc);
    for item in items.into_vec() {
        values.push(item.into_value())?;
    }
    Ok(values)
}

/// The params that tell of tests that were found.
pub(crate) fn discovered_params(
    alloc: Global,
    uris: Items<Text>,
    tests: Items<Json>,
) -> Result<Json, NoMemory>
    ensures { IfOk result (λ json. json ≡ discovered_params uris tests) }
{
    let files = list_of_objects(alloc, "uri", uris)?;
    let tests = array(values(alloc, tests)?);
    let mut members = JsonObject::new(alloc);
    members.put(alloc, "scope", Json::null())?;
    members.put(alloc, "scopeFile", files)?;
    members.put(alloc, "tests", tests)?;
    Ok(members.into_json())
}

fn failed_value(alloc: Global, message: Text) -> Result<Json, NoMemory>
    ensures { IfOk result (λ json. json ≡ failed_value message) }
{
    let mut members = JsonObject::new(alloc);
    members.put(alloc, "kind", text(alloc, "failed")?)?;
    members.put(alloc, "message", Json::from_text(message))?;
    Ok(members.into_json())
}

fn report_value(alloc: Global, report: TestReport) -> Result<Json, NoMemory>
    ensures { IfOk result (λ json. json ≡ report_value report) }
{
    match report {
        TestReport::Started => one(alloc, "kind", text(alloc, "started")?),
        TestReport::Skipped => one(alloc, "kind", text(alloc, "skipped")?),
        TestReport::Passed => one(alloc, "kind", text(alloc, "passed")?),
        TestReport::Failed { message } => failed_value(alloc, message),
    }
}

/// The params that tell what became of a test.
pub(crate) fn test_state(alloc: Global, state: TestReport, test_id: Text) -> Result<Json, NoMemory>
    ensures { IfOk result (λ json. json ≡ test_state state test_id) }
{
    let mut members = JsonObject::new(alloc);
    members.put(alloc, "state", report_value(alloc, state)?)?;
    members.put(alloc, "testId", Json::from_text(test_id))?;
    Ok(members.into_json())
}
