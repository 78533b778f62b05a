ghost use Rattle.std.specs.Prelude.{◌≡◌, [], codes, true, IfOk};
ghost use Rattle.plain.specs.Plain.{is_plain};
ghost use Rattle.serde_json.specs.Data.{array, no_items, object, no_members, member, string};
ghost use Rattle.method_table.specs.Defaults.{value_of, empty_label, full_report, no_crates, no_tests};

use plain::{Json, JsonObject, NoMemory, Text};
use serde_json::Value;
use std::alloc::Global;

/// What a request is answered while it can't be worked on, as the table has it.
#[derive(Clone, Copy, Debug, PartialEq, Eq)]
pub enum DefaultValue {
    Null,
    EmptyText,
    EmptyList,
    EmptyObject,
    /// A completion item without a name.
    EmptyLabel,
    /// A whole report of no diagnostics.
    FullReport,
    NoCrates,
    NoTests,
}

fn empty_list(alloc: Global) -> Json
    ensures { result ≡ array no_items }
{
    Json::new(Value::Array(Vec::new(alloc)))
}

fn text(alloc: Global, text: &str) -> Result<Json, NoMemory>
    ensures { IfOk result (λ json. json ≡ string text.now) }
{
    Ok(Json::from_text(Text::from_str(alloc, text)?))
}

fn empty_label(alloc: Global) -> Result<Json, NoMemory>
    ensures { IfOk result (λ json. json ≡ empty_label) }
{
    let mut members = JsonObject::new(alloc);
    members.put(alloc, "label", text(alloc, "")?)?;
    Ok(members.into_json())
}

fn full_report(alloc: Global) -> Result<Json, NoMemory>
    ensures { IfOk result (λ json. json ≡ full_report) }
{
    let mut members = JsonObject::new(alloc);
    members.put(alloc, "items", empty_list(alloc))?;
    members.put(alloc, "kind", text(alloc, "full")?)?;
    members.put(alloc, "resultId", text(alloc, "rust-analyzer")?)?;
    Ok(members.into_json())
}

fn no_crates(alloc: Global) -> Result<Json, NoMemory>
    ensures { IfOk result (λ json. json ≡ no_crates) }
{
    let mut members = JsonObject::new(alloc);
    members.put(alloc, "crates", empty_list(alloc))?;
    Ok(members.into_json())
}

fn no_tests(alloc: Global) -> Result<Json, NoMemory>
    ensures { IfOk result (λ json. json ≡ no_tests) }
{
    let mut members = JsonObject::new(alloc);
    members.put(alloc, "scope", Json::null())?;
    members.put(alloc, "scopeFile", Json::null())?;
    members.put(alloc, "tests", empty_list(alloc))?;
    Ok(members.into_json())
}

impl DefaultValue {
    fn make(self, alloc: Global) -> Result<Json, NoMemory>
        ensures { IfOk result (λ json. json ≡ value_of self) }
    {
        match self {
            DefaultValue::Null => Ok(Json::null()),
            DefaultValue::EmptyText => Ok(Json::from_text(Text::new(alloc))),
            DefaultValue::EmptyList => Ok(empty_list(alloc)),
            DefaultValue::EmptyObject => Ok(JsonObject::new(alloc).into_json()),
            DefaultValue::EmptyLabel => empty_label(alloc),
            DefaultValue::FullReport => full_report(alloc),
            DefaultValue::NoCrates => no_crates(alloc),
            DefaultValue::NoTests => no_tests(alloc),
        }
    }

    /// The value. It is plain.
    pub fn value(self, alloc: Global) -> Result<Json, NoMemory>
        ensures value { IfOk result (λ json. json ≡ value_of self) }
        ensures plain { IfOk result (λ json. is_plain json ≡ true) }
    {
        let json = self.make(alloc)?;
        Ok(json)
    }
}
