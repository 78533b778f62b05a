// How far some work is (LSP 3.17, WorkDoneProgress).
ghost use Rattle.std.specs.Prelude.{◌≡◌, IfOk};
ghost use Rattle.notify.specs.Progressing.{begin_value, end_value, progress_params, progress_value, work_members};

use crate::objects::{optional_number, optional_text, text};
use crate::outgo::ProgressValue;
use lsp_types::put_some;
use plain::{Json, JsonObject, NoMemory, Text};
use std::alloc::Global;

// The members of work that goes on.
fn work_members(
    alloc: Global,
    kind: &str,
    cancellable: bool,
    message: Option<Text>,
    percentage: Option<u32>,
) -> Result<JsonObject, NoMemory>
    ensures { IfOk result (λ members. members ≡ work_members kind.now cancellable message percentage) }
{
    let mut members = JsonObject::new(alloc);
    members.put(alloc, "cancellable", Json::from_bool(cancellable))?;
    members.put(alloc, "kind", text(alloc, kind)?)?;
    put_some(&mut members, alloc, "message", optional_text(message))?;
    put_some(
        &mut members,
        alloc,
        "percentage",
        optional_number(percentage),
    )?;
    Ok(members)
}

fn begin_value(alloc: Global, title: Text, mut work: JsonObject) -> Result<Json, NoMemory>
    ensures { IfOk result (λ json. json ≡ begin_value title work) }
{
    work.put(alloc, "title", Json::from_text(title))?;
    Ok(work.into_json())
}

fn end_value(alloc: Global, message: Option<Text>) -> Result<Json, NoMemory>
    ensures { IfOk result (λ json. json ≡ end_value message) }
{
    let mut members = JsonObject::new(alloc);
    members.put(alloc, "kind", text(alloc, "end")?)?;
    put_some(&mut members, alloc, "message", optional_text(message))?;
    Ok(members.into_json())
}

fn progress_value(alloc: Global, value: ProgressValue) -> Result<Json, NoMemory>
    ensures { IfOk result (λ json. json ≡ progress_value value) }
{
    match value {
        ProgressValue::Begin {
            cancellable,
            message,
            percentage,
            title,
        } => {
            let work = work_members(alloc, "begin", cancellable, message, percentage)?;
            begin_value(alloc, title, work)
        }
        ProgressValue::Report {
            cancellable,
            message,
            percentage,
        } => Ok(work_members(alloc, "report", cancellable, message, percentage)?.into_json()),
        ProgressValue::End { message } => end_value(alloc, message),
    }
}

/// The params that tell how far the work under a token is.
pub(crate) fn progress_params(
    alloc: Global,
    token: Text,
    value: ProgressValue,
) -> Result<Json, NoMemory>
    ensures { IfOk result (λ json. json ≡ progress_params token value) }
{
    let mut members = JsonObject::new(alloc);
    members.put(alloc, "token", Json::from_text(token))?;
    members.put(alloc, "value", progress_value(alloc, value)?)?;
    Ok(members.into_json())
}
