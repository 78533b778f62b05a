// What a hover answers.
ghost use Rattle.std.specs.Prelude.{◌≡◌, true, None, IfOk, option_copied};
ghost use Rattle.plain.specs.Plain.{is_plain};
ghost use Rattle.analysis_host.specs.Answers.{Answers, IsPlainOutcome};
ghost use Rattle.analysis_host.specs.SnapshotData.{encoding_of};
ghost use Rattle.requests.specs.Files.{in_text, text_of};
ghost use Rattle.small_analysis.specs.Params.{hover_params};
ghost use Rattle.small_analysis.specs.Small.{hover_value, hover_in, hover_of};

use crate::names::name_at;
use crate::offsets::place_in;
use analysis_host::{Answer, GlobalStateSnapshot, Outcome};
use lsp_types::{position_of, uri_of};
use plain::{Json, JsonObject, Text};
use requests::{malformed, nothing, refusal, text_of};
use std::alloc::{AllocError, Global};
use text_core::{Position, PositionEncoding, TextIndex};

/// What a hover shows for a name.
#[tactic(auto, unfolding(plain::specs::Plain::most_levels))]
fn hover_value(alloc: Global, name: Option<&str>) -> Result<Json, AllocError>
    ensures value { IfOk result (λ json. json ≡ hover_value (option_copied name.entry)) }
    ensures plain { IfOk result (λ json. is_plain json ≡ true) }
{
    let Some(name) = name else {
        return Ok(Json::null());
    };
    let mut members = JsonObject::new(alloc);
    members.put(
        alloc,
        "contents",
        Json::from_text(Text::from_str(alloc, name)?),
    )?;
    Ok(members.into_json())
}

/// Hover at a position of a text.
fn in_text(
    alloc: Global,
    encoding: PositionEncoding,
    index: &TextIndex,
    position: Position,
) -> Result<Outcome, AllocError>
    ensures answers { IfOk result (Answers (hover_in encoding position index.now) None) }
    ensures plain { IfOk result IsPlainOutcome }
{
    match place_in(encoding, index, position) {
        None => Ok(refusal(Text::from_str(alloc, "Invalid offset")?)),
        Some(offset) => {
            let value = hover_value(alloc, name_at(index.text(), offset))?;
            Ok(Outcome::Value(Answer::Json(value)))
        }
    }
}

/// Hover at a position of a URL.
fn at_url(
    alloc: Global,
    snapshot: &GlobalStateSnapshot,
    uri: &str,
    position: Position,
) -> Result<Outcome, AllocError>
    ensures answers { IfOk result (Answers (in_text (hover_in (encoding_of snapshot.now) position) (text_of snapshot.now uri.now)) None) }
    ensures plain { IfOk result IsPlainOutcome }
{
    match text_of(alloc, snapshot, uri)? {
        Ok(Some(index)) => in_text(alloc, snapshot.encoding(), index, position),
        Ok(None) => Ok(nothing()),
        Err(message) => Ok(refusal(message)),
    }
}

/// What hover answers on these params, plain or not.
pub(crate) fn hover_of(
    alloc: Global,
    snapshot: &GlobalStateSnapshot,
    params: &Json,
) -> Result<Outcome, AllocError>
    ensures answers { IfOk result (Answers (hover_of snapshot.now (hover_params params.now)) None) }
    ensures plain { IfOk result IsPlainOutcome }
{
    let Some(uri) = uri_of(params) else {
        return malformed(alloc);
    };
    let Some(position) = position_of(params) else {
        return malformed(alloc);
    };
    at_url(alloc, snapshot, uri, position)
}
