// What matchingBrace answers.
ghost use Rattle.std.specs.Prelude.{None, IfOk};
ghost use Rattle.analysis_host.specs.Answers.{Answers, IsPlainOutcome};
ghost use Rattle.analysis_host.specs.SnapshotData.{encoding_of};
ghost use Rattle.requests.specs.Files.{in_text, text_of};
ghost use Rattle.small_analysis.specs.Params.{brace_params};
ghost use Rattle.small_analysis.specs.Small.{braces_in, braces_of};

use crate::matches::all_matched;
use analysis_host::{Answer, GlobalStateSnapshot, Outcome};
use lsp_types::{list_json, positions_of, uri_of};
use plain::{Json, Text};
use requests::{malformed, nothing, refusal, text_of};
use std::alloc::{AllocError, Global};
use text_core::{Position, PositionEncoding, TextIndex};

/// The matches of positions in a text.
fn in_text(
    alloc: Global,
    encoding: PositionEncoding,
    index: &TextIndex,
    positions: &[Position],
) -> Result<Outcome, AllocError>
    ensures answers { IfOk result (Answers (braces_in encoding positions.now index.now) None) }
    ensures plain { IfOk result IsPlainOutcome }
{
    match all_matched(alloc, encoding, index, positions)? {
        None => Ok(refusal(Text::from_str(alloc, "Invalid offset")?)),
        Some(found) => {
            let value = list_json(alloc, found.as_slice())?;
            Ok(Outcome::Value(Answer::Json(value)))
        }
    }
}

/// The matches of positions in the file of a URL.
fn at_url(
    alloc: Global,
    snapshot: &GlobalStateSnapshot,
    uri: &str,
    positions: &[Position],
) -> Result<Outcome, AllocError>
    ensures answers { IfOk result (Answers (in_text (braces_in (encoding_of snapshot.now) positions.now) (text_of snapshot.now uri.now)) None) }
    ensures plain { IfOk result IsPlainOutcome }
{
    match text_of(alloc, snapshot, uri)? {
        Ok(Some(index)) => in_text(alloc, snapshot.encoding(), index, positions),
        Ok(None) => Ok(nothing()),
        Err(message) => Ok(refusal(message)),
    }
}

/// What matchingBrace answers on these params, plain or not.
pub(crate) fn braces_of(
    alloc: Global,
    snapshot: &GlobalStateSnapshot,
    params: &Json,
) -> Result<Outcome, AllocError>
    ensures answers { IfOk result (Answers (braces_of snapshot.now (brace_params params.now)) None) }
    ensures plain { IfOk result IsPlainOutcome }
{
    let Some(uri) = uri_of(params) else {
        return malformed(alloc);
    };
    let Some(positions) = positions_of(alloc, params)? else {
        return malformed(alloc);
    };
    at_url(alloc, snapshot, uri, positions.as_slice())
}
