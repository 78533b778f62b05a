// Hovers on `.ini` files.
ghost use Rattle.std.specs.Prelude.{◌≡◌, None, IfOk, option_copied};
ghost use Rattle.analysis_host.specs.Answers.{Answers, IsPlainOutcome};
ghost use Rattle.ini_server.specs.Ini.{hover_in, ini_answer, ini_decodes, ini_info, ini_request, is_key, is_on_key, value_at};
ghost use Rattle.text_core.specs.Lines.{line_text};

use analysis_host::{
    Analysis, Answer, Ask, Cancel, GlobalStateSnapshot, Outcome, RowId, ServerInfo,
};
use lsp_types::{position_of, uri_of};
use method_table::{HOVER, default_of};
use plain::{Items, Json, NoMemory, Text};
use requests::{malformed, nothing, refusal, text_of};
use serde_json::json;
use std::alloc::Global;
use text_core::{Position, PositionEncoding, Range, TextIndex};

/// Whether a name without white space around it is a key, and not the front of a section or a comment.
fn is_key(name: &[u8]) -> bool
    ensures { result ≡ is_key name.now }
{
    !matches!(name, [] | [b'[' | b';' | b'#', ..])
}

/// Whether a column stands on the key in the name of a line.
fn is_on_key(name: &str, column: usize) -> bool
    ensures { result ≡ is_on_key name.now column }
{
    let rest = name.trim_ascii_start();
    let key = rest.trim_ascii_end();
    let start = name.len() - rest.len();
    is_key(key.as_bytes()) && start <= column && column - start < key.len()
}

/// The value of the key that a column of a line stands on.
fn value_at(line: &str, column: usize) -> Option<&str>
    ensures { option_copied result ≡ value_at line.now column }
{
    match line.split_once('=') {
        Some((name, value)) if is_on_key(name, column) => Some(value.trim_ascii()),
        _ => None,
    }
}

/// A line of a text, empty past the last.
fn line_of(index: &TextIndex, line: u32) -> &str
    ensures { result.now ≡ line_text index.now line }
{
    index.line_text(line).unwrap_or("")
}

/// Hover at a position of a text.
#[tactic(auto, unfolding(plain::specs::Plain::most_levels))]
fn hover_in(
    alloc: Global,
    encoding: PositionEncoding,
    index: &TextIndex,
    position: Position,
) -> Result<Outcome, NoMemory>
    ensures answers { IfOk result (Answers (hover_in encoding position index.now) None) }
    ensures plain { IfOk result IsPlainOutcome }
{
    let range = Range {
        start: Position {
            line: position.line,
            character: 0,
        },
        end: position,
    };
    let Ok((start, end)) = index.range_of(encoding, range) else {
        return Ok(refusal(Text::from_str(alloc, "Invalid offset")?));
    };
    let line = line_of(index, position.line);
    let Some(value) = value_at(line, (end - start) as usize) else {
        return Ok(Outcome::Value(Answer::Json(Json::null())));
    };
    let value = json!(in alloc; {"contents": value})?;
    Ok(Outcome::Value(Answer::Json(Json::new(value))))
}

/// What a request of a row comes to.
fn request(
    alloc: Global,
    snapshot: &GlobalStateSnapshot,
    row: RowId,
    params: &Json,
) -> Result<Outcome, NoMemory>
    ensures answers { IfOk result (Answers (ini_request snapshot.now row params.now) None) }
    ensures plain { IfOk result IsPlainOutcome }
{
    if row != HOVER {
        return Ok(Outcome::Value(Answer::Json(default_of(alloc, row)?)));
    }
    let (Some(uri), Some(position)) = (uri_of(params), position_of(params)) else {
        return malformed(alloc);
    };
    match text_of(alloc, snapshot, uri)? {
        Ok(Some(index)) => hover_in(alloc, snapshot.encoding(), index, position),
        Ok(None) => Ok(nothing()),
        Err(message) => Ok(refusal(message)),
    }
}

/// An analysis that answers hover by the value of the key under the position, and every other row by its default. It knows of no
/// crate.
#[derive(Drop)]
pub struct Ini(pub Global);

impl Analysis for Ini {
    ghost decodes = { ini_decodes };

    ghost answer = { ini_answer };

    ghost server_info = { ini_info };

    fn decodes(&self, row: RowId, params: &Json) -> bool {
        row != HOVER || uri_of(params).is_some() && position_of(params).is_some()
    }

    #[tactic(auto, unfolding(plain::specs::Plain::most_levels))]
    fn server_info(alloc: Global) -> Result<ServerInfo, NoMemory> {
        let mut info = ServerInfo::new(alloc, "ini_server", "0.1.0")?;
        info.capabilities
            .put(alloc, "hoverProvider", Json::from_bool(true))?;
        Ok(info)
    }

    fn query<C: Cancel>(
        &self,
        snapshot: &GlobalStateSnapshot,
        ask: &Ask,
        cancel: &mut C,
    ) -> Result<Outcome, NoMemory> {
        if let Some(saw) = cancel.poll() {
            return Ok(Outcome::Cancelled { saw });
        }
        match ask {
            Ask::Request { row, params } | Ask::Part { row, params, .. } => {
                request(self.0, snapshot, *row, params.as_json())
            }
            Ask::Syntax(_) | Ask::Semantic(_) => {
                Ok(Outcome::Value(Answer::Diagnostics(Items::new(self.0))))
            }
            Ask::Tests(_) => Ok(Outcome::Value(Answer::Tests(Items::new(self.0)))),
            Ask::CratesOf(_) => Ok(Outcome::Value(Answer::Roots(Items::new(self.0)))),
            Ask::Prime => Ok(Outcome::Value(Answer::Primed)),
        }
    }
}
