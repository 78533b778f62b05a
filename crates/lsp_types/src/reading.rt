// Positions and ranges that JSON holds (LSP 3.17, Position and Range).
ghost use Rattle.std.specs.Prelude.{◌≡◌};
ghost use Rattle.serde_json.specs.View.{view};
ghost use Rattle.lsp_types.specs.Reading.{number_at, position_at, read_position, read_range};

use serde_json::Value;
use text_core::{Position, Range};

fn number_at(value: &Value, key: &str) -> Option<u32>
    ensures { result ≡ number_at key.now (view value.now) }
{
    let number = value.get(key)?.as_u64()?;
    if number <= u64::from(u32::MAX) {
        Some(number as u32)
    } else {
        None
    }
}

/// The position that a value is (LSP 3.17, Position).
pub fn read_position(value: &Value) -> Option<Position>
    ensures { result ≡ read_position (view value.now) }
{
    let line = number_at(value, "line")?;
    let character = number_at(value, "character")?;
    Some(Position { line, character })
}

fn position_at(value: &Value, key: &str) -> Option<Position>
    ensures { result ≡ position_at key.now (view value.now) }
{
    read_position(value.get(key)?)
}

/// The range that a value is (LSP 3.17, Range).
pub fn read_range(value: &Value) -> Option<Range>
    ensures { result ≡ read_range (view value.now) }
{
    let start = position_at(value, "start")?;
    let end = position_at(value, "end")?;
    Some(Range { start, end })
}
