// Ranges, text edits and diagnostics in JSON. Each function holds one large value, so that it stays quick to prove.
use crate::calls::{one, path_at, text_of};
use lsp_types::{Diagnostic, Related, ToJson};
use plain::Items;
use std::alloc::Global;
use text_core::{Position, Range, TextEdit};

const RANGE: Range = Range {
    start: Position {
        line: 0,
        character: 7,
    },
    end: Position {
        line: 0,
        character: 8,
    },
};

/// The compact text of a value's JSON.
fn written<T: ToJson>(alloc: Global, value: &T) -> Option<String> {
    let json = value.to_json(alloc).ok()?;
    json.as_value().to_string(alloc).ok()
}

/// The same of a value that is made.
fn written_if<T: ToJson + Drop>(alloc: Global, value: Option<T>) -> Option<String> {
    let text = match &value {
        Some(value) => written(alloc, value),
        None => None,
    };
    drop(value);
    text
}

fn edit(alloc: Global) -> Option<TextEdit> {
    Some(TextEdit {
        range: RANGE,
        new_text: text_of(alloc, "a\n")?,
    })
}

fn least(alloc: Global) -> Option<Diagnostic> {
    let (message, source) = text_of(alloc, "unmatched bracket").zip(text_of(alloc, "ra_serve"))?;
    Some(Diagnostic {
        range: RANGE,
        severity: Some(1),
        code: None,
        source: Some(source),
        message,
        related: Items::new(alloc),
    })
}

fn place(alloc: Global) -> Option<Related> {
    let (path, message) = path_at(alloc, "/w/a b.rs").zip(text_of(alloc, "here"))?;
    Some(Related {
        path,
        range: RANGE,
        message,
    })
}

pub fn most(alloc: Global) -> Option<Diagnostic> {
    let texts = text_of(alloc, "E1").zip(text_of(alloc, "\""));
    let (place, (code, message)) = place(alloc).zip(texts)?;
    Some(Diagnostic {
        range: RANGE,
        severity: None,
        code: Some(code),
        source: None,
        message,
        related: one(alloc, place),
    })
}

/// The JSON of a range, a text edit, and a diagnostic without more or with all that it may have.
pub fn form(alloc: Global, word: &str) -> Option<String> {
    match word {
        "range" => written(alloc, &RANGE),
        "edit" => written_if(alloc, edit(alloc)),
        "least" => written_if(alloc, least(alloc)),
        _ => written_if(alloc, most(alloc)),
    }
}
