// Edits of a text that are put off.
ghost use Rattle.std.specs.Prelude.{◌≡◌, length, IfOk, string_bytes};
ghost use Rattle.text_core.specs.Splices.{Fall, spliced};

use std::alloc::{AllocError, Global};

/// A text to put in the place of the bytes from one place up to another.
#[derive(Clone, Copy)]
pub(crate) struct Splice<'a> {
    pub(crate) start: usize,
    pub(crate) end: usize,
    pub(crate) text: &'a str,
}

/// The text that splices leave, in one pass from the last to the first, which stands behind the others.
fn join(
    alloc: Global,
    text: &str,
    splices: &mut Vec<Splice>,
    capacity: usize,
) -> Result<String, AllocError>
    requires { Fall text.now (length text.now) splices.old.items }
    ensures { IfOk result (λ joined. string_bytes joined ≡ spliced text.now splices.old.items) }
{
    let mut joined = String::with_capacity(alloc, capacity)?;
    let mut place = 0;
    while let Some(splice) = splices.pop() {
        joined.push_str(&text[place..splice.start])?;
        joined.push_str(splice.text)?;
        place = splice.end;
    }
    joined.push_str(&text[place..])?;
    Ok(joined)
}

/// The text that splices leave. One alone moves only what stands behind it.
pub(crate) fn make(
    alloc: Global,
    text: String,
    splices: &mut Vec<Splice>,
) -> Result<String, AllocError>
    requires { Fall (string_bytes text) (length (string_bytes text)) splices.old.items }
    ensures { IfOk result (λ made. string_bytes made ≡ spliced (string_bytes text) splices.old.items) }
{
    let mut made = text;
    match splices.as_slice() {
        [] => {}
        [only] => made.replace_range(only.start..only.end, only.text)?,
        _ => return join(alloc, made.as_str(), splices, made.capacity()),
    }
    Ok(made)
}
