// Ids as they are logged.
ghost use Rattle.std.specs.Prelude.{◌≡◌, IfOk};
ghost use Rattle.client.specs.Texts.{id_text};

use lsp_frame::RequestId;
use plain::Text;
use std::alloc::{AllocError, Global};

/// An id as a log line has it.
pub fn id_text(alloc: Global, id: Option<RequestId>) -> Result<Text, AllocError>
    ensures { IfOk result (λ text. text ≡ id_text id) }
{
    match id {
        None => Text::from_str(alloc, "null"),
        Some(RequestId::Number(number)) => Ok(Text::from_string(format!(in alloc; "{number}")?)),
        Some(RequestId::Text(text)) => Ok(text),
    }
}
