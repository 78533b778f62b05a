// Errors of settings as they are told.
ghost use Rattle.std.specs.Prelude.{◌≡◌, IfOk};
ghost use Rattle.client.specs.Texts.{errors_told};

use plain::Text;
use ra_config::ConfigErrors;
use std::alloc::{AllocError, Global};

/// The errors in one text, where there are any.
pub(crate) fn errors_text(alloc: Global, errors: &ConfigErrors) -> Result<Option<Text>, AllocError>
    ensures { IfOk result (λ text. text ≡ errors_told errors.now) }
{
    if errors.entries().is_empty() {
        return Ok(None);
    }
    Ok(Some(Text::from_string(format!(in alloc; "{errors}")?)))
}
