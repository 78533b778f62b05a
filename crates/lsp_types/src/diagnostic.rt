// A diagnostic, and when two are the same (LSP 3.17, Diagnostic and DiagnosticRelatedInformation).
ghost use Rattle.std.specs.Prelude.{◌≡◌};
ghost use Rattle.lsp_types.specs.Diagnostics.{same_position, same_range};

use docs_vfs::VfsPath;
use plain::{DecidableEq, ExactClone, Items, Text, copy};
use std::alloc::AllocError;
use text_core::{Position, Range};

/// A place that a diagnostic speaks of besides its own.
pub struct Related {
    pub path: VfsPath,
    pub range: Range,
    pub message: Text,
}

impl Drop for Related {
    fn drop(self) {
        let Related {
            path: _,
            range: _,
            message: _,
        } = self;
    }
}

/// What is wrong in a range of a file. The severity is a number of the Language Server Protocol.
pub struct Diagnostic {
    pub range: Range,
    pub severity: Option<u8>,
    pub code: Option<Text>,
    pub source: Option<Text>,
    pub message: Text,
    pub related: Items<Related>,
}

impl Drop for Diagnostic {
    fn drop(self) {
        let Diagnostic {
            range: _,
            severity: _,
            code: _,
            source: _,
            message: _,
            related: _,
        } = self;
    }
}

impl Clone for Related {
    ghost is_clone = { λ related copy. copy ≡ related };

    fn clone(&self) -> Result<Related, AllocError> {
        Ok(Related {
            path: self.path.clone()?,
            range: self.range,
            message: self.message.clone()?,
        })
    }
}

impl ExactClone for Related {
    ghost copies = { λ x y h. h };
}

impl Clone for Diagnostic {
    ghost is_clone = { λ diagnostic copy. copy ≡ diagnostic };

    fn clone(&self) -> Result<Diagnostic, AllocError> {
        Ok(Diagnostic {
            range: self.range,
            severity: self.severity,
            code: copy(&self.code)?,
            source: copy(&self.source)?,
            message: self.message.clone()?,
            related: self.related.clone()?,
        })
    }
}

impl ExactClone for Diagnostic {
    ghost copies = { λ x y h. h };
}

fn is_same_position(a: &Position, b: &Position) -> bool
    ensures { result ≡ same_position a.now b.now }
{
    a.line == b.line && a.character == b.character
}

fn is_same_range(a: &Range, b: &Range) -> bool
    ensures { result ≡ same_range a.now b.now }
{
    is_same_position(&a.start, &b.start) && is_same_position(&a.end, &b.end)
}

impl PartialEq for Related {
    ghost use Rattle.std.specs.Cmp.{partial_equiv_from_equiv};
    ghost use Rattle.lsp_types.specs.Diagnostics.{same_related, related_equiv};

    ghost eq = { same_related };

    ghost laws = { partial_equiv_from_equiv related_equiv };

    fn eq(&self, other: &Related) -> bool {
        self.path == other.path
            && is_same_range(&self.range, &other.range)
            && self.message == other.message
    }
}

impl Eq for Related {
    ghost use Rattle.lsp_types.specs.Diagnostics.{related_equiv};

    ghost laws = { related_equiv };
}

impl DecidableEq for Related {
    ghost use Rattle.lsp_types.specs.Diagnostics.{related_told};

    ghost decides = { related_told };
}

impl PartialEq for Diagnostic {
    ghost use Rattle.std.specs.Cmp.{partial_equiv_from_equiv};
    ghost use Rattle.lsp_types.specs.Diagnostics.{same_diagnostic, diagnostic_equiv};

    ghost eq = { same_diagnostic };

    ghost laws = { partial_equiv_from_equiv diagnostic_equiv };

    fn eq(&self, other: &Diagnostic) -> bool {
        is_same_range(&self.range, &other.range)
            && self.severity == other.severity
            && self.code == other.code
            && self.source == other.source
            && self.message == other.message
            && self.related == other.related
    }
}

impl Eq for Diagnostic {
    ghost use Rattle.lsp_types.specs.Diagnostics.{diagnostic_equiv};

    ghost laws = { diagnostic_equiv };
}

impl DecidableEq for Diagnostic {
    ghost use Rattle.lsp_types.specs.Diagnostics.{diagnostic_told};

    ghost decides = { diagnostic_told };
}
