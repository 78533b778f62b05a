ghost use Rattle.std.specs.Prelude.{◌≡◌, IfOk};
ghost use Rattle.op_board.specs.Diagnostics.{position_cmp, range_cmp, in_order};

use docs_vfs::FileId;
use lsp_types::Diagnostic;
use plain::{ExactClone, Items, SharedJson};
use std::alloc::AllocError;
use std::cmp::Ordering;
use text_core::{Position, Range};

/// Which part of the analysis a list comes from.
#[derive(Clone, Copy, Debug, PartialEq, Eq, PartialOrd, Ord, Hash)]
pub enum NativePass {
    Syntax,
    Semantic,
}

/// What a check offers to mend a file. The action is JSON of the Language Server Protocol, which copies share.
pub struct CheckFix {
    pub file: FileId,
    pub action: SharedJson,
}

impl Drop for CheckFix {
    fn drop(self) {
        let CheckFix { file: _, action: _ } = self;
    }
}

impl Clone for CheckFix {
    ghost is_clone = { λ fix copy. copy ≡ fix };

    fn clone(&self) -> Result<CheckFix, AllocError> {
        Ok(CheckFix {
            file: self.file,
            action: self.action.clone()?,
        })
    }
}

impl ExactClone for CheckFix {
    ghost copies = { λ x y h. h };
}

fn compare_positions(a: &Position, b: &Position) -> Ordering
    ensures { result ≡ position_cmp a.now b.now }
{
    a.line.cmp(&b.line).then(a.character.cmp(&b.character))
}

fn compare_ranges(a: &Range, b: &Range) -> Ordering
    ensures { result ≡ range_cmp a.now b.now }
{
    compare_positions(&a.start, &b.start).then(compare_positions(&a.end, &b.end))
}

/// The list, stably sorted by start and end.
pub(crate) fn sort(list: Items<Diagnostic>) -> Result<Items<Diagnostic>, AllocError>
    ensures { IfOk result (λ sorted. sorted ≡ in_order list) }
{
    let mut items = list.into_vec();
    items.sort_by(|a, b| compare_ranges(&a.range, &b.range))?;
    Ok(Items::from_vec(items))
}
