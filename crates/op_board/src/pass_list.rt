ghost use Rattle.std.specs.Prelude.{◌≡◌, OnOk};
ghost use Rattle.std.specs.Option.{option_copied};
ghost use Rattle.std.specs.FinMap as map;
ghost use Rattle.op_board.specs.Board.{list_of, is_recent, is_above, is_accepted, differs, has_some, set_list, set_lists, clear_list};
ghost use Rattle.op_board.specs.Marked.{mark_if};

use crate::by_file::ByFile;
use crate::diagnostic::sort;
use crate::marks::Marks;
use docs_vfs::FileId;
use lsp_types::Diagnostic;
use plain::Items;
use std::alloc::{AllocError, Global};

/// A file's list of one pass, and the highest generation that was accepted.
pub struct PassList {
    pub accepted: u64,
    pub list: Items<Diagnostic>,
}

impl Drop for PassList {
    fn drop(self) {
        let PassList {
            accepted: _,
            list: _,
        } = self;
    }
}

/// Whether a list of this generation is accepted.
fn is_accepted(cleared: Option<&u64>, stored: Option<&PassList>, generation: u64) -> bool
    ensures { result ≡ is_accepted (option_copied cleared.entry) (option_copied stored.entry) generation }
{
    is_above(cleared, generation) && is_recent(stored, generation)
}

fn is_above(cleared: Option<&u64>, generation: u64) -> bool
    ensures { result ≡ is_above (option_copied cleared.entry) generation }
{
    match cleared {
        None => true,
        Some(last) => *last < generation,
    }
}

fn is_recent(stored: Option<&PassList>, generation: u64) -> bool
    ensures { result ≡ is_recent (option_copied stored.entry) generation }
{
    match stored {
        None => true,
        Some(stored) => stored.accepted <= generation,
    }
}

/// Whether the stored list isn't this one.
fn differs(stored: Option<&PassList>, list: &Items<Diagnostic>) -> bool
    ensures { result ≡ differs (list_of (option_copied stored.entry)) list.now }
{
    match stored {
        None => !list.is_empty(),
        Some(stored) => stored.list != *list,
    }
}

/// Stores a list, if it is accepted, and marks the file if the list isn't the one that was stored.
fn set_list(
    lists: &mut ByFile<PassList>,
    marks: &mut Marks,
    cleared: Option<&u64>,
    generation: u64,
    file: FileId,
    list: Items<Diagnostic>,
) -> Result<(), AllocError>
    ensures { OnOk result ((lists.new, marks.new)
        ≡ set_list (option_copied cleared.entry) generation file list (lists.old, marks.old)) }
{
    let stored = lists.get(file);
    if !is_accepted(cleared, stored, generation) {
        return Ok(());
    }
    let list = sort(list)?;
    let is_new = differs(stored, &list);
    marks.mark_if(is_new, file)?;
    lists.insert(
        file,
        PassList {
            accepted: generation,
            list,
        },
    )
}

/// Stores each list that is accepted.
pub(crate) fn set_lists(
    lists: &mut ByFile<PassList>,
    marks: &mut Marks,
    cleared: &ByFile<u64>,
    generation: u64,
    given: Items<(FileId, Items<Diagnostic>)>,
) -> Result<(), AllocError>
    ensures { OnOk result ((lists.new, marks.new)
        ≡ set_lists cleared.now generation given (lists.old, marks.old)) }
{
    for (file, list) in given.into_vec() {
        let last = cleared.get(file);
        set_list(lists, marks, last, generation, file, list)?;
    }
    Ok(())
}

/// Empties the list of a file, and marks the file if there was something in it.
pub(crate) fn clear_list(
    alloc: Global,
    lists: &mut ByFile<PassList>,
    marks: &mut Marks,
    file: FileId,
) -> Result<(), AllocError>
    ensures { OnOk result ((lists.new, marks.new) ≡ clear_list file (lists.old, marks.old)) }
{
    match lists.get(file) {
        None => Ok(()),
        Some(stored) => {
            let accepted = stored.accepted;
            marks.mark_if(!stored.list.is_empty(), file)?;
            let list = Items::new(alloc);
            lists.insert(file, PassList { accepted, list })
        }
    }
}
