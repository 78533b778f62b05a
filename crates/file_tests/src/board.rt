// The board of diagnostics.
use crate::calls::{one, text_of};
use crate::forms::most;
use docs_vfs::FileId;
use op_board::{CheckFix, DiagnosticCollection, NativePass};
use plain::{Json, SharedJson};
use std::alloc::Global;

/// A fix of a file.
fn fix(alloc: Global) -> Option<CheckFix> {
    Some(CheckFix {
        file: FileId(5),
        action: SharedJson::new(alloc, Json::from_text(text_of(alloc, "f")?)).ok()?,
    })
}

/// Whether the copy of a fix is equal to it.
fn is_fix_copied(alloc: Global) -> Option<bool> {
    let fix = fix(alloc)?;
    let copy = fix.clone().ok()?;
    Some(copy.action == fix.action)
}

/// Whether the copies of a diagnostic, with a place besides its own, and of a fix are equal to them.
pub fn are_copied(alloc: Global) -> Option<bool> {
    let found = most(alloc)?;
    let copy = found.clone().ok();
    let is_copied = match &copy {
        Some(copy) => *copy == found,
        None => false,
    };
    drop(copy);
    drop(found);
    Some(is_copied && is_fix_copied(alloc)?)
}

/// Gives the board a list of one diagnostic.
fn give(board: &mut DiagnosticCollection, alloc: Global) -> Option<()> {
    let found = most(alloc)?;
    let lists = one(alloc, (FileId(5), one(alloc, found)));
    board
        .set_native_diagnostics(NativePass::Syntax, 1, lists)
        .ok()
}

/// Adds a diagnostic of a check, with a fix.
fn check(board: &mut DiagnosticCollection, alloc: Global) -> Option<()> {
    let (found, (package, fix)) = most(alloc).zip(text_of(alloc, "p").zip(fix(alloc)))?;
    board
        .add_check_diagnostic(1, 1, Some(package), FileId(5), found, Some(fix))
        .ok()
}

/// How many diagnostics a file has.
fn count(board: &DiagnosticCollection) -> Option<usize> {
    Some(board.diagnostics_for(FileId(5)).ok()?.len())
}

/// How many fixes there are.
fn count_fixes(board: &DiagnosticCollection) -> Option<usize> {
    Some(board.check_fixes().ok()?.len())
}

/// Forgets what is said of a package.
fn forget_package(board: &mut DiagnosticCollection, alloc: Global) -> Option<()> {
    let package = text_of(alloc, "q")?;
    board.clear_check_for_package(1, Some(package)).ok()
}

/// The same where it is older.
fn forget_older_package(board: &mut DiagnosticCollection, alloc: Global) -> Option<()> {
    let package = text_of(alloc, "q")?;
    board
        .clear_check_older_than_for_package(1, Some(package), 2)
        .ok()
}

/// Forgets all that is said.
fn forget(board: &mut DiagnosticCollection) -> Option<()> {
    board.clear_native_for(FileId(5)).ok()?;
    board.clear_check_older_than(1, 2).ok()?;
    board.clear_check(1).ok()?;
    board.clear_check_all().ok()
}

/// Whether a file has a diagnostic of a pass and one of a check, with a fix, also where those of another package are forgotten, and none
/// once all is.
fn is_told_by(board: &mut DiagnosticCollection, alloc: Global) -> Option<bool> {
    give(board, alloc)?;
    check(board, alloc)?;
    forget_package(board, alloc)?;
    forget_older_package(board, alloc)?;
    let are_said = count(board)? == 2 && count_fixes(board)? == 1;
    forget(board)?;
    Some(are_said && count(board)? == 0 && count_fixes(board)? == 0)
}

/// The same of a new board.
pub fn is_told(alloc: Global) -> Option<bool> {
    let mut board = DiagnosticCollection::new(alloc);
    let is_told = is_told_by(&mut board, alloc);
    drop(board);
    is_told
}
