ghost use Rattle.std.specs.Prelude.{◌≡◌, ◌++◌, ◌∷◌, [], OnOk, option_to_list};
ghost use Rattle.std.specs.List.{list_any};
ghost use Rattle.std.specs.Option.{option_copied};
ghost use Rattle.std.specs.FinMap as map;
ghost use Rattle.op_board.specs.Checks.{listed, list_in, fixes_of, mark_package, new_package, add_entry, renewed, add_to};
ghost use Rattle.lsp_types.specs.Diagnostics.{same_diagnostic};

use crate::by_file::ByFile;
use crate::diagnostic::CheckFix;
use crate::marks::Marks;
use docs_vfs::FileId;
use lsp_types::Diagnostic;
use plain::Items;
use std::alloc::{AllocError, Global};

/// What a check says of a package: its newest generation, the lists by file, and the fixes, both in the order in which
/// they came. There is something in each list.
pub struct CheckPackage {
    pub generation: u64,
    pub lists: ByFile<Items<Diagnostic>>,
    pub fixes: Items<CheckFix>,
}

impl Drop for CheckPackage {
    fn drop(self) {
        let CheckPackage {
            generation: _,
            lists: _,
            fixes: _,
        } = self;
    }
}

/// A diagnostic of a check, with what it offers to mend the file.
#[derive(Drop)]
pub struct CheckEntry {
    pub file: FileId,
    pub diagnostic: Diagnostic,
    pub fix: Option<CheckFix>,
}

/// A package that says nothing.
pub(crate) fn new_package(alloc: Global, generation: u64) -> CheckPackage
    ensures { result ≡ new_package generation }
{
    CheckPackage {
        generation,
        lists: ByFile::new(alloc),
        fixes: Items::new(alloc),
    }
}

/// Marks the files of which a package says something.
pub(crate) fn mark_package(row: &CheckPackage, marks: &mut Marks) -> Result<(), AllocError>
    ensures { OnOk result (marks.new ≡ mark_package row.now marks.old) }
{
    for number in row.lists.numbers() {
        marks.mark(FileId(*number))?;
    }
    Ok(())
}

/// Whether a diagnostic stands in a list.
fn contains(list: &Items<Diagnostic>, diagnostic: &Diagnostic) -> bool
    ensures { result ≡ list_any (same_diagnostic diagnostic.now) list.now }
{
    for other in list.iter() {
        if *diagnostic == *other {
            return true;
        }
    }
    false
}

fn is_known(list: Option<&Items<Diagnostic>>, diagnostic: &Diagnostic) -> bool
    ensures { result ≡ list_any (same_diagnostic diagnostic.now) (listed (option_copied list.entry)) }
{
    match list {
        None => false,
        Some(list) => contains(list, diagnostic),
    }
}

/// Adds a diagnostic at the end of its file's list.
fn push_diagnostic(
    alloc: Global,
    lists: &mut ByFile<Items<Diagnostic>>,
    file: FileId,
    diagnostic: Diagnostic,
) -> Result<(), AllocError>
    ensures { OnOk result (lists.new
        ≡ map.insert lists.old file.0 (listed (map.get lists.old file.0) ++ diagnostic ∷ [])) }
{
    if let Some(list) = lists.get_mut(file) {
        list.push(diagnostic)?;
        return Ok(());
    }
    let mut list = Items::new(alloc);
    list.push(diagnostic)?;
    lists.insert(file, list)
}

fn push_fix(fixes: &mut Items<CheckFix>, fix: Option<CheckFix>) -> Result<(), AllocError>
    ensures { OnOk result (fixes.new ≡ fixes.old ++ option_to_list fix) }
{
    if let Some(fix) = fix {
        fixes.push(fix)?;
    }
    Ok(())
}

/// Adds an entry whose diagnostic isn't there yet.
fn add_entry(
    alloc: Global,
    row: &mut CheckPackage,
    marks: &mut Marks,
    entry: CheckEntry,
) -> Result<(), AllocError>
    ensures { OnOk result ((row.new, marks.new) ≡ add_entry entry (row.old, marks.old)) }
{
    let known = row.lists.get(entry.file);
    if is_known(known, &entry.diagnostic) {
        return Ok(());
    }
    push_diagnostic(alloc, &mut row.lists, entry.file, entry.diagnostic)?;
    push_fix(&mut row.fixes, entry.fix)?;
    marks.mark(entry.file)
}

/// Empties a package of an older generation.
fn renew(
    alloc: Global,
    row: &mut CheckPackage,
    marks: &mut Marks,
    generation: u64,
) -> Result<(), AllocError>
    ensures { OnOk result ((row.new, marks.new) ≡ renewed generation (row.old, marks.old)) }
{
    if row.generation < generation {
        mark_package(row, marks)?;
        *row = new_package(alloc, generation);
    }
    Ok(())
}

/// Adds an entry, unless the package has a newer generation.
pub(crate) fn add_to(
    alloc: Global,
    row: &mut CheckPackage,
    marks: &mut Marks,
    generation: u64,
    entry: CheckEntry,
) -> Result<(), AllocError>
    ensures { OnOk result ((row.new, marks.new) ≡ add_to generation entry (row.old, marks.old)) }
{
    if generation < row.generation {
        return Ok(());
    }
    renew(alloc, row, marks, generation)?;
    add_entry(alloc, row, marks, entry)
}

/// Adds what a package says of a file to a list.
pub(crate) fn push_list(
    into: &mut Items<Diagnostic>,
    row: &CheckPackage,
    file: FileId,
) -> Result<(), AllocError>
    ensures { OnOk result (into.new ≡ into.old ++ list_in file row.now) }
{
    match row.lists.get(file) {
        None => Ok(()),
        Some(list) => push_all(into, list),
    }
}

/// Adds copies of diagnostics to a list.
pub(crate) fn push_all(
    into: &mut Items<Diagnostic>,
    list: &Items<Diagnostic>,
) -> Result<(), AllocError>
    ensures { OnOk result (into.new ≡ into.old ++ list.now) }
{
    for diagnostic in list.iter() {
        into.push(diagnostic.clone()?)?;
    }
    Ok(())
}

/// Adds copies of the package's fixes to a list.
pub(crate) fn push_fixes(into: &mut Items<CheckFix>, row: &CheckPackage) -> Result<(), AllocError>
    ensures { OnOk result (into.new ≡ into.old ++ fixes_of row.now) }
{
    for fix in row.fixes.iter() {
        into.push(fix.clone()?)?;
    }
    Ok(())
}
