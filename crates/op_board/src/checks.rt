ghost use Rattle.std.specs.Prelude.{◌≡◌, ◌++◌, OnOk, IfOk};
ghost use Rattle.op_board.specs.Checks.{add_in, add_check, lists_in, checks_of, fixes_in, all_fixes};

use crate::by_package::ByPackage;
use crate::check_package::{CheckEntry, CheckPackage, add_to, new_package, push_fixes, push_list};
use crate::diagnostic::CheckFix;
use crate::marks::Marks;
use docs_vfs::FileId;
use lsp_types::Diagnostic;
use plain::{ByNumber, Items, Text};
use std::alloc::{AllocError, Global};

/// What the packages of one check say.
pub type Packages = ByPackage<CheckPackage>;

/// What all checks say.
pub type Checks = ByNumber<Packages>;

/// Adds an entry to its package.
fn add_in(
    alloc: Global,
    packages: &mut Packages,
    marks: &mut Marks,
    generation: u64,
    name: Option<Text>,
    entry: CheckEntry,
) -> Result<(), AllocError>
    ensures { OnOk result ((packages.new, marks.new)
        ≡ add_in generation name entry (packages.old, marks.old)) }
{
    if let Some(row) = packages.get_mut(&name) {
        return add_to(alloc, row, marks, generation, entry);
    }
    let mut row = new_package(alloc, generation);
    add_to(alloc, &mut row, marks, generation, entry)?;
    packages.insert(name, row)
}

/// Adds an entry to its package of a check. A check that is there stays in its place, also where memory runs out.
pub(crate) fn add_check(
    alloc: Global,
    checks: &mut Checks,
    marks: &mut Marks,
    id: u64,
    generation: u64,
    name: Option<Text>,
    entry: CheckEntry,
) -> Result<(), AllocError>
    ensures { OnOk result ((checks.new, marks.new)
        ≡ add_check id generation name entry (checks.old, marks.old)) }
{
    if let Some(packages) = checks.get_mut(id) {
        return add_in(alloc, packages, marks, generation, name, entry);
    }
    let mut packages = ByPackage::new(alloc);
    add_in(alloc, &mut packages, marks, generation, name, entry)?;
    checks.insert(id, packages)?;
    Ok(())
}

fn push_lists(
    into: &mut Items<Diagnostic>,
    packages: &Packages,
    file: FileId,
) -> Result<(), AllocError>
    ensures { OnOk result (into.new ≡ into.old ++ lists_in file packages.now) }
{
    for row in packages.values() {
        push_list(into, row, file)?;
    }
    Ok(())
}

/// Adds what all checks say of a file to a list.
pub(crate) fn push_checks(
    into: &mut Items<Diagnostic>,
    checks: &Checks,
    file: FileId,
) -> Result<(), AllocError>
    ensures { OnOk result (into.new ≡ into.old ++ checks_of file checks.now) }
{
    for packages in checks.values() {
        push_lists(into, packages, file)?;
    }
    Ok(())
}

fn push_fixes_in(into: &mut Items<CheckFix>, packages: &Packages) -> Result<(), AllocError>
    ensures { OnOk result (into.new ≡ into.old ++ fixes_in packages.now) }
{
    for row in packages.values() {
        push_fixes(into, row)?;
    }
    Ok(())
}

/// The fixes of all checks.
pub(crate) fn all_fixes(alloc: Global, checks: &Checks) -> Result<Items<CheckFix>, AllocError>
    ensures { IfOk result (λ fixes. fixes ≡ all_fixes checks.now) }
{
    let mut fixes = Items::new(alloc);
    for packages in checks.values() {
        push_fixes_in(&mut fixes, packages)?;
    }
    Ok(fixes)
}
