ghost use Rattle.std.specs.Prelude.{◌≡◌, OnOk};
ghost use Rattle.std.specs.FinMap as map;
ghost use Rattle.op_board.specs.Checks.{mark_packages, mark_checks, older_than, drops_at, mark_dropped, drop_package, clear_id, clear_one, clear_older};

use crate::check_package::{CheckPackage, mark_package};
use crate::checks::{Checks, Packages};
use crate::marks::Marks;
use plain::{ByNumber, Text};
use std::alloc::{AllocError, Global};

/// Whether a package is of an older generation.
pub(crate) fn is_older(row: &CheckPackage, generation: u64) -> bool
    ensures { result ≡ older_than generation row.now }
{
    row.generation < generation
}

/// Whether a package is dropped: each, or those of an older generation.
fn is_dropped(row: &CheckPackage, older_than: Option<u64>) -> bool
    ensures { result ≡ drops_at older_than row.now }
{
    match older_than {
        None => true,
        Some(generation) => is_older(row, generation),
    }
}

/// Marks the files of all packages of a check.
fn mark_packages(packages: &Packages, marks: &mut Marks) -> Result<(), AllocError>
    ensures { OnOk result (marks.new ≡ mark_packages (map.values packages.now) marks.old) }
{
    for row in packages.values() {
        mark_package(row, marks)?;
    }
    Ok(())
}

/// Marks the files of all checks.
fn mark_checks(checks: &Checks, marks: &mut Marks) -> Result<(), AllocError>
    ensures { OnOk result (marks.new ≡ mark_checks (map.values checks.now) marks.old) }
{
    for packages in checks.values() {
        mark_packages(packages, marks)?;
    }
    Ok(())
}

/// Marks the files of the packages of older generations.
fn mark_older(packages: &Packages, marks: &mut Marks, generation: u64) -> Result<(), AllocError>
    ensures { OnOk result (marks.new ≡ mark_dropped (older_than generation) (map.values packages.now) marks.old) }
{
    for row in packages.values() {
        if is_older(row, generation) {
            mark_package(row, marks)?;
        }
    }
    Ok(())
}

/// Drops all checks, and marks their files.
pub(crate) fn clear_checks(
    alloc: Global,
    checks: &mut Checks,
    marks: &mut Marks,
) -> Result<(), AllocError>
    ensures { OnOk result ((checks.new ≡ map.empty)
        × (marks.new ≡ mark_checks (map.values checks.old) marks.old)) }
{
    mark_checks(checks, marks)?;
    *checks = ByNumber::new(alloc);
    Ok(())
}

/// Forgets a check, and marks its files.
pub(crate) fn clear_id(checks: &mut Checks, marks: &mut Marks, id: u64) -> Result<(), AllocError>
    ensures { OnOk result ((checks.new, marks.new) ≡ clear_id id (checks.old, marks.old)) }
{
    if let Some(packages) = checks.get(id) {
        mark_packages(packages, marks)?;
        let _ = checks.remove(id);
    }
    Ok(())
}

/// Drops a package, if it is to be dropped, and marks its files.
fn drop_package(
    packages: &mut Packages,
    marks: &mut Marks,
    name: &Option<Text>,
    older_than: Option<u64>,
) -> Result<(), AllocError>
    ensures { OnOk result ((packages.new, marks.new) ≡ drop_package (drops_at older_than) name.now
        (map.get packages.old name.now) (packages.old, marks.old)) }
{
    if let Some(row) = packages.get(name) {
        if is_dropped(row, older_than) {
            mark_package(row, marks)?;
            packages.remove(name);
        }
    }
    Ok(())
}

/// Drops a package of a check, if it is to be dropped, and marks its files. A check without packages is forgotten.
pub(crate) fn clear_one(
    checks: &mut Checks,
    marks: &mut Marks,
    id: u64,
    name: &Option<Text>,
    older_than: Option<u64>,
) -> Result<(), AllocError>
    ensures { OnOk result ((checks.new, marks.new)
        ≡ clear_one (drops_at older_than) id name.now (checks.old, marks.old)) }
{
    let Some(packages) = checks.get_mut(id) else {
        return Ok(());
    };
    drop_package(packages, marks, name, older_than)?;
    if packages.is_empty() {
        let _ = checks.remove(id);
    }
    Ok(())
}

/// Drops the packages of a check that are of older generations, and marks their files. A check without packages is
/// forgotten.
pub(crate) fn clear_older(
    checks: &mut Checks,
    marks: &mut Marks,
    id: u64,
    generation: u64,
) -> Result<(), AllocError>
    ensures { OnOk result ((checks.new, marks.new) ≡ clear_older id generation (checks.old, marks.old)) }
{
    let Some(packages) = checks.get_mut(id) else {
        return Ok(());
    };
    mark_older(packages, marks, generation)?;
    packages.drop_older(generation);
    if packages.is_empty() {
        let _ = checks.remove(id);
    }
    Ok(())
}
