// The root files of crates.
ghost use Rattle.std.specs.Prelude.{◌≡◌, None, IfOk, option_copied};
ghost use Rattle.analysis_host.specs.Answers.{Answers, IfValue, IsRoots};
ghost use Rattle.small_analysis.specs.Roots.{crates_of, existing_path, existing_roots};

use analysis_host::{Answer, GlobalStateSnapshot, Outcome};
use docs_vfs::{FileId, VfsPath};
use plain::{Items, Text};
use project_model::CrateInfo;
use std::alloc::{AllocError, Global};

/// The path of a file that exists.
fn existing_path(snapshot: &GlobalStateSnapshot, file: FileId) -> Option<&VfsPath>
    ensures { option_copied result ≡ existing_path snapshot.now file }
{
    if snapshot.file_exists(file) {
        Some(snapshot.file_id_to_file_path(file))
    } else {
        None
    }
}

/// The paths of the crates' root files, but for those that don't exist.
fn existing_roots(
    alloc: Global,
    snapshot: &GlobalStateSnapshot,
    crates: &[CrateInfo],
) -> Result<Items<VfsPath>, AllocError>
    ensures { IfOk result (λ paths. paths ≡ existing_roots snapshot.now crates.now) }
{
    let mut paths = Items::new(alloc);
    for info in crates {
        if let Some(path) = existing_path(snapshot, info.root) {
            paths.push(path.clone()?)?;
        }
    }
    Ok(paths)
}

/// The root files of the crates that a file belongs to: any file with a text may belong to each crate.
pub(crate) fn crates_of(
    alloc: Global,
    snapshot: &GlobalStateSnapshot,
    file: FileId,
) -> Result<Outcome, AllocError>
    ensures answers { IfOk result (Answers (crates_of snapshot.now file) None) }
    ensures kind { IfOk result (IfValue IsRoots) }
{
    if snapshot.file_text(file).is_none() {
        return Ok(Outcome::Fault {
            code: None,
            message: Text::from_str(alloc, "not text")?,
        });
    }
    let crates = snapshot.crate_data().crates.as_slice();
    let paths = existing_roots(alloc, snapshot, crates)?;
    Ok(Outcome::Value(Answer::Roots(paths)))
}
