ghost use Rattle.std.specs.Prelude.{◌≡◌};

use crate::kinds::TargetKind;
use crate::package::PackageSpecifier;
use docs_vfs::VfsPath;
use plain::{ExactClone, Items, NoMemory, Text, copy};

/// What a check is run on.
#[derive(Drop)]
pub enum CheckScope {
    Workspace {
        /// The file that was saved.
        saved: Option<VfsPath>,
    },
    Package {
        package: PackageSpecifier,
        /// The target that is checked by its name.
        target: Option<(TargetKind, Text)>,
        /// The members that the package depends on.
        deps: Option<Items<PackageSpecifier>>,
        /// The file that was saved.
        saved: Option<VfsPath>,
    },
}

/// A check that restarts.
pub struct Restart {
    pub id: u64,
    pub scope: CheckScope,
}

impl Drop for Restart {
    fn drop(self) {
        let Restart { id: _, scope: _ } = self;
    }
}

impl Clone for CheckScope {
    ghost is_clone = { λ scope copy. copy ≡ scope };

    fn clone(&self) -> Result<CheckScope, NoMemory> {
        match self {
            CheckScope::Workspace { saved } => Ok(CheckScope::Workspace {
                saved: copy(saved)?,
            }),
            CheckScope::Package {
                package,
                target,
                deps,
                saved,
            } => Ok(CheckScope::Package {
                package: copy(package)?,
                target: copy(target)?,
                deps: copy(deps)?,
                saved: copy(saved)?,
            }),
        }
    }
}

impl ExactClone for CheckScope {
    ghost copies = { λ x y h. h };
}

impl Clone for Restart {
    ghost is_clone = { λ restart copy. copy ≡ restart };

    fn clone(&self) -> Result<Restart, NoMemory> {
        Ok(Restart {
            id: self.id,
            scope: copy(&self.scope)?,
        })
    }
}

impl ExactClone for Restart {
    ghost copies = { λ x y h. h };
}
