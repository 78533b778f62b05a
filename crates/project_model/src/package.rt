ghost use Rattle.std.specs.Prelude.{◌≡◌};

use crate::kinds::TargetKind;
use docs_vfs::VfsPath;
use plain::{ExactClone, Items, NoMemory, Text, copy};

/// What a package builds from one root file.
pub struct Target {
    pub name: Text,
    pub kind: TargetKind,
    pub root: VfsPath,
    pub required_features: Items<Text>,
}

impl Drop for Target {
    fn drop(self) {
        let Target {
            name: _,
            kind: _,
            root: _,
            required_features: _,
        } = self;
    }
}

/// A package of a workspace. In a workspace that is described as JSON its id is its label.
pub struct Package {
    pub id: Text,
    pub manifest: VfsPath,
    pub targets: Items<Target>,
    pub features: Items<Text>,
    /// The ids of the members of its workspace that it depends on, where they are known.
    pub member_deps: Option<Items<Text>>,
}

impl Drop for Package {
    fn drop(self) {
        let Package {
            id: _,
            manifest: _,
            targets: _,
            features: _,
            member_deps: _,
        } = self;
    }
}

/// The name of a package to the tool that builds it.
#[derive(Drop)]
pub enum PackageSpecifier {
    Cargo { package_id: Text },
    BuildInfo { label: Text },
}

impl Clone for Target {
    ghost is_clone = { λ target copy. copy ≡ target };

    fn clone(&self) -> Result<Target, NoMemory> {
        Ok(Target {
            name: copy(&self.name)?,
            kind: self.kind,
            root: copy(&self.root)?,
            required_features: copy(&self.required_features)?,
        })
    }
}

impl ExactClone for Target {
    ghost copies = { λ x y h. h };
}

impl Clone for Package {
    ghost is_clone = { λ original copy. copy ≡ original };

    fn clone(&self) -> Result<Package, NoMemory> {
        Ok(Package {
            id: copy(&self.id)?,
            manifest: copy(&self.manifest)?,
            targets: copy(&self.targets)?,
            features: copy(&self.features)?,
            member_deps: copy(&self.member_deps)?,
        })
    }
}

impl ExactClone for Package {
    ghost copies = { λ x y h. h };
}

impl Clone for PackageSpecifier {
    ghost is_clone = { λ original copy. copy ≡ original };

    fn clone(&self) -> Result<PackageSpecifier, NoMemory> {
        match self {
            PackageSpecifier::Cargo { package_id } => Ok(PackageSpecifier::Cargo {
                package_id: copy(package_id)?,
            }),
            PackageSpecifier::BuildInfo { label } => Ok(PackageSpecifier::BuildInfo {
                label: copy(label)?,
            }),
        }
    }
}

impl ExactClone for PackageSpecifier {
    ghost copies = { λ x y h. h };
}
