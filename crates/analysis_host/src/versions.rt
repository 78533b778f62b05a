// The versions of the open documents at one moment.
ghost use Rattle.std.specs.Prelude.{◌≡◌, ◌<◌, IfOk, OnOk, OnErr};
ghost use Rattle.std.specs.FinMap as map;
ghost use Rattle.analysis_host.specs.Versions.{with_version};

use crate::path_map::PathMap;
use docs_vfs::VfsPath;
use plain::{ExactClone, Items};
use shared_map::Steps;
use std::alloc::{AllocError, Global};
use std::marker::{Brand, Model};
use std::sync::ledger::{Blank, Ledger};

/// The version of each path that is open. Clones share what they have in common, and no change of one is seen in another.
pub struct Versions {
    versions: PathMap<i32>,
}

impl Drop for Versions {
    fn drop(self) {
        let Versions { versions: _ } = self;
    }
}

impl Model for Versions {
    ghost use Rattle.std.specs.Prelude.{ℤ};
    ghost use Rattle.std.specs.Coded.{coded_ℕ, coded_ℤ, coded_list};
    ghost use Rattle.std.specs.FinMap as map;
    ghost use Rattle.docs_vfs.specs.Paths.{path_cmp};

    ghost Value = { map.FinMap path_cmp ℤ };

    ghost coded = { map.code (coded_list coded_ℕ) coded_ℤ };

    ghost view = { λ v. v.versions };
}

impl Versions {
    pub fn new(alloc: Global) -> Result<Versions, AllocError>
        ensures { IfOk result (λ versions. versions ≡ map.empty) }
    {
        Ok(Versions {
            versions: PathMap::new(alloc),
        })
    }

    pub fn get(&self, path: &VfsPath) -> Option<i32>
        ensures { result ≡ map.get self.now path.now }
    {
        self.versions.get(path).copied()
    }

    /// The open paths in order.
    pub fn paths(&self, alloc: Global) -> Result<Items<VfsPath>, AllocError>
        ensures { IfOk result (λ paths. paths ≡ map.keys self.now) }
    {
        self.versions.paths(alloc)
    }

    /// The map with that path set, or without it. It shares with this one all nodes but those on the way to the path.
    pub fn set(
        &self,
        _alloc: Global,
        path: VfsPath,
        version: Option<i32>,
    ) -> Result<Versions, AllocError>
        ensures { IfOk result (λ versions. versions ≡ with_version path version self.now) }
    {
        let mut versions = self.clone()?;
        versions.put(path, version)?;
        Ok(versions)
    }

    /// Sets that path, or takes it away. Nodes that other maps share are copied, all others stay this map's own. Without memory
    /// the map is empty.
    pub fn put(&mut self, path: VfsPath, version: Option<i32>) -> Result<(), AllocError>
        ensures ok { OnOk result (self.new ≡ with_version path version self.old) }
        ensures err { OnErr result (self.new ≡ map.empty) }
    {
        self.put_uncounted::<Brand>(path, version, Blank::new(1))
    }

    /// The same where nobody counts the steps.
    fn put_uncounted<L: Ledger>(
        &mut self,
        path: VfsPath,
        version: Option<i32>,
        blank: Blank,
    ) -> Result<(), AllocError>
        requires name { blank.name ≡ L.name }
        requires parts { blank.parts ≡ L.parts }
        requires some { 0 < L.parts }
        ensures ok { OnOk result (self.new ≡ with_version path version self.old) }
        ensures err { OnErr result (self.new ≡ map.empty) }
    {
        let mut steps = Steps::<L>::new(blank);
        match version {
            Some(version) => self.versions.put(path, Some(version), &mut steps),
            None => self.versions.put(path, None, &mut steps),
        }
    }
}

impl Clone for Versions {
    ghost is_clone = { λ versions copy. copy ≡ versions };

    fn clone(&self) -> Result<Versions, AllocError> {
        Ok(Versions {
            versions: self.versions.clone()?,
        })
    }
}

impl ExactClone for Versions {
    ghost copies = { λ x y h. h };
}
