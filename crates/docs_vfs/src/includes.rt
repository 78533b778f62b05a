ghost use Rattle.std.specs.Prelude.{◌≡◌, ◌≤◌, ◌++◌, ◌∷◌, [], ℕ, List, true, length, map, string_bytes, OnOk, IfOk, if◌then◌else◌, bytes_eq};
ghost use Rattle.std.specs.List.{filter, list_all};
ghost use Rattle.docs_vfs.specs.Paths.{is_path};
ghost use Rattle.docs_vfs.specs.Roots.{most_roots};
ghost use Rattle.docs_vfs.specs.Includes.{places, places_in, is_asked, has_paths, IsIndex};

use crate::path::VfsPath;
use crate::source_roots::Root;
use std::alloc::{AllocError, Global};
use std::collections::BTreeMap;

/// The places of the roots by the texts of their includes.
pub(crate) struct Includes {
    rows: BTreeMap<String, Vec<u32>>,
}

impl Drop for Includes {
    fn drop(self) {
        let Includes { rows: _ } = self;
    }
}

impl Includes {
    /// An index of no roots.
    fn new(alloc: Global) -> Includes
        ensures { (text : List ℕ) → places result text ≡ [] }
    {
        Includes {
            rows: BTreeMap::new(alloc),
        }
    }

    /// Adds a place to those of a text.
    fn add(&mut self, include: String, at: u32) -> Result<(), AllocError>
        ensures { OnOk result ((text : List ℕ) → places self.new text
            ≡ places self.old text ++ (if bytes_eq text (string_bytes include) then at ∷ [] else [])) }
    {
        self.rows.entry(include)?.or_default().push(at)?;
        Ok(())
    }

    /// Adds a place to those of each of these texts.
    fn add_all(&mut self, includes: &[VfsPath], at: u32) -> Result<(), AllocError>
        ensures places { OnOk result ((text : List ℕ) → places self.new text
            ≡ places self.old text ++ map (λ _. at) (filter (bytes_eq text) includes.now)) }
        ensures paths { OnOk result (list_all is_path includes.now ≡ true) }
    {
        for include in includes {
            self.add(include.to_text()?, at)?;
        }
        Ok(())
    }

    /// Adds the place of a root to those of its includes, if it is asked for.
    fn add_root(&mut self, root: &Root, at: u32, only_local: bool) -> Result<(), AllocError>
        ensures places { OnOk result ((text : List ℕ) → places self.new text
            ≡ places self.old text ++ (if is_asked only_local root.now then places_in text at root.now else [])) }
        ensures paths { OnOk result (has_paths only_local root.now ≡ true) }
    {
        if only_local && !root.is_local {
            return Ok(());
        }
        self.add_all(root.include.as_slice(), at)
    }

    /// The index of these roots, or of those that are local.
    pub(crate) fn of(
        alloc: Global,
        roots: &[Root],
        only_local: bool,
    ) -> Result<Includes, AllocError>
        requires { length roots.now ≤ most_roots }
        ensures { IfOk result (IsIndex only_local roots.now) }
    {
        let mut index = Includes::new(alloc);
        for (at, root) in roots.iter().enumerate() {
            index.add_root(root, at as u32, only_local)?;
        }
        Ok(index)
    }

    /// The places of a text, in order.
    pub(crate) fn get(&self, text: &str) -> &[u32]
        ensures { result.now ≡ places self.now text.now }
    {
        match self.rows.get(text) {
            Some(places) => places.as_slice(),
            None => &[],
        }
    }
}
