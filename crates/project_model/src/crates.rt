ghost use Rattle.std.specs.Prelude.{◌≡◌};

use docs_vfs::{FileId, VfsPath};
use plain::{ExactClone, Items, NoMemory, Text, copy};

/// A crate of a workspace, before its root file has a number.
pub struct CrateEntry {
    pub root: VfsPath,
    pub name: Option<Text>,
    /// The places of its dependencies among the crates of its workspace.
    pub deps: Items<u32>,
    pub is_proc_macro: bool,
}

impl Drop for CrateEntry {
    fn drop(self) {
        let CrateEntry {
            root: _,
            name: _,
            deps: _,
            is_proc_macro: _,
        } = self;
    }
}

/// A crate of the crate graph.
pub struct CrateInfo {
    pub root: FileId,
    pub name: Option<Text>,
    /// The numbers of its dependencies in the crate graph.
    pub deps: Items<u32>,
    pub is_proc_macro: bool,
}

impl Drop for CrateInfo {
    fn drop(self) {
        let CrateInfo {
            root: _,
            name: _,
            deps: _,
            is_proc_macro: _,
        } = self;
    }
}

/// What became of the macros of a crate.
#[derive(Drop)]
pub enum MacroState {
    NotYetBuilt,
    Disabled,
    /// The names of its macros.
    Loaded(Items<Text>),
    /// Why they couldn't be loaded.
    Failed(Text),
}

/// The crate graph: its crates by number, the variables of their environment, and what became of the macros of
/// some of them.
#[derive(Drop)]
pub struct CrateData {
    pub crates: Items<CrateInfo>,
    /// None takes a variable away.
    pub env: Items<(Text, Option<Text>)>,
    pub macros: Items<(u32, MacroState)>,
}

impl Clone for CrateEntry {
    ghost is_clone = { λ entry copy. copy ≡ entry };

    fn clone(&self) -> Result<CrateEntry, NoMemory> {
        Ok(CrateEntry {
            root: copy(&self.root)?,
            name: copy(&self.name)?,
            deps: copy(&self.deps)?,
            is_proc_macro: self.is_proc_macro,
        })
    }
}

impl ExactClone for CrateEntry {
    ghost copies = { λ x y h. h };
}

impl Clone for CrateInfo {
    ghost is_clone = { λ info copy. copy ≡ info };

    fn clone(&self) -> Result<CrateInfo, NoMemory> {
        Ok(CrateInfo {
            root: self.root,
            name: copy(&self.name)?,
            deps: copy(&self.deps)?,
            is_proc_macro: self.is_proc_macro,
        })
    }
}

impl ExactClone for CrateInfo {
    ghost copies = { λ x y h. h };
}

impl Clone for MacroState {
    ghost is_clone = { λ state copy. copy ≡ state };

    fn clone(&self) -> Result<MacroState, NoMemory> {
        match self {
            MacroState::NotYetBuilt => Ok(MacroState::NotYetBuilt),
            MacroState::Disabled => Ok(MacroState::Disabled),
            MacroState::Loaded(names) => Ok(MacroState::Loaded(copy(names)?)),
            MacroState::Failed(error) => Ok(MacroState::Failed(copy(error)?)),
        }
    }
}

impl ExactClone for MacroState {
    ghost copies = { λ x y h. h };
}

impl Clone for CrateData {
    ghost is_clone = { λ original copy. copy ≡ original };

    fn clone(&self) -> Result<CrateData, NoMemory> {
        Ok(CrateData {
            crates: copy(&self.crates)?,
            env: copy(&self.env)?,
            macros: copy(&self.macros)?,
        })
    }
}

impl ExactClone for CrateData {
    ghost copies = { λ x y h. h };
}
