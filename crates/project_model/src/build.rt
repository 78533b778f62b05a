ghost use Rattle.std.specs.Prelude.{◌≡◌};

use docs_vfs::VfsPath;
use plain::{ExactClone, Items, NoMemory, Text, copy};

/// What was built of a proc macro crate.
#[derive(Drop)]
pub enum MacroPath {
    /// The name of the crate, and its library.
    Built { name: Text, library: VfsPath },
    /// Why there is no library.
    Failed(Text),
}

/// What the build scripts of a workspace made.
pub struct BuildScripts {
    /// What was wrong with some of them.
    pub error: Option<Text>,
    /// The proc macro crates, by their places among the crates of the workspace.
    pub macro_paths: Items<(u32, MacroPath)>,
}

impl Drop for BuildScripts {
    fn drop(self) {
        let BuildScripts {
            error: _,
            macro_paths: _,
        } = self;
    }
}

impl Clone for MacroPath {
    ghost is_clone = { λ path copy. copy ≡ path };

    fn clone(&self) -> Result<MacroPath, NoMemory> {
        match self {
            MacroPath::Built { name, library } => Ok(MacroPath::Built {
                name: copy(name)?,
                library: copy(library)?,
            }),
            MacroPath::Failed(error) => Ok(MacroPath::Failed(copy(error)?)),
        }
    }
}

impl ExactClone for MacroPath {
    ghost copies = { λ x y h. h };
}

impl Clone for BuildScripts {
    ghost is_clone = { λ scripts copy. copy ≡ scripts };

    fn clone(&self) -> Result<BuildScripts, NoMemory> {
        Ok(BuildScripts {
            error: copy(&self.error)?,
            macro_paths: copy(&self.macro_paths)?,
        })
    }
}

impl ExactClone for BuildScripts {
    ghost copies = { λ x y h. h };
}
