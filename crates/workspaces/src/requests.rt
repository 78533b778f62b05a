// What waits to be fetched and loaded.
ghost use Rattle.std.specs.Prelude.{◌≡◌};
ghost use Rattle.workspaces.specs.Fetches.{unforced, keeping};

use docs_vfs::VfsPath;
use plain::Items;
use project_model::{CrateData, MacroPath};

/// A fetch of workspaces that is asked for: the path for which it is, if there is one, and whether crate data is built
/// anew even where the workspaces are the same.
#[derive(Drop)]
pub struct FetchRequest {
    pub path: Option<VfsPath>,
    pub force: bool,
}

impl FetchRequest {
    /// A fetch that is for no path and not forced.
    pub fn unforced() -> FetchRequest
        ensures { result ≡ unforced }
    {
        FetchRequest {
            path: None,
            force: false,
        }
    }

    /// The request, forced too where this flag is set.
    pub(crate) fn keeping(self, force: bool) -> FetchRequest
        ensures { result ≡ keeping force self }
    {
        FetchRequest {
            path: self.path,
            force: force || self.force,
        }
    }
}

/// A fetch that waits for the timer with this ticket.
#[derive(Drop)]
pub(crate) struct WaitingFetch {
    pub(crate) ticket: u64,
    pub(crate) request: FetchRequest,
}

/// Crate data that is to get the macros of the crates that are listed, with their libraries.
#[derive(Drop)]
pub(crate) struct LoadRequest {
    pub(crate) crates: CrateData,
    pub(crate) listed: Items<u32>,
    pub(crate) paths: Items<Items<(u32, MacroPath)>>,
}

/// Crate data whose macros are being loaded.
#[derive(Drop)]
pub(crate) struct WaitingCrates {
    pub(crate) crates: CrateData,
    pub(crate) listed: Items<u32>,
}
