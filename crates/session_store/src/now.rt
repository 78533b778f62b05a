// The present of a session, as its desk meets it.
ghost use Rattle.std.specs.Prelude.{◌≡◌};
ghost use Rattle.session_model.specs.State.{macros_loaded_in, scene_in};

use analysis_host::{GlobalStateSnapshot, SnapshotParts};
use op_board::DiagnosticCollection;
use session_model::{Client, Present, SessionFiles};
use std::alloc::AllocError;
use std::sync::Arc;
use workspaces::Workspaces;

/// The parts of a session that a snapshot shows, lent.
#[derive(Clone, Copy)]
pub(crate) struct Now<'a> {
    pub(crate) client: &'a Client,
    pub(crate) files: &'a SessionFiles,
    pub(crate) workspaces: &'a Workspaces,
    pub(crate) board: &'a DiagnosticCollection,
}

/// Whether all macros are there that are wanted: none are, or the last load succeeded.
fn are_macros_loaded(client: &Client, workspaces: &Workspaces) -> bool
    ensures { result ≡ macros_loaded_in client.now.settings workspaces.now }
{
    !client.settings().proc_macro_enable() || workspaces.are_macros_loaded()
}

impl<'a> Present for Now<'a> {
    ghost scene = { λ n. scene_in n.client.now n.files.now n.workspaces.now n.board.now };

    fn snapshot(&self) -> Result<GlobalStateSnapshot, AllocError> {
        GlobalStateSnapshot::new(SnapshotParts {
            world: self.files.world()?,
            file_ids: self.files.file_ids()?,
            versions: self.files.versions()?,
            check_fixes: self.board.share_fixes()?,
            config: Arc::try_clone(self.client.settings())?,
            proc_macros_loaded: are_macros_loaded(self.client, self.workspaces),
            workspaces: self.workspaces.share_present()?,
            workspaces_version: self.workspaces.version(),
            revision: self.files.revision(),
        })
    }

    fn revision(&self) -> u64 {
        self.files.revision()
    }

    fn is_loading(&self) -> bool {
        self.files.is_loading()
    }

    fn is_incomplete(&self) -> bool {
        self.workspaces.is_incomplete()
    }
}
