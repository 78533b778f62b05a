use plain::{Items, Text};

/// A request to run tests.
#[derive(Clone)]
pub struct RunTest {
    /// The ids of the tests that are to run; where there are none, all are.
    pub include: Option<Items<Text>>,
    /// The ids of the tests that are not to run.
    pub exclude: Option<Items<Text>>,
}

impl Drop for RunTest {
    fn drop(self) {
        let RunTest {
            include: _,
            exclude: _,
        } = self;
    }
}

/// A request that changes the session's own state.
#[derive(Clone, Drop)]
pub enum StateRequest {
    /// `shutdown`
    Shutdown,
    /// `rust-analyzer/reloadWorkspace`
    ReloadWorkspace,
    /// `rust-analyzer/rebuildProcMacros`
    RebuildProcMacros,
    /// `experimental/runTest`
    RunTest(RunTest),
}
