// What a call asks to be told, to the client and to the host.
ghost use Rattle.std.specs.Prelude.{◌≡◌, [], ◌∷◌, IfOk};

use docs_vfs::VfsPath;
use notify::TestReport;
use plain::{Items, NoMemory, Text};
use project_model::CheckScope;
use session_port::{DiscoverArg, LogCode};
use std::alloc::Global;

/// What is to be told: to the client, or as an order to the host.
#[derive(Drop)]
pub enum Telling {
    /// Some work has begun. It is told under its token, and can be cancelled, where it has one; else under its title.
    Begin {
        title: Text,
        token: Option<Text>,
        message: Option<Text>,
        percentage: Option<u32>,
    },
    /// How far it is.
    Report {
        title: Text,
        token: Option<Text>,
        message: Option<Text>,
        percentage: Option<u32>,
    },
    /// It has ended.
    End {
        title: Text,
        token: Option<Text>,
        message: Option<Text>,
    },
    /// An error is shown, with or without the button that opens the server's logs.
    ShowError {
        message: Text,
        button: bool,
    },
    /// What became of a test.
    TestState {
        state: TestReport,
        test_id: Text,
    },
    /// The run of tests has ended.
    EndRunTest,
    /// A line of output of the run of tests.
    AppendOutput(Text),
    Log(LogCode, Text),
    /// The checks that may run are these, each with its id and the folder that it is for.
    SetChecks(Items<(u64, VfsPath)>),
    RestartCheck {
        id: u64,
        scope: CheckScope,
    },
    CancelCheck(u64),
    RunTest {
        include: Option<Items<Text>>,
        exclude: Option<Items<Text>>,
    },
    StopTest,
    Discover(DiscoverArg),
}

/// One telling alone.
pub(crate) fn one(alloc: Global, telling: Telling) -> Result<Items<Telling>, NoMemory>
    ensures { IfOk result (λ tellings. tellings ≡ telling ∷ []) }
{
    let mut tellings = Items::new(alloc);
    tellings.push(telling)?;
    Ok(tellings)
}
