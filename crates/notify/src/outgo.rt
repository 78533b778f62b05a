// What the server tells and asks by itself.
use lsp_types::{Diagnostic, Watcher};
use plain::{Items, Json, Text};

/// How important a message to the user is (LSP 3.17, MessageType).
#[derive(Clone, Copy, Debug, PartialEq, Eq)]
pub enum MessageKind {
    Error,
    Warning,
    Info,
}

/// How far some work is (LSP 3.17, WorkDoneProgress).
#[derive(Drop)]
pub enum ProgressValue {
    Begin {
        cancellable: bool,
        message: Option<Text>,
        percentage: Option<u32>,
        title: Text,
    },
    Report {
        cancellable: bool,
        message: Option<Text>,
        percentage: Option<u32>,
    },
    End {
        message: Option<Text>,
    },
}

/// What became of a test.
#[derive(Drop)]
pub enum TestReport {
    Started,
    Skipped,
    Passed,
    Failed { message: Text },
}

/// What the server tells and asks by itself.
#[derive(Drop)]
pub enum Outgo {
    /// Asks to be told of saved documents: those of Rust and Cargo, and these files.
    RegisterSave {
        files_to_watch: Items<Text>,
    },
    RegisterWatch {
        watchers: Items<Watcher>,
    },
    SemanticTokensRefresh,
    CodeLensRefresh,
    InlayHintRefresh,
    DiagnosticRefresh,
    CreateProgress {
        token: Text,
    },
    Progress {
        token: Text,
        value: ProgressValue,
    },
    /// Asks for the client's settings.
    Configuration,
    ShowMessage {
        message: Text,
        kind: MessageKind,
    },
    /// The same with a button that opens the server's logs.
    ShowMessageRequest {
        message: Text,
        kind: MessageKind,
    },
    ServerStatus {
        health: Text,
        message: Option<Text>,
        quiescent: bool,
    },
    /// What is wrong in the file of a URL, which has this version where it is open.
    Publish {
        diagnostics: Items<Diagnostic>,
        uri: Text,
        version: Option<i32>,
    },
    OpenLogs,
    DiscoveredTests {
        uris: Items<Text>,
        tests: Items<Json>,
    },
    TestState {
        state: TestReport,
        test_id: Text,
    },
    EndRunTest,
    AppendOutput {
        text: Text,
    },
}
