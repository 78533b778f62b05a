// What a client tells.
use lsp_frame::RequestId;
use plain::{Items, Json, Text};
use text_core::ContentChange;

/// The params of `textDocument/didOpen` (LSP 3.17, DidOpenTextDocumentParams).
#[derive(Drop)]
pub struct DidOpen {
    pub uri: Text,
    pub version: i32,
    pub text: Text,
}

/// The params of `textDocument/didChange` (LSP 3.17, DidChangeTextDocumentParams).
#[derive(Drop)]
pub struct DidChange {
    pub uri: Text,
    pub version: i32,
    /// One after another: each is made on the text that those before it leave.
    pub changes: Items<ContentChange>,
}

/// What a notification tells.
#[derive(Drop)]
pub enum Notice {
    /// The request of this id needs no answer.
    CancelRequest(RequestId),
    /// The work that is shown under this token, a number or a text, is to stop.
    CancelProgress(Json),
    DidOpen(DidOpen),
    DidChange(DidChange),
    DidClose {
        uri: Text,
    },
    DidSave {
        uri: Text,
    },
    DidChangeConfiguration,
    DidChangeWorkspaceFolders {
        added: Items<Text>,
        removed: Items<Text>,
    },
    /// The URLs of the files that changed.
    DidChangeWatchedFiles {
        changes: Items<Text>,
    },
    CancelFlycheck,
    ClearFlycheck,
    /// A check of one file, or of all there is.
    RunFlycheck {
        uri: Option<Text>,
    },
    AbortRunTest,
}
