// Clients by their names.

/// The params of `initialize` of a client; nothing where none has this name. `refreshes` can be asked for all that is shown, `hints` for
/// hints alone, and `none` for nothing; `saves` can be asked to tell of saved documents, and `watches` to watch files; `shows` shows texts,
/// and `logs` opens the logs too; `progress` shows
/// how far work is; fetches of `by hand` start only by hand, so that they stay on the queue.
pub fn params_of(client: &str) -> &'static str {
    match client {
        "refreshes" => {
            r#"{"rootUri":"file:///w","capabilities":{"workspace":{"codeLens":{"refreshSupport":true},"diagnostics":{"refreshSupport":true},"inlayHint":{"refreshSupport":true},"semanticTokens":{"refreshSupport":true}}}}"#
        }
        "hints" => {
            r#"{"rootUri":"file:///w","capabilities":{"workspace":{"inlayHint":{"refreshSupport":true}}}}"#
        }
        "none" | "shows" => r#"{"rootUri":"file:///w"}"#,
        "saves" => {
            r#"{"rootUri":"file:///w","capabilities":{"textDocument":{"synchronization":{"dynamicRegistration":true}}}}"#
        }
        "watches" => {
            r#"{"rootUri":"file:///w","capabilities":{"workspace":{"didChangeWatchedFiles":{"dynamicRegistration":true}}}}"#
        }
        "logs" => {
            r#"{"rootUri":"file:///w","capabilities":{"experimental":{"openServerLogs":true}}}"#
        }
        "progress" => {
            r#"{"rootUri":"file:///w","capabilities":{"window":{"workDoneProgress":true}}}"#
        }
        "by hand" => {
            r#"{"rootUri":"file:///w","initializationOptions":{"cargo":{"autoreload":false}}}"#
        }
        _ => "",
    }
}
