// What the server tells and asks by itself, as it is written.
ghost use Rattle.std.specs.Prelude.{◌≡◌, codes, [], ◌∷◌, IfOk};
ghost use Rattle.lsp_frame.specs.Written.{IsWritable};
ghost use Rattle.notify.specs.Objects.{list, one, with_text};
ghost use Rattle.notify.specs.Writing.{HoldsPlain, is_request, outgo_body};

use crate::objects::{alone, one, text, with_text};
use crate::outgo::Outgo;
use crate::progressing::progress_params;
use crate::publishing::publish_params;
use crate::registering::{registering_save, registering_watch};
use crate::showing::{asking_params, message_params, status_params};
use crate::testing::{discovered_params, test_state};
use plain::{Json, NoMemory, Text};
use std::alloc::Global;

/// Whether a message is a request, which has a number and is answered; the others are notifications.
pub fn is_request(message: &Outgo) -> bool
    ensures { result ≡ is_request message.now }
{
    match message {
        Outgo::RegisterSave { .. }
        | Outgo::RegisterWatch { .. }
        | Outgo::SemanticTokensRefresh
        | Outgo::CodeLensRefresh
        | Outgo::InlayHintRefresh
        | Outgo::DiagnosticRefresh
        | Outgo::CreateProgress { .. }
        | Outgo::Configuration
        | Outgo::ShowMessageRequest { .. } => true,
        _ => false,
    }
}

fn method_of(message: &Outgo) -> &'static str
    ensures { result.now ≡ (outgo_body message.now).0 }
{
    match message {
        Outgo::RegisterSave { .. } | Outgo::RegisterWatch { .. } => "client/registerCapability",
        Outgo::SemanticTokensRefresh => "workspace/semanticTokens/refresh",
        Outgo::CodeLensRefresh => "workspace/codeLens/refresh",
        Outgo::InlayHintRefresh => "workspace/inlayHint/refresh",
        Outgo::DiagnosticRefresh => "workspace/diagnostic/refresh",
        Outgo::CreateProgress { .. } => "window/workDoneProgress/create",
        Outgo::Progress { .. } => "$/progress",
        Outgo::Configuration => "workspace/configuration",
        Outgo::ShowMessage { .. } => "window/showMessage",
        Outgo::ShowMessageRequest { .. } => "window/showMessageRequest",
        Outgo::ServerStatus { .. } => "experimental/serverStatus",
        Outgo::Publish { .. } => "textDocument/publishDiagnostics",
        Outgo::OpenLogs => "experimental/openServerLogs",
        Outgo::DiscoveredTests { .. } => "experimental/discoveredTests",
        Outgo::TestState { .. } => "experimental/changeTestState",
        Outgo::EndRunTest => "experimental/endRunTest",
        Outgo::AppendOutput { .. } => "experimental/appendOutputToRunTest",
    }
}

// What asks for the settings of this server.
fn settings_params(alloc: Global) -> Result<Json, NoMemory>
    ensures { IfOk result (λ json. json ≡ one (codes "items") (list (with_text (codes "section") (codes "rust-analyzer") ∷ []))) }
{
    let section = one(alloc, "section", text(alloc, "rust-analyzer")?)?;
    one(alloc, "items", alone(alloc, section)?)
}

fn params_of(alloc: Global, message: Outgo) -> Result<Json, NoMemory>
    ensures { IfOk result (λ params. params ≡ (outgo_body message).1) }
{
    match message {
        Outgo::RegisterSave { files_to_watch } => registering_save(alloc, &files_to_watch),
        Outgo::RegisterWatch { watchers } => registering_watch(alloc, watchers.as_slice()),
        Outgo::SemanticTokensRefresh
        | Outgo::CodeLensRefresh
        | Outgo::InlayHintRefresh
        | Outgo::DiagnosticRefresh
        | Outgo::OpenLogs
        | Outgo::EndRunTest => Ok(Json::null()),
        Outgo::CreateProgress { token } => with_text(alloc, "token", token),
        Outgo::Progress { token, value } => progress_params(alloc, token, value),
        Outgo::Configuration => settings_params(alloc),
        Outgo::ShowMessage { message, kind } => message_params(alloc, message, kind),
        Outgo::ShowMessageRequest { message, kind } => asking_params(alloc, message, kind),
        Outgo::ServerStatus {
            health,
            message,
            quiescent,
        } => status_params(alloc, health, message, quiescent),
        Outgo::Publish {
            diagnostics,
            uri,
            version,
        } => publish_params(alloc, &diagnostics, uri, version),
        Outgo::DiscoveredTests { uris, tests } => discovered_params(alloc, uris, tests),
        Outgo::TestState { state, test_id } => test_state(alloc, state, test_id),
        Outgo::AppendOutput { text } => Ok(Json::from_text(text)),
    }
}

/// The method and the params of a message.
#[tactic(auto, using(crate::proofs::Writable::body_writable))]
pub fn outgo_body(alloc: Global, message: Outgo) -> Result<(Text, Json), NoMemory>
    requires { HoldsPlain message }
    ensures value { IfOk result (λ body. body ≡ outgo_body message) }
    ensures writable { IfOk result (λ body. IsWritable body.1) }
{
    let method = Text::from_str(alloc, method_of(&message))?;
    let params = params_of(alloc, message)?;
    Ok((method, params))
}
