// What a client can do.
ghost use Rattle.std.specs.Prelude.{◌≡◌, map, option_map};
ghost use Rattle.serde_json.specs.View.{view, items_view};
ghost use Rattle.ra_config.specs.Capabilities.{client_at, is_true_at, is_text, taken_encoding, first_taken, encoding_of, no_capabilities, capabilities_of};

use crate::config::Config;
use plain::Json;
use ra_settings::find_at;
use serde_json::Value;
use text_core::{PositionEncoding, WideEncoding};

/// What a client can do, as it told in `initialize`.
#[derive(Clone, Copy)]
pub struct Capabilities {
    /// It shows progress that the server begins.
    pub work_done_progress: bool,
    pub server_status_notification: bool,
    /// It registers for saved documents when it is asked.
    pub did_save_registration: bool,
    /// It watches files when it is asked.
    pub watched_files_registration: bool,
    /// It watches by patterns that are relative to a folder.
    pub relative_pattern: bool,
    pub semantic_tokens_refresh: bool,
    pub code_lens_refresh: bool,
    pub inlay_hints_refresh: bool,
    pub diagnostics_refresh: bool,
    /// It asks for diagnostics itself.
    pub text_document_diagnostic: bool,
    pub test_explorer: bool,
    pub open_server_logs: bool,
    /// What a column counts.
    pub encodings: PositionEncoding,
}

const UTF_16: PositionEncoding = PositionEncoding::Wide(WideEncoding::Utf16);

// The value at a path among the client's capabilities.
fn client_at<'v>(params: &'v Value, path: &[&str]) -> Option<&'v Value>
    ensures { option_map (λ v. view v.now) result
        ≡ client_at (map (λ p. p.now) path.now) (view params.now) }
{
    match params.get("capabilities") {
        Some(client) => find_at(client, path),
        None => None,
    }
}

// Whether a capability is there and true.
fn is_true_at(params: &Value, path: &[&str]) -> bool
    ensures { result ≡ is_true_at (map (λ p. p.now) path.now) (view params.now) }
{
    match client_at(params, path) {
        Some(value) => value.as_bool().unwrap_or(false),
        None => false,
    }
}

fn is_text(value: &Value, text: &str) -> bool
    ensures { result ≡ is_text text.now (view value.now) }
{
    match value.as_str() {
        Some(value) => value == text,
        None => false,
    }
}

// An encoding that the server takes where the client lists it, by its name.
fn taken_encoding(name: &Value) -> Option<PositionEncoding>
    ensures { result ≡ taken_encoding (view name.now) }
{
    if is_text(name, "utf-8") {
        Some(PositionEncoding::Utf8)
    } else if is_text(name, "utf-32") {
        Some(PositionEncoding::Wide(WideEncoding::Utf32))
    } else {
        None
    }
}

// The first of them in a list of names.
fn first_taken(names: &Vec<Value>) -> Option<PositionEncoding>
    ensures { result ≡ first_taken (items_view names.now.items) }
{
    for name in names {
        if let Some(encoding) = taken_encoding(name) {
            return Some(encoding);
        }
    }
    None
}

fn encoding_of(params: &Value) -> PositionEncoding
    ensures { result ≡ encoding_of (view params.now) }
{
    match client_at(params, &["general", "positionEncodings"]).and_then(Value::as_array) {
        Some(names) => first_taken(names).unwrap_or(UTF_16),
        None => UTF_16,
    }
}

/// The capabilities that the params of `initialize` tell.
#[tactic(auto, unfolding(crate::specs::Capabilities::capabilities_of))]
pub fn capabilities_of(params: &Json) -> Capabilities
    ensures { result ≡ capabilities_of params.now }
{
    let params = params.as_value();
    Capabilities {
        work_done_progress: is_true_at(params, &["window", "workDoneProgress"]),
        server_status_notification: is_true_at(
            params,
            &["experimental", "serverStatusNotification"],
        ),
        did_save_registration: is_true_at(
            params,
            &["textDocument", "synchronization", "dynamicRegistration"],
        ),
        watched_files_registration: is_true_at(
            params,
            &["workspace", "didChangeWatchedFiles", "dynamicRegistration"],
        ),
        relative_pattern: is_true_at(
            params,
            &[
                "workspace",
                "didChangeWatchedFiles",
                "relativePatternSupport",
            ],
        ),
        semantic_tokens_refresh: is_true_at(
            params,
            &["workspace", "semanticTokens", "refreshSupport"],
        ),
        code_lens_refresh: is_true_at(params, &["workspace", "codeLens", "refreshSupport"]),
        inlay_hints_refresh: is_true_at(params, &["workspace", "inlayHint", "refreshSupport"]),
        diagnostics_refresh: is_true_at(params, &["workspace", "diagnostics", "refreshSupport"]),
        text_document_diagnostic: client_at(params, &["textDocument", "diagnostic"]).is_some(),
        test_explorer: is_true_at(params, &["experimental", "testExplorer"]),
        open_server_logs: is_true_at(params, &["experimental", "openServerLogs"]),
        encodings: encoding_of(params),
    }
}

impl Capabilities {
    /// No capability, and columns in units of UTF-16.
    pub fn none() -> Capabilities
        ensures { result ≡ no_capabilities }
    {
        Capabilities {
            work_done_progress: false,
            server_status_notification: false,
            did_save_registration: false,
            watched_files_registration: false,
            relative_pattern: false,
            semantic_tokens_refresh: false,
            code_lens_refresh: false,
            inlay_hints_refresh: false,
            diagnostics_refresh: false,
            text_document_diagnostic: false,
            test_explorer: false,
            open_server_logs: false,
            encodings: UTF_16,
        }
    }
}

impl Config {
    pub fn work_done_progress(&self) -> bool
        ensures { result ≡ self.now.capabilities.work_done_progress }
    {
        self.capabilities().work_done_progress
    }

    pub fn server_status_notification(&self) -> bool
        ensures { result ≡ self.now.capabilities.server_status_notification }
    {
        self.capabilities().server_status_notification
    }

    pub fn did_save_registration(&self) -> bool
        ensures { result ≡ self.now.capabilities.did_save_registration }
    {
        self.capabilities().did_save_registration
    }

    pub fn watched_files_registration(&self) -> bool
        ensures { result ≡ self.now.capabilities.watched_files_registration }
    {
        self.capabilities().watched_files_registration
    }

    pub fn relative_pattern(&self) -> bool
        ensures { result ≡ self.now.capabilities.relative_pattern }
    {
        self.capabilities().relative_pattern
    }

    pub fn semantic_tokens_refresh(&self) -> bool
        ensures { result ≡ self.now.capabilities.semantic_tokens_refresh }
    {
        self.capabilities().semantic_tokens_refresh
    }

    pub fn code_lens_refresh(&self) -> bool
        ensures { result ≡ self.now.capabilities.code_lens_refresh }
    {
        self.capabilities().code_lens_refresh
    }

    pub fn inlay_hints_refresh(&self) -> bool
        ensures { result ≡ self.now.capabilities.inlay_hints_refresh }
    {
        self.capabilities().inlay_hints_refresh
    }

    pub fn diagnostics_refresh(&self) -> bool
        ensures { result ≡ self.now.capabilities.diagnostics_refresh }
    {
        self.capabilities().diagnostics_refresh
    }

    pub fn text_document_diagnostic(&self) -> bool
        ensures { result ≡ self.now.capabilities.text_document_diagnostic }
    {
        self.capabilities().text_document_diagnostic
    }

    pub fn test_explorer(&self) -> bool
        ensures { result ≡ self.now.capabilities.test_explorer }
    {
        self.capabilities().test_explorer
    }

    pub fn open_server_logs(&self) -> bool
        ensures { result ≡ self.now.capabilities.open_server_logs }
    {
        self.capabilities().open_server_logs
    }

    /// What a column counts.
    pub fn encodings(&self) -> PositionEncoding
        ensures { result ≡ self.now.capabilities.encodings }
    {
        self.capabilities().encodings
    }
}
