// What the client's answers say.
ghost use Rattle.std.specs.Prelude.{◌≡◌, IfOk};
ghost use Rattle.client.specs.Answers.{first_value, settings_in, fault_in, is_action, chooses};

use lsp_frame::Response;
use plain::{Json, Text};
use serde_json::Value;
use std::alloc::{AllocError, Global};

/// What an answer to a request for the settings says.
#[derive(Drop)]
pub(crate) struct SettingsAnswer {
    pub settings: Option<Json>,
    /// Why there are none, where that is a fault.
    pub fault: Option<Text>,
}

// The first value of a list.
fn first_value(answer: Json) -> Option<Json>
    ensures { result ≡ first_value answer }
{
    match answer.into_value() {
        Value::Array(values) => values.into_iter().next().map(Json::new),
        _ => None,
    }
}

/// What an answer to a request for the settings says.
pub(crate) fn read_settings(alloc: Global, response: Response) -> Result<SettingsAnswer, AllocError>
    ensures settings { IfOk result (λ answer. answer.settings ≡ settings_in response) }
    ensures fault { IfOk result (λ answer. answer.fault ≡ fault_in response) }
{
    let (settings, fault) = match (response.error, response.result) {
        (Some(error), _) => (None, Some(error.message)),
        (None, None) => (None, Some(Text::from_str(alloc, "empty")?)),
        (None, Some(values)) => match first_value(values) {
            Some(value) if value.is_plain() => (Some(value), None),
            Some(_) => (None, Some(Text::from_str(alloc, "not plain")?)),
            None => (None, None),
        },
    };
    Ok(SettingsAnswer { settings, fault })
}

// Whether a result is an action: it has a title, which is a text.
fn is_action(answer: &Json) -> bool
    ensures { result ≡ is_action answer.now }
{
    answer
        .as_value()
        .get("title")
        .and_then(Value::as_str)
        .is_some()
}

/// Whether the client's answer chooses an action.
pub(crate) fn chooses(response: &Response) -> bool
    ensures { result ≡ chooses response.now }
{
    match (&response.error, &response.result) {
        (None, Some(value)) => is_action(value),
        _ => false,
    }
}
