// What is to be cancelled (LSP 3.17, CancelParams and WorkDoneProgressCancelParams).
ghost use Rattle.std.specs.Prelude.{◌≡◌};
ghost use Rattle.notify.specs.Cancelling.{request_in, token_of, token_in};

use lsp_frame::RequestId;
use plain::Json;
use serde_json::Value;

/// The id of the request that the params cancel, or none where they are malformed.
pub(crate) fn request_in(params: Json) -> Option<RequestId>
    ensures { result ≡ request_in params }
{
    RequestId::from_json(params.into_members()?.take_value("id")?)
}

fn token_of(token: Json) -> Option<Json>
    ensures { result ≡ token_of token }
{
    match token.as_value() {
        Value::Number(_) | Value::String(_) => Some(token),
        _ => None,
    }
}

/// The token of the work that the params cancel, or none where they are malformed.
pub(crate) fn token_in(params: Json) -> Option<Json>
    ensures { result ≡ token_in params }
{
    token_of(params.into_members()?.take_value("token")?)
}
