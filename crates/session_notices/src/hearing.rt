// What is heard in a notification.
ghost use Rattle.std.specs.Prelude.{◌≡◌, IfOk};
ghost use Rattle.session_model.specs.Hearing.{heard_of, unknown_heard, HeardFitsWorld};

use notify::{NoticeFault, read_notice};
use plain::{Json, Text};
use session_model::Heard;
use std::alloc::{AllocError, Global};

// What is heard where the method isn't known.
fn unknown(method: &Text) -> Heard
    ensures { result ≡ unknown_heard method.now }
{
    if method.as_str().as_bytes().starts_with(b"$/") {
        Heard::Silent
    } else {
        Heard::Unhandled
    }
}

/// What a session hears in a notification of this method and these params.
#[tactic(auto, unfolding(session_model::specs::Hearing::heard_of))]
pub fn heard_of(alloc: Global, method: &Text, params: Json) -> Result<Heard, AllocError>
    ensures value { IfOk result (λ heard. heard ≡ heard_of (record { method = method.now; params = params })) }
    ensures fits { IfOk result HeardFitsWorld }
{
    match read_notice(alloc, method, params) {
        Ok(Some(notice)) => Ok(Heard::Told(notice)),
        Ok(None) => Ok(unknown(method)),
        Err(NoticeFault::Malformed) => Ok(Heard::Malformed),
        Err(NoticeFault::NoMemory) => Err(AllocError),
    }
}
