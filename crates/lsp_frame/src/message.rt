// The messages of JSON-RPC, as contracts see them too.
use plain::{ExactClone, Json, Text};
use std::cmp::Ordering;

/// The id of a request.
#[derive(Clone, PartialEq, Eq, Hash, Drop)]
pub enum RequestId {
    Number(i32),
    Text(Text),
}

impl PartialOrd for RequestId {
    ghost use Rattle.std.specs.Prelude.{Some, refl};
    ghost use Rattle.std.specs.Cmp.{po};
    ghost use Rattle.std.specs.Cmp.Lexicographic.{texts_ties};
    ghost use Rattle.lsp_frame.specs.Ids.{id_cmp, id_cmp_total, id_ties};

    ghost partial_cmp = { λ x y. Some (id_cmp x y) };

    ghost laws = { po id_cmp_total (id_ties _ (λ a b. refl) (λ a t. refl) (λ s b. refl) texts_ties) };

    fn partial_cmp(&self, other: &RequestId) -> Option<Ordering> {
        Some(self.cmp(other))
    }
}

impl Ord for RequestId {
    ghost use Rattle.std.specs.Prelude.{refl};
    ghost use Rattle.std.specs.Cmp.Lexicographic.{texts_ties};
    ghost use Rattle.lsp_frame.specs.Ids.{id_cmp, id_cmp_total, id_ties};

    ghost cmp = { id_cmp };

    ghost total = { id_cmp_total };

    ghost matches_partial_cmp = { λ x y. refl };

    ghost matches_eq = { id_ties _ (λ a b. refl) (λ a t. refl) (λ s b. refl) texts_ties };

    fn cmp(&self, other: &RequestId) -> Ordering {
        match (self, other) {
            (RequestId::Number(a), RequestId::Number(b)) => a.cmp(b),
            (RequestId::Number(_), RequestId::Text(_)) => Ordering::Less,
            (RequestId::Text(_), RequestId::Number(_)) => Ordering::Greater,
            (RequestId::Text(a), RequestId::Text(b)) => a.cmp(b),
        }
    }
}

/// A call that wants an answer.
#[derive(Clone, Drop)]
pub struct Request {
    pub id: RequestId,
    pub method: Text,
    pub params: Json,
}

/// A call that wants no answer.
#[derive(Clone, Drop)]
pub struct Notification {
    pub method: Text,
    pub params: Json,
}

/// What went wrong with a request.
#[derive(Clone, Drop)]
pub struct ResponseError {
    pub code: i32,
    pub message: Text,
    /// The member `data`.
    pub extra: Option<Json>,
}

/// The answer to a request. A missing id was null, and a null result is one.
#[derive(Clone, Drop)]
pub struct Response {
    pub id: Option<RequestId>,
    pub result: Option<Json>,
    pub error: Option<ResponseError>,
}

/// A message of the protocol.
#[derive(Clone, Drop)]
pub enum Message {
    Request(Request),
    Notification(Notification),
    Response(Response),
}

impl ExactClone for RequestId {
    ghost use Rattle.std.proofs.Common.{rules};

    ghost copies = { λ x y h. Prim.search rules };
}

impl ExactClone for Request {
    ghost use Rattle.std.proofs.Common.{rules};

    ghost copies = { λ x y h. Prim.search rules };
}

impl ExactClone for Notification {
    ghost use Rattle.std.proofs.Common.{rules};

    ghost copies = { λ x y h. Prim.search rules };
}

impl ExactClone for ResponseError {
    ghost use Rattle.std.proofs.Common.{rules};

    ghost copies = { λ x y h. Prim.search rules };
}

impl ExactClone for Response {
    ghost use Rattle.std.proofs.Common.{rules};

    ghost copies = { λ x y h. Prim.search rules };
}

impl ExactClone for Message {
    ghost use Rattle.std.proofs.Common.{rules};

    ghost copies = { λ x y h. Prim.search rules };
}
