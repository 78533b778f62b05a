// Laws of what a client is told.
ghost use Rattle.std.specs.Prelude.{◌≡◌, ◌≢◌, ℕ, List, Some, codes};
ghost use Rattle.serde_json.specs.Data.{Members, string};
ghost use Rattle.serde_json.specs.Find.{get, get_member};
ghost use Rattle.text_core.specs.declared.position.PositionEncoding.{PositionEncoding};
ghost use Rattle.server.specs.Replies.{encoding_name, server_capabilities, synchronization};

/// The session's own capabilities stand, whatever an analysis says; and so does all else that the analysis says.
pub fn sessions_capabilities_stand()
    ensures encoding { (own : Members) (encoding : PositionEncoding) → get (codes "positionEncoding") (server_capabilities own encoding) ≡ Some (string (encoding_name encoding)) }
    ensures documents { (own : Members) (encoding : PositionEncoding) → get (codes "textDocumentSync") (server_capabilities own encoding) ≡ Some synchronization }
    ensures others { (own : Members) (encoding : PositionEncoding) (key : List ℕ) → key ≢ codes "positionEncoding" → key ≢ codes "textDocumentSync" → get key (server_capabilities own encoding) ≡ get_member key own }
{}
