// Documents as params name them (LSP 3.17, TextDocumentIdentifier).
ghost use Rattle.std.specs.Prelude.{◌≡◌};
ghost use Rattle.lsp_types.specs.Documents.{document_members, take_uri, take_document_uri};

use plain::{Json, JsonObject, Text};

/// The members of the document that params name.
pub fn document_members(params: Json) -> Option<JsonObject>
    ensures { result ≡ document_members params }
{
    params
        .into_members()?
        .take_value("textDocument")?
        .into_members()
}

/// The URL that a value has.
pub fn take_uri(value: Json) -> Option<Text>
    ensures { result ≡ take_uri value }
{
    value.into_members()?.take_value("uri")?.into_text()
}

/// The URL of the document that params name.
pub fn take_document_uri(params: Json) -> Option<Text>
    ensures { result ≡ take_document_uri params }
{
    document_members(params)?.take_value("uri")?.into_text()
}
