// What a client is answered while it begins.
ghost use Rattle.std.specs.Prelude.{◌≡◌, IfOk};
ghost use Rattle.serde_json.specs.Data.{string};
ghost use Rattle.lsp_frame.specs.Written.{AreWritable};
ghost use Rattle.lsp_frame.specs.declared.message.Message.TheVariants.{Response as ResponseMessage};
ghost use Rattle.server.specs.Replies.{encoding_name, synchronization, server_capabilities, initialize_result, welcome, no_workspace};

use analysis_host::{Analysis, ServerInfo};
use dispatch::refusal;
use lsp_frame::{RequestId, Response};
use plain::{Json, JsonObject, NoMemory, Text};
use ra_config::Config;
use std::alloc::Global;
use text_core::{PositionEncoding, WideEncoding};

fn encoding_name(encoding: PositionEncoding) -> &'static str
    ensures { result.now ≡ encoding_name encoding }
{
    match encoding {
        PositionEncoding::Utf8 => "utf-8",
        PositionEncoding::Wide(WideEncoding::Utf16) => "utf-16",
        PositionEncoding::Wide(WideEncoding::Utf32) => "utf-32",
    }
}

fn text(alloc: Global, text: &str) -> Result<Json, NoMemory>
    ensures { IfOk result (λ json. json ≡ string text.now) }
{
    Ok(Json::from_text(Text::from_str(alloc, text)?))
}

// How the client tells its documents.
fn synchronization(alloc: Global) -> Result<Json, NoMemory>
    ensures { IfOk result (λ json. json ≡ synchronization) }
{
    let mut members = JsonObject::new(alloc);
    members.put(alloc, "change", Json::from_u32(2))?;
    members.put(alloc, "openClose", Json::from_bool(true))?;
    members.put(alloc, "save", JsonObject::new(alloc).into_json())?;
    Ok(members.into_json())
}

// What the server can do, by what it says itself.
fn server_capabilities(
    alloc: Global,
    mut own: JsonObject,
    encoding: PositionEncoding,
) -> Result<Json, NoMemory>
    ensures { IfOk result (λ json. json ≡ server_capabilities own encoding) }
{
    own.put(
        alloc,
        "positionEncoding",
        text(alloc, encoding_name(encoding))?,
    )?;
    own.put(alloc, "textDocumentSync", synchronization(alloc)?)?;
    Ok(own.into_json())
}

fn initialize_result(
    alloc: Global,
    info: ServerInfo,
    encoding: PositionEncoding,
) -> Result<Json, NoMemory>
    ensures { IfOk result (λ json. json ≡ initialize_result info encoding) }
{
    let ServerInfo {
        name,
        version,
        capabilities,
    } = info;
    let mut named = JsonObject::new(alloc);
    named.put(alloc, "name", Json::from_text(name))?;
    named.put(alloc, "version", Json::from_text(version))?;
    let mut members = JsonObject::new(alloc);
    members.put(
        alloc,
        "capabilities",
        server_capabilities(alloc, capabilities, encoding)?,
    )?;
    members.put(alloc, "serverInfo", named.into_json())?;
    Ok(members.into_json())
}

/// The answer to an `initialize` that these settings come of.
pub(crate) fn welcome<A: Analysis>(
    alloc: Global,
    id: RequestId,
    config: &Config,
) -> Result<Response, NoMemory>
    ensures value { IfOk result (λ response. response ≡ welcome A.server_info id config.now) }
    ensures writable { IfOk result (λ response. AreWritable (ResponseMessage response)) }
{
    let info = A::server_info(alloc)?;
    let value = initialize_result(alloc, info, config.encodings())?;
    Ok(Response {
        id: Some(id),
        result: Some(value),
        error: None,
    })
}

/// The answer to one that names no workspace.
pub(crate) fn no_workspace(alloc: Global, id: RequestId) -> Result<Response, NoMemory>
    ensures value { IfOk result (λ response. response ≡ no_workspace id) }
    ensures writable { IfOk result (λ response. AreWritable (ResponseMessage response)) }
{
    Ok(refusal(id, -32602, Text::from_str(alloc, "no workspace root")?))
}
