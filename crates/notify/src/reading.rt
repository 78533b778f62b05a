// What a notification tells, by its method.
ghost use Rattle.std.specs.Prelude.{◌≡◌, IfOk, option_map};
ghost use Rattle.notify.specs.Reading.{bare, judged, reader_of, reading_of, Reads, FitsWorldIfRead};

use crate::cancelling::{request_in, token_in};
use crate::changing::changed_in;
use crate::fault::NoticeFault;
use crate::flychecks::checked_in;
use crate::notice::Notice;
use crate::opening::opened_in;
use crate::uris::{folders_in, watched_in};
use lsp_types::take_document_uri;
use method_table::is_unit;
use plain::{Json, NoMemory, Text};
use std::alloc::Global;

// The notice, where the params say nothing.
fn bare(notice: Notice, params: Json) -> Option<Notice>
    ensures { result ≡ bare notice params }
{
    if is_unit(&params) { Some(notice) } else { None }
}

// What the params tell under a method, or none where they are malformed, or none where the method isn't read.
#[tactic(auto, unfolding(crate::specs::Reading::readers))]
fn read(alloc: Global, method: &str, params: Json) -> Result<Option<Option<Notice>>, NoMemory>
    ensures { IfOk result (λ notice. notice ≡ option_map (λ reader. reader params) (reader_of method.now)) }
{
    match method {
        "$/cancelRequest" => Ok(Some(request_in(params).map(Notice::CancelRequest))),
        "window/workDoneProgress/cancel" => Ok(Some(token_in(params).map(Notice::CancelProgress))),
        "textDocument/didOpen" => Ok(Some(opened_in(params).map(Notice::DidOpen))),
        "textDocument/didChange" => Ok(Some(changed_in(alloc, params)?.map(Notice::DidChange))),
        "textDocument/didClose" => Ok(Some(take_document_uri(params).map(|uri| Notice::DidClose {
            uri,
        }))),
        "textDocument/didSave" => Ok(Some(take_document_uri(params).map(|uri| Notice::DidSave {
            uri,
        }))),
        "workspace/didChangeConfiguration" => Ok(Some(Some(Notice::DidChangeConfiguration))),
        "workspace/didChangeWorkspaceFolders" => Ok(Some(folders_in(alloc, params)?)),
        "workspace/didChangeWatchedFiles" => Ok(Some(watched_in(alloc, params)?.map(
            |changes| Notice::DidChangeWatchedFiles { changes },
        ))),
        "rust-analyzer/cancelFlycheck" => Ok(Some(bare(Notice::CancelFlycheck, params))),
        "rust-analyzer/clearFlycheck" => Ok(Some(bare(Notice::ClearFlycheck, params))),
        "rust-analyzer/runFlycheck" => {
            Ok(Some(checked_in(params).map(|uri| Notice::RunFlycheck { uri })))
        }
        "experimental/abortRunTest" => Ok(Some(bare(Notice::AbortRunTest, params))),
        _ => Ok(None),
    }
}

// What is read of params, which must be plain.
fn judged(is_plain: bool, read: Option<Notice>) -> Result<Option<Notice>, NoticeFault>
    ensures value { result ≡ judged is_plain read }
    ensures fits { FitsWorldIfRead read → IfOk result FitsWorldIfRead }
{
    match read {
        Some(notice) if is_plain => Ok(Some(notice)),
        _ => Err(NoticeFault::Malformed),
    }
}

/// What a notification of this method and these params tells, or none where its method isn't read.
#[tactic(auto, unfolding(crate::specs::Reading::reading_of))]
pub fn read_notice(
    alloc: Global,
    method: &Text,
    params: Json,
) -> Result<Option<Notice>, NoticeFault>
    ensures value { Reads result (reading_of (record { method = method.now; params = params })) }
    ensures fits { IfOk result FitsWorldIfRead }
{
    let is_plain = params.is_plain();
    match read(alloc, method.as_str(), params)? {
        Some(read) => judged(is_plain, read),
        None => Ok(None),
    }
}
