// What a client is told of files.
ghost use Rattle.std.specs.Prelude.{◌≡◌, map as each, Ok, IfOk, OnOk};
ghost use Rattle.docs_vfs.specs.Files.{path_at};
ghost use Rattle.session_port.specs.Refines.{RefinesTotal};
ghost use Rattle.session_model.specs.Diagnosing.{publication, told_diagnostic, told_message, told_related};
ghost use Rattle.session_model.specs.Machine.{all_published, files_published, marked_published, published_at};

use docs_vfs::{FileId, VfsPath, url_of_path};
use lsp_types::{Diagnostic, Related};
use notify::Outgo;
use op_board::DiagnosticCollection;
use plain::{Items, Text};
use session_model::{SessionFiles, TurnError};
use session_port::TurnOut;
use session_store::Store;
use std::alloc::{AllocError, Global};
use std::mem;

// An empty message is told as a space.
fn tell_message(alloc: Global, message: &mut Text) -> Result<(), AllocError>
    ensures { OnOk result (message.new ≡ told_message message.old) }
{
    if message.is_empty() {
        drop(mem::replace(message, Text::from_str(alloc, " ")?));
    }
    Ok(())
}

fn tell_related(alloc: Global, related: &mut Related) -> Result<(), AllocError>
    ensures { OnOk result (related.new ≡ told_related related.old) }
{
    tell_message(alloc, &mut related.message)
}

fn told_related(alloc: Global, list: Items<Related>) -> Result<Items<Related>, AllocError>
    ensures { IfOk result (λ told. told ≡ each told_related list) }
{
    let mut told = Items::new(alloc);
    for mut related in list.into_vec() {
        tell_related(alloc, &mut related)?;
        told.push(related)?;
    }
    Ok(told)
}

fn tell_diagnostic(alloc: Global, diagnostic: &mut Diagnostic) -> Result<(), AllocError>
    ensures { OnOk result (diagnostic.new ≡ told_diagnostic diagnostic.old) }
{
    tell_message(alloc, &mut diagnostic.message)?;
    let related = mem::replace(&mut diagnostic.related, Items::new(alloc));
    diagnostic.related = told_related(alloc, related)?;
    Ok(())
}

fn told_diagnostics(alloc: Global, list: Items<Diagnostic>) -> Result<Items<Diagnostic>, AllocError>
    ensures { IfOk result (λ told. told ≡ each told_diagnostic list) }
{
    let mut told = Items::new(alloc);
    for mut diagnostic in list.into_vec() {
        tell_diagnostic(alloc, &mut diagnostic)?;
        told.push(diagnostic)?;
    }
    Ok(told)
}

// What is wrong in a file with this path.
fn publication(
    alloc: Global,
    files: &SessionFiles,
    board: &DiagnosticCollection,
    file: FileId,
    path: &VfsPath,
) -> Result<Outgo, AllocError>
    ensures { IfOk result (λ message. message ≡ publication files.now board.now file path.now) }
{
    Ok(Outgo::Publish {
        diagnostics: told_diagnostics(alloc, board.diagnostics_for(file)?)?,
        uri: url_of_path(alloc, path)?,
        version: files.version(path),
    })
}

/// Tells the client what is wrong in a file, if its number has a path. An empty message is told as a space.
#[tactic(auto, unfolding(session_model::specs::Machine::published_at, session_port::specs::TurnState::written))]
pub fn publish(store: &Store, file: FileId, out: &mut TurnOut) -> Result<(), TurnError>
    ensures { RefinesTotal result (published_at (path_at store.now.files.table file) file (record { state = store.now; out = out.old })) store.now out.new }
{
    match store.files.path_of(file) {
        None => Ok(()),
        Some(path) => {
            let message = publication(store.alloc, &store.files, &store.board, file, path)?;
            store.client.tell(message, out)?;
            Ok(())
        }
    }
}

// The same of these files, one after another.
fn publish_all(store: &Store, files: &[FileId], out: &mut TurnOut) -> Result<(), TurnError>
    ensures { RefinesTotal result (all_published files.now (record { state = store.now; out = out.old })) store.now out.new }
{
    for file in files {
        publish(store, *file, out)?;
    }
    Ok(())
}

// The same, if there are some.
fn publish_files(
    store: &Store,
    files: Option<Items<FileId>>,
    out: &mut TurnOut,
) -> Result<(), TurnError>
    ensures { RefinesTotal result (files_published files (record { state = store.now; out = out.old })) store.now out.new }
{
    match files {
        None => Ok(()),
        Some(files) => publish_all(store, files.as_slice(), out),
    }
}

/// Tells the client of the files that are marked, in order. They are marked no more.
#[tactic(auto, unfolding(session_model::specs::Machine::marked_published))]
pub fn publish_marked(store: &mut Store, out: &mut TurnOut) -> Result<(), TurnError>
    ensures { RefinesTotal result (marked_published (record { state = store.old; out = out.old })) store.new out.new }
{
    let files = store.board.take_changes();
    publish_files(store, files, out)
}
