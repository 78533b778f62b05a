// Lists of diagnostics that come and go, and tests that were found.
ghost use Rattle.std.specs.Prelude.{◌≡◌, All, true, IfOk, OnOk, if◌then◌else◌};
ghost use Rattle.std.specs.FinMap as map;
ghost use Rattle.plain.specs.Plain.{is_plain};
ghost use Rattle.op_board.specs.Acts.{step as after_act};
ghost use Rattle.op_board.specs.Acts.Act.{Clears};
ghost use Rattle.session_port.specs.Refines.{RefinesTotal};
ghost use Rattle.session_port.specs.TurnState.{written};
ghost use Rattle.session_model.specs.ClientSteps.{notification_of};
ghost use Rattle.session_model.specs.Diagnosing.{deleted_cleared, is_deletion, lists_cleared, lists_given, tests_told, url_at, urls_of};
ghost use Rattle.session_model.specs.Machine.{with_board};

use docs_vfs::{ChangeKind, ChangedFile, FileId, VfsPath, url_of_path};
use lsp_types::Diagnostic;
use notify::Outgo;
use op_board::{DiagnosticCollection, NativePass};
use plain::{Items, Json, Text};
use session_model::{SessionFiles, TurnError};
use session_port::TurnOut;
use session_store::Store;
use std::alloc::{AllocError, Global};

/// Empties the lists of the file with this path, if there is one.
pub fn clear_file(store: &mut Store, path: &VfsPath) -> Result<(), AllocError>
    ensures { OnOk result (store.new ≡ with_board (lists_cleared (map.get store.old.files.ids path.now) store.old.board) store.old) }
{
    match store.files.file_id(path) {
        None => Ok(()),
        Some((file, _)) => store.board.clear_native_for(file),
    }
}

fn is_deletion(kind: ChangeKind) -> bool
    ensures { result ≡ is_deletion kind }
{
    match kind {
        ChangeKind::Create | ChangeKind::Modify => false,
        ChangeKind::Delete => true,
    }
}

// Empties the lists of a file that was deleted.
fn clear_if_deleted(board: &mut DiagnosticCollection, file: &ChangedFile) -> Result<(), AllocError>
    ensures { OnOk result (board.new ≡ (if is_deletion file.now.kind then after_act (Clears file.now.file) board.old else board.old)) }
{
    if is_deletion(file.kind) {
        return board.clear_native_for(file.file);
    }
    Ok(())
}

// Empties the lists of those of these files that were deleted.
fn clear_all(board: &mut DiagnosticCollection, changed: &[ChangedFile]) -> Result<(), AllocError>
    ensures { OnOk result (board.new ≡ deleted_cleared changed.now board.old) }
{
    for file in changed {
        clear_if_deleted(board, file)?;
    }
    Ok(())
}

/// Empties the lists of the files that were deleted.
pub fn clear_deleted(store: &mut Store, changed: &[ChangedFile]) -> Result<(), AllocError>
    ensures { OnOk result (store.new ≡ with_board (deleted_cleared changed.now store.old.board) store.old) }
{
    clear_all(&mut store.board, changed)
}

/// Takes the lists of a pass and a generation.
pub fn take_lists(
    board: &mut DiagnosticCollection,
    generation: u64,
    pass: NativePass,
    lists: Items<(FileId, Items<Diagnostic>)>,
) -> Result<(), AllocError>
    ensures { OnOk result (board.new ≡ lists_given generation pass lists board.old) }
{
    board.set_native_diagnostics(pass, generation, lists)
}

// The URL of a file, if its number has a path.
fn url_at(alloc: Global, files: &SessionFiles, file: FileId) -> Result<Option<Text>, AllocError>
    ensures { IfOk result (λ url. url ≡ url_at files.now.table file) }
{
    match files.path_of(file) {
        None => Ok(None),
        Some(path) => Ok(Some(url_of_path(alloc, path)?)),
    }
}

// The URLs of files.
fn urls_of(alloc: Global, files: &SessionFiles, asked: &[FileId]) -> Result<Items<Text>, AllocError>
    ensures { IfOk result (λ urls. urls ≡ urls_of files.now.table asked.now) }
{
    let mut urls = Items::new(alloc);
    for file in asked {
        if let Some(url) = url_at(alloc, files, *file)? {
            urls.push(url)?;
        }
    }
    Ok(urls)
}

/// Tells the client of the tests of files.
#[tactic(auto, unfolding(session_port::specs::TurnState::written))]
pub fn take_tests(
    store: &Store,
    files: Items<FileId>,
    tests: Items<Json>,
    out: &mut TurnOut,
) -> Result<(), TurnError>
    requires { All (λ test. is_plain test ≡ true) tests }
    ensures { RefinesTotal result (written (notification_of (tests_told store.now.files.table files tests)) (record { state = store.now; out = out.old })) store.now out.new }
{
    let message = Outgo::DiscoveredTests {
        uris: urls_of(store.alloc, &store.files, files.as_slice())?,
        tests,
    };
    store.client.tell(message, out)?;
    Ok(())
}
