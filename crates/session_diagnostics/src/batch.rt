// Batches: what the analysis is asked of the documents that are open.
ghost use Rattle.std.specs.Prelude.{◌≡◌, ◌++◌, [], IfOk, OnOk, is_some, if◌then◌else◌};
ghost use Rattle.op_board.specs.Board.{next_generation};
ghost use Rattle.session_port.specs.Refines.{Refines};
ghost use Rattle.session_model.specs.Diagnosing.{batch_counted, batch_kinds, is_batch_due, list_kinds, lists_asked, shows_diagnostics, slice_count, slice_kinds, slices, subscribed, tests_asked};
ghost use Rattle.session_model.specs.Machine.{all_asked, batch_asked, batch_done, with_board};
ghost use Rattle.session_model.specs.Status.{is_quiescent};

use crate::shown::subscribed;
use crate::slicing::slices;
use docs_vfs::FileId;
use op_board::NativePass;
use plain::Items;
use ra_config::Config;
use session_model::{FactsBefore, SessionFiles, TurnError};
use session_port::{JobKind, TurnOut};
use session_store::{Store, is_quiescent};
use std::alloc::{AllocError, Global};
use workspaces::Workspaces;

// A slice for each four threads, and at least one.
fn slice_count(settings: &Config) -> u32
    ensures { result ≡ slice_count settings.now }
{
    (settings.num_threads() / 4).max(1)
}

// Diagnostics are shown: the settings want them, and the client doesn't ask for them itself.
fn shows_diagnostics(settings: &Config) -> bool
    ensures { result ≡ shows_diagnostics settings.now }
{
    settings.diagnostics_enable(None) && !settings.text_document_diagnostic()
}

// Adds what is asked of a slice.
fn ask_slice(
    into: &mut Items<JobKind>,
    generation: u64,
    fetched: bool,
    files: &Items<FileId>,
) -> Result<(), AllocError>
    ensures { OnOk result (into.new ≡ into.old ++ slice_kinds generation fetched files.now) }
{
    into.push(JobKind::Diagnostics {
        generation,
        pass: NativePass::Syntax,
        files: files.clone()?,
    })?;
    if fetched {
        into.push(JobKind::Diagnostics {
            generation,
            pass: NativePass::Semantic,
            files: files.clone()?,
        })?;
    }
    Ok(())
}

// Adds what is asked of slices.
fn ask_slices(
    into: &mut Items<JobKind>,
    generation: u64,
    fetched: bool,
    slices: &[Items<FileId>],
) -> Result<(), AllocError>
    ensures { OnOk result (into.new ≡ into.old ++ list_kinds generation fetched slices.now) }
{
    for files in slices {
        ask_slice(into, generation, fetched, files)?;
    }
    Ok(())
}

// Adds what is asked of the documents that are shown, with the next generation.
fn ask_lists(
    store: &Store,
    into: &mut Items<JobKind>,
    generation: u64,
    files: &[FileId],
) -> Result<(), AllocError>
    ensures { OnOk result (into.new ≡ into.old ++ list_kinds generation (is_some store.now.workspaces.fetches.queue.last) (slices (slice_count store.now.client.settings) files.now)) }
{
    let slices = slices(store.alloc, slice_count(store.client.settings()), files)?;
    ask_slices(
        into,
        generation,
        store.workspaces.last_fetch().is_some(),
        slices.as_slice(),
    )
}

// Adds the question for the tests of files, unless there are none.
fn ask_tests(into: &mut Items<JobKind>, files: Items<FileId>) -> Result<(), AllocError>
    ensures { OnOk result (into.new ≡ into.old ++ tests_asked files) }
{
    if files.is_empty() {
        return Ok(());
    }
    into.push(JobKind::Tests { files })?;
    Ok(())
}

// These jobs are handed over one after another.
#[tactic(auto, unfolding(session_model::specs::Machine::all_asked))]
fn hand_over_all(
    store: &mut Store,
    kinds: Items<JobKind>,
    out: &mut TurnOut,
) -> Result<(), TurnError>
    ensures { Refines result (all_asked kinds (record { state = store.old; out = out.old })) store.new out.new }
{
    for kind in kinds.into_vec() {
        store.hand_over_awaited(kind, out)?;
    }
    Ok(())
}

// Adds the lists that a batch asks for, where diagnostics are shown: it takes the next generation, if one is left.
fn add_lists(
    store: &mut Store,
    into: &mut Items<JobKind>,
    files: &[FileId],
) -> Result<(), AllocError>
    requires { files.now ≡ subscribed store.old.files }
    ensures kinds { OnOk result (into.new ≡ into.old ++ (if shows_diagnostics store.old.client.settings then lists_asked (next_generation store.old.board) store.old else [])) }
    ensures after { OnOk result (store.new ≡ with_board (batch_counted store.old.client.settings store.old.board) store.old) }
{
    if !shows_diagnostics(store.client.settings()) {
        return Ok(());
    }
    match store.board.next_generation() {
        None => Ok(()),
        Some(generation) => ask_lists(store, into, generation, files),
    }
}

// All that a batch asks of the analysis. The board takes the batch's generation.
#[tactic(auto, unfolding(session_model::specs::Diagnosing::batch_kinds))]
fn batch_kinds(store: &mut Store) -> Result<Items<JobKind>, AllocError>
    ensures kinds { IfOk result (λ kinds. kinds ≡ batch_kinds store.old) }
    ensures after { OnOk result (store.new ≡ with_board (batch_counted store.old.client.settings store.old.board) store.old) }
{
    let mut kinds = Items::new(store.alloc);
    let explores = store.client.settings().test_explorer();
    if !explores && !shows_diagnostics(store.client.settings()) {
        return Ok(kinds);
    }
    let files = subscribed(store.alloc, &store.files)?;
    add_lists(store, &mut kinds, files.as_slice())?;
    if explores {
        ask_tests(&mut kinds, files)?;
    }
    Ok(kinds)
}

// A batch is asked for.
#[tactic(auto, unfolding(session_model::specs::Machine::batch_asked))]
fn ask_batch(store: &mut Store, out: &mut TurnOut) -> Result<(), TurnError>
    ensures { Refines result (batch_asked (record { state = store.old; out = out.old })) store.new out.new }
{
    store.gather_fixes()?;
    let kinds = batch_kinds(store)?;
    hand_over_all(store, kinds, out)
}

// Whether the session has come to be quiescent, or is, and files were processed behind the event, or a document came or
// went with it.
fn is_batch_due(
    files: &SessionFiles,
    workspaces: &Workspaces,
    facts: FactsBefore,
    came_or_went: bool,
) -> bool
    ensures { result ≡ is_batch_due facts.quiescent (is_quiescent files.now workspaces.now) facts.processed came_or_went }
{
    is_quiescent(files, workspaces) && (!facts.quiescent || (facts.processed || came_or_went))
}

/// Asks for a batch where one is due, by whether a document came or went with the event.
#[tactic(auto, unfolding(session_model::specs::Machine::batch_done))]
pub fn start_batch(
    store: &mut Store,
    came_or_went: bool,
    facts: FactsBefore,
    out: &mut TurnOut,
) -> Result<(), TurnError>
    ensures { Refines result (batch_done came_or_went facts (record { state = store.old; out = out.old })) store.new out.new }
{
    if is_batch_due(&store.files, &store.workspaces, facts, came_or_went) {
        return ask_batch(store, out);
    }
    Ok(())
}
