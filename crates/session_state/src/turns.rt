// The turns of a session.
ghost use Rattle.std.specs.Prelude.{◌≡◌, IfOk, OnOk};
ghost use Rattle.lsp_frame.specs.Pending.{IsAbove};
ghost use Rattle.session_port.specs.Refines.{Refines, RefinesTotal};
ghost use Rattle.session_model.specs.Meaning.{Meaning, meaning_of};
ghost use Rattle.session_model.specs.Machine.{came_or_went, checks_done, turn_closed, turn_counted, facts_before, happened, desk_kept, revised, step, event_taken};
ghost use Rattle.session_model.specs.Restarting.{restart_at_rest};
ghost use Rattle.session_model.specs.declared.input.Input.TheVariants.{Start, Next};

use crate::messages::{on_batch, on_message};
use analysis_host::Analysis;
use ra_config::Config;
use session_activities::{renew_checks_if, restart_checks_if};
use session_diagnostics::{publish_marked, start_batch, take_news};
use session_model::{Event, FactsBefore, SessionFiles, TurnError};
use session_notices::{on_loader, process, set_timer};
use session_port::{Command, TurnOut};
use session_renewal::{
    begin_fetches, register_saves, resume_all, start_fetch, start_runs, switch_workspaces,
};
use session_status::{refresh, report_status};
use session_store::{Store, checks_all_on_save, is_quiescent, may_fetch, order};
use workspaces::Workspaces;

// The turn is counted.
#[tactic(auto, unfolding(session_model::specs::Machine::turn_counted))]
fn count(store: &mut Store, out: &mut TurnOut) -> Result<(), TurnError>
    ensures above { OnOk result (IsAbove store.new.desk.turns store.new.desk.pending) }
    ensures meets { Refines result (turn_counted (record { state = store.old; out = out.old })) store.new out.new }
{
    store.desk.count(out)
}

// An event. Answers whether a document came or went with it.
#[tactic(auto, unfolding(session_model::specs::Machine::happened))]
fn on_event<A: Analysis>(
    store: &mut Store,
    event: Event,
    analysis: &A,
    out: &mut TurnOut,
) -> Result<bool, TurnError>
    requires { IsAbove store.old.desk.turns store.old.desk.pending }
    ensures meets { Refines result (happened (meaning_of A.decodes A.answer) event (record { state = store.old; out = out.old })) store.new out.new }
    ensures came_or_went { IfOk result (λ came. came ≡ came_or_went (Next event)) }
{
    match event {
        Event::Lsp(message) => on_message(store, message, analysis, out),
        Event::Task(batch) => {
            on_batch(store, batch, analysis, out)?;
            Ok(false)
        }
        Event::Vfs(messages) => {
            on_loader(store, messages, out)?;
            Ok(false)
        }
        Event::Deferred(tasks) => {
            resume_all(store, tasks, out)?;
            Ok(false)
        }
        Event::News(news) => {
            take_news(store, news, out)?;
            Ok(false)
        }
        Event::Timer(ticket) => {
            store.workspaces.fire(ticket)?;
            Ok(false)
        }
    }
}

// The turn is counted, and its event is taken in. Answers whether a document came or went with it.
#[tactic(auto, unfolding(session_model::specs::Machine::event_taken))]
fn take_in<A: Analysis>(
    store: &mut Store,
    event: Event,
    analysis: &A,
    out: &mut TurnOut,
) -> Result<bool, TurnError>
    ensures meets { Refines result (event_taken (meaning_of A.decodes A.answer) event (record { state = store.old; out = out.old })) store.new out.new }
    ensures came_or_went { IfOk result (λ came. came ≡ came_or_went (Next event)) }
{
    count(store, out)?;
    on_event(store, event, analysis, out)
}

// The jobs that this turn hands over are out.
#[tactic(auto, unfolding(session_model::specs::Machine::desk_kept))]
fn keep_jobs(store: &mut Store, before: usize, out: &mut TurnOut) -> Result<(), TurnError>
    ensures { Refines result (desk_kept before (record { state = store.old; out = out.old })) store.new out.new }
{
    store.desk.keep_jobs(before, out)
}

// The host is told of a revision that rose in this turn.
#[tactic(auto, unfolding(session_model::specs::Machine::revised))]
fn revise(store: &Store, before: u64, out: &mut TurnOut) -> Result<(), TurnError>
    ensures { RefinesTotal result (revised before (record { state = store.now; out = out.old })) store.now out.new }
{
    let revision = store.files.revision();
    if revision == before {
        return Ok(());
    }
    order(Command::Revise(revision), out)
}

// What closes a turn.
fn close_turn(store: &mut Store, facts: FactsBefore, out: &mut TurnOut) -> Result<(), TurnError>
    ensures { Refines result (turn_closed facts (record { state = store.old; out = out.old })) store.new out.new }
{
    keep_jobs(store, facts.ordered, out)?;
    revise(store, facts.revision, out)?;
    set_timer(store, out)
}

// The facts before a turn.
fn facts(store: &Store, out: &TurnOut) -> FactsBefore
    ensures { result ≡ facts_before (record { state = store.now; out = out.now }) }
{
    FactsBefore {
        revision: store.files.revision(),
        ordered: out.commands().len(),
        quiescent: is_quiescent(&store.files, &store.workspaces),
        crates: false,
        processed: false,
    }
}

// The facts before a turn, whether crate data came with its switch, and whether files were processed behind its event.
fn knowing(before: FactsBefore, crates: bool, processed: bool) -> FactsBefore
    ensures { result ≡ record before { crates = crates; processed = processed } }
{
    FactsBefore {
        revision: before.revision,
        ordered: before.ordered,
        quiescent: before.quiescent,
        crates,
        processed,
    }
}

// Whether all checks restart, in a session that has come to be quiescent.
fn restart_at_rest(
    was_quiescent: bool,
    settings: &Config,
    files: &SessionFiles,
    workspaces: &Workspaces,
) -> bool
    ensures { result ≡ restart_at_rest was_quiescent settings.now files.now workspaces.now }
{
    !was_quiescent
        && is_quiescent(files, workspaces)
        && checks_all_on_save(settings)
        && !workspaces.is_build_requested()
}

// The checks of crate data that came with the switch are set; and all restart in a session that has come to be quiescent.
#[tactic(auto, unfolding(session_model::specs::Machine::checks_done))]
fn renew_checks(store: &mut Store, facts: FactsBefore, out: &mut TurnOut) -> Result<(), TurnError>
    ensures { Refines result (checks_done facts (record { state = store.old; out = out.old })) store.new out.new }
{
    renew_checks_if(store, facts.crates, out)?;
    let wanted = restart_at_rest(
        facts.quiescent,
        store.client.settings(),
        &store.files,
        &store.workspaces,
    );
    restart_checks_if(store, wanted, out)
}

// Turn 0. It uses no number of the turns. After an `Err` the state is poisoned.
#[tactic(auto, unfolding(session_model::specs::Machine::step, session_model::specs::Machine::register_part, session_model::specs::Machine::begin_part, session_model::specs::Machine::begun_fetches, session_model::specs::Machine::fetch_part, session_model::specs::Machine::status_part, session_model::specs::Machine::closing_part, session_port::specs::TurnState::lifted))]
pub(crate) fn start(store: &mut Store, out: &mut TurnOut) -> Result<(), TurnError>
    ensures { (meaning : Meaning) → Refines result (step meaning Start (record { state = store.old; out = out.old })) store.new out.new }
{
    let facts = facts(store, out);
    report_status(store, out)?;
    register_saves(store, out)?;
    begin_fetches(store.client.settings(), &mut store.workspaces)?;
    start_fetch(store, true, out)?;
    close_turn(store, facts, out)
}

// One turn. After an `Err` the state is poisoned.
#[tactic(auto, unfolding(session_model::specs::Machine::step, session_model::specs::Machine::event_part, session_model::specs::Machine::switch_part, session_model::specs::Machine::files_part, session_model::specs::Machine::quiet_part, session_model::specs::Machine::quiet_done, session_model::specs::Machine::publish_part, session_model::specs::Machine::fetch_part, session_model::specs::Machine::build_part, session_model::specs::Machine::status_part, session_model::specs::Machine::closing_part, session_port::specs::TurnState::lifted))]
pub(crate) fn handle_event<A: Analysis>(
    store: &mut Store,
    event: Event,
    analysis: &A,
    out: &mut TurnOut,
) -> Result<(), TurnError>
    ensures { Refines result (step (meaning_of A.decodes A.answer) (Next event) (record { state = store.old; out = out.old })) store.new out.new }
{
    let before = facts(store, out);
    let came_or_went = take_in(store, event, analysis, out)?;
    let crates = switch_workspaces(store, out)?;
    let processed = process(store, out)?;
    let facts = knowing(before, crates, processed);
    renew_checks(store, facts, out)?;
    refresh(store, facts, out)?;
    start_batch(store, came_or_went, facts, out)?;
    publish_marked(store, out)?;
    let may = may_fetch(store.client.settings());
    start_fetch(store, may, out)?;
    start_runs(store, out)?;
    report_status(store, out)?;
    close_turn(store, facts, out)
}
