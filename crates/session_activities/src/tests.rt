// The run of tests.
ghost use Rattle.std.specs.Prelude.{◌≡◌, IfOk};
ghost use Rattle.activities.specs.TestRun.{aborted, test_told};
ghost use Rattle.session_port.specs.Refines.{Refines};
ghost use Rattle.session_model.specs.Machine.{tests_announced, tests_heard, tests_run};

use crate::telling::tell_all;
use method_table::RunTest;
use plain::{Items, NoMemory, Text};
use session_model::TurnError;
use session_port::{TestMsg, TurnOut};
use session_store::Store;

/// A run of tests that is in progress ends.
#[tactic(auto, unfolding(session_model::specs::Machine::tests_announced))]
pub fn abort_tests(store: &mut Store, out: &mut TurnOut) -> Result<(), TurnError>
    ensures { Refines result (tests_announced (aborted store.old.activities.tests) (record { state = store.old; out = out.old })) store.new out.new }
{
    let told = store.activities.tests.abort()?;
    tell_all(store, told, out)
}

// A copy of texts, if there are some.
fn copied(texts: &Option<Items<Text>>) -> Result<Option<Items<Text>>, NoMemory>
    ensures { IfOk result (λ copy. copy ≡ texts.now) }
{
    match texts {
        None => Ok(None),
        Some(texts) => Ok(Some(texts.clone()?)),
    }
}

/// Tests that are asked for are run in the workspaces that are present.
#[tactic(auto, unfolding(session_model::specs::Machine::tests_run, session_model::specs::Machine::tests_announced))]
pub fn run_tests(
    store: &mut Store,
    run: Option<RunTest>,
    out: &mut TurnOut,
) -> Result<(), TurnError>
    ensures meets { Refines result (tests_run run (record { state = store.old; out = out.old })) store.new out.new }
    ensures desk { store.new.desk ≡ store.old.desk }
{
    let Some(run) = run else {
        return Ok(());
    };
    let include = copied(&run.include)?;
    let exclude = copied(&run.exclude)?;
    drop(run);
    let count = store.workspaces.present().len();
    let told = store.activities.tests.run(include, exclude, count)?;
    tell_all(store, told, out)
}

// A message of the run of tests.
#[tactic(auto, unfolding(session_model::specs::Machine::tests_announced))]
fn hear_test(store: &mut Store, message: TestMsg, out: &mut TurnOut) -> Result<(), TurnError>
    ensures { Refines result (tests_announced (test_told message store.old.activities.tests) (record { state = store.old; out = out.old })) store.new out.new }
{
    let told = store.activities.tests.take(message)?;
    tell_all(store, told, out)
}

/// Messages of the run of tests, one after another.
#[tactic(auto, unfolding(session_model::specs::Machine::tests_heard))]
pub fn hear_tests(
    store: &mut Store,
    messages: Items<TestMsg>,
    out: &mut TurnOut,
) -> Result<(), TurnError>
    ensures { Refines result (tests_heard messages (record { state = store.old; out = out.old })) store.new out.new }
{
    for message in messages.into_vec() {
        hear_test(store, message, out)?;
    }
    Ok(())
}
