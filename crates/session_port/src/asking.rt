// The questions of a job, one after another.
ghost use Rattle.std.specs.Prelude.{◌≡◌, ◌∷◌, [], ◌≤◌, ◌<◌, None, Some, map, IfOk, IfErr, IfNone, IfSome, MatchResult};
ghost use Rattle.std.specs.List.{AllZip};
ghost use Rattle.analysis_host.specs.Answers.{answer, IsAnswerTo};
ghost use Rattle.analysis_host.specs.Polls.{Counts, HasPolled};
ghost use Rattle.session_port.specs.Asking.{about};
ghost use Rattle.session_port.specs.Kinds.{asks_of, pass_ask};
ghost use Rattle.session_port.specs.Runs.{HasCounted, IfCancelled, StopsAsking, StopsAt, UnlessNoMemory};

use crate::job::{JobKind, JobResult};
use analysis_host::{Analysis, Answer, Ask, Cancel, GlobalStateSnapshot, Outcome};
use docs_vfs::FileId;
use op_board::NativePass;
use plain::{Items, NoMemory};
use std::alloc::Global;

/// What is asked about each file of a job.
#[derive(Clone, Copy)]
pub(crate) enum Question {
    Syntax,
    Semantic,
    Tests,
    CratesOf,
}

fn about(question: Question, file: FileId) -> Ask
    ensures { result ≡ about question file }
{
    match question {
        Question::Syntax => Ask::Syntax(file),
        Question::Semantic => Ask::Semantic(file),
        Question::Tests => Ask::Tests(file),
        Question::CratesOf => Ask::CratesOf(file),
    }
}

/// The question about each of these files.
fn about_each(alloc: Global, question: Question, files: &[FileId]) -> Result<Items<Ask>, NoMemory>
    ensures { IfOk result (λ asks. asks ≡ map (about question) files.now) }
{
    let mut asks = Items::new(alloc);
    for file in files {
        asks.push(about(question, *file))?;
    }
    Ok(asks)
}

/// One question alone.
fn alone(alloc: Global, ask: Ask) -> Result<Items<Ask>, NoMemory>
    ensures { IfOk result (λ asks. asks ≡ ask ∷ []) }
{
    let mut asks = Items::new(alloc);
    asks.push(ask)?;
    Ok(asks)
}

/// The questions of a pass about files.
fn of_pass(alloc: Global, pass: NativePass, files: &[FileId]) -> Result<Items<Ask>, NoMemory>
    ensures { IfOk result (λ asks. asks ≡ map (pass_ask pass) files.now) }
{
    match pass {
        NativePass::Syntax => about_each(alloc, Question::Syntax, files),
        NativePass::Semantic => about_each(alloc, Question::Semantic, files),
    }
}

/// The questions that a job of this kind asks.
pub(crate) fn asks_of(alloc: Global, kind: &JobKind) -> Result<Items<Ask>, NoMemory>
    ensures { IfOk result (λ asks. asks ≡ asks_of kind.now) }
{
    match kind {
        JobKind::Request { row, params, .. } => {
            let params = params.clone()?;
            alone(alloc, Ask::Request { row: *row, params })
        }
        JobKind::Part {
            row,
            params,
            files,
            ..
        } => {
            let params = params.clone()?;
            let files = files.clone()?;
            alone(
                alloc,
                Ask::Part {
                    row: *row,
                    params,
                    files,
                },
            )
        }
        JobKind::Diagnostics { pass, files, .. } => of_pass(alloc, *pass, files.as_slice()),
        JobKind::Tests { files } => about_each(alloc, Question::Tests, files.as_slice()),
        JobKind::ProcMacroSources { files } => {
            about_each(alloc, Question::CratesOf, files.as_slice())
        }
        JobKind::Indexed { file, .. } | JobKind::CheckScope { file, .. } => {
            alone(alloc, Ask::CratesOf(*file))
        }
        JobKind::Prime => alone(alloc, Ask::Prime),
        JobKind::FetchWorkspaces { .. }
        | JobKind::FetchBuildData { .. }
        | JobKind::LoadProcMacros { .. } => Ok(Items::new(alloc)),
    }
}

/// What one question comes to: its answer, or else how the job ends.
fn ask_one<A: Analysis, C: Cancel>(
    snapshot: &GlobalStateSnapshot,
    ask: &Ask,
    analysis: &A,
    cancel: &mut C,
) -> Result<Answer, JobResult>
    requires floor { snapshot.now.revision ≤ C.floor cancel.old }
    requires usable { C.held cancel.old ≡ None }
    ensures found { IfOk result (λ value. A.answer snapshot.now ask.now ≡ answer value) }
    ensures kind { IfOk result (IsAnswerTo ask.now) }
    ensures stops { IfErr result (StopsAt (A.answer snapshot.now ask.now)) }
    ensures held { IfErr result (λ end. IfCancelled end (λ saw. C.held cancel.new ≡ Some saw)) }
    ensures above { IfErr result (λ end. IfCancelled end (λ saw. C.floor cancel.old < saw)) }
    ensures polled { MatchResult result (λ _. HasPolled (C.polls cancel.old) (C.polls cancel.new)) (λ end. UnlessNoMemory end (HasPolled (C.polls cancel.old) (C.polls cancel.new))) }
    ensures key { C.key cancel.new ≡ C.key cancel.old }
    ensures floor_stays { C.floor cancel.new ≡ C.floor cancel.old }
{
    let Ok(outcome) = analysis.query(snapshot, ask, cancel) else {
        return Err(JobResult::NoMemory);
    };
    match outcome {
        Outcome::Value(value) => Ok(value),
        Outcome::Fault { code, message } => Err(JobResult::Fault { code, message }),
        Outcome::Cancelled { saw } => Err(JobResult::Cancelled { saw }),
    }
}

/// The same of one of several questions: the job stops behind it too, where it is out of date by then.
fn ask_next<A: Analysis, C: Cancel>(
    snapshot: &GlobalStateSnapshot,
    ask: &Ask,
    analysis: &A,
    cancel: &mut C,
) -> Result<Answer, JobResult>
    requires floor { snapshot.now.revision ≤ C.floor cancel.old }
    requires usable { C.held cancel.old ≡ None }
    ensures found { IfOk result (λ value. A.answer snapshot.now ask.now ≡ answer value) }
    ensures kind { IfOk result (IsAnswerTo ask.now) }
    ensures none { IfOk result (λ _. C.held cancel.new ≡ None) }
    ensures stops { IfErr result (StopsAt (A.answer snapshot.now ask.now)) }
    ensures held { IfErr result (λ end. IfCancelled end (λ saw. C.held cancel.new ≡ Some saw)) }
    ensures above { IfErr result (λ end. IfCancelled end (λ saw. C.floor cancel.old < saw)) }
    ensures polled { MatchResult result (λ _. HasCounted (C.polls cancel.old) (C.polls cancel.new)) (λ end. UnlessNoMemory end (HasCounted (C.polls cancel.old) (C.polls cancel.new))) }
    ensures key { C.key cancel.new ≡ C.key cancel.old }
    ensures floor_stays { C.floor cancel.new ≡ C.floor cancel.old }
{
    let Ok(outcome) = analysis.query(snapshot, ask, cancel) else {
        return Err(JobResult::NoMemory);
    };
    if let Some(saw) = held_now(cancel) {
        return Err(JobResult::Cancelled { saw });
    }
    match outcome {
        Outcome::Value(value) => Ok(value),
        Outcome::Fault { code, message } => Err(JobResult::Fault { code, message }),
        Outcome::Cancelled { .. } => unreachable!(),
    }
}

/// Polls once: the number that is held after it.
fn held_now<C: Cancel>(cancel: &mut C) -> Option<u64>
    ensures held { C.held cancel.new ≡ result }
    ensures was { IfNone result (C.held cancel.old ≡ None) }
    ensures above { IfSome result (λ saw. C.floor cancel.old < saw) }
    ensures polls { Counts (C.polls cancel.old) (C.polls cancel.new) }
    ensures key { C.key cancel.new ≡ C.key cancel.old }
    ensures floor_stays { C.floor cancel.new ≡ C.floor cancel.old }
{
    match cancel.poll() {
        Some(saw) => Some(saw),
        None => cancel.held(),
    }
}

/// The answers to these questions, in order, or else how the job ends. It stops before the first, between two of them and behind the last
/// where it is out of date by then; so it polls also where there is none.
#[tactic(auto, using(crate::proofs::Questions::continues_start, crate::proofs::Questions::continues_push, crate::proofs::Questions::stops_asking))]
pub(crate) fn ask_all<A: Analysis, C: Cancel>(
    alloc: Global,
    snapshot: &GlobalStateSnapshot,
    asks: Items<Ask>,
    analysis: &A,
    cancel: &mut C,
) -> Result<Items<Answer>, JobResult>
    requires floor { snapshot.now.revision ≤ C.floor cancel.old }
    requires usable { C.held cancel.old ≡ None }
    ensures found { IfOk result (λ answers. map (A.answer snapshot.now) asks ≡ map answer answers) }
    ensures kinds { IfOk result (AllZip IsAnswerTo asks) }
    ensures stops { IfErr result (StopsAsking (map (A.answer snapshot.now) asks)) }
    ensures held { IfErr result (λ end. IfCancelled end (λ saw. C.held cancel.new ≡ Some saw)) }
    ensures above { IfErr result (λ end. IfCancelled end (λ saw. C.floor cancel.old < saw)) }
    ensures polled { MatchResult result (λ _. HasCounted (C.polls cancel.old) (C.polls cancel.new)) (λ end. UnlessNoMemory end (HasCounted (C.polls cancel.old) (C.polls cancel.new))) }
    ensures key { C.key cancel.new ≡ C.key cancel.old }
    ensures floor_stays { C.floor cancel.new ≡ C.floor cancel.old }
{
    if let Some(saw) = held_now(cancel) {
        return Err(JobResult::Cancelled { saw });
    }
    let mut answers = Items::new(alloc);
    for ask in asks.into_vec() {
        let found = ask_next(snapshot, &ask, analysis, cancel)?;
        if answers.push(found).is_err() {
            return Err(JobResult::NoMemory);
        }
    }
    Ok(answers)
}

/// The answer to one question alone.
#[tactic(auto, using(crate::proofs::Questions::one_answered, crate::proofs::Questions::one_stops))]
pub(crate) fn ask_alone<A: Analysis, C: Cancel>(
    alloc: Global,
    snapshot: &GlobalStateSnapshot,
    ask: &Ask,
    analysis: &A,
    cancel: &mut C,
) -> Result<Items<Answer>, JobResult>
    requires floor { snapshot.now.revision ≤ C.floor cancel.old }
    requires usable { C.held cancel.old ≡ None }
    ensures found { IfOk result (λ answers. map (A.answer snapshot.now) (ask.now ∷ []) ≡ map answer answers) }
    ensures kinds { IfOk result (AllZip IsAnswerTo (ask.now ∷ [])) }
    ensures stops { IfErr result (StopsAsking (map (A.answer snapshot.now) (ask.now ∷ []))) }
    ensures held { IfErr result (λ end. IfCancelled end (λ saw. C.held cancel.new ≡ Some saw)) }
    ensures above { IfErr result (λ end. IfCancelled end (λ saw. C.floor cancel.old < saw)) }
    ensures polled { MatchResult result (λ _. HasPolled (C.polls cancel.old) (C.polls cancel.new)) (λ end. UnlessNoMemory end (HasPolled (C.polls cancel.old) (C.polls cancel.new))) }
    ensures key { C.key cancel.new ≡ C.key cancel.old }
    ensures floor_stays { C.floor cancel.new ≡ C.floor cancel.old }
{
    let found = ask_one(snapshot, ask, analysis, cancel)?;
    let mut answers = Items::new(alloc);
    if answers.push(found).is_err() {
        return Err(JobResult::NoMemory);
    }
    Ok(answers)
}
