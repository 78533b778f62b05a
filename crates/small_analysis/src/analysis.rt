// The small analysis.
ghost use Rattle.std.specs.Prelude.{◌≡◌, None, IfOk, OnOk};
ghost use Rattle.analysis_host.specs.Answers.{Answers, IsOutcomeOf, IsPlainOutcome};
ghost use Rattle.analysis_host.specs.Polls.{Counts, HasPolled};
ghost use Rattle.small_analysis.specs.Small.{class_value, is_hover, is_matching_brace, plain_answer, request_answer, row_value, small_answer, small_decodes, small_info, outdated_by};

use crate::findings::{semantic_of, syntax_of, tests_of};
use crate::hover::hover_of;
use crate::matching_brace::braces_of;
use crate::roots::crates_of;
use analysis_host::{
    Analysis, Answer, Ask, Cancel, GlobalStateSnapshot, Outcome, RowId, ServerInfo,
};
use lsp_types::{has_positions, position_of, uri_of};
use method_table::{Class, HOVER, MATCHING_BRACE, class_of, default_of};
use plain::Json;
use requests::malformed;
use std::alloc::{AllocError, Global};

/// An analysis that answers hover by the name under the position, matchingBrace by the brackets that match, and every
/// other row by what it is answered where nothing is known. It finds brackets without a partner and names of functions
/// that come twice. Each file with a text belongs to all crates whose root files exist, and has no tests.
#[derive(Drop)]
pub struct SmallAnalysis {
    alloc: Global,
}

fn is_hover(row: RowId) -> bool
    ensures { result ≡ is_hover row }
{
    row == HOVER
}

fn is_matching_brace(row: RowId) -> bool
    ensures { result ≡ is_matching_brace row }
{
    row == MATCHING_BRACE
}

/// What a row of a class is answered where nothing is known.
fn class_value(alloc: Global, class: Class, row: RowId, params: &Json) -> Result<Json, AllocError>
    ensures { IfOk result (λ json. json ≡ class_value row params.now class) }
{
    match class {
        Class::Identity => Ok(params.clone()?),
        Class::OnLoop | Class::Formatting => Ok(Json::null()),
        Class::State | Class::Latency | Class::DocumentDiagnostic | Class::Worker => {
            Ok(default_of(alloc, row)?)
        }
    }
}

/// What a row is answered where nothing is known.
fn row_value(alloc: Global, row: RowId, params: &Json) -> Result<Json, AllocError>
    ensures { IfOk result (λ json. json ≡ row_value row params.now) }
{
    class_value(alloc, class_of(row), row, params)
}

/// An answer by a value, where it is plain.
fn plain_answer(alloc: Global, value: Json) -> Result<Outcome, AllocError>
    ensures answers { IfOk result (Answers (plain_answer value) None) }
    ensures plain { IfOk result IsPlainOutcome }
{
    if !value.is_plain() {
        return malformed(alloc);
    }
    Ok(Outcome::Value(Answer::Json(value)))
}

/// What a request of a row comes to.
fn request_answer(
    alloc: Global,
    snapshot: &GlobalStateSnapshot,
    row: RowId,
    params: &Json,
) -> Result<Outcome, AllocError>
    ensures answers { IfOk result (Answers (request_answer snapshot.now row params.now) None) }
    ensures plain { IfOk result IsPlainOutcome }
{
    if !params.is_plain() {
        malformed(alloc)
    } else if is_hover(row) {
        hover_of(alloc, snapshot, params)
    } else if is_matching_brace(row) {
        braces_of(alloc, snapshot, params)
    } else {
        plain_answer(alloc, row_value(alloc, row, params)?)
    }
}

/// What a question comes to.
fn answer(alloc: Global, snapshot: &GlobalStateSnapshot, ask: &Ask) -> Result<Outcome, AllocError>
    ensures answers { IfOk result (Answers (small_answer snapshot.now ask.now) None) }
    ensures kind { IfOk result (IsOutcomeOf ask.now) }
{
    match ask {
        Ask::Request { row, params } | Ask::Part { row, params, .. } => {
            request_answer(alloc, snapshot, *row, params.as_json())
        }
        Ask::Syntax(file) => syntax_of(alloc, snapshot, *file),
        Ask::Semantic(file) => semantic_of(alloc, snapshot, *file),
        Ask::Tests(file) => tests_of(alloc, snapshot, *file),
        Ask::CratesOf(file) => crates_of(alloc, snapshot, *file),
        Ask::Prime => Ok(Outcome::Value(Answer::Primed)),
    }
}

impl SmallAnalysis {
    /// Each one answers alike.
    pub fn new(alloc: Global) -> SmallAnalysis {
        SmallAnalysis { alloc }
    }
}

impl Analysis for SmallAnalysis {
    ghost decodes = { small_decodes };

    ghost answer = { small_answer };

    ghost server_info = { small_info };

    fn decodes(&self, row: RowId, params: &Json) -> bool {
        if is_hover(row) {
            uri_of(params).is_some() && position_of(params).is_some()
        } else if is_matching_brace(row) {
            uri_of(params).is_some() && has_positions(params)
        } else {
            true
        }
    }

    #[tactic(auto, unfolding(plain::specs::Plain::most_levels))]
    fn server_info(alloc: Global) -> Result<ServerInfo, AllocError> {
        let mut info = ServerInfo::new(alloc, "ra_serve", "1")?;
        info.capabilities
            .put(alloc, "hoverProvider", Json::from_bool(true))?;
        Ok(info)
    }

    /// Polls once, before its work.
    fn query<C: Cancel>(
        &self,
        snapshot: &GlobalStateSnapshot,
        ask: &Ask,
        cancel: &mut C,
    ) -> Result<Outcome, AllocError>
        requires usable { C.held cancel.old ≡ None }

        // Cancelled exactly where the poll gave a number, with that number.
        ensures outdated { IfOk result (λ outcome. outdated_by outcome ≡ C.held cancel.new) }
        ensures answers { let question = small_answer snapshot.now ask.now in
            IfOk result (Answers question (C.held cancel.new)) }
        ensures kind { IfOk result (IsOutcomeOf ask.now) }

        ensures once { Counts (C.polls cancel.old) (C.polls cancel.new) }
        ensures polled { OnOk result (HasPolled (C.polls cancel.old) (C.polls cancel.new)) }
        ensures key { C.key cancel.new ≡ C.key cancel.old }
        ensures floor_stays { C.floor cancel.new ≡ C.floor cancel.old }
    {
        match cancel.poll() {
            Some(saw) => Ok(Outcome::Cancelled { saw }),
            None => answer(self.alloc, snapshot, ask),
        }
    }
}
