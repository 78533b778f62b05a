// An analysis that knows nothing.
use analysis_host::{
    Analysis, Answer, Ask, Cancel, GlobalStateSnapshot, Outcome, RowId, ServerInfo,
};
use plain::{Items, Json};
use std::alloc::{AllocError, Global};

/// Reads all params, answers null to every request, knows of no crate and no test, finds nothing wrong, and announces nothing.
#[derive(Drop)]
pub struct NullAnalysis(pub Global);

impl Analysis for NullAnalysis {
    ghost use Rattle.std.specs.Prelude.{true};
    ghost use Rattle.host_fakes.specs.Null.{null_answer, null_info};

    ghost decodes = { λ _ _. true };

    ghost answer = { λ _ ask. null_answer ask };

    ghost server_info = { null_info };

    fn decodes(&self, _row: RowId, _params: &Json) -> bool {
        true
    }

    #[tactic(auto, unfolding(plain::specs::Plain::most_levels))]
    fn server_info(alloc: Global) -> Result<ServerInfo, AllocError> {
        ServerInfo::new(alloc, "null", "1")
    }

    /// Polls once.
    fn query<C: Cancel>(
        &self,
        _snapshot: &GlobalStateSnapshot,
        ask: &Ask,
        cancel: &mut C,
    ) -> Result<Outcome, AllocError> {
        if let Some(saw) = cancel.poll() {
            return Ok(Outcome::Cancelled { saw });
        }
        Ok(Outcome::Value(match ask {
            Ask::Request { .. } | Ask::Part { .. } => Answer::Json(Json::null()),
            Ask::Syntax(_) | Ask::Semantic(_) => Answer::Diagnostics(Items::new(self.0)),
            Ask::Tests(_) => Answer::Tests(Items::new(self.0)),
            Ask::CratesOf(_) => Answer::Roots(Items::new(self.0)),
            Ask::Prime => Answer::Primed,
        }))
    }
}
