// What answers a question on a snapshot.
ghost use Rattle.std.specs.Prelude.{◌≡◌, ◌≤◌, Bool, true, None, IfOk, OnOk};
ghost use Rattle.plain.specs.Plain.{is_plain};
ghost use Rattle.serde_json.specs.Data.{Data, object};
ghost use Rattle.analysis_host.specs.Answers.{OutcomeSpec, Answers, IsOutcomeOf};
ghost use Rattle.analysis_host.specs.Polls.{HasPolled};
ghost use Rattle.analysis_host.specs.SnapshotData.{SnapshotData};
ghost use Rattle.analysis_host.specs.declared.ask.Ask.{Ask};
ghost use Rattle.analysis_host.specs.declared.server_info.ServerInfo.{ServerInfo};
ghost use Rattle.method_table.specs.declared.row_id.RowId.{RowId};

use crate::ask::{Ask, Outcome};
use crate::cancel::Cancel;
use crate::server_info::ServerInfo;
use crate::snapshot::GlobalStateSnapshot;
use method_table::RowId;
use plain::Json;
use std::alloc::{AllocError, Global};

/// An analysis. What it reads, answers and says of itself depends on its type alone: on the snapshot and the
/// question, and never on the value or on how a snapshot is kept.
pub trait Analysis: Drop {
    /// Whether a row's params can be read.
    ghost decodes: { RowId → Data → Bool };

    /// What a question on a snapshot comes to.
    ghost answer: { SnapshotData → Ask → OutcomeSpec };

    /// What the server says of itself.
    ghost server_info: { ServerInfo };

    /// Whether a row's params can be read.
    fn decodes(&self, row: RowId, params: &Json) -> bool
        ensures { result ≡ decodes row params.now };

    /// What the server says of itself, whichever value is asked.
    fn server_info(alloc: Global) -> Result<ServerInfo, AllocError>
        ensures value { IfOk result (λ info. info ≡ server_info) }
        // An answer can hold what it can do.
        ensures plain { IfOk result (λ info. is_plain (object info.capabilities) ≡ true) };

    /// What the question comes to, unless a poll says that it is out of date.
    fn query<C: Cancel>(
        &self,
        snapshot: &GlobalStateSnapshot,
        ask: &Ask,
        cancel: &mut C,
    ) -> Result<Outcome, AllocError>
        requires floor { snapshot.now.revision ≤ C.floor cancel.old }
        requires usable { C.held cancel.old ≡ None }

        // The answer or the fault of this question; cancelled only with the number that a poll of this call gave.
        ensures answers { IfOk result (Answers (answer snapshot.now ask.now) (C.held cancel.new)) }
        // Of the question's kind, and its values are plain.
        ensures kind { IfOk result (IsOutcomeOf ask.now) }

        ensures polled { OnOk result (HasPolled (C.polls cancel.old) (C.polls cancel.new)) }
        ensures key { C.key cancel.new ≡ C.key cancel.old }
        ensures floor_stays { C.floor cancel.new ≡ C.floor cancel.old };
}
