ghost use Rattle.std.specs.Prelude.{◌≡◌, IfOk};
ghost use Rattle.method_table.specs.StateRequests.{request_of};

use crate::named::{REBUILD_PROC_MACROS, RELOAD_WORKSPACE, RUN_TEST, SHUTDOWN};
use crate::request::StateRequest;
use crate::row_id::RowId;
use crate::run_test::read_run_test;
use crate::unit::is_unit;
use plain::{Json, NoMemory};
use std::alloc::Global;

/// What a request of a row asks for, or none where its params are malformed or the row is none that changes the
/// session's own state.
pub fn read_state_request(
    alloc: Global,
    row: RowId,
    params: &Json,
) -> Result<Option<StateRequest>, NoMemory>
    ensures { IfOk result (λ request. request ≡ request_of row params.now) }
{
    if row == RUN_TEST {
        if !params.is_plain() {
            return Ok(None);
        }
        return Ok(read_run_test(alloc, params)?.map(StateRequest::RunTest));
    }
    if !is_unit(params) {
        return Ok(None);
    }
    Ok(match row {
        SHUTDOWN => Some(StateRequest::Shutdown),
        RELOAD_WORKSPACE => Some(StateRequest::ReloadWorkspace),
        REBUILD_PROC_MACROS => Some(StateRequest::RebuildProcMacros),
        _ => None,
    })
}
