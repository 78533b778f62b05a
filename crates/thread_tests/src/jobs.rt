// Jobs, each on the first revision.
ghost use Rattle.std.specs.Prelude.{◌≡◌, IfOk};

use analysis_host::{GlobalStateSnapshot, RowId, SnapshotParts, Versions, World};
use docs_vfs::VfsPath;
use file_ids::FileIds;
use method_table::PoolClass;
use plain::{Items, Json, SharedJson};
use project_model::ProjectWorkspace;
use ra_config::Config;
use session_port::{Job, JobKind};
use std::alloc::Global;
use std::sync::Arc;
use std::test::Fail;

/// The settings with the one workspace `/w`.
fn settings(alloc: Global) -> Option<Arc<Config>> {
    let root = VfsPath::new(alloc, "/w").ok()??;
    Arc::new(alloc, Config::new(alloc, root, 4).ok()?).ok()
}

fn no_workspaces(alloc: Global) -> Option<Arc<Items<ProjectWorkspace>>> {
    Arc::new(alloc, Items::new(alloc)).ok()
}

/// The first revision, with nothing in it.
fn snapshot(alloc: Global) -> Option<GlobalStateSnapshot> {
    let texts = World::new(alloc).ok().zip(Versions::new(alloc).ok());
    let ((world, versions), (config, workspaces)) = texts.zip(settings(alloc).zip(no_workspaces(
        alloc,
    )))?;
    GlobalStateSnapshot::new(SnapshotParts {
        world,
        file_ids: FileIds::new(alloc),
        versions,
        config,
        check_fixes: Arc::new(alloc, Items::new(alloc)).ok()?,
        proc_macros_loaded: false,
        workspaces,
        workspaces_version: 0,
        revision: 0,
    })
    .ok()
}

fn job_of(alloc: Global, number: u64, class: PoolClass, kind: Option<JobKind>) -> Result<Job, Fail>
    ensures { IfOk result (λ job. job.number ≡ number) }
{
    let Some((kind, snapshot)) = kind.zip(snapshot(alloc)) else {
        return Err(Fail::from("no memory"));
    };
    Ok(Job {
        number,
        class,
        kind,
        snapshot,
    })
}

fn request(alloc: Global, ticket: u64, row: RowId) -> Option<JobKind> {
    let params = SharedJson::new(alloc, Json::null()).ok()?;
    Some(JobKind::Request {
        ticket,
        row,
        params,
    })
}

/// A job of this number and class for a request of this row.
pub fn job(alloc: Global, number: u64, class: PoolClass, row: RowId) -> Result<Job, Fail>
    ensures { IfOk result (λ job. job.number ≡ number) }
{
    job_of(alloc, number, class, request(alloc, number, row))
}

/// A job of the host's own.
pub fn build_job(alloc: Global, number: u64) -> Result<Job, Fail>
    ensures { IfOk result (λ job. job.number ≡ number) }
{
    let kind = JobKind::FetchBuildData { version: 0 };
    job_of(alloc, number, PoolClass::Worker, Some(kind))
}
