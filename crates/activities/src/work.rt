// The host's own jobs, and crate data that is built.
ghost use Rattle.std.specs.Prelude.{◌≡◌, IfOk};
ghost use Rattle.std.specs.Option.{option_copied};
ghost use Rattle.activities.specs.Work.{body_told, graph_told, title_of, told_under, job_told};

use crate::telling::{Telling, one};
use plain::{Items, NoMemory, Text};
use session_port::{Job, JobGroup, TaskBody};
use std::alloc::Global;

// The title of a job of the host's own.
fn title_of(group: JobGroup) -> Option<&'static str>
    ensures { option_copied result ≡ title_of group }
{
    match group {
        JobGroup::Fetches => Some("Fetching"),
        JobGroup::Builds => Some("Building compile-time-deps"),
        JobGroup::Loads => Some("Loading proc-macros"),
        _ => None,
    }
}

fn body_told(alloc: Global, title: &str, body: &TaskBody) -> Result<Items<Telling>, NoMemory>
    ensures { IfOk result (λ tellings. tellings ≡ body_told title.now body.now) }
{
    let title = Text::from_str(alloc, title)?;
    match body {
        TaskBody::Begin => one(
            alloc,
            Telling::Begin {
                title,
                token: None,
                message: None,
                percentage: None,
            },
        ),
        TaskBody::Report(text) => one(
            alloc,
            Telling::Report {
                title,
                token: None,
                message: Some(text.clone()?),
                percentage: None,
            },
        ),
        TaskBody::PrimeReport { .. } => Ok(Items::new(alloc)),
        TaskBody::Final(_) => one(
            alloc,
            Telling::End {
                title,
                token: None,
                message: None,
            },
        ),
    }
}

fn told_under(
    alloc: Global,
    title: Option<&str>,
    body: &TaskBody,
) -> Result<Items<Telling>, NoMemory>
    ensures { IfOk result (λ tellings. tellings ≡ told_under (option_copied title.entry) body.now) }
{
    match title {
        None => Ok(Items::new(alloc)),
        Some(title) => body_told(alloc, title, body),
    }
}

/// What a message tells that fits this job, if it fits one.
pub fn job_told(
    alloc: Global,
    body: &TaskBody,
    job: Option<&Job>,
) -> Result<Items<Telling>, NoMemory>
    ensures { IfOk result (λ tellings. tellings ≡ job_told body.now (option_copied job.entry)) }
{
    match job {
        None => Ok(Items::new(alloc)),
        Some(job) => told_under(alloc, title_of(job.kind.facts().group), body),
    }
}

/// What is told where crate data is built.
pub fn graph_told(alloc: Global) -> Result<Items<Telling>, NoMemory>
    ensures { IfOk result (λ tellings. tellings ≡ graph_told) }
{
    let mut tellings = Items::new(alloc);
    tellings.push(Telling::Begin {
        title: Text::from_str(alloc, "Building CrateGraph")?,
        token: None,
        message: None,
        percentage: None,
    })?;
    tellings.push(Telling::End {
        title: Text::from_str(alloc, "Building CrateGraph")?,
        token: None,
        message: None,
    })?;
    Ok(tellings)
}
