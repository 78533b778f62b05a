// Jobs that run.
use super::fixtures::job_with;
use super::words::{number, result_text};
use analysis_host::{Cancel, Never};
use host_fakes::NullAnalysis;
use session_port::{Job, run_job};
use std::alloc::Global;
use std::test::Fail;
use test_support::{cut, expect_text};

/// Tells that revision 3 is there, from the poll with this number on.
#[derive(Drop)]
struct Third {
    from: u64,
    seen: bool,
    polls: u64,
}

impl Cancel for Third {
    ghost use Rattle.std.proofs.Common.{rules};
    ghost use Rattle.std.specs.Prelude.{[], None, Some, if◌then◌else◌};

    ghost key = { λ _. [] };

    ghost floor = { λ _. 2 };

    ghost held = { λ c. if c.seen then Some 3 else None };

    ghost polls = { λ c. c.polls };

    ghost above_floor = { Prim.search rules };

    fn poll(&mut self) -> Option<u64> {
        self.polls = self.polls.saturating_add(1);
        if self.polls < self.from {
            return None;
        }
        self.seen = true;
        Some(3)
    }

    fn held(&self) -> Option<u64> {
        if self.seen { Some(3) } else { None }
    }
}

/// What a job comes to where the poll with this number, and each after it, tells of a later revision. No poll has the number 0: then
/// no revision stops the job. The call claims nothing here, and runs only a job on the first revision for which the analysis is asked.
fn outcome_of(alloc: Global, job: &Job, from: u64) -> &'static str {
    if !job.kind.asks_analysis() || job.snapshot.revision() != 0 {
        return "none";
    }
    let outcome = if from == 0 {
        run_job(alloc, job, &NullAnalysis(alloc), &mut Never::new())
    } else {
        let mut third = Third {
            from,
            seen: false,
            polls: 0,
        };
        run_job(alloc, job, &NullAnalysis(alloc), &mut third)
    };
    let told = result_text(&outcome);
    drop(outcome);
    told
}

/// The same of a job of this kind. The one function that owns a job.
fn told_of(alloc: Global, word: &str, from: u64) -> &'static str {
    let Some(job) = job_with(alloc, 7, word) else {
        return "no job";
    };
    let told = outcome_of(alloc, &job, from);
    drop(job);
    told
}

/// Kinds of jobs, the polls from which on they are stopped, and what they come to. Each question polls once; a job that doesn't ask exactly
/// one polls before the first too, and behind each.
const JOBS: &str = "request, 0 > null
request, 1 > cancelled
request, 2 > null
part, 0 > null
syntax, 0 > two lists
semantic, 0 > two lists
tests, 0 > tests
indexed, 0 > roots
scope, 0 > roots
prime, 0 > primed
prime, 1 > cancelled
check, 0 > roots
check, 1 > cancelled
check, 2 > cancelled
check, 3 > cancelled
check, 4 > cancelled
check, 5 > cancelled
check, 6 > roots
no check, 0 > roots
no check, 1 > cancelled
no check, 2 > roots";

#[test]
fn jobs_run(rt: HostRuntime) -> Result<(), Fail> {
    for line in JOBS.lines() {
        let (word, rest) = cut(line, ", ");
        let (from, wanted) = cut(rest, " > ");
        expect_text(line, told_of(rt.alloc(), word, number(from)), wanted)?;
    }
    Ok(())
}
