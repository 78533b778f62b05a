// Which jobs start, in which order they come back, and what stops them.
ghost use Rattle.std.specs.Prelude.{◌≡◌, false, IfOk};

use crate::flags::Flag;
use crate::gated::Gated;
use crate::hosts::{host, order, spawn, told};
use crate::jobs::{build_job, job};
use crate::sources::SilentSource;
use method_table::{CODE_LENS_RESOLVE, COMPLETION, FORMATTING, HOVER, PoolClass};
use plain::Items;
use session_port::Command;
use std::alloc::Global;
use std::sync::Wait;
use std::test::Fail;
use std::thread::Threads;
use task_pool::ThreadedHost;
use test_support::{expect, expect_text};

/// A host that reads nothing.
type Pool<R> = ThreadedHost<R, SilentSource, Gated>;

/// What four jobs for two threads, one of them for formatting, come back as. The first is a hover,
/// which holds its thread until the flag is raised, once the first event is there.
fn order_of_four<R: Threads + Wait + 'static>(
    alloc: Global,
    pool: &mut Pool<R>,
    flag: &Flag,
) -> Result<String, Fail>
    requires usable { pool.old.poisoned ≡ false }
    requires unused { pool.old.last_job ≡ 0 }
{
    spawn(pool, job(alloc, 1, PoolClass::Worker, HOVER)?)?;
    spawn(pool, job(alloc, 2, PoolClass::Worker, COMPLETION)?)?;
    spawn(pool, job(alloc, 3, PoolClass::Latency, COMPLETION)?)?;
    spawn(pool, job(alloc, 4, PoolClass::Formatting, FORMATTING)?)?;
    let waiting = pool.len();
    let first = told(pool, alloc)?;
    flag.raise();
    let second = told(pool, alloc)?;
    let third = told(pool, alloc)?;
    let last = told(pool, alloc)?;
    Ok(format!(in alloc;
        "{waiting} wait: {first}, {second}, {third}, {last}; {} wait",
        pool.len()
    )?)
}

/// A job of formatting comes back while the one thread is held by the first, and behind that one
/// latency comes before what came earlier.
#[test]
fn latency_before_worker_and_formatting_meanwhile(rt: HostRuntime) -> Result<(), Fail> {
    let alloc = rt.alloc();
    let (flag, end) = (Flag::new(alloc)?, Flag::new(alloc)?);
    let mut pool = host(rt, alloc, 1, SilentSource { end: end.again()? }, &flag)?;
    let order = order_of_four(alloc, &mut pool, &flag);
    flag.raise();
    end.raise();
    let finished = pool.finish();
    expect_text(
        "four jobs",
        order?.as_str(),
        "2 wait: 4 value, 1 value, 3 value, 2 value; 0 wait",
    )?;
    expect("no bytes", finished.posted == 0 && finished.taken == 0)
}

/// What a job comes back as that polls until a later revision is there, which is then ordered.
fn outdated<R: Threads + Wait + 'static>(alloc: Global, pool: &mut Pool<R>) -> Result<String, Fail>
    requires usable { pool.old.poisoned ≡ false }
    requires unused { pool.old.last_job ≡ 0 }
{
    spawn(pool, job(alloc, 1, PoolClass::Worker, CODE_LENS_RESOLVE)?)?;
    order(pool, alloc, Command::Revise(1))?;
    told(pool, alloc)
}

#[test]
fn a_later_revision_cancels(rt: HostRuntime) -> Result<(), Fail> {
    let alloc = rt.alloc();
    let (flag, end) = (Flag::new(alloc)?, Flag::new(alloc)?);
    let mut pool = host(rt, alloc, 2, SilentSource { end: end.again()? }, &flag)?;
    let told = outdated(alloc, &mut pool);
    end.raise();
    drop(pool.finish());
    expect_text("a job", told?.as_str(), "1 cancelled")
}

/// What comes while nothing is read: a job of the host's own, then the answers to orders, the
/// loader's before the newest timer.
fn answers<R: Threads + Wait + 'static>(alloc: Global, pool: &mut Pool<R>) -> Result<String, Fail>
    requires usable { pool.old.poisoned ≡ false }
    requires unused { pool.old.last_job ≡ 0 }
{
    spawn(pool, build_job(alloc, 1)?)?;
    let own = told(pool, alloc)?;
    order(pool, alloc, Command::Timer(5))?;
    order(pool, alloc, Command::Timer(7))?;
    let load = Items::new(alloc);
    order(
        pool,
        alloc,
        Command::SetLoader {
            load,
            watch: false,
            version: 3,
        },
    )?;
    let first = told(pool, alloc)?;
    let second = told(pool, alloc)?;
    Ok(format!(in alloc; "{own}, {first}, {second}")?)
}

#[test]
fn jobs_of_the_host_and_orders_are_answered(rt: HostRuntime) -> Result<(), Fail> {
    let alloc = rt.alloc();
    let (flag, end) = (Flag::new(alloc)?, Flag::new(alloc)?);
    let mut pool = host(rt, alloc, 2, SilentSource { end: end.again()? }, &flag)?;
    let told = answers(alloc, &mut pool);
    let calls = pool.calls().map(|calls| calls.len());
    end.raise();
    drop(pool.finish());
    expect_text("answers", told?.as_str(), "1 value, loader, timer 7")?;
    expect("each call is recorded", calls == Some(6))
}
