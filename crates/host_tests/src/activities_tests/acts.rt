// Acts in words. Each answers none where memory runs out, or where no act has the word. The calls claim nothing here.
use activities::{Checks, Discovery, PrimeMsg, Priming, Telling, Tests, keep_prime_msg};
use docs_vfs::VfsPath;
use plain::{Items, Json, Text};
use project_model::{ProjectWorkspace, WorkspaceKind};
use ra_config::Config;
use ra_settings::LinkedProject;
use session_port::{CheckProgress, DiscoverArg, DiscoverMsg, TestMsg, TestOutput, TestState};
use small_project::workspaces_of;
use std::alloc::Global;
use test_support::cut;

/// Settings of a client that can open logs, with the root `/w`.
pub fn settings(alloc: Global, options: &str) -> Option<Config> {
    let params = format!(in alloc;
        "{{\"rootUri\":\"file:///w\",\"capabilities\":{{\"experimental\":{{\"openServerLogs\":true}}}},\"initializationOptions\":{options}}}"
    );
    let params = Json::read(alloc, params.ok()?.as_bytes()).ok()??;
    Config::from_initialize(alloc, &params, 4).ok()?.ok()
}

fn text(alloc: Global, text: &str) -> Option<Text> {
    Text::from_str(alloc, text).ok()
}

fn path(alloc: Global, text: &str) -> Option<VfsPath> {
    VfsPath::new(alloc, text).ok()?
}

fn number(word: &str) -> u64 {
    word.parse::<u64>().unwrap_or(u64::MAX)
}

fn kind(word: &str) -> WorkspaceKind {
    match word {
        "cargo" => WorkspaceKind::Cargo,
        "json" => WorkspaceKind::Json,
        _ => WorkspaceKind::DetachedFile,
    }
}

// Workspaces of these kinds, in the folders `/cargo`, `/json` and so on.
fn workspaces(alloc: Global, kinds: &str) -> Option<Items<ProjectWorkspace>> {
    let mut workspaces = Vec::new(alloc);
    for word in kinds.split(' ') {
        let manifest = format!(in alloc; "/{word}/Cargo.toml").ok()?;
        let mut projects = Items::new(alloc);
        projects
            .push(LinkedProject::ProjectManifest(path(alloc, manifest.as_str())?))
            .ok()?;
        for mut workspace in workspaces_of(alloc, projects.as_slice()).ok()?.into_vec() {
            workspace.kind = kind(word);
            workspaces.push(workspace).ok()?;
        }
    }
    Some(Items::from_vec(workspaces))
}

fn progress(alloc: Global, word: &str, more: &str) -> Option<CheckProgress> {
    match word {
        "start" => Some(CheckProgress::DidStart {
            command: text(alloc, more)?,
        }),
        "crate" => Some(CheckProgress::DidCheckCrate(text(alloc, more)?)),
        "stop" => Some(CheckProgress::DidCancel),
        "fail" => Some(CheckProgress::DidFailToRestart(text(alloc, more)?)),
        "finish" => Some(CheckProgress::DidFinish(if more == "" {
            Ok(())
        } else {
            Err(text(alloc, more)?)
        })),
        _ => None,
    }
}

// The ids of the checks, each as if it were cancelled.
fn ids(alloc: Global, checks: &Checks) -> Option<Items<Telling>> {
    let mut told = Items::new(alloc);
    for id in checks.ids().ok()?.as_slice() {
        told.push(Telling::CancelCheck(*id)).ok()?;
    }
    Some(told)
}

/// An act on checks.
pub fn check_act(
    alloc: Global,
    checks: &mut Checks,
    settings: &Config,
    word: &str,
    rest: &str,
) -> Option<Items<Telling>> {
    match word {
        "set" => {
            let present = workspaces(alloc, rest)?;
            checks.set_for(settings, present.as_slice()).ok()
        }
        "restart" => checks.restart_all().ok(),
        "save" => checks.restart_for(settings, path(alloc, rest)?).ok()?,
        "cancel" => checks.cancel_all().ok(),
        "ids" => ids(alloc, checks),
        "token" => checks.cancel(rest).ok(),
        _ => {
            let (id, more) = cut(rest, " ");
            let progress = progress(alloc, word, more)?;
            checks.take(settings, number(id), progress).ok()
        }
    }
}

fn test_output(alloc: Global, word: &str, rest: &str) -> Option<TestOutput> {
    let state = match word {
        "suite" => return Some(TestOutput::Suite),
        "finished" => return Some(TestOutput::Finished),
        "line" => {
            return Some(TestOutput::Custom {
                text: text(alloc, rest)?,
            });
        }
        "started" => TestState::Started,
        "ignored" => TestState::Ignored,
        "ok" => TestState::Ok,
        _ => TestState::Failed {
            stdout: text(alloc, word)?,
        },
    };
    Some(TestOutput::Test {
        name: text(alloc, rest)?,
        state,
    })
}

/// An act on the run of tests; messages are of the target `a-b-`.
pub fn test_act(
    alloc: Global,
    tests: &mut Tests,
    word: &str,
    rest: &str,
) -> Option<Items<Telling>> {
    match word {
        "run" => tests.run(None, None, rest.parse::<usize>().ok()?).ok(),
        "abort" => tests.abort().ok(),
        _ => {
            let target = text(alloc, "a-b-")?;
            let output = test_output(alloc, word, rest)?;
            tests.take(TestMsg { target, output }).ok()
        }
    }
}

fn discover_message(alloc: Global, word: &str, rest: &str) -> Option<DiscoverMsg> {
    match word {
        "progress" => Some(DiscoverMsg::Progress {
            message: text(alloc, rest)?,
        }),
        "finished" => Some(DiscoverMsg::Finished {
            project: Json::null(),
            buildfile: text(alloc, rest)?,
        }),
        "error" => {
            let (error, source) = cut(rest, ", ");
            Some(DiscoverMsg::Error {
                error: text(alloc, error)?,
                source: if source == "" {
                    None
                } else {
                    text(alloc, source)
                },
            })
        }
        _ => None,
    }
}

/// An act on discoveries, which are told under `L` where they are ordered.
pub fn discovery_act(
    alloc: Global,
    discovery: &mut Discovery,
    settings: &Config,
    word: &str,
    rest: &str,
) -> Option<Items<Telling>> {
    match word {
        "order" => discovery
            .order("L", DiscoverArg::Path(path(alloc, rest)?))
            .ok(),
        _ => {
            let message = discover_message(alloc, word, rest)?;
            discovery.take(settings, &message).ok()
        }
    }
}

fn prime_message(alloc: Global, words: &str) -> Option<PrimeMsg> {
    let (word, rest) = cut(words, " ");
    match word {
        "begin" => Some(PrimeMsg::Begin),
        "end" => Some(PrimeMsg::End { cancelled: false }),
        "cancelled" => Some(PrimeMsg::End { cancelled: true }),
        _ => {
            let (done, total) = cut(word, "/");
            let mut crates = Items::new(alloc);
            for name in rest.split(' ') {
                if name != "" {
                    crates.push(text(alloc, name)?).ok()?;
                }
            }
            Some(PrimeMsg::Report {
                done: number(done),
                total: number(total),
                crates,
            })
        }
    }
}

// The messages of a batch, as far as they are kept.
fn batch(alloc: Global, words: &str) -> Option<Items<PrimeMsg>> {
    let mut kept = Items::new(alloc);
    for message in words.split(", ") {
        keep_prime_msg(&mut kept, prime_message(alloc, message)?).ok()?;
    }
    Some(kept)
}

/// An act on priming. One that tells nothing answers no tellings; a start answers none where no job is due.
pub fn prime_act(
    alloc: Global,
    priming: &mut Priming,
    word: &str,
    rest: &str,
) -> Option<Items<Telling>> {
    let mut told = Items::new(alloc);
    match word {
        "ask" => priming.ask().ok()?,
        "start" => {
            if !priming.start() {
                return None;
            }
        }
        _ => {
            let batch = batch(alloc, rest)?;
            for message in batch.as_slice() {
                for telling in priming.take(message).ok()?.into_vec() {
                    told.push(telling).ok()?;
                }
            }
        }
    }
    Some(told)
}
