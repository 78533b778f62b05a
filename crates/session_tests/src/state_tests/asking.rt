// Rows: some events in words, a `>`, and what comes of the last of them. Each call that answers an option answers none also where
// memory runs out.
use super::clients::params_of;
use docs_vfs::VfsPath;
use plain::Json;
use ra_config::Config;
use session_model::Counters;
use session_state::GlobalState;
use std::alloc::Global;
use std::test::Fail;
use test_support::{cut, expect_text};

/// What is told of events in words: a session. To what is generic over it it has no fields, so that its owner is quick to prove.
pub trait Told: Drop {
    /// What comes of an event, in words; none where these are the words of none.
    fn told(&mut self, alloc: Global, event: &str) -> Option<String>;
}

/// What comes of the last of some events. A turn that is broken off is the last.
fn last_of<S: Told>(alloc: Global, session: &mut S, events: &str) -> Option<String> {
    let mut last = String::new(alloc);
    for event in events.split(" then ") {
        last = session.told(alloc, event)?;
        if last.as_str().starts_with("no more ") {
            return Some(last);
        }
    }
    Some(last)
}

/// What a session, if it was made, does at the last of some events.
fn played<S: Told, E: Drop>(alloc: Global, made: Result<S, E>, events: &str) -> Option<String> {
    let mut session = made.ok()?;
    let last = last_of(alloc, &mut session, events);
    drop(session);
    last
}

/// A value of which both what reads and what is read may fail.
fn both_well<T: Drop, E: Drop, F: Drop>(made: Result<Result<T, E>, F>) -> Option<T> {
    made.ok()?.ok()
}

/// The settings of a client with these params of `initialize`.
fn settings_by(alloc: Global, params: &str) -> Option<Config> {
    let params = Json::read(alloc, params.as_bytes()).ok()??;
    let made = Config::from_initialize(alloc, &params, 4);
    drop(params);
    both_well(made)
}

/// The settings of the client of this name; without one those with the one workspace `/w`.
pub fn settings(alloc: Global, client: &str) -> Option<Config> {
    match client {
        "" => Config::new(alloc, VfsPath::new(alloc, "/w").ok()??, 4).ok(),
        client => settings_by(alloc, params_of(client)),
    }
}

const NONE_USED: Counters = Counters {
    turns: 0,
    jobs: 0,
    revisions: 0,
    outgoing: 0,
    discoveries: 0,
    files: 0,
    loader_settings: 0,
};

/// The counters of which all is left, or of which one or none is left of the one that is named: `all`, `one of jobs`, `none of jobs`.
fn counters(left: &str) -> Option<Counters> {
    let (amount, counter) = cut(left, " of ");
    let (long, outgoing, short) = match amount {
        "all" => (0, 0, 0),
        "one" => (18_446_744_073_709_551_614, 2_147_483_647, 4_294_967_294),
        "none" => (18_446_744_073_709_551_615, 2_147_483_648, 4_294_967_295),
        _ => return None,
    };
    match counter {
        "" => Some(NONE_USED),
        "turns" => Some(Counters {
            turns: long,
            ..NONE_USED
        }),
        "jobs" => Some(Counters {
            jobs: long,
            ..NONE_USED
        }),
        "revisions" => Some(Counters {
            revisions: long,
            ..NONE_USED
        }),
        "outgoing" => Some(Counters {
            outgoing,
            ..NONE_USED
        }),
        "files" => Some(Counters {
            files: short,
            ..NONE_USED
        }),
        "loader settings" => Some(Counters {
            loader_settings: short,
            ..NONE_USED
        }),
        _ => None,
    }
}

/// What stands behind a word with which events begin, and the events behind it.
fn opening<'a>(events: &'a str, word: &str) -> (&'a str, &'a str) {
    match events.strip_prefix(word) {
        Some(rest) => cut(rest, " then "),
        None => ("", events),
    }
}

/// What a new session does at the last of some events. Before them may stand `as` with the name of its client, and then `left` with
/// what is left of the counters.
fn done(alloc: Global, words: &str) -> Option<String> {
    let (client, rest) = opening(words, "as ");
    let (left, events) = opening(rest, "left ");
    if left.is_empty() {
        return played(
            alloc,
            GlobalState::new(alloc, settings(alloc, client)?),
            events,
        );
    }
    let used = counters(left)?;
    if used.outgoing > 2_147_483_648 {
        return None;
    }
    played(
        alloc,
        GlobalState::new_at(alloc, settings(alloc, client)?, used),
        events,
    )
}

/// That a new session does this at the last of some events.
pub fn comes_to(alloc: Global, events: &str, wanted: &str) -> Result<(), Fail> {
    match done(alloc, events) {
        Some(found) => expect_text(events, found.as_str(), wanted),
        None => expect_text(events, "no such words, or no memory", wanted),
    }
}

/// That the last events of each row come to what stands behind its `>`, or to nothing where it has none.
pub fn agree(alloc: Global, rows: &str) -> Result<(), Fail> {
    for row in rows.lines() {
        let (events, wanted) = cut(row, " > ");
        comes_to(alloc, events, wanted)?;
    }
    Ok(())
}
