// Acts on each part, one after another, and what is told of each.
use super::acts::{check_act, discovery_act, prime_act, settings, test_act};
use super::tellings::words_of;
use activities::{Activities, Discovery, Priming, Telling, Tests};
use plain::Items;
use ra_config::Config;
use std::alloc::Global;
use std::test::Fail;
use test_support::{cut, expect_text};

/// The checks are of a project in JSON, of one of cargo and of a file that stands alone, then of two of cargo, then one for all.
const CHECKS: &str = "set json cargo file > set 1/cargo
crate 0 early > report cargo check under rust-analyzer/flycheck/0: early
start 0 cargo x > begin cargo x under rust-analyzer/flycheck/0
crate 0 c > report cargo x under rust-analyzer/flycheck/0: c
finish 0 > end cargo x under rust-analyzer/flycheck/0
fail 1 no > 
save /w/a.rs > nothing answered
token rust-analyzer/flycheck/+01 > cancel 1
token rust-analyzer/flycheck/0 > 
token rust-analyzer/flycheck/4294967297 > 
token 1 > 
settings {\"check\":{\"overrideCommand\":[\"run\",\"it\"]}} > 
set json cargo file > set 0/json 1/cargo
stop 0 > end run it (#1) under rust-analyzer/flycheck/0
start 18446744073709551615 x > begin x (#18446744073709551616) under rust-analyzer/flycheck/18446744073709551615
restart > restart 0 all; restart 1 all
cancel > cancel 0; cancel 1
ids > cancel 0; cancel 1
settings {\"check\":{\"invocationStrategy\":\"once\",\"command\":\"clippy\"}} > 
set json cargo file > set 0/w
finish 0 bad > end cargo clippy under rust-analyzer/flycheck/0
save /w/a.rs > restart 0 /w/a.rs";

const TESTS: &str = "finished > ended
abort > 
run 2 > run
started m::n > a_b_::m::n started
out m::n > a_b_::m::n out
ignored x > a_b_::x skipped
ok x > a_b_::x passed
suite > 
line text > output text
finished > 
finished > ended
finished > ended
run 2 > run
run 1 > ended; stop; run
run 0 > ended; stop
run 2 > run
abort > ended; stop
finished > 
finished > ended";

const DISCOVERIES: &str = "progress x > log no settings
error no, src > log no settings
settings {\"workspace\":{\"discoverConfig\":{\"command\":[],\"progressLabel\":\"L\",\"filesToWatch\":[]}}} > 
progress early > 
order /w/a.rs > begin L; discover /w/a.rs
order /w/b.rs > discover /w/b.rs
progress p > report L: p
error no > log discovery no; show Project discovery failed: no
finished /w/BUCK > end L
finished /w/BUCK > end L
error no, src > log discovery no src; ask Project discovery failed: no; end L: Project discovery failed: no
progress late > ";

const PRIMING: &str = "start > nothing answered
ask > 
start > 
ask > 
start > nothing answered
batch begin, 1/4 a, 2/4 a b c, begin, 9/4, cancelled > begin Indexing under rustAnalyzer/cachePriming at 0; \
report Indexing under rustAnalyzer/cachePriming: 2/4 (a + 2 more) at 50; begin Indexing under rustAnalyzer/cachePriming at 0; \
report Indexing under rustAnalyzer/cachePriming at 100; end Indexing under rustAnalyzer/cachePriming
start > 
batch 1/3 a, end > report Indexing under rustAnalyzer/cachePriming: 1/3 (a) at 33; end Indexing under rustAnalyzer/cachePriming
start > nothing answered";

/// A part, with the settings that its acts ask.
trait Part {
    /// What is told of an act.
    fn told(&mut self, alloc: Global, word: &str, rest: &str) -> Option<Items<Telling>>;
}

#[derive(Drop)]
struct Checking {
    activities: Activities,
    settings: Option<Config>,
}

impl Part for Checking {
    fn told(&mut self, alloc: Global, word: &str, rest: &str) -> Option<Items<Telling>> {
        if word == "settings" {
            self.settings = settings(alloc, rest);
            return Some(Items::new(alloc));
        }
        check_act(
            alloc,
            &mut self.activities.checks,
            self.settings.as_ref()?,
            word,
            rest,
        )
    }
}

#[derive(Drop)]
struct Discovering {
    discovery: Discovery,
    settings: Option<Config>,
}

impl Part for Discovering {
    fn told(&mut self, alloc: Global, word: &str, rest: &str) -> Option<Items<Telling>> {
        if word == "settings" {
            self.settings = settings(alloc, rest);
            return Some(Items::new(alloc));
        }
        discovery_act(
            alloc,
            &mut self.discovery,
            self.settings.as_ref()?,
            word,
            rest,
        )
    }
}

impl Part for Tests {
    fn told(&mut self, alloc: Global, word: &str, rest: &str) -> Option<Items<Telling>> {
        test_act(alloc, self, word, rest)
    }
}

impl Part for Priming {
    fn told(&mut self, alloc: Global, word: &str, rest: &str) -> Option<Items<Telling>> {
        prime_act(alloc, self, word, rest)
    }
}

// Each line's act, and what is to be told of it.
fn follow<P: Part>(alloc: Global, part: &mut P, lines: &str) -> Result<(), Fail> {
    for line in lines.lines() {
        let (act, wanted) = cut(line, " > ");
        let (word, rest) = cut(act, " ");
        let told = words_of(alloc, part.told(alloc, word, rest));
        expect_text(line, told.as_str(), wanted)?;
    }
    Ok(())
}

#[test]
fn checks_are_told(rt: HostRuntime) -> Result<(), Fail> {
    let alloc = rt.alloc();
    let mut part = Checking {
        activities: Activities::new_at(alloc, 0),
        settings: settings(alloc, "{}"),
    };
    let followed = follow(alloc, &mut part, CHECKS);
    drop(part);
    followed
}

#[test]
fn a_run_of_tests_is_told(rt: HostRuntime) -> Result<(), Fail> {
    let mut tests = Tests::new(rt.alloc());
    let followed = follow(rt.alloc(), &mut tests, TESTS);
    drop(tests);
    followed
}

#[test]
fn discoveries_are_told(rt: HostRuntime) -> Result<(), Fail> {
    let alloc = rt.alloc();
    let mut part = Discovering {
        discovery: Discovery::new_at(alloc, 0),
        settings: settings(alloc, "{}"),
    };
    let followed = follow(alloc, &mut part, DISCOVERIES);
    drop(part);
    followed
}

#[test]
fn priming_is_told(rt: HostRuntime) -> Result<(), Fail> {
    let mut priming = Priming::new(rt.alloc());
    let followed = follow(rt.alloc(), &mut priming, PRIMING);
    drop(priming);
    followed
}
