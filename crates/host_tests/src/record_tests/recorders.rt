// What a recorder makes of events, beside what `encode` makes of them. Where memory runs out, less is told than a test wants.
ghost use Rattle.std.specs.Prelude.{◌≡◌, false, List, ◌++◌, Some, IfOk, IfErr};
ghost use Rattle.session_port.specs.Record.{HostCall, given_in};
ghost use Rattle.session_record.specs.Record.{IsRecordOf, Refuses};

use docs_vfs::VfsPath;
use host_fakes::{HostileHost, NullAnalysis};
use plain::{Bytes, Items, Json, Text};
use session_port::{
    CheckProgress, DeferredTask, DiscoverMsg, FlycheckMsg, Host, HostEvent, JobResult, JobValue,
    LoadedFile, LoaderMsg, TaskBody, TaskMsg, TestMsg, TestOutput,
};
use session_record::{Beginning, RecordFault, Recorder, Recording, StartConfig, encode};
use std::alloc::Global;
use std::marker::Brand;
use std::test::Fail;
use test_support::expect_text;

fn one<T: Drop>(alloc: Global, item: T) -> Items<T> {
    let mut items = Items::new(alloc);
    let _ = items.push(item);
    items
}

fn ended_by(alloc: Global, value: Json) -> HostEvent {
    HostEvent::Tasks(one(
        alloc,
        TaskMsg {
            job: 7,
            body: TaskBody::Final(JobResult::Value(JobValue::Json(value))),
        },
    ))
}

/// An event of the kind that a word names.
fn event_of(alloc: Global, word: &str) -> Option<HostEvent> {
    match word {
        "bytes" => Some(HostEvent::Bytes(Bytes::from_slice(alloc, b"ab").ok()?)),
        "json" => Some(ended_by(alloc, Json::null())),
        "float" => Some(ended_by(alloc, Json::read(alloc, b"1.5").ok()??)),
        "begun" => Some(HostEvent::Tasks(one(
            alloc,
            TaskMsg {
                job: 7,
                body: TaskBody::Begin,
            },
        ))),
        "deferred" => Some(HostEvent::DeferredTask(one(
            alloc,
            DeferredTask::CheckIfIndexed(VfsPath::new(alloc, "/a").ok()??),
        ))),
        "loader" => Some(HostEvent::Vfs(one(
            alloc,
            LoaderMsg::Loaded {
                files: one(
                    alloc,
                    LoadedFile {
                        path: VfsPath::new(alloc, "/a").ok()??,
                        contents: None,
                    },
                ),
            },
        ))),
        "check" => Some(HostEvent::Flycheck(one(
            alloc,
            FlycheckMsg::Progress {
                id: 1,
                progress: CheckProgress::DidCancel,
            },
        ))),
        "test" => Some(HostEvent::TestResult(one(
            alloc,
            TestMsg {
                target: Text::from_str(alloc, "t").ok()?,
                output: TestOutput::Suite,
            },
        ))),
        "discovery" => Some(HostEvent::DiscoverProject(one(
            alloc,
            DiscoverMsg::Progress {
                message: Text::from_str(alloc, "m").ok()?,
            },
        ))),
        "timer" => Some(HostEvent::Timer(5)),
        _ => Some(HostEvent::Ended),
    }
}

fn events_of(alloc: Global, words: &str) -> Items<HostEvent> {
    let mut events = Items::new(alloc);
    for word in words.split(' ') {
        if let Some(event) = event_of(alloc, word) {
            let _ = events.push(event);
        }
    }
    events
}

/// The root `/w`, and 4 threads.
fn beginning(alloc: Global) -> Option<StartConfig> {
    let root = VfsPath::new(alloc, "/w").ok()??;
    Some(StartConfig::New { root, threads: 4 })
}

/// Takes up to so many events, and tells of the host only what any host does.
fn take_events<H: Host<NullAnalysis>>(host: &mut H, count: usize)
    requires { H.poisoned host.old ≡ false }
    ensures { H.origin host.new ≡ H.origin host.old }
{
    for _ in 0..count {
        match host.next() {
            Ok(HostEvent::Ended) => return,
            Ok(_) => {}
            Err(_) => return,
        }
    }
}

/// The record of so many events of a host.
fn recorded_by<H: Host<NullAnalysis>, B: Beginning>(
    alloc: Global,
    host: &mut H,
    begin: &StartConfig,
    count: usize,
) -> Result<Vec<u8>, RecordFault>
    requires usable { H.poisoned host.old ≡ false }
    requires config { begin.now ≡ B.config }
    requires calls { H.calls host.old ≡ B.calls }
    ensures ok { (before calls : List HostCall) → B.calls ≡ Some before → H.calls host.new ≡ Some (before ++ calls)
        → IfOk result (λ v. IsRecordOf B.config (given_in calls) v.items) }
    ensures err { (before calls : List HostCall) → B.calls ≡ Some before → H.calls host.new ≡ Some (before ++ calls)
        → IfErr result (Refuses B.config (given_in calls)) }
{
    let mut recording = Recording::new(alloc, begin)?;
    let mut recorder = Recorder::<NullAnalysis, H, B>::new(host, &mut recording);
    take_events(&mut recorder, count);
    recording.finish()
}

/// The same, as a caller knows it that has the host alone.
fn recorded_of<H: Host<NullAnalysis>>(
    alloc: Global,
    host: &mut H,
    begin: &StartConfig,
    count: usize,
) -> Result<Vec<u8>, RecordFault>
    requires { H.poisoned host.old ≡ false }
    ensures ok { (before calls : List HostCall) → H.calls host.old ≡ Some before → H.calls host.new ≡ Some (before ++ calls)
        → IfOk result (λ v. IsRecordOf begin.now (given_in calls) v.items) }
    ensures err { (before calls : List HostCall) → H.calls host.old ≡ Some before → H.calls host.new ≡ Some (before ++ calls)
        → IfErr result (Refuses begin.now (given_in calls)) }
{
    recorded_by::<H, Brand>(alloc, host, begin, count)
}

/// The bytes behind those of the beginning, each as two digits, or why there is no record.
fn record_text(alloc: Global, record: Result<Vec<u8>, RecordFault>) -> String {
    let mut text = String::new(alloc);
    match record {
        Ok(bytes) => {
            for byte in bytes.iter().skip(19) {
                if let Ok(digits) = format!(in alloc; "{byte:02x}") {
                    let _ = text.push_str(digits.as_str());
                }
            }
        }
        Err(RecordFault::Unrecordable { event }) => {
            if let Ok(place) = format!(in alloc; "none by event {event}") {
                let _ = text.push_str(place.as_str());
            }
        }
        Err(RecordFault::BadRecord) => {
            let _ = text.push_str("bad");
        }
        Err(RecordFault::NoMemory) => {
            let _ = text.push_str("no memory");
        }
    }
    text
}

/// Kinds of events, and their bytes: of each event a byte 1, the number of its kind and its parts, last a byte 0.
const CASES: [(&str, &str); 12] = [
    ("ended", "010100"),
    ("bytes", "010002000000616200"),
    ("begun", "01020100000007000000000000000000"),
    (
        "json",
        "0102010000000700000000000000030000040000006e756c6c00",
    ),
    ("deferred", "01030100000000020000002f6100"),
    ("loader", "0104010000000101000000020000002f610000"),
    ("check", "0105010000000201000000000000000200"),
    ("test", "01060100000001000000740100"),
    ("discovery", "01070100000001010000006d00"),
    ("timer", "0108050000000000000000"),
    (
        "bytes timer ended",
        "010002000000616201080500000000000000010100",
    ),
    ("bytes timer float", "none by event 2"),
];

#[test]
fn a_recorder_makes_the_record_of_what_is_given(rt: HostRuntime) -> Result<(), Fail> {
    let begin = beginning(rt.alloc()).ok_or("a beginning")?;
    for (words, wanted) in CASES {
        let events = events_of(rt.alloc(), words);
        let encoded = record_text(rt.alloc(), encode(rt.alloc(), &begin, events.as_slice()));
        let count = events.len();
        let mut host = HostileHost::new(rt.alloc(), events);
        let recorded = record_text(
            rt.alloc(),
            recorded_of(rt.alloc(), &mut host, &begin, count),
        );
        expect_text(words, encoded.as_str(), wanted)?;
        expect_text(words, recorded.as_str(), wanted)?;
    }
    Ok(())
}
