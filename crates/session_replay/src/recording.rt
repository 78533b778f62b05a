// A session that is recorded.
ghost use Rattle.std.specs.Prelude.{◌≡◌, ℕ, List, Option, false, Err, IfOk, IfErr};
ghost use Rattle.std.specs.FinMap as map;
ghost use Rattle.session_port.specs.Record.{Rose};
ghost use Rattle.session_laws.specs.Meaning.{meaning_of};
ghost use Rattle.session_laws.specs.Run.{told_of};
ghost use Rattle.session_laws.specs.SessionError.TheVariants.{HostFault, WriteFault};
ghost use Rattle.session_replay.specs.declared.error.ReplayError.TheVariants.{Session};
ghost use Rattle.session_port.specs.Record.{added, after_ok};
ghost use Rattle.ra_config.specs.Config.{config_at};
ghost use Rattle.session_record.specs.declared.start.StartConfig.TheVariants.{New};
ghost use Rattle.session_port.specs.Record.{HostCall};
ghost use Rattle.session_record.specs.Since.{Records as KeepsCalls};
ghost use Rattle.session_record.specs.declared.start.StartConfig.{StartConfig as Start};
ghost use Rattle.session_replay.specs.Recording.{IsWriteError, KeepsRecord, RecordsSession};

use crate::error::ReplayError;
use crate::silent_sink::SilentSink;
use analysis_host::Analysis;
use docs_vfs::VfsPath;
use plain::NoMemory;
use ra_config::Config;
use session::{SessionError, main_loop};
use session_port::{Host, HostError, Sink};
use session_record::{Beginning, RecordFault, Recorder, Recording, StartConfig};
use std::alloc::Global;
use std::marker::Brand;

/// Writes a text as one turn.
pub fn put_text<S: Sink>(bytes: &[u8], sink: &mut S) -> Result<(), ReplayError>
    requires usable { S.poisoned sink.old ≡ false }
    ensures turns { S.turns sink.new ≡ after_ok result (λ _. added (S.turns sink.old) bytes.now) (S.turns sink.old) }
    ensures err { IfErr result (IsWriteError (Rose (S.faults sink.old) (S.faults sink.new))) }
{
    match sink.put_turn(bytes) {
        Ok(()) => Ok(()),
        Err(HostError::Failed) => Err(ReplayError::Session(SessionError::WriteFault)),
        Err(HostError::NoMemory) => Err(ReplayError::Session(SessionError::NoMemory)),
    }
}

// The same of a session that begins so, with these settings.
fn record_by<H: Host<A>, S: Sink, A: Analysis, B: Beginning>(
    alloc: Global,
    begin: &StartConfig,
    config: Config,
    host: &mut H,
    sink: &mut S,
    analysis: &A,
) -> Result<(), ReplayError>
    requires idle { H.out host.old ≡ map.empty }
    requires unused { H.last_job host.old ≡ 0 }
    requires host_usable { H.poisoned host.old ≡ false }
    requires sink_usable { S.poisoned sink.old ≡ false }
    requires begins { begin.now ≡ B.config }
    requires calls { H.calls host.old ≡ B.calls }
    ensures records { RecordsSession (meaning_of A.decodes A.answer) B.config config (told_of (H.calls host.old) (S.turns sink.old)) (told_of (H.calls host.new) (S.turns sink.new)) (H.honest host.old) (Rose (H.faults host.old) (H.faults host.new)) (Rose (S.faults sink.old) (S.faults sink.new)) result }
    ensures host_fault { result ≡ Err (Session HostFault) → Rose (H.faults host.old) (H.faults host.new) }
    ensures write_fault { result ≡ Err (Session WriteFault) → Rose (S.faults sink.old) (S.faults sink.new) }
{
    let mut recording = match Recording::new(alloc, begin) {
        Ok(recording) => recording,
        Err(_) => return Err(ReplayError::Session(SessionError::NoMemory)),
    };
    let mut recorder = Recorder::<A, H, B>::new(host, &mut recording);
    let mut silent = SilentSink {};
    match main_loop(alloc, config, &mut recorder, &mut silent, analysis) {
        Ok(()) => write_record(recording, sink),
        Err(error) => Err(ReplayError::Session(error)),
    }
}

// Writes the record, if there is one.
fn write_record<S: Sink>(recording: Recording, sink: &mut S) -> Result<(), ReplayError>
    requires usable { S.poisoned sink.old ≡ false }
    ensures { (begin : Start) (old new : Option (List HostCall)) → KeepsCalls begin old new recording
        → KeepsRecord begin (told_of old (S.turns sink.old)) (told_of new (S.turns sink.new)) (Rose (S.faults sink.old) (S.faults sink.new)) result }
{
    match recording.finish() {
        Ok(bytes) => put_text(&bytes, sink),
        Err(RecordFault::NoMemory) => Err(ReplayError::Session(SessionError::NoMemory)),
        Err(RecordFault::BadRecord | RecordFault::Unrecordable { .. }) => Err(
            ReplayError::Unrecordable,
        ),
    }
}

// The settings of a session with this root, and how its record says that it begins.
fn begin_at(alloc: Global, root: VfsPath, threads: u32) -> Result<(Config, StartConfig), NoMemory>
    ensures { IfOk result (λ x. (x.0 ≡ config_at root threads) × (x.1 ≡ New root threads)) }
{
    let config = Config::new(alloc, root.clone()?, threads)?;
    Ok((config, StartConfig::New { root, threads }))
}

/// Runs a session over the host, and keeps nothing of what it writes. Where it ends by `exit`, its record is written by one
/// turn: how it began, and the events that the host gave.
pub fn record<H: Host<A>, S: Sink, A: Analysis>(
    alloc: Global,
    root: VfsPath,
    threads: u32,
    host: &mut H,
    sink: &mut S,
    analysis: &A,
) -> Result<(), ReplayError>
    // No job was handed to the host before.
    requires idle { H.out host.old ≡ map.empty }
    requires unused { H.last_job host.old ≡ 0 }
    requires host_usable { H.poisoned host.old ≡ false }
    requires sink_usable { S.poisoned sink.old ≡ false }

    // A session is run, with all that is promised of one. Where it ends by `exit`, the one string that is written is the record
    // of the events that the host gave.
    ensures records { RecordsSession (meaning_of A.decodes A.answer) (New root threads) (config_at root threads) (told_of (H.calls host.old) (S.turns sink.old)) (told_of (H.calls host.new) (S.turns sink.new)) (H.honest host.old) (Rose (H.faults host.old) (H.faults host.new)) (Rose (S.faults sink.old) (S.faults sink.new)) result }

    ensures host_fault { result ≡ Err (Session HostFault) → Rose (H.faults host.old) (H.faults host.new) }
    ensures write_fault { result ≡ Err (Session WriteFault) → Rose (S.faults sink.old) (S.faults sink.new) }
{
    match begin_at(alloc, root, threads) {
        Ok((config, begin)) => record_by::<H, S, A, Brand>(
            alloc, &begin, config, host, sink, analysis,
        ),
        Err(_) => Err(ReplayError::Session(SessionError::NoMemory)),
    }
}
