// Laws of two runs over the same events, and of what a run has written.
ghost use Rattle.std.specs.Prelude.{◌≡◌, ◌<◌, ◌^◌, ◌++◌, ℕ, Bool, List, Option, map, Result, ⊤};
ghost use Rattle.lsp_frame.specs.Reader.{Reader};
ghost use Rattle.ra_config.specs.Config.{ConfigData};
ghost use Rattle.session_port.specs.Record.{given_in, grown};
ghost use Rattle.session_laws.specs.Course.{bytes_brought};
ghost use Rattle.session_laws.specs.Meaning.{Meaning};
ghost use Rattle.session_laws.specs.Run.{IsRun, Told, Turn, turn_bytes};
ghost use Rattle.session_laws.specs.SessionError.{SessionError};
ghost use Rattle.session_port.specs.Record.{HostCall, Rose};
ghost use Rattle.session_port.specs.declared.event.HostEvent.{HostEvent as Event};
ghost use Rattle.session_record.specs.declared.start.StartConfig.{StartConfig as Start};
ghost use Rattle.session_replay.specs.Replaying.{RunsAgain};
ghost use Rattle.session_replay.specs.declared.error.ReplayError.{ReplayError as Failure};
ghost use Rattle.session_replay.specs.Again.{GivesAgain, IsDecided, IsUndisturbed, ToldRun, written};

/// What a sink tells of a run is what it told before, and the bytes of each turn that the run has
/// written, the last one too where its commands weren't taken.
pub fn sinks_tell_what_was_written()
    ensures { (meaning : Meaning) (config : ConfigData) (reader : Reader) (old new : Told) (honest : Bool)
        (result : Result ⊤ SessionError) (run : IsRun meaning config reader old new honest result)
        → new.turns ≡ grown old.turns (map turn_bytes (written run)) }
{}

/// A second run over the events of a first one, which bring fewer bytes than can be counted, has
/// written the turns of the first run and may have written more, if memory didn't run out in it
/// and neither its host nor its sink failed. Where the events alone have decided how the first run
/// ended, the second one has written the same turns and has ended in the same way.
pub fn a_replay_repeats_the_run()
    ensures front { (meaning : Meaning) (config : ConfigData) (first second : Result ⊤ SessionError)
        (a : ToldRun meaning config first) (b : ToldRun meaning config second)
        → GivesAgain a.calls b.calls → bytes_brought (given_in a.calls) < 2 ^ 64 → IsUndisturbed second
        → (more : List Turn) × (written b.run ≡ written a.run ++ more) }
    ensures whole { (meaning : Meaning) (config : ConfigData) (first second : Result ⊤ SessionError)
        (a : ToldRun meaning config first) (b : ToldRun meaning config second)
        → GivesAgain a.calls b.calls → bytes_brought (given_in a.calls) < 2 ^ 64 → IsUndisturbed second
        → IsDecided first → (written b.run ≡ written a.run) × (second ≡ first) }
{}

/// So it is of a record: the session that was run again has written the turns of each run with its settings that had the
/// record's events, and the same turns and no more where the events alone have decided that run's end.
pub fn a_record_repeats_the_run()
    ensures front { (meaning : Meaning) (begin : Start) (events : List Event) (calls : List HostCall)
        (old new : Option (List (List ℕ))) (faults faults_now : ℕ) (replayed : Result ⊤ Failure)
        (again : RunsAgain meaning begin events calls old new (Rose faults faults_now) replayed)
        (first : Result ⊤ SessionError) (run : ToldRun meaning again.config first)
        → given_in run.calls ≡ events → bytes_brought events < 2 ^ 64 → IsUndisturbed again.outcome
        → (more : List Turn) × (written again.ran.run ≡ written run.run ++ more) }
    ensures whole { (meaning : Meaning) (begin : Start) (events : List Event) (calls : List HostCall)
        (old new : Option (List (List ℕ))) (faults faults_now : ℕ) (replayed : Result ⊤ Failure)
        (again : RunsAgain meaning begin events calls old new (Rose faults faults_now) replayed)
        (first : Result ⊤ SessionError) (run : ToldRun meaning again.config first)
        → given_in run.calls ≡ events → bytes_brought events < 2 ^ 64 → IsUndisturbed again.outcome → IsDecided first
        → (written again.ran.run ≡ written run.run) × (again.outcome ≡ first) }
{}
