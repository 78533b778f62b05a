// The host, which gives events and takes commands; the sink of the written bytes; the source of the read ones.
ghost use Rattle.std.specs.Prelude.{◌≡◌, ◌≤◌, ℕ, List, Option, IfOk, OnErr, Bool, false, IsTrue};
ghost use Rattle.session_port.specs.Jobs.{Jobs};
ghost use Rattle.session_port.specs.Record.{HasCause, HostCall, IsPiece, AreRising, UnlessEnded, gave, took, last_number, added, after_ok, after_order, after_given, spawned};
ghost use Rattle.session_port.specs.Honest.{IsHonest};

use crate::cause::HostError;
use crate::command::Command;
use crate::event::HostEvent;
use analysis_host::Analysis;
use plain::{Bytes, Items};

/// What a session runs on. After an `Err`, and after the end, no call may be made.
pub trait Host<A: Analysis> {
    /// The jobs that were handed over and whose result was not given, by their numbers.
    ghost out: { Self → Jobs };

    /// The number of the last job that was handed over, 0 at first.
    ghost last_job: { Self → ℕ };

    /// Whether each result is its job's.
    ghost honest: { Self → Bool };

    /// How often the host has failed.
    ghost faults: { Self → ℕ };

    /// The calls so far that were no `Err`, in their order: the events given and the commands taken, if the host tells.
    ghost calls: { Self → Option (List HostCall) };

    /// No call may be made any more.
    ghost poisoned: { Self → Bool };

    /// What no call changes, such as what a host was made of.
    ghost Origin: { Type 0 } = { Unit {0} };

    ghost origin: { Self → Self.Origin };

    /// The next event.
    fn next(&mut self) -> Result<HostEvent, HostError>
        requires usable { poisoned self.old ≡ false }
        ensures usable { IfOk result (λ event. UnlessEnded event (poisoned self.new ≡ false)) }
        ensures out { out self.new ≡ after_given result (out self.old) }
        ensures last_job { last_job self.new ≡ last_job self.old }
        ensures honest_stays { honest self.new ≡ honest self.old }
        ensures origin_stays { Self.origin self.new ≡ Self.origin self.old }
        ensures honest { IfOk result (λ event. IsTrue (honest self.old) → IsHonest A.answer (out self.old) event) }
        ensures calls { calls self.new ≡ after_ok result (λ event. added (calls self.old) (gave event)) (calls self.old) }
        ensures cause { HasCause (faults self.old) (faults self.new) result };

    /// Takes a turn's commands.
    fn order(&mut self, commands: Items<Command>) -> Result<(), HostError>
        requires usable { poisoned self.old ≡ false }
        requires rising { AreRising (last_job self.old) (spawned commands) }
        ensures usable { IfOk result (λ _. poisoned self.new ≡ false) }
        ensures out { IfOk result (λ _. out self.new ≡ after_order commands (out self.old)) }
        ensures last_job { IfOk result (λ _. last_job self.new ≡ last_number (last_job self.old) (spawned commands)) }
        ensures honest_stays { honest self.new ≡ honest self.old }
        ensures origin_stays { Self.origin self.new ≡ Self.origin self.old }
        ensures calls { calls self.new ≡ after_ok result (λ _. added (calls self.old) (took commands)) (calls self.old) }
        ensures cause { HasCause (faults self.old) (faults self.new) result };
}

/// Where turns are written. After an `Err` no call may be made.
pub trait Sink {
    /// The bytes of each turn so far, if the sink tells.
    ghost turns: { Self → Option (List (List ℕ)) };

    /// How often the sink has failed.
    ghost faults: { Self → ℕ };

    /// No call may be made any more.
    ghost poisoned: { Self → Bool };

    /// Writes a turn. After an `Err` a prefix of it may stand after the whole turns.
    fn put_turn(&mut self, bytes: &[u8]) -> Result<(), HostError>
        requires usable { poisoned self.old ≡ false }
        ensures usable { IfOk result (λ _. poisoned self.new ≡ false) }
        ensures turns { turns self.new ≡ after_ok result (λ _. added (turns self.old) bytes.now) (turns self.old) }
        ensures cause { HasCause (faults self.old) (faults self.new) result };
}

/// Where bytes come from. After an `Err` no call may be made.
pub trait Source: Drop {
    /// The bytes that are left, if the source tells.
    ghost left: { Self → Option (List ℕ) };

    /// How often the source has failed.
    ghost faults: { Self → ℕ };

    /// No call may be made any more.
    ghost poisoned: { Self → Bool };

    /// The next piece, of at most `max` bytes, or the end. A failure takes nothing.
    fn read_piece(&mut self, max: usize) -> Result<Option<Bytes>, HostError>
        requires some { 1 ≤ max }
        requires usable { poisoned self.old ≡ false }
        ensures usable { IfOk result (λ _. poisoned self.new ≡ false) }
        ensures piece { IfOk result (IsPiece max (left self.old) (left self.new)) }
        ensures kept { OnErr result (left self.new ≡ left self.old) }
        ensures cause { HasCause (faults self.old) (faults self.new) result };
}
