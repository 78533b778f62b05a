// A host that follows a script.
ghost use Rattle.std.specs.Prelude.{◌≡◌, ◌↔◌, true, false, Some, Err, IsTrue, IfOk, IsErrOf};
ghost use Rattle.session_port.specs.Honest.{IsHonest};
ghost use Rattle.host_fakes.specs.Memory.{after_call, IsFailing};
ghost use Rattle.session_port.specs.Record.{HasCause, AreRising, UnlessEnded, added, after_given, after_ok, after_order, gave, last_number, spawned, took};
ghost use Rattle.host_fakes.specs.Script.{IsNext, new_script, next_gift};

use crate::fail_plan::FailPlan;
use crate::queue::Queue;
use crate::script::{ScriptStep, coming};
use analysis_host::Analysis;
use inline_host::{NumberedJobs, RecordedCall};
use plain::Items;
use session_port::{Command, Host, HostError, HostEvent};
use std::alloc::{AllocError, Global};
use std::marker::Model;

/// Gives what its script says, keeps a record, and fails at the calls that are listed.
pub struct ScriptHost<'a, A> {
    alloc: Global,
    analysis: &'a A,
    steps: Queue<ScriptStep>,
    jobs: NumberedJobs,
    calls: Items<RecordedCall>,
    plan: FailPlan,
}

impl<'a, A: Drop> Drop for ScriptHost<'a, A> {
    fn drop(self) {
        let ScriptHost {
            alloc: _,
            analysis: _,
            steps: _,
            jobs: _,
            calls: _,
            plan: _,
        } = self;
    }
}

impl<'a, A> Model for ScriptHost<'a, A> {
    ghost use Rattle.inline_host.specs.Codes.{call_code};
    ghost use Rattle.host_fakes.specs.Codes.{script_code};
    ghost use Rattle.host_fakes.specs.Script.{ScriptData};
    ghost use Rattle.session_port.specs.contracts.command.Command as command;
    ghost use Rattle.session_port.specs.contracts.event.HostEvent as event;
    ghost use Rattle.session_port.specs.contracts.job.Job as job;
    ghost use Rattle.host_fakes.specs.contracts.script.ScriptStep as step;

    ghost Value = { ScriptData };

    ghost coded = { script_code job.the_row.coded step.the_row.coded (call_code event.the_row.coded command.the_row.coded) };

    ghost view = { λ h. record { out = h.jobs.out; last_job = h.jobs.last_job; steps = h.steps; calls = h.calls; plan = h.plan } };
}

impl<'a, A: Analysis> ScriptHost<'a, A> {
    /// The calls of `next` and `order` with these numbers, counted together from 1, will fail. Such a call takes no
    /// step and no command.
    pub fn new(
        alloc: Global,
        analysis: &'a A,
        steps: Items<ScriptStep>,
        fails: Items<u64>,
    ) -> Result<Self, AllocError>
        ensures { IfOk result (λ host. host ≡ new_script steps fails) }
    {
        Ok(ScriptHost {
            alloc,
            analysis,
            steps: Queue::new(steps),
            jobs: NumberedJobs::new(alloc),
            calls: Items::new(alloc),
            plan: FailPlan::new(fails),
        })
    }

    /// The calls so far that did not fail.
    pub fn calls(&self) -> &[RecordedCall]
        ensures { result.now ≡ self.now.calls }
    {
        self.calls.as_slice()
    }
}

impl<'a, A: Analysis> Host<A> for ScriptHost<'a, A> {
    ghost out = { λ h. h.out };

    ghost last_job = { λ h. h.last_job };

    ghost honest = { λ _. true };

    ghost faults = { λ h. h.plan.faults };

    ghost calls = { λ h. Some h.calls };

    ghost poisoned = { λ _. false };

    ghost origin = { λ _. tt };

    fn next(&mut self) -> Result<HostEvent, HostError>
        ensures usable { IfOk result (λ event. UnlessEnded event (false ≡ false)) }
        ensures out { self.new.out ≡ after_given result self.old.out }
        ensures last_job { self.new.last_job ≡ self.old.last_job }
        ensures honest { IfOk result (λ event. IsTrue true → IsHonest A.answer self.old.out event) }
        ensures calls { Some self.new.calls
            ≡ after_ok result (λ event. added (Some self.old.calls) (gave event)) (Some self.old.calls) }
        ensures cause { HasCause self.old.plan.faults self.new.plan.faults result }

        // What comes, and at which calls it fails.
        ensures next { IfOk result (λ event.
            IsNext A.answer (next_gift self.old.out self.old.steps) event self.new.steps) }
        ensures fails { (result ≡ Err HostError.Failed) ↔ IsFailing self.old.plan }
        ensures kept { IsErrOf result HostError.Failed → self.new.steps ≡ self.old.steps }
        ensures plan { self.new.plan ≡ after_call result self.old.plan }
    {
        if self.plan.count() {
            self.plan.fail();
            return Err(HostError::Failed);
        }
        let event = coming(self.alloc, &self.jobs.out, &mut self.steps, self.analysis)?;
        self.calls.push(RecordedCall::of_event(event.clone()?))?;
        self.jobs.let_go(&event);
        Ok(event)
    }

    fn order(&mut self, commands: Items<Command>) -> Result<(), HostError>
        requires rising { AreRising self.old.last_job (spawned commands) }
        ensures usable { IfOk result (λ _. false ≡ false) }
        ensures out { IfOk result (λ _. self.new.out ≡ after_order commands self.old.out) }
        ensures last_job { IfOk result (λ _. self.new.last_job
            ≡ last_number self.old.last_job (spawned commands)) }
        ensures calls { Some self.new.calls
            ≡ after_ok result (λ _. added (Some self.old.calls) (took commands)) (Some self.old.calls) }
        ensures cause { HasCause self.old.plan.faults self.new.plan.faults result }

        ensures steps { self.new.steps ≡ self.old.steps }
        ensures fails { (result ≡ Err HostError.Failed) ↔ IsFailing self.old.plan }
        ensures kept { IsErrOf result HostError.Failed → (self.new.out ≡ self.old.out)
            × (self.new.last_job ≡ self.old.last_job) }
        ensures plan { self.new.plan ≡ after_call result self.old.plan }
    {
        if self.plan.count() {
            self.plan.fail();
            return Err(HostError::Failed);
        }
        self.jobs.take(commands.as_slice())?;
        self.calls.push(RecordedCall::of_commands(commands))?;
        Ok(())
    }
}
