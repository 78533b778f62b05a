// The run of tests.
ghost use Rattle.std.specs.Prelude.{◌≡◌, ◌++◌, map, IfOk, OnOk};
ghost use Rattle.activities.specs.TestRun.{no_tests, stops, aborted, run_asked, finished, report_of, underscored, test_id, output_told, test_told};
ghost use Rattle.activities.specs.Announced.{Announces};

use crate::telling::{Telling, one};
use notify::TestReport;
use plain::{Items, NoMemory, Text};
use session_port::{TestMsg, TestOutput, TestState};
use std::alloc::Global;
use std::marker::Model;

/// The run of tests: whether one is in progress, and how many of its programs have not ended.
pub struct Tests {
    alloc: Global,
    active: bool,
    remaining: usize,
}

impl Drop for Tests {
    fn drop(self) {
        let Tests {
            alloc: _,
            active: _,
            remaining: _,
        } = self;
    }
}

impl Model for Tests {
    ghost use Rattle.std.specs.Coded.{codes};
    ghost use Rattle.activities.specs.TestRun.{Tests};

    ghost Value = { Tests };

    ghost coded = { Prim.hlevel codes };

    ghost view = { λ t. record { active = t.active; remaining = t.remaining } };
}

fn report_of(state: TestState) -> TestReport
    ensures { result ≡ report_of state }
{
    match state {
        TestState::Started => TestReport::Started,
        TestState::Ignored => TestReport::Skipped,
        TestState::Ok => TestReport::Passed,
        TestState::Failed { stdout } => TestReport::Failed { message: stdout },
    }
}

// Adds a text, with `_` in the place of `-`.
fn push_underscored(text: &mut Text, more: &str) -> Result<(), NoMemory>
    ensures { OnOk result (text.new ≡ text.old ++ map underscored more.now) }
{
    let mut rest = more;
    while let Some((front, back)) = rest.split_once('-') {
        text.push_str(front)?;
        text.push_str("_")?;
        rest = back;
    }
    text.push_str(rest)
}

// The name of a test of a target.
fn test_id(alloc: Global, target: &str, name: &str) -> Result<Text, NoMemory>
    ensures { IfOk result (λ id. id ≡ test_id target.now name.now) }
{
    let mut id = Text::new(alloc);
    push_underscored(&mut id, target)?;
    id.push_str("::")?;
    id.push_str(name)?;
    Ok(id)
}

impl Tests {
    /// No run is in progress.
    pub fn new(alloc: Global) -> Tests
        ensures { result ≡ no_tests }
    {
        Tests {
            alloc,
            active: false,
            remaining: 0,
        }
    }

    /// Whether a run is in progress.
    pub fn is_active(&self) -> bool
        ensures { result ≡ self.now.active }
    {
        self.active
    }

    // What a run that is in progress is stopped by.
    fn stops(&self) -> Result<Items<Telling>, NoMemory>
        ensures { IfOk result (λ tellings. tellings ≡ stops self.now) }
    {
        let mut tellings = Items::new(self.alloc);
        if self.active {
            tellings.push(Telling::EndRunTest)?;
            tellings.push(Telling::StopTest)?;
        }
        Ok(tellings)
    }

    /// Ends a run that is in progress. After an `Err` of this and the other calls the run is only to be dropped.
    pub fn abort(&mut self) -> Result<Items<Telling>, NoMemory>
        ensures { Announces result (aborted self.old) self.new }
    {
        let tellings = self.stops()?;
        self.active = false;
        Ok(tellings)
    }

    /// A run is asked for: it ends the one before, and begins where there are so many workspaces, a program for each.
    pub fn run(
        &mut self,
        include: Option<Items<Text>>,
        exclude: Option<Items<Text>>,
        workspaces: usize,
    ) -> Result<Items<Telling>, NoMemory>
        ensures { Announces result (run_asked include exclude workspaces self.old) self.new }
    {
        if workspaces == 0 {
            return self.abort();
        }
        let mut tellings = self.stops()?;
        tellings.push(Telling::RunTest { include, exclude })?;
        self.active = true;
        self.remaining = workspaces;
        Ok(tellings)
    }

    // A program has ended, and so many are left.
    fn finish(&mut self, left: usize) -> Result<Items<Telling>, NoMemory>
        ensures { Announces result (finished left self.old) self.new }
    {
        self.remaining = left;
        if left == 0 {
            self.active = false;
            return one(self.alloc, Telling::EndRunTest);
        }
        Ok(Items::new(self.alloc))
    }

    /// A message of the run.
    pub fn take(&mut self, message: TestMsg) -> Result<Items<Telling>, NoMemory>
        ensures { Announces result (test_told message self.old) self.new }
    {
        let TestMsg { target, output } = message;
        match output {
            TestOutput::Test { name, state } => one(
                self.alloc,
                Telling::TestState {
                    state: report_of(state),
                    test_id: test_id(self.alloc, target.as_str(), name.as_str())?,
                },
            ),
            TestOutput::Suite => Ok(Items::new(self.alloc)),
            TestOutput::Finished => self.finish(self.remaining.saturating_sub(1)),
            TestOutput::Custom { text } => one(self.alloc, Telling::AppendOutput(text)),
        }
    }
}
