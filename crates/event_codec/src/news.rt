// The codecs of what checks, a test run and discoveries of projects tell.
ghost use Rattle.std.specs.Prelude.{◌≡◌};
ghost use Rattle.record_codec.specs.Meets.{Encodes};
ghost use Rattle.event_codec.specs.News.{added_codec, check_progress_codec, flycheck_msg_codec, test_state_codec, test_output_codec, test_msg_codec, discover_msg_codec};

use crate::recorded::Recorded;
use docs_vfs::VfsPath;
use lsp_types::Diagnostic;
use plain::{Json, Text};
use record_codec::{Cursor, DecodeFault, EncodeFault};
use session_port::{CheckProgress, DiscoverMsg, FlycheckMsg, TestMsg, TestOutput, TestState};
use std::alloc::Global;

impl Recorded for CheckProgress {
    ghost code = { check_progress_codec };

    #[tactic(auto, unfolding(crate::specs::News::check_progress_codec))]
    fn encode(&self, out: &mut Vec<u8>) -> Result<(), EncodeFault> {
        match self {
            CheckProgress::DidStart { command } => {
                out.push(0)?;
                command.encode(out)?;
                Ok(())
            }
            CheckProgress::DidCheckCrate(value) => {
                out.push(1)?;
                value.encode(out)?;
                Ok(())
            }
            CheckProgress::DidCancel => {
                out.push(2)?;
                Ok(())
            }
            CheckProgress::DidFailToRestart(value) => {
                out.push(3)?;
                value.encode(out)?;
                Ok(())
            }
            CheckProgress::DidFinish(value) => {
                out.push(4)?;
                value.encode(out)?;
                Ok(())
            }
        }
    }

    #[tactic(auto, unfolding(crate::specs::News::check_progress_codec))]
    fn decode(alloc: Global, cursor: &mut Cursor<'_>) -> Result<CheckProgress, DecodeFault> {
        match cursor.byte()? {
            0 => Ok(CheckProgress::DidStart {
                command: Recorded::decode(alloc, cursor)?,
            }),
            1 => Ok(CheckProgress::DidCheckCrate(Recorded::decode(alloc, cursor)?)),
            2 => Ok(CheckProgress::DidCancel),
            3 => Ok(CheckProgress::DidFailToRestart(Recorded::decode(alloc, cursor)?)),
            4 => Ok(CheckProgress::DidFinish(Recorded::decode(alloc, cursor)?)),
            _ => Err(DecodeFault::Malformed),
        }
    }
}

// A part of its own, since a proof over all fields at once is too large.
#[tactic(auto, unfolding(crate::specs::News::added_codec))]
fn encode_added(
    out: &mut Vec<u8>,
    id: u64,
    generation: u64,
    of_package: &Option<Text>,
    path: &VfsPath,
    diagnostic: &Diagnostic,
    fix: &Option<Json>,
) -> Result<(), EncodeFault>
    ensures { Encodes added_codec (id, (generation, (of_package.now, (path.now, (diagnostic.now, fix.now)))))
        out.old.items out.new.items result }
{
    id.encode(out)?;
    generation.encode(out)?;
    of_package.encode(out)?;
    path.encode(out)?;
    diagnostic.encode(out)?;
    fix.encode(out)?;
    Ok(())
}

impl Recorded for FlycheckMsg {
    ghost code = { flycheck_msg_codec };

    #[tactic(auto, unfolding(crate::specs::News::flycheck_msg_codec))]
    fn encode(&self, out: &mut Vec<u8>) -> Result<(), EncodeFault> {
        match self {
            FlycheckMsg::AddDiagnostic {
                id,
                generation,
                package,
                path,
                diagnostic,
                fix,
            } => {
                out.push(0)?;
                encode_added(out, *id, *generation, package, path, diagnostic, fix)?;
                Ok(())
            }
            FlycheckMsg::ClearDiagnostics {
                id,
                package,
                older_than,
            } => {
                out.push(1)?;
                id.encode(out)?;
                package.encode(out)?;
                older_than.encode(out)?;
                Ok(())
            }
            FlycheckMsg::Progress { id, progress } => {
                out.push(2)?;
                id.encode(out)?;
                progress.encode(out)?;
                Ok(())
            }
        }
    }

    #[tactic(auto, unfolding(crate::specs::News::flycheck_msg_codec, crate::specs::News::added_codec))]
    fn decode(alloc: Global, cursor: &mut Cursor<'_>) -> Result<FlycheckMsg, DecodeFault> {
        match cursor.byte()? {
            0 => Ok(FlycheckMsg::AddDiagnostic {
                id: Recorded::decode(alloc, cursor)?,
                generation: Recorded::decode(alloc, cursor)?,
                package: Recorded::decode(alloc, cursor)?,
                path: Recorded::decode(alloc, cursor)?,
                diagnostic: Recorded::decode(alloc, cursor)?,
                fix: Recorded::decode(alloc, cursor)?,
            }),
            1 => Ok(FlycheckMsg::ClearDiagnostics {
                id: Recorded::decode(alloc, cursor)?,
                package: Recorded::decode(alloc, cursor)?,
                older_than: Recorded::decode(alloc, cursor)?,
            }),
            2 => Ok(FlycheckMsg::Progress {
                id: Recorded::decode(alloc, cursor)?,
                progress: Recorded::decode(alloc, cursor)?,
            }),
            _ => Err(DecodeFault::Malformed),
        }
    }
}

impl Recorded for TestState {
    ghost code = { test_state_codec };

    #[tactic(auto, unfolding(crate::specs::News::test_state_codec))]
    fn encode(&self, out: &mut Vec<u8>) -> Result<(), EncodeFault> {
        match self {
            TestState::Started => {
                out.push(0)?;
                Ok(())
            }
            TestState::Ignored => {
                out.push(1)?;
                Ok(())
            }
            TestState::Ok => {
                out.push(2)?;
                Ok(())
            }
            TestState::Failed { stdout } => {
                out.push(3)?;
                stdout.encode(out)?;
                Ok(())
            }
        }
    }

    #[tactic(auto, unfolding(crate::specs::News::test_state_codec))]
    fn decode(alloc: Global, cursor: &mut Cursor<'_>) -> Result<TestState, DecodeFault> {
        match cursor.byte()? {
            0 => Ok(TestState::Started),
            1 => Ok(TestState::Ignored),
            2 => Ok(TestState::Ok),
            3 => Ok(TestState::Failed {
                stdout: Recorded::decode(alloc, cursor)?,
            }),
            _ => Err(DecodeFault::Malformed),
        }
    }
}

impl Recorded for TestOutput {
    ghost code = { test_output_codec };

    #[tactic(auto, unfolding(crate::specs::News::test_output_codec))]
    fn encode(&self, out: &mut Vec<u8>) -> Result<(), EncodeFault> {
        match self {
            TestOutput::Test { name, state } => {
                out.push(0)?;
                name.encode(out)?;
                state.encode(out)?;
                Ok(())
            }
            TestOutput::Suite => {
                out.push(1)?;
                Ok(())
            }
            TestOutput::Finished => {
                out.push(2)?;
                Ok(())
            }
            TestOutput::Custom { text } => {
                out.push(3)?;
                text.encode(out)?;
                Ok(())
            }
        }
    }

    #[tactic(auto, unfolding(crate::specs::News::test_output_codec))]
    fn decode(alloc: Global, cursor: &mut Cursor<'_>) -> Result<TestOutput, DecodeFault> {
        match cursor.byte()? {
            0 => Ok(TestOutput::Test {
                name: Recorded::decode(alloc, cursor)?,
                state: Recorded::decode(alloc, cursor)?,
            }),
            1 => Ok(TestOutput::Suite),
            2 => Ok(TestOutput::Finished),
            3 => Ok(TestOutput::Custom {
                text: Recorded::decode(alloc, cursor)?,
            }),
            _ => Err(DecodeFault::Malformed),
        }
    }
}

impl Recorded for TestMsg {
    ghost code = { test_msg_codec };

    #[tactic(auto, unfolding(crate::specs::News::test_msg_codec))]
    fn encode(&self, out: &mut Vec<u8>) -> Result<(), EncodeFault> {
        self.target.encode(out)?;
        self.output.encode(out)?;
        Ok(())
    }

    #[tactic(auto, unfolding(crate::specs::News::test_msg_codec))]
    fn decode(alloc: Global, cursor: &mut Cursor<'_>) -> Result<TestMsg, DecodeFault> {
        Ok(TestMsg {
            target: Recorded::decode(alloc, cursor)?,
            output: Recorded::decode(alloc, cursor)?,
        })
    }
}

impl Recorded for DiscoverMsg {
    ghost code = { discover_msg_codec };

    #[tactic(auto, unfolding(crate::specs::News::discover_msg_codec))]
    fn encode(&self, out: &mut Vec<u8>) -> Result<(), EncodeFault> {
        match self {
            DiscoverMsg::Finished { project, buildfile } => {
                out.push(0)?;
                project.encode(out)?;
                buildfile.encode(out)?;
                Ok(())
            }
            DiscoverMsg::Progress { message } => {
                out.push(1)?;
                message.encode(out)?;
                Ok(())
            }
            DiscoverMsg::Error { error, source } => {
                out.push(2)?;
                error.encode(out)?;
                source.encode(out)?;
                Ok(())
            }
        }
    }

    #[tactic(auto, unfolding(crate::specs::News::discover_msg_codec))]
    fn decode(alloc: Global, cursor: &mut Cursor<'_>) -> Result<DiscoverMsg, DecodeFault> {
        match cursor.byte()? {
            0 => Ok(DiscoverMsg::Finished {
                project: Recorded::decode(alloc, cursor)?,
                buildfile: Recorded::decode(alloc, cursor)?,
            }),
            1 => Ok(DiscoverMsg::Progress {
                message: Recorded::decode(alloc, cursor)?,
            }),
            2 => Ok(DiscoverMsg::Error {
                error: Recorded::decode(alloc, cursor)?,
                source: Recorded::decode(alloc, cursor)?,
            }),
            _ => Err(DecodeFault::Malformed),
        }
    }
}
