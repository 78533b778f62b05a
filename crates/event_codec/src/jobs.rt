// The codecs of messages of jobs.
ghost use Rattle.std.specs.Prelude.{◌≡◌};
ghost use Rattle.record_codec.specs.Meets.{Encodes};
ghost use Rattle.event_codec.specs.Jobs.{job_value_codec, job_result_codec, prime_report_codec, task_body_codec, task_msg_codec};

use crate::recorded::Recorded;
use plain::{Items, Text};
use record_codec::{Cursor, DecodeFault, EncodeFault};
use session_port::{JobResult, JobValue, TaskBody, TaskMsg};
use std::alloc::Global;

impl Recorded for JobValue {
    ghost code = { job_value_codec };

    #[tactic(auto, unfolding(crate::specs::Jobs::job_value_codec))]
    fn encode(&self, out: &mut Vec<u8>) -> Result<(), EncodeFault> {
        match self {
            JobValue::Json(value) => {
                out.push(0)?;
                value.encode(out)?;
                Ok(())
            }
            JobValue::Diagnostics(value) => {
                out.push(1)?;
                value.encode(out)?;
                Ok(())
            }
            JobValue::Tests(value) => {
                out.push(2)?;
                value.encode(out)?;
                Ok(())
            }
            JobValue::Roots(value) => {
                out.push(3)?;
                value.encode(out)?;
                Ok(())
            }
            JobValue::Primed => {
                out.push(4)?;
                Ok(())
            }
            JobValue::Workspaces(value) => {
                out.push(5)?;
                value.encode(out)?;
                Ok(())
            }
            JobValue::BuildData(value) => {
                out.push(6)?;
                value.encode(out)?;
                Ok(())
            }
            JobValue::ProcMacros(value) => {
                out.push(7)?;
                value.encode(out)?;
                Ok(())
            }
        }
    }

    #[tactic(auto, unfolding(crate::specs::Jobs::job_value_codec))]
    fn decode(alloc: Global, cursor: &mut Cursor<'_>) -> Result<JobValue, DecodeFault> {
        match cursor.byte()? {
            0 => Ok(JobValue::Json(Recorded::decode(alloc, cursor)?)),
            1 => Ok(JobValue::Diagnostics(Recorded::decode(alloc, cursor)?)),
            2 => Ok(JobValue::Tests(Recorded::decode(alloc, cursor)?)),
            3 => Ok(JobValue::Roots(Recorded::decode(alloc, cursor)?)),
            4 => Ok(JobValue::Primed),
            5 => Ok(JobValue::Workspaces(Recorded::decode(alloc, cursor)?)),
            6 => Ok(JobValue::BuildData(Recorded::decode(alloc, cursor)?)),
            7 => Ok(JobValue::ProcMacros(Recorded::decode(alloc, cursor)?)),
            _ => Err(DecodeFault::Malformed),
        }
    }
}

impl Recorded for JobResult {
    ghost code = { job_result_codec };

    #[tactic(auto, unfolding(crate::specs::Jobs::job_result_codec))]
    fn encode(&self, out: &mut Vec<u8>) -> Result<(), EncodeFault> {
        match self {
            JobResult::Value(value) => {
                out.push(0)?;
                value.encode(out)?;
                Ok(())
            }
            JobResult::Fault { code, message } => {
                out.push(1)?;
                code.encode(out)?;
                message.encode(out)?;
                Ok(())
            }
            JobResult::Cancelled { saw } => {
                out.push(2)?;
                saw.encode(out)?;
                Ok(())
            }
            JobResult::NoMemory => {
                out.push(3)?;
                Ok(())
            }
        }
    }

    #[tactic(auto, unfolding(crate::specs::Jobs::job_result_codec))]
    fn decode(alloc: Global, cursor: &mut Cursor<'_>) -> Result<JobResult, DecodeFault> {
        match cursor.byte()? {
            0 => Ok(JobResult::Value(Recorded::decode(alloc, cursor)?)),
            1 => Ok(JobResult::Fault {
                code: Recorded::decode(alloc, cursor)?,
                message: Recorded::decode(alloc, cursor)?,
            }),
            2 => Ok(JobResult::Cancelled {
                saw: Recorded::decode(alloc, cursor)?,
            }),
            3 => Ok(JobResult::NoMemory),
            _ => Err(DecodeFault::Malformed),
        }
    }
}

// A part of its own, since a proof over all fields at once is too large.
#[tactic(auto, unfolding(crate::specs::Jobs::prime_report_codec))]
fn encode_prime_report(
    out: &mut Vec<u8>,
    done: u64,
    total: u64,
    crates: &Items<Text>,
) -> Result<(), EncodeFault>
    ensures { Encodes prime_report_codec (done, (total, crates.now)) out.old.items out.new.items result }
{
    done.encode(out)?;
    total.encode(out)?;
    crates.encode(out)?;
    Ok(())
}

impl Recorded for TaskBody {
    ghost code = { task_body_codec };

    #[tactic(auto, unfolding(crate::specs::Jobs::task_body_codec))]
    fn encode(&self, out: &mut Vec<u8>) -> Result<(), EncodeFault> {
        match self {
            TaskBody::Begin => {
                out.push(0)?;
                Ok(())
            }
            TaskBody::Report(value) => {
                out.push(1)?;
                value.encode(out)?;
                Ok(())
            }
            TaskBody::PrimeReport {
                done,
                total,
                crates,
            } => {
                out.push(2)?;
                encode_prime_report(out, *done, *total, crates)?;
                Ok(())
            }
            TaskBody::Final(value) => {
                out.push(3)?;
                value.encode(out)?;
                Ok(())
            }
        }
    }

    #[tactic(auto, unfolding(crate::specs::Jobs::task_body_codec, crate::specs::Jobs::prime_report_codec))]
    fn decode(alloc: Global, cursor: &mut Cursor<'_>) -> Result<TaskBody, DecodeFault> {
        match cursor.byte()? {
            0 => Ok(TaskBody::Begin),
            1 => Ok(TaskBody::Report(Recorded::decode(alloc, cursor)?)),
            2 => Ok(TaskBody::PrimeReport {
                done: Recorded::decode(alloc, cursor)?,
                total: Recorded::decode(alloc, cursor)?,
                crates: Recorded::decode(alloc, cursor)?,
            }),
            3 => Ok(TaskBody::Final(Recorded::decode(alloc, cursor)?)),
            _ => Err(DecodeFault::Malformed),
        }
    }
}

impl Recorded for TaskMsg {
    ghost code = { task_msg_codec };

    #[tactic(auto, unfolding(crate::specs::Jobs::task_msg_codec))]
    fn encode(&self, out: &mut Vec<u8>) -> Result<(), EncodeFault> {
        self.job.encode(out)?;
        self.body.encode(out)?;
        Ok(())
    }

    #[tactic(auto, unfolding(crate::specs::Jobs::task_msg_codec))]
    fn decode(alloc: Global, cursor: &mut Cursor<'_>) -> Result<TaskMsg, DecodeFault> {
        Ok(TaskMsg {
            job: Recorded::decode(alloc, cursor)?,
            body: Recorded::decode(alloc, cursor)?,
        })
    }
}
