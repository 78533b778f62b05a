// The codecs of deferred tasks and messages of a loader.
ghost use Rattle.std.specs.Prelude.{◌≡◌};
ghost use Rattle.event_codec.specs.Loading.{deferred_task_codec, loaded_file_codec, loading_progress_codec, loader_msg_codec};

use crate::recorded::Recorded;
use record_codec::{Cursor, DecodeFault, EncodeFault};
use session_port::{DeferredTask, LoadedFile, LoaderMsg, LoadingProgress};
use std::alloc::Global;

impl Recorded for DeferredTask {
    ghost code = { deferred_task_codec };

    #[tactic(auto, unfolding(crate::specs::Loading::deferred_task_codec))]
    fn encode(&self, out: &mut Vec<u8>) -> Result<(), EncodeFault> {
        match self {
            DeferredTask::CheckIfIndexed(value) => {
                out.push(0)?;
                value.encode(out)?;
                Ok(())
            }
            DeferredTask::CheckProcMacroSources(value) => {
                out.push(1)?;
                value.encode(out)?;
                Ok(())
            }
        }
    }

    #[tactic(auto, unfolding(crate::specs::Loading::deferred_task_codec))]
    fn decode(alloc: Global, cursor: &mut Cursor<'_>) -> Result<DeferredTask, DecodeFault> {
        match cursor.byte()? {
            0 => Ok(DeferredTask::CheckIfIndexed(Recorded::decode(alloc, cursor)?)),
            1 => Ok(DeferredTask::CheckProcMacroSources(Recorded::decode(alloc, cursor)?)),
            _ => Err(DecodeFault::Malformed),
        }
    }
}

impl Recorded for LoadedFile {
    ghost code = { loaded_file_codec };

    #[tactic(auto, unfolding(crate::specs::Loading::loaded_file_codec))]
    fn encode(&self, out: &mut Vec<u8>) -> Result<(), EncodeFault> {
        self.path.encode(out)?;
        self.contents.encode(out)?;
        Ok(())
    }

    #[tactic(auto, unfolding(crate::specs::Loading::loaded_file_codec))]
    fn decode(alloc: Global, cursor: &mut Cursor<'_>) -> Result<LoadedFile, DecodeFault> {
        Ok(LoadedFile {
            path: Recorded::decode(alloc, cursor)?,
            contents: Recorded::decode(alloc, cursor)?,
        })
    }
}

impl Recorded for LoadingProgress {
    ghost code = { loading_progress_codec };

    #[tactic(auto, unfolding(crate::specs::Loading::loading_progress_codec))]
    fn encode(&self, out: &mut Vec<u8>) -> Result<(), EncodeFault> {
        match self {
            LoadingProgress::Started => {
                out.push(0)?;
                Ok(())
            }
            LoadingProgress::Progress(value) => {
                out.push(1)?;
                value.encode(out)?;
                Ok(())
            }
            LoadingProgress::Finished => {
                out.push(2)?;
                Ok(())
            }
        }
    }

    #[tactic(auto, unfolding(crate::specs::Loading::loading_progress_codec))]
    fn decode(alloc: Global, cursor: &mut Cursor<'_>) -> Result<LoadingProgress, DecodeFault> {
        match cursor.byte()? {
            0 => Ok(LoadingProgress::Started),
            1 => Ok(LoadingProgress::Progress(Recorded::decode(alloc, cursor)?)),
            2 => Ok(LoadingProgress::Finished),
            _ => Err(DecodeFault::Malformed),
        }
    }
}

impl Recorded for LoaderMsg {
    ghost code = { loader_msg_codec };

    #[tactic(auto, unfolding(crate::specs::Loading::loader_msg_codec))]
    fn encode(&self, out: &mut Vec<u8>) -> Result<(), EncodeFault> {
        match self {
            LoaderMsg::Changed { files } => {
                out.push(0)?;
                files.encode(out)?;
                Ok(())
            }
            LoaderMsg::Loaded { files } => {
                out.push(1)?;
                files.encode(out)?;
                Ok(())
            }
            LoaderMsg::Progress {
                n_total,
                n_done,
                dir,
                config_version,
            } => {
                out.push(2)?;
                n_total.encode(out)?;
                n_done.encode(out)?;
                dir.encode(out)?;
                config_version.encode(out)?;
                Ok(())
            }
        }
    }

    #[tactic(auto, unfolding(crate::specs::Loading::loader_msg_codec))]
    fn decode(alloc: Global, cursor: &mut Cursor<'_>) -> Result<LoaderMsg, DecodeFault> {
        match cursor.byte()? {
            0 => Ok(LoaderMsg::Changed {
                files: Recorded::decode(alloc, cursor)?,
            }),
            1 => Ok(LoaderMsg::Loaded {
                files: Recorded::decode(alloc, cursor)?,
            }),
            2 => Ok(LoaderMsg::Progress {
                n_total: Recorded::decode(alloc, cursor)?,
                n_done: Recorded::decode(alloc, cursor)?,
                dir: Recorded::decode(alloc, cursor)?,
                config_version: Recorded::decode(alloc, cursor)?,
            }),
            _ => Err(DecodeFault::Malformed),
        }
    }
}
