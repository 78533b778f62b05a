// How a session begins, and how that is recorded.
ghost use Rattle.std.specs.Prelude.{◌≡◌, IfOk};
ghost use Rattle.record_codec.specs.Meets.{Encodes, Decodes};
ghost use Rattle.session_record.specs.Start.{has_root, threads_codec, params_codec, start_codec};

use docs_vfs::VfsPath;
use event_codec::Recorded;
use plain::{Json, NoMemory};
use ra_config::Config;
use record_codec::{Cursor, DecodeFault, EncodeFault};
use std::alloc::Global;

/// How a session begins. Its record has 1 to 64 threads, and params that name a root.
#[derive(Drop)]
pub enum StartConfig {
    /// With this root and no params.
    New { root: VfsPath, threads: u32 },
    /// By the params of `initialize`.
    Initialize { params: Json, threads: u32 },
}

#[tactic(auto, unfolding(crate::specs::Start::threads_codec))]
fn encode_threads(out: &mut Vec<u8>, threads: u32) -> Result<(), EncodeFault>
    ensures { Encodes threads_codec threads out.old.items out.new.items result }
{
    if threads < 1 || 64 < threads {
        return Err(EncodeFault::Unrecordable);
    }
    threads.encode(out)
}

#[tactic(auto, unfolding(crate::specs::Start::threads_codec))]
fn decode_threads(alloc: Global, cursor: &mut Cursor<'_>) -> Result<u32, DecodeFault>
    ensures { Decodes (threads_codec.read cursor.old) cursor.new result }
{
    let threads = u32::decode(alloc, cursor)?;
    if threads < 1 || 64 < threads {
        return Err(DecodeFault::Malformed);
    }
    Ok(threads)
}

/// Whether params name a root, as the handshake finds out.
#[tactic(auto, using(crate::proofs::RootLemmas::some_root))]
fn has_root(alloc: Global, params: &Json) -> Result<bool, NoMemory>
    ensures { IfOk result (λ has. has ≡ has_root params.now) }
{
    match Config::from_initialize(alloc, params, 1)? {
        Ok(_) => Ok(true),
        Err(_) => Ok(false),
    }
}

#[tactic(auto, unfolding(crate::specs::Start::params_codec))]
fn encode_params(out: &mut Vec<u8>, params: &Json) -> Result<(), EncodeFault>
    ensures { Encodes params_codec params.now out.old.items out.new.items result }
{
    let has = has_root(*out.allocator(), params)?;
    if !has {
        return Err(EncodeFault::Unrecordable);
    }
    params.encode(out)
}

#[tactic(auto, unfolding(crate::specs::Start::params_codec))]
fn decode_params(alloc: Global, cursor: &mut Cursor<'_>) -> Result<Json, DecodeFault>
    ensures { Decodes (params_codec.read cursor.old) cursor.new result }
{
    let params = Json::decode(alloc, cursor)?;
    let has = has_root(alloc, &params)?;
    if !has {
        return Err(DecodeFault::Malformed);
    }
    Ok(params)
}

impl Recorded for StartConfig {
    ghost code = { start_codec };

    #[tactic(auto, unfolding(crate::specs::Start::start_codec))]
    fn encode(&self, out: &mut Vec<u8>) -> Result<(), EncodeFault> {
        match self {
            StartConfig::New { root, threads } => {
                out.push(0)?;
                root.encode(out)?;
                encode_threads(out, *threads)?;
                Ok(())
            }
            StartConfig::Initialize { params, threads } => {
                out.push(1)?;
                encode_params(out, params)?;
                encode_threads(out, *threads)?;
                Ok(())
            }
        }
    }

    #[tactic(auto, unfolding(crate::specs::Start::start_codec))]
    fn decode(alloc: Global, cursor: &mut Cursor<'_>) -> Result<StartConfig, DecodeFault> {
        match cursor.byte()? {
            0 => Ok(StartConfig::New {
                root: Recorded::decode(alloc, cursor)?,
                threads: decode_threads(alloc, cursor)?,
            }),
            1 => Ok(StartConfig::Initialize {
                params: decode_params(alloc, cursor)?,
                threads: decode_threads(alloc, cursor)?,
            }),
            _ => Err(DecodeFault::Malformed),
        }
    }
}
