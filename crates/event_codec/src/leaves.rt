// How the leaves of events are spelled: numbers of files, paths, JSON.
ghost use Rattle.std.specs.Prelude.{◌≡◌, true, false, Some, []};
ghost use Rattle.record_codec.specs.Meets.{Encodes, Decodes};
ghost use Rattle.record_codec.specs.Leaves.{file, path, json};

use crate::recorded::Recorded;
use docs_vfs::{FileId, VfsPath};
use plain::Json;
use record_codec::{Cursor, DecodeFault, EncodeFault, encode_counted};
use std::alloc::Global;

impl Recorded for FileId {
    ghost code = { file };

    #[tactic(auto, unfolding(record_codec::specs::Leaves::file))]
    fn encode(&self, out: &mut Vec<u8>) -> Result<(), EncodeFault> {
        self.0.encode(out)
    }

    #[tactic(auto, unfolding(record_codec::specs::Leaves::file))]
    fn decode(alloc: Global, cursor: &mut Cursor<'_>) -> Result<FileId, DecodeFault> {
        Ok(FileId(u32::decode(alloc, cursor)?))
    }
}

impl Recorded for VfsPath {
    ghost code = { path };

    #[tactic(auto, using(crate::proofs::TextLemmas::utf8_some), unfolding(record_codec::specs::Leaves::path, record_codec::specs::Numbers::text))]
    fn encode(&self, out: &mut Vec<u8>) -> Result<(), EncodeFault> {
        encode_counted(out, self.as_str().as_bytes())
    }

    #[tactic(auto, using(crate::proofs::TextLemmas::utf8_some, crate::proofs::TextLemmas::utf8_none), unfolding(record_codec::specs::Leaves::path, record_codec::specs::Numbers::text))]
    fn decode(alloc: Global, cursor: &mut Cursor<'_>) -> Result<VfsPath, DecodeFault> {
        let Ok(text) = str::from_utf8(cursor.counted()?) else {
            return Err(DecodeFault::Malformed);
        };
        match VfsPath::new(alloc, text)? {
            Some(path) => Ok(path),
            None => Err(DecodeFault::Malformed),
        }
    }
}

impl Recorded for Json {
    ghost code = { json };

    #[tactic(auto, using(crate::proofs::JsonLemmas::reads_back_plain), unfolding(record_codec::specs::Leaves::json))]
    fn encode(&self, out: &mut Vec<u8>) -> Result<(), EncodeFault> {
        if !self.is_plain() {
            return Err(EncodeFault::Unrecordable);
        }
        let mut text = Vec::new(*out.allocator());
        self.write(&mut text)?;
        encode_counted(out, text.as_slice())
    }

    // What was read is written again, since only the compact form is a spelling.
    #[tactic(auto, unfolding(record_codec::specs::Leaves::json))]
    fn decode(alloc: Global, cursor: &mut Cursor<'_>) -> Result<Json, DecodeFault> {
        let text = cursor.counted()?;
        let Some(json) = Json::read(alloc, text)? else {
            return Err(DecodeFault::Malformed);
        };
        if !json.is_plain() {
            return Err(DecodeFault::Malformed);
        }
        let mut compact = Vec::new(alloc);
        json.write(&mut compact)?;
        if compact.as_slice() != text {
            return Err(DecodeFault::Malformed);
        }
        Ok(json)
    }
}
