// The codecs of what is wrong in a file.
ghost use Rattle.std.specs.Prelude.{◌≡◌};
ghost use Rattle.event_codec.specs.Diagnostics.{position_codec, range_codec, related_codec, diagnostic_codec};

use crate::recorded::Recorded;
use lsp_types::{Diagnostic, Related};
use record_codec::{Cursor, DecodeFault, EncodeFault};
use std::alloc::Global;
use text_core::{Position, Range};

impl Recorded for Position {
    ghost code = { position_codec };

    #[tactic(auto, unfolding(crate::specs::Diagnostics::position_codec))]
    fn encode(&self, out: &mut Vec<u8>) -> Result<(), EncodeFault> {
        self.line.encode(out)?;
        self.character.encode(out)?;
        Ok(())
    }

    #[tactic(auto, unfolding(crate::specs::Diagnostics::position_codec))]
    fn decode(alloc: Global, cursor: &mut Cursor<'_>) -> Result<Position, DecodeFault> {
        Ok(Position {
            line: Recorded::decode(alloc, cursor)?,
            character: Recorded::decode(alloc, cursor)?,
        })
    }
}

impl Recorded for Range {
    ghost code = { range_codec };

    #[tactic(auto, unfolding(crate::specs::Diagnostics::range_codec))]
    fn encode(&self, out: &mut Vec<u8>) -> Result<(), EncodeFault> {
        self.start.encode(out)?;
        self.end.encode(out)?;
        Ok(())
    }

    #[tactic(auto, unfolding(crate::specs::Diagnostics::range_codec))]
    fn decode(alloc: Global, cursor: &mut Cursor<'_>) -> Result<Range, DecodeFault> {
        Ok(Range {
            start: Recorded::decode(alloc, cursor)?,
            end: Recorded::decode(alloc, cursor)?,
        })
    }
}

impl Recorded for Related {
    ghost code = { related_codec };

    #[tactic(auto, unfolding(crate::specs::Diagnostics::related_codec))]
    fn encode(&self, out: &mut Vec<u8>) -> Result<(), EncodeFault> {
        self.path.encode(out)?;
        self.range.encode(out)?;
        self.message.encode(out)?;
        Ok(())
    }

    #[tactic(auto, unfolding(crate::specs::Diagnostics::related_codec))]
    fn decode(alloc: Global, cursor: &mut Cursor<'_>) -> Result<Related, DecodeFault> {
        Ok(Related {
            path: Recorded::decode(alloc, cursor)?,
            range: Recorded::decode(alloc, cursor)?,
            message: Recorded::decode(alloc, cursor)?,
        })
    }
}

impl Recorded for Diagnostic {
    ghost code = { diagnostic_codec };

    #[tactic(auto, unfolding(crate::specs::Diagnostics::diagnostic_codec))]
    fn encode(&self, out: &mut Vec<u8>) -> Result<(), EncodeFault> {
        self.range.encode(out)?;
        self.severity.encode(out)?;
        self.code.encode(out)?;
        self.source.encode(out)?;
        self.message.encode(out)?;
        self.related.encode(out)?;
        Ok(())
    }

    #[tactic(auto, unfolding(crate::specs::Diagnostics::diagnostic_codec))]
    fn decode(alloc: Global, cursor: &mut Cursor<'_>) -> Result<Diagnostic, DecodeFault> {
        Ok(Diagnostic {
            range: Recorded::decode(alloc, cursor)?,
            severity: Recorded::decode(alloc, cursor)?,
            code: Recorded::decode(alloc, cursor)?,
            source: Recorded::decode(alloc, cursor)?,
            message: Recorded::decode(alloc, cursor)?,
            related: Recorded::decode(alloc, cursor)?,
        })
    }
}
