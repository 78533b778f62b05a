// Bytes behind their length.
ghost use Rattle.std.specs.Prelude.{◌≡◌};
ghost use Rattle.record_codec.specs.Numbers.{number32, counted};
ghost use Rattle.record_codec.specs.Meets.{Encodes};

use crate::faults::EncodeFault;

/// Appends a length.
pub fn encode_length(out: &mut Vec<u8>, length: usize) -> Result<(), EncodeFault>
    ensures { Encodes number32 length out.old.items out.new.items result }
{
    if length > 4_294_967_295 {
        return Err(EncodeFault::Unrecordable);
    }
    out.extend_from_slice(&(length as u32).to_le_bytes())?;
    Ok(())
}

/// Appends bytes behind their length.
pub fn encode_counted(out: &mut Vec<u8>, bytes: &[u8]) -> Result<(), EncodeFault>
    ensures { Encodes counted bytes.now out.old.items out.new.items result }
{
    encode_length(out, bytes.len())?;
    out.extend_from_slice(bytes)?;
    Ok(())
}
