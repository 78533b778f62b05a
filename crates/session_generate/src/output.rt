// The hash of what was written.
ghost use Rattle.std.specs.Prelude.{◌≡◌};
ghost use Rattle.std.specs.List.{concat};
ghost use Rattle.sha1.specs.Sha1.{sha1};

use plain::Bytes;
use sha1::Sha1;

/// The hash of turns, one behind another.
pub(crate) fn output_hash(turns: &[Bytes]) -> [u8; 20]
    ensures { result ≡ sha1 (concat turns.now) }
{
    let mut hasher = Sha1::new();
    for turn in turns {
        hasher.update(turn.as_slice());
    }
    hasher.finalize()
}
