ghost use Rattle.std.specs.Prelude.{◌≡◌, IfOk};

use plain::{Bytes, ExactClone};
use std::alloc::{AllocError, Global};
use std::marker::Model;
use std::sync::Arc;

/// Bytes whose clones share them.
pub struct ArcBytes {
    bytes: Arc<Bytes, Global>,
}

impl Drop for ArcBytes {
    fn drop(self) {
        let ArcBytes { bytes: _ } = self;
    }
}

impl Model for ArcBytes {
    ghost use Rattle.std.specs.Prelude.{ℕ, List};
    ghost use Rattle.std.specs.Arc.{arc_value};

    ghost Value = { List ℕ };

    ghost view = { λ b. arc_value b.bytes };
}

impl ArcBytes {
    pub fn new(alloc: Global, bytes: Bytes) -> Result<ArcBytes, AllocError>
        ensures { IfOk result (λ shared. shared ≡ bytes) }
    {
        Ok(ArcBytes {
            bytes: Arc::new(alloc, bytes)?,
        })
    }

    pub fn as_slice(&self) -> &[u8]
        ensures { result.now ≡ self.now }
    {
        let bytes: &Bytes = &self.bytes;
        bytes.as_slice()
    }
}

impl Clone for ArcBytes {
    ghost is_clone = { λ bytes copy. copy ≡ bytes };

    fn clone(&self) -> Result<ArcBytes, AllocError> {
        Ok(ArcBytes {
            bytes: Arc::try_clone(&self.bytes)?,
        })
    }
}

impl ExactClone for ArcBytes {
    ghost copies = { λ x y h. h };
}
