// A layer that maps share.
ghost use Rattle.std.specs.Prelude.{◌≡◌, IfOk};

use plain::ExactClone;
use ra_settings::Layer;
use std::alloc::{AllocError, Global};
use std::marker::Model;
use std::sync::Arc;

/// A layer. Its clones share it.
pub(crate) struct SharedLayer {
    layer: Arc<Layer, Global>,
}

impl Drop for SharedLayer {
    fn drop(self) {
        let SharedLayer { layer: _ } = self;
    }
}

impl Model for SharedLayer {
    ghost use Rattle.std.specs.Arc.{arc_value};
    ghost use Rattle.ra_settings.specs.Layers.{Values};
    ghost use Rattle.ra_settings.specs.contracts.layer.Layer as layer_row;

    ghost Value = { Values };

    ghost coded = { layer_row.the_row.coded };

    ghost view = { λ s. arc_value s.layer };
}

impl SharedLayer {
    pub(crate) fn new(alloc: Global, layer: Layer) -> Result<SharedLayer, AllocError>
        ensures { IfOk result (λ shared. shared ≡ layer) }
    {
        Ok(SharedLayer {
            layer: Arc::new(alloc, layer)?,
        })
    }

    pub(crate) fn layer(&self) -> &Layer
        ensures { result.now ≡ self.now }
    {
        &self.layer
    }
}

impl Clone for SharedLayer {
    ghost is_clone = { λ shared copy. copy ≡ shared };

    fn clone(&self) -> Result<SharedLayer, AllocError> {
        Ok(SharedLayer {
            layer: Arc::try_clone(&self.layer)?,
        })
    }
}

impl ExactClone for SharedLayer {
    ghost copies = { λ x y h. h };
}
