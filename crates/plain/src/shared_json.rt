ghost use Rattle.std.specs.Prelude.{◌≡◌, IfOk};

use crate::NoMemory;
use crate::json::Json;
use std::alloc::Global;
use std::marker::Model;
use std::sync::Arc;

/// A JSON value whose clones share it.
pub struct SharedJson {
    json: Arc<Json, Global>,
}

impl Drop for SharedJson {
    fn drop(self) {
        let SharedJson { json: _ } = self;
    }
}

impl Model for SharedJson {
    ghost use Rattle.std.specs.Arc.{arc_value};
    ghost use Rattle.serde_json.specs.Data.{Data};
    ghost use Rattle.plain.specs.Code.{data_code};

    ghost Value = { Data };

    ghost coded = { data_code };

    ghost view = { λ s. arc_value s.json };
}

impl SharedJson {
    pub fn new(alloc: Global, json: Json) -> Result<SharedJson, NoMemory>
        ensures { IfOk result (λ shared. shared ≡ json) }
    {
        Ok(SharedJson {
            json: Arc::new(alloc, json)?,
        })
    }

    pub fn as_json(&self) -> &Json
        ensures { result.now ≡ self.now }
    {
        &self.json
    }

    /// The value, moved out where nothing else shares it, and copied otherwise.
    pub fn into_json(self) -> Result<Json, NoMemory>
        ensures { IfOk result (λ json. json ≡ self) }
    {
        let SharedJson { json } = self;
        Arc::unwrap_or_clone(json)
    }
}

impl Clone for SharedJson {
    ghost is_clone = { λ shared copy. copy ≡ shared };

    fn clone(&self) -> Result<SharedJson, NoMemory> {
        Ok(SharedJson {
            json: Arc::try_clone(&self.json)?,
        })
    }
}

impl PartialEq for SharedJson {
    ghost use Rattle.std.specs.Cmp.{partial_equiv_from_equiv};
    ghost use Rattle.plain.specs.Same.{is_same_data, data_equiv};

    ghost eq = { is_same_data };

    ghost laws = { partial_equiv_from_equiv data_equiv };

    fn eq(&self, other: &SharedJson) -> bool {
        self.as_json() == other.as_json()
    }
}

impl Eq for SharedJson {
    ghost use Rattle.plain.specs.Same.{data_equiv};

    ghost laws = { data_equiv };
}
