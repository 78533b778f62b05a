ghost use Rattle.std.specs.Prelude.{◌≡◌, ◌≢◌, ℕ, List, OnOk, OnErr};
ghost use Rattle.serde_json.specs.Data.{Members as MemberList, no_members, put, object};
ghost use Rattle.serde_json.specs.Find.{get_member};
ghost use Rattle.serde_json.specs.View.{members_view};
ghost use Rattle.plain.specs.Removed.{removed};

use crate::NoMemory;
use crate::json::Json;
use serde_json::{Map, Value};
use std::alloc::Global;
use std::marker::Model;

/// The members of an object, in the order of their keys.
pub struct JsonObject {
    map: Map<String, Value>,
}

impl Drop for JsonObject {
    fn drop(self) {
        let JsonObject { map: _ } = self;
    }
}

impl Model for JsonObject {
    ghost use Rattle.serde_json.specs.Data.{Members as MemberList};
    ghost use Rattle.serde_json.specs.View.{members_view};
    ghost use Rattle.plain.specs.Code.{members_code};

    ghost Value = { MemberList };

    ghost coded = { members_code };

    ghost view = { λ m. members_view m.map.entries };
}

impl JsonObject {
    pub fn new(alloc: Global) -> JsonObject
        ensures { result ≡ no_members }
    {
        JsonObject {
            map: Map::new(alloc),
        }
    }

    pub(crate) fn from_map(map: Map<String, Value>) -> JsonObject
        ensures { result ≡ members_view map.entries }
    {
        JsonObject { map }
    }

    pub fn into_json(self) -> Json
        ensures { result ≡ object self }
    {
        let JsonObject { map } = self;
        Json::new(Value::Object(map))
    }

    /// Takes the value at a key out.
    pub fn take(&mut self, key: &str) -> Option<Json>
        ensures value { result ≡ get_member key.now self.old }
        ensures members { self.new ≡ removed key.now self.old }
        ensures others { (q : List ℕ) → q ≢ key.now → get_member q self.new
            ≡ get_member q self.old }
    {
        match self.map.remove(key) {
            Some(value) => Some(Json::new(value)),
            None => None,
        }
    }

    /// Moves the value at a key out. What is at the key afterwards is left open.
    pub fn take_value(&mut self, key: &str) -> Option<Json>
        ensures value { result ≡ get_member key.now self.old }
        ensures others { (q : List ℕ) → q ≢ key.now → get_member q self.new
            ≡ get_member q self.old }
    {
        match self.map.get_mut(key) {
            Some(value) => Some(Json::new(value.take())),
            None => None,
        }
    }

    /// Puts a value at a key.
    pub fn put(&mut self, alloc: Global, key: &str, value: Json) -> Result<(), NoMemory>
        ensures ok { OnOk result (self.new ≡ put key.now value self.old) }
        ensures err { OnErr result (self.new ≡ self.old) }
    {
        let key = String::from_str(alloc, key)?;
        self.map.insert(key, value.into_value())?;
        Ok(())
    }
}

impl Clone for JsonObject {
    ghost is_clone = { λ members copy. copy ≡ members };

    fn clone(&self) -> Result<JsonObject, NoMemory> {
        Ok(JsonObject {
            map: self.map.clone()?,
        })
    }
}
