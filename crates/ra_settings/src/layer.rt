ghost use Rattle.std.specs.Prelude.{◌≡◌, ◌++◌, OnOk, IfOk, Some, IfSome, option_and_then, slice_get};
ghost use Rattle.std.specs.Option.{option_copied};
ghost use Rattle.serde_json.specs.View.{view};
ghost use Rattle.ra_settings.specs.Facts.{facts_of};
ghost use Rattle.ra_settings.specs.Layers.{allows, reading, values_of, errors_of, layer_of, none_of, nothing_set, value_at, value_in, error_in, HasKinds};
ghost use Rattle.ra_settings.specs.Values.{kind_of};

use crate::error::ConfigError;
use crate::find::find_at;
use crate::read::read_value;
use crate::row::{ROWS, Row, Scope};
use crate::value::{Reading, SettingValue};
use docs_vfs::VfsPath;
use plain::{ExactClone, Items, Text};
use serde_json::Value;
use std::alloc::{AllocError, Global};
use std::marker::Model;
use std::sync::Arc;

/// Where settings come from.
#[derive(Clone, Copy, Debug, PartialEq, Eq, PartialOrd, Ord, Hash)]
pub enum Source {
    Client,
    User,
    WorkspaceFile,
    CrateFile,
}

impl Source {
    /// Whether rows of a scope may stand there.
    pub fn allows(self, scope: Scope) -> bool
        ensures { result ≡ allows self scope }
    {
        match self {
            Source::Client | Source::User => true,
            Source::WorkspaceFile => match scope {
                Scope::Global => false,
                Scope::Workspace | Scope::Local => true,
            },
            Source::CrateFile => match scope {
                Scope::Global | Scope::Workspace => false,
                Scope::Local => true,
            },
        }
    }
}

/// The values that one source sets, by row. A clone shares them.
pub struct Layer {
    values: Arc<Items<Option<SettingValue>>, Global>,
}

impl Drop for Layer {
    fn drop(self) {
        let Layer { values: _ } = self;
    }
}

/// What a source sets, and the errors of the values that it doesn't set.
#[derive(Drop)]
pub struct ReadLayer {
    pub layer: Layer,
    pub errors: Items<ConfigError>,
}

impl Model for Layer {
    ghost use Rattle.std.specs.Prelude.{List, Option};
    ghost use Rattle.ra_settings.specs.declared.value.SettingValue.{SettingValue};
    ghost use Rattle.ra_settings.specs.Layers.{HasKinds};
    ghost use Rattle.std.specs.Coded.{codes};
    ghost use Rattle.ra_settings.specs.contracts.value.SettingValue as value_row;

    ghost Value = { List (Option SettingValue) };

    ghost coded = { Prim.hlevel (codes, value_row.the_row.coded) };

    ghost view = { λ l. l.values.value };

    ghost invariant = { λ l. HasKinds l.values.value };
}

impl Layer {
    /// What a source sets by a tree of settings, and the errors of what it refuses.
    pub fn read(
        alloc: Global,
        source: Source,
        place: &Text,
        root: &VfsPath,
        tree: &Value,
    ) -> Result<ReadLayer, AllocError>
        ensures layer { IfOk result (λ read. read.layer ≡ layer_of source root.now (view tree.now)) }
        ensures errors { IfOk result (λ read. read.errors
            ≡ errors_of place.now source root.now (view tree.now) ROWS) }
    {
        let mut errors = Items::new(alloc);
        let values = read_rows(alloc, source, place, root, tree, &ROWS, &mut errors)?;
        let layer = Layer {
            values: Arc::new(alloc, values)?,
        };
        Ok(ReadLayer { layer, errors })
    }

    pub(crate) fn as_slice(&self) -> &[Option<SettingValue>]
        ensures { result.now ≡ self.now }
    {
        self.values.as_slice()
    }

    /// The layer that sets nothing.
    pub fn empty(alloc: Global) -> Result<Layer, AllocError>
        ensures { IfOk result (λ l. l ≡ nothing_set) }
    {
        let values = none_of(alloc, &ROWS)?;
        Ok(Layer {
            values: Arc::new(alloc, values)?,
        })
    }

    /// The value of a row, where it is set.
    pub fn get(&self, row: Row) -> Option<&SettingValue>
        ensures value { option_copied result ≡ value_at row self.now }
        ensures kind { IfSome result (λ v. kind_of v.now ≡ kind_of (facts_of row).default) }
    {
        value_at(self.values.as_slice(), row)
    }
}

impl ExactClone for Layer {
    ghost copies = { λ x y h. h };
}

impl Clone for Layer {
    ghost is_clone = { λ layer copy. copy ≡ layer };

    fn clone(&self) -> Result<Layer, AllocError> {
        Ok(Layer {
            values: self.values.clone()?,
        })
    }
}

#[tactic(auto, unfolding(crate::specs::Layers::reading))]
/// What a row's place in a tree is read as, where it is allowed and there.
fn read_row(
    alloc: Global,
    source: Source,
    root: &VfsPath,
    tree: &Value,
    row: Row,
) -> Result<Option<Reading>, AllocError>
    ensures { IfOk result (λ r. r ≡ reading source root.now (view tree.now) row) }
{
    let facts = row.facts();
    if !source.allows(facts.scope) {
        return Ok(None);
    }
    match find_at(tree, facts.path) {
        Some(value) => Ok(Some(read_value(alloc, facts.kind, root, value)?)),
        None => Ok(None),
    }
}

fn read_rows(
    alloc: Global,
    source: Source,
    place: &Text,
    root: &VfsPath,
    tree: &Value,
    rows: &[Row],
    errors: &mut Items<ConfigError>,
) -> Result<Items<Option<SettingValue>>, AllocError>
    ensures values { IfOk result
        (λ values. values ≡ values_of source root.now (view tree.now) rows.now) }
    ensures errors { OnOk result (errors.new
        ≡ errors.old ++ errors_of place.now source root.now (view tree.now) rows.now) }
{
    let mut values = Items::new(alloc);
    for row in rows {
        let value = judge(
            alloc,
            place,
            *row,
            read_row(alloc, source, root, tree, *row)?,
            errors,
        )?;
        values.push(value)?;
    }
    Ok(values)
}

#[tactic(auto, using(crate::proofs::KindLaws::none_more))]
fn none_of(alloc: Global, rows: &[Row]) -> Result<Items<Option<SettingValue>>, AllocError>
    ensures { IfOk result (λ values. values ≡ none_of rows.now) }
{
    let mut values = Items::new(alloc);
    for _row in rows {
        values.push(None)?;
    }
    Ok(values)
}

/// The value of a reading; a refusal is told.
fn judge(
    alloc: Global,
    place: &Text,
    row: Row,
    reading: Option<Reading>,
    errors: &mut Items<ConfigError>,
) -> Result<Option<SettingValue>, AllocError>
    ensures value { IfOk result (λ v. v ≡ value_in reading) }
    ensures error { OnOk result (errors.new ≡ errors.old ++ error_in place.now row reading) }
{
    match reading {
        None => Ok(None),
        Some(Reading::Value(value)) => Ok(Some(value)),
        Some(Reading::Refused(reason)) => {
            errors.push(ConfigError {
                place: place.clone()?,
                key: row.name(alloc)?,
                reason: Text::from_str(alloc, reason.as_str())?,
            })?;
            Ok(None)
        }
    }
}

fn value_of(value: &Option<SettingValue>) -> Option<&SettingValue>
    ensures { option_copied result ≡ value.now }
{
    match value {
        Some(value) => Some(value),
        None => None,
    }
}

/// The value at a place of the table.
fn at(values: &[Option<SettingValue>], place: usize) -> Option<&SettingValue>
    ensures { option_copied result ≡ option_and_then (λ v. v) (slice_get values.now place) }
{
    match values.get(place) {
        Some(value) => value_of(value),
        None => None,
    }
}

/// The value of a row among values that have their rows' kinds.
fn value_at(values: &[Option<SettingValue>], row: Row) -> Option<&SettingValue>
    requires { HasKinds values.now }
    ensures value { option_copied result ≡ value_at row values.now }
    ensures kind { IfSome result (λ v. kind_of v.now ≡ kind_of (facts_of row).default) }
{
    match at(values, row.number()) {
        Some(value) => Some(value),
        None => None,
    }
}
