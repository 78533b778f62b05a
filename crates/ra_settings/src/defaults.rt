ghost use Rattle.std.specs.Prelude.{◌≡◌, IfOk, slice_get};
ghost use Rattle.std.specs.Option.{option_copied};
ghost use Rattle.ra_settings.specs.declared.row.TheConstants.{ROWS};
ghost use Rattle.ra_settings.specs.Facts.{facts_of};
ghost use Rattle.ra_settings.specs.Layers.{defaults_of};

use crate::row::{ROWS, Row};
use crate::value::SettingValue;
use plain::Items;
use std::alloc::{AllocError, Global};
use std::marker::Model;
use std::sync::Arc;

/// The default of each row. A clone shares them.
pub struct Defaults {
    values: Arc<Items<SettingValue>, Global>,
}

impl Drop for Defaults {
    fn drop(self) {
        let Defaults { values: _ } = self;
    }
}

impl Model for Defaults {
    ghost use Rattle.std.specs.Prelude.{◌≡◌, List};
    ghost use Rattle.std.specs.Coded.{codes};
    ghost use Rattle.ra_settings.specs.declared.row.TheConstants.{ROWS};
    ghost use Rattle.ra_settings.specs.declared.value.SettingValue.{SettingValue};
    ghost use Rattle.ra_settings.specs.Layers.{defaults_of};
    ghost use Rattle.ra_settings.specs.contracts.value.SettingValue as value_row;

    ghost Value = { List SettingValue };

    ghost coded = { Prim.hlevel (codes, value_row.the_row.coded) };

    ghost view = { λ d. d.values.value };

    ghost invariant = { λ d. d.values.value ≡ defaults_of ROWS };
}

impl Defaults {
    pub fn new(alloc: Global) -> Result<Defaults, AllocError>
        ensures { IfOk result (λ made. made ≡ defaults_of ROWS) }
    {
        let values = defaults_of(alloc, &ROWS)?;
        Ok(Defaults {
            values: Arc::new(alloc, values)?,
        })
    }

    /// The default of a row.
    pub fn get(&self, row: Row) -> &SettingValue
        ensures { result.now ≡ (facts_of row).default }
    {
        default_at(self.values.as_slice(), row)
    }
}

impl Clone for Defaults {
    ghost is_clone = { λ defaults copy. copy ≡ defaults };

    fn clone(&self) -> Result<Defaults, AllocError> {
        Ok(Defaults {
            values: self.values.clone()?,
        })
    }
}

/// The defaults of rows, in their order.
fn defaults_of(alloc: Global, rows: &[Row]) -> Result<Items<SettingValue>, AllocError>
    ensures { IfOk result (λ values. values ≡ defaults_of rows.now) }
{
    let mut values = Items::new(alloc);
    for row in rows {
        values.push(row.facts().default.value(alloc)?)?;
    }
    Ok(values)
}

/// The value at a place of the table.
fn at(values: &[SettingValue], place: usize) -> Option<&SettingValue>
    ensures { option_copied result ≡ slice_get values.now place }
{
    values.get(place)
}

#[tactic(auto, using(crate::proofs::RowLaws::default_stands))]
fn default_at(values: &[SettingValue], row: Row) -> &SettingValue
    requires { values.now ≡ defaults_of ROWS }
    ensures { result.now ≡ (facts_of row).default }
{
    match at(values, row.number()) {
        Some(value) => value,
        None => unreachable!(),
    }
}
