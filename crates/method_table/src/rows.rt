// What is found in the table.
ghost use Rattle.std.specs.Prelude.{◌≡◌, true, IfOk, slice_get};
ghost use Rattle.std.specs.Cmp.Lexicographic.{slice_cmp};
ghost use Rattle.std.specs.Option.{option_map};
ghost use Rattle.std.specs.Ordering.{nat_cmp};
ghost use Rattle.plain.specs.Plain.{is_plain};
ghost use Rattle.method_table.specs.Rows.{facts_of, row_of, method_of, class_of, retries, default_of};
ghost use Rattle.method_table.specs.Seen.{seen};

use crate::class::Class;
use crate::facts::{BY_METHOD, MethodRow, table};
use crate::row_id::RowId;
use plain::{Json, NoMemory};
use std::alloc::Global;
use std::cmp::Ordering;

/// What stands at a place of a table.
fn at(table: &[MethodRow], place: usize) -> Option<&MethodRow>
    ensures { option_map (λ facts. facts.now) result ≡ slice_get table.now place }
{
    table.get(place)
}

/// What the table says of a row.
pub(crate) fn facts_of(row: RowId) -> Option<&'static MethodRow>
    ensures { option_map (λ facts. seen row.0 facts.now) result ≡ facts_of row }
{
    if row.0 == 0 {
        return None;
    }
    at(table(), usize::from(row.0 - 1))
}

/// The method of a row; empty where the table has no row of this number.
pub fn method_of(row: RowId) -> &'static str
    ensures { result.now ≡ method_of row }
{
    match facts_of(row) {
        Some(facts) => facts.method,
        None => "",
    }
}

fn compare(row: RowId, method: &str) -> Ordering
    ensures { result ≡ slice_cmp nat_cmp (method_of row) method.now }
{
    method_of(row).cmp(method)
}

/// The row of a method, in a number of comparisons that grows with the logarithm of the number of rows.
pub fn row_of(method: &str) -> Option<RowId>
    ensures { result ≡ row_of method.now }
{
    match BY_METHOD.binary_search_by(|row| compare(*row, method)) {
        Ok(place) => Some(BY_METHOD[place]),
        Err(_) => None,
    }
}

/// How the requests of a row are answered.
pub fn class_of(row: RowId) -> Class
    ensures { result ≡ class_of row }
{
    match facts_of(row) {
        Some(facts) => facts.class,
        None => Class::Worker,
    }
}

/// Whether a request of the row is planned again where its job was cancelled.
pub fn retries(row: RowId) -> bool
    ensures { result ≡ retries row }
{
    match facts_of(row) {
        Some(facts) => facts.retries,
        None => false,
    }
}

/// What a request of the row is answered while it can't be worked on; null where it is never answered so.
pub fn default_of(alloc: Global, row: RowId) -> Result<Json, NoMemory>
    ensures value { IfOk result (λ json. json ≡ default_of row) }
    ensures plain { IfOk result (λ json. is_plain json ≡ true) }
{
    match facts_of(row) {
        Some(facts) => facts.default.value(alloc),
        None => Ok(Json::null()),
    }
}
