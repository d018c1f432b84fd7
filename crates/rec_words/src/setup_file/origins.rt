//! The origins of a recording's clock.

ghost use Rattle.std.specs.Prelude.{ℕ, ◌≡◌, ◌<◌, ◌≤◌, ◌^◌, List, [], Ok, Some, IfOk, IfSome, MatchResult, codes, map, length};
ghost use Rattle.toml.specs.Data.{Members};
ghost use Rattle.toml.specs.View.{table_view, view, items_view};
ghost use Rattle.ch11_clock.specs.OriginRange.{IsOrigin};
ghost use Rattle.rec_words.specs.Settings.{tables_in, required};
ghost use Rattle.rec_words.specs.SetupFile.{origins_in, noted_origins, single_origin, origin_in, time_told_in, each_after};
ghost use Rattle.rec_words.specs.SetupFile.{is_too_early, in_utc, origin_unless};
ghost use Rattle.rec_words.specs.SetupViews.{origin_data};
ghost use Rattle.rec_words.specs.KeyViews.{KeyReports};

use super::scales::ahead_at;
use crate::keys::{KeyFault, number_at, only, tables_of, value_at};
use ch11_clock::{Origin, read_origin};
use std::alloc::Global;
use toml::{Table, Value};

/// The greatest counter.
const MAX_COUNTER: u64 = (1 << 48) - 1;

/// The nanoseconds of a second.
const NANOS: i128 = 1_000_000_000;

/// The greatest number of origins.
const MAX_ORIGINS: usize = 65_536;

/// The origins in a document's table, where scales that aren't known are so many seconds ahead of UTC.
pub(super) fn origins_in(
    alloc: Global,
    table: &Table,
    unknown: Option<u64>,
) -> Result<Vec<Origin>, KeyFault>
    requires { IfSome unknown (λ ahead. ahead ≤ 255) }
    ensures found { MatchResult result
        (λ found. origins_in unknown (table_view table.now) ≡ Ok (map origin_data found.items))
        (KeyReports (origins_in unknown (table_view table.now))) }
    ensures some { IfOk result (λ found. 0 < length found.items) }
{
    match (value_at(table, "origin"), value_at(table, "origins")) {
        (None, None) => Err(KeyFault::Missing { key: "origin" }),
        (None, Some(many)) => noted_origins(alloc, many, unknown),
        (Some(one), None) => single_origin(alloc, one),
        (Some(one), Some(_)) => {
            single_origin(alloc, one)?;
            Err(KeyFault::Value { key: "origins" })
        }
    }
}

/// The one origin, which holds from counter 0 on, in UTC.
fn single_origin(alloc: Global, value: &Value) -> Result<Vec<Origin>, KeyFault>
    ensures found { MatchResult result
        (λ found. single_origin (view value.now) ≡ Ok (map origin_data found.items))
        (KeyReports (single_origin (view value.now))) }
    ensures some { IfOk result (λ found. 0 < length found.items) }
{
    let origin = origin_before(0, time_from(value)?, 0)?;
    Ok(vec![in alloc; origin]?)
}

/// The origins in a list of 1 to [`MAX_ORIGINS`] tables.
fn noted_origins(
    alloc: Global,
    value: &Value,
    unknown: Option<u64>,
) -> Result<Vec<Origin>, KeyFault>
    requires { IfSome unknown (λ ahead. ahead ≤ 255) }
    ensures found { MatchResult result
        (λ found. noted_origins unknown (view value.now) ≡ Ok (map origin_data found.items))
        (KeyReports (noted_origins unknown (view value.now))) }
    ensures some { IfOk result (λ found. 0 < length found.items) }
{
    let values = tables_of(value, "origins")?;
    if values.is_empty() || values.len() > MAX_ORIGINS {
        return Err(KeyFault::Value { key: "origins" });
    }
    origins_of(alloc, values, unknown)
}

/// The origins in tables.
fn origins_of(
    alloc: Global,
    values: &[Value],
    unknown: Option<u64>,
) -> Result<Vec<Origin>, KeyFault>
    requires { IfSome unknown (λ ahead. ahead ≤ 255) }
    ensures found { (tables : List Members) → tables_in (items_view values.now) ≡ Some tables
        → MatchResult result
        (λ found. each_after (λ _ members. origin_in unknown members) [] tables
        ≡ Ok (map origin_data found.items))
        (KeyReports (each_after (λ _ members. origin_in unknown members) [] tables)) }
    ensures as_many { (tables : List Members) → tables_in (items_view values.now) ≡ Some tables
        → IfOk result (λ found. length found.items ≡ length values.now) }
{
    let mut origins = Vec::new(alloc);
    'values: for value in values {
        if let Some(table) = value.as_table() {
            origins.push(origin_in(alloc, table, unknown)?)?;
        }
    }
    Ok(origins)
}

/// The origin in a table.
fn origin_in(alloc: Global, table: &Table, unknown: Option<u64>) -> Result<Origin, KeyFault>
    requires { IfSome unknown (λ ahead. ahead ≤ 255) }
    ensures { MatchResult result
        (λ found. origin_in unknown (table_view table.now) ≡ Ok (origin_data found))
        (KeyReports (origin_in unknown (table_view table.now))) }
{
    only(alloc, table, &["counter", "origin", "scale", "tai_offset"])?;
    let counter = number_at(table, "counter", 0, MAX_COUNTER)?;
    let told = time_at(table)?;
    origin_before(counter, told, ahead_at(table, unknown)?)
}

/// The time that a table's `origin` says, in nanoseconds since 1970 by its scale.
fn time_at(table: &Table) -> Result<i128, KeyFault>
    ensures time { MatchResult result
        (λ told. required (time_told_in (codes "origin")) (codes "origin")
        (table_view table.now) ≡ Ok told)
        (KeyReports (required (time_told_in (codes "origin")) (codes "origin")
        (table_view table.now))) }
    ensures fits { IfOk result (λ told. (counter : ℕ) → counter < 2 ^ 48 → IsOrigin counter told) }
{
    match value_at(table, "origin") {
        Some(value) => time_from(value),
        None => Err(KeyFault::Missing { key: "origin" }),
    }
}

/// The time that a text says, in nanoseconds since 1970.
fn time_from(value: &Value) -> Result<i128, KeyFault>
    ensures time { MatchResult result
        (λ told. time_told_in (codes "origin") (view value.now) ≡ Ok told)
        (KeyReports (time_told_in (codes "origin") (view value.now))) }
    ensures fits { IfOk result (λ told. (counter : ℕ) → counter < 2 ^ 48 → IsOrigin counter told) }
{
    let fault = KeyFault::Value { key: "origin" };
    let Some(text) = value.as_str() else {
        return Err(fault);
    };
    read_origin(text.as_bytes()).ok_or(fault)
}

/// The origin from a counter on whose time is told by a scale that is so many seconds ahead of UTC.
fn origin_before(counter: u64, told: i128, ahead: u64) -> Result<Origin, KeyFault>
    requires counter { counter < 2 ^ 48 }
    requires ahead { ahead ≤ 255 }
    requires fits { (counter : ℕ) → counter < 2 ^ 48 → IsOrigin counter told }
    ensures { MatchResult result
        (λ found. origin_unless (is_too_early (in_utc told ahead)) counter (in_utc told ahead)
        ≡ Ok (origin_data found))
        (KeyReports (origin_unless (is_too_early (in_utc told ahead)) counter
        (in_utc told ahead))) }
{
    let nanos = told - i128::from(ahead) * NANOS;
    Origin::new(counter, nanos).ok_or(KeyFault::Value { key: "origin" })
}
