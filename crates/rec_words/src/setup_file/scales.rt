//! The scales in which times are told.

ghost use Rattle.std.specs.Prelude.{◌≡◌, ◌≤◌, None, Ok, IfOk, IfSome, MatchResult};
ghost use Rattle.toml.specs.View.{table_view, view};
ghost use Rattle.rec_words.specs.SetupFile.{ahead_in, ahead_told_in, ahead_of, unknown_scale, without_offset};
ghost use Rattle.rec_words.specs.KeyViews.{KeyReports};

use crate::keys::{KeyFault, number_at, value_at};
use toml::{Table, Value};

/// The most seconds by which TAI can be told to be ahead of UTC.
const MAX_OFFSET: u64 = 255;

/// How many seconds scales are ahead of UTC that aren't known, if a document's table says it of all.
pub(super) fn unknown_scale(table: &Table) -> Result<Option<u64>, KeyFault>
    ensures found { MatchResult result
        (λ found. unknown_scale (table_view table.now) ≡ Ok found)
        (KeyReports (unknown_scale (table_view table.now))) }
    ensures small { IfOk result (λ found. IfSome found (λ ahead. ahead ≤ 255)) }
{
    match (value_at(table, "scale"), value_at(table, "tai_offset")) {
        (None, None) => Ok(None),
        (None, Some(_)) => Err(KeyFault::Value { key: "tai_offset" }),
        (Some(_), _) => Ok(Some(ahead_at(table, None)?)),
    }
}

/// How many seconds the scale of a table is ahead of UTC, where one that isn't known is so many ahead.
pub(super) fn ahead_at(table: &Table, unknown: Option<u64>) -> Result<u64, KeyFault>
    requires { IfSome unknown (λ ahead. ahead ≤ 255) }
    ensures found { MatchResult result
        (λ ahead. ahead_in unknown (table_view table.now) ≡ Ok ahead)
        (KeyReports (ahead_in unknown (table_view table.now))) }
    ensures small { IfOk result (λ ahead. ahead ≤ 255) }
{
    match value_at(table, "scale") {
        None => without_offset(table, 0),
        Some(value) => ahead_from(table, value, unknown),
    }
}

/// The same by what `scale` has.
fn ahead_from(table: &Table, value: &Value, unknown: Option<u64>) -> Result<u64, KeyFault>
    requires { IfSome unknown (λ ahead. ahead ≤ 255) }
    ensures found { MatchResult result
        (λ ahead. ahead_told_in unknown (table_view table.now) (view value.now) ≡ Ok ahead)
        (KeyReports (ahead_told_in unknown (table_view table.now) (view value.now))) }
    ensures small { IfOk result (λ ahead. ahead ≤ 255) }
{
    match value.as_str() {
        Some(name) => ahead_of(table, name, unknown),
        None => Err(KeyFault::Value { key: "scale" }),
    }
}

/// The same by the scale's name.
fn ahead_of(table: &Table, name: &str, unknown: Option<u64>) -> Result<u64, KeyFault>
    requires { IfSome unknown (λ ahead. ahead ≤ 255) }
    ensures found { MatchResult result
        (λ ahead. ahead_of unknown name.now (table_view table.now) ≡ Ok ahead)
        (KeyReports (ahead_of unknown name.now (table_view table.now))) }
    ensures small { IfOk result (λ ahead. ahead ≤ 255) }
{
    let fault = KeyFault::Value { key: "scale" };
    if name == "UTC" {
        without_offset(table, 0)
    } else if name == "TAI" {
        number_at(table, "tai_offset", 0, MAX_OFFSET)
    } else if name == "unknown" {
        without_offset(table, unknown.ok_or(fault)?)
    } else {
        Err(fault)
    }
}

/// So many seconds, where a table doesn't say how far ahead TAI is: that belongs to TAI alone.
fn without_offset(table: &Table, ahead: u64) -> Result<u64, KeyFault>
    ensures { MatchResult result
        (λ n. (n ≡ ahead) × (without_offset ahead (table_view table.now) ≡ Ok n))
        (KeyReports (without_offset ahead (table_view table.now))) }
{
    match value_at(table, "tai_offset") {
        None => Ok(ahead),
        Some(_) => Err(KeyFault::Value { key: "tai_offset" }),
    }
}
