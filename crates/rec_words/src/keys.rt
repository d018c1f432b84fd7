//! What the keys of a table have.

ghost use Rattle.std.specs.Prelude.{◌≡◌, ◌↔◌, ◌≤◌, List, Some, Ok, IfOk, IsTrue, IsSome, MatchResult, map, option_map, string_bytes};
ghost use Rattle.toml.specs.Data.{Members, get_member};
ghost use Rattle.toml.specs.View.{table_view, view, items_view};
ghost use Rattle.rec_words.specs.Settings.{only, other_key, is_among, keys_of, number_in, number_or, required, text_in, tables_in};
ghost use Rattle.rec_words.specs.SetupFile.{text_or, truth_in, truth_or, tables_of};
ghost use Rattle.rec_words.specs.KeyViews.{KeyReports};

mod fault;

pub(crate) use fault::KeyFault;
use std::alloc::Global;
use toml::{Table, Value};

/// Refuses a table with another key than these; the least of them is reported.
pub(crate) fn only(alloc: Global, table: &Table, known: &[&str]) -> Result<(), KeyFault>
    ensures { MatchResult result
        (λ _. only (map (λ k. k.now) known.now) (table_view table.now) ≡ Ok (table_view table.now))
        (KeyReports (only (map (λ k. k.now) known.now) (table_view table.now))) }
{
    match other_key(table, known) {
        None => Ok(()),
        Some(key) => Err(KeyFault::Unknown {
            key: String::from_str(alloc, key)?,
        }),
    }
}

/// The least key of a table that is none of these.
fn other_key<'t>(table: &'t Table, known: &[&str]) -> Option<&'t str>
    ensures { option_map (λ k. k.now) result
        ≡ other_key (map (λ k. k.now) known.now) (keys_of (table_view table.now)) }
{
    'keys: for key in table.keys() {
        if !is_among(known, key.as_str()) {
            return Some(key.as_str());
        }
    }
    None
}

/// Whether a key is one of these.
pub(crate) fn is_among(known: &[&str], key: &str) -> bool
    ensures { result ≡ is_among (map (λ k. k.now) known.now) key.now }
{
    known.contains(&key)
}

/// The number of a key that a table must have, `least` to `most`.
pub(crate) fn number_at(
    table: &Table,
    key: &'static str,
    least: u64,
    most: u64,
) -> Result<u64, KeyFault>
    ensures number { MatchResult result
        (λ n. required (number_in least most key.now) key.now (table_view table.now) ≡ Ok n)
        (KeyReports (required (number_in least most key.now) key.now (table_view table.now))) }
    ensures within { IfOk result (λ n. (least ≤ n) × (n ≤ most)) }
{
    match value_at(table, key) {
        Some(value) => number_in(value, key, least, most),
        None => Err(KeyFault::Missing { key }),
    }
}

/// The text of a key that a table must have.
pub(crate) fn text_at(alloc: Global, table: &Table, key: &'static str) -> Result<String, KeyFault>
    ensures { MatchResult result
        (λ s. required (text_in key.now) key.now (table_view table.now) ≡ Ok (string_bytes s))
        (KeyReports (required (text_in key.now) key.now (table_view table.now))) }
{
    match value_at(table, key) {
        Some(value) => text_in(alloc, value, key),
        None => Err(KeyFault::Missing { key }),
    }
}

/// The text of a key; `default` where the table doesn't have the key.
pub(crate) fn text_or(
    alloc: Global,
    table: &Table,
    key: &'static str,
    default: &str,
) -> Result<String, KeyFault>
    ensures { MatchResult result
        (λ s. text_or default.now key.now (table_view table.now) ≡ Ok (string_bytes s))
        (KeyReports (text_or default.now key.now (table_view table.now))) }
{
    match value_at(table, key) {
        Some(found) => text_in(alloc, found, key),
        None => Ok(String::from_str(alloc, default)?),
    }
}

/// Whether a key has `true` and not `false`; `default` where the table doesn't have the key.
pub(crate) fn truth_or(table: &Table, key: &'static str, default: bool) -> Result<bool, KeyFault>
    ensures { MatchResult result
        (λ is. truth_or default key.now (table_view table.now) ≡ Ok is)
        (KeyReports (truth_or default key.now (table_view table.now))) }
{
    match value_at(table, key) {
        Some(value) => truth_in(value, key),
        None => Ok(default),
    }
}

/// The number of a key, `least` to `most`; `default` where the table doesn't have the key.
pub(crate) fn number_or(
    table: &Table,
    key: &'static str,
    least: u64,
    most: u64,
    default: u64,
) -> Result<u64, KeyFault>
    requires { (least ≤ default) × (default ≤ most) }
    ensures number { MatchResult result
        (λ n. number_or default least most key.now (table_view table.now) ≡ Ok n)
        (KeyReports (number_or default least most key.now (table_view table.now))) }
    ensures within { IfOk result (λ n. (least ≤ n) × (n ≤ most)) }
{
    match value_at(table, key) {
        Some(value) => number_in(value, key, least, most),
        None => Ok(default),
    }
}

/// A whole number, `least` to `most`.
pub(crate) fn number_in(
    value: &Value,
    key: &'static str,
    least: u64,
    most: u64,
) -> Result<u64, KeyFault>
    ensures number { MatchResult result
        (λ n. number_in least most key.now (view value.now) ≡ Ok n)
        (KeyReports (number_in least most key.now (view value.now))) }
    ensures within { IfOk result (λ n. (least ≤ n) × (n ≤ most)) }
{
    let fault = KeyFault::Value { key };
    let Some(number) = value.as_integer() else {
        return Err(fault);
    };
    match u64::try_from(number) {
        Ok(number) if least <= number && number <= most => Ok(number),
        _ => Err(fault),
    }
}

/// A text.
fn text_in(alloc: Global, value: &Value, key: &'static str) -> Result<String, KeyFault>
    ensures { MatchResult result
        (λ s. text_in key.now (view value.now) ≡ Ok (string_bytes s))
        (KeyReports (text_in key.now (view value.now))) }
{
    match value.as_str() {
        Some(text) => Ok(String::from_str(alloc, text)?),
        None => Err(KeyFault::Value { key }),
    }
}

/// Whether a value is `true` and not `false`.
fn truth_in(value: &Value, key: &'static str) -> Result<bool, KeyFault>
    ensures { MatchResult result
        (λ is. truth_in key.now (view value.now) ≡ Ok is)
        (KeyReports (truth_in key.now (view value.now))) }
{
    value.as_bool().ok_or(KeyFault::Value { key })
}

/// What a key has.
pub(crate) fn value_at<'t>(table: &'t Table, key: &str) -> Option<&'t Value>
    ensures { option_map (λ v. view v.now) result ≡ get_member key.now (table_view table.now) }
{
    table.get(key)
}

/// Whether all values are tables.
fn are_tables(values: &[Value]) -> bool
    ensures { IsTrue result ↔ IsSome (tables_in (items_view values.now)) }
{
    'values: for value in values {
        if !value.is_table() {
            return false;
        }
    }
    true
}

/// The values of a list, each of which is a table.
pub(crate) fn tables_of<'v>(value: &'v Value, key: &'static str) -> Result<&'v [Value], KeyFault>
    ensures { MatchResult result
        (λ values. (tables : List Members) × (tables_in (items_view values.now) ≡ Some tables)
        × (tables_of key.now (view value.now) ≡ Ok tables))
        (KeyReports (tables_of key.now (view value.now))) }
{
    match value.as_array() {
        Some(values) if are_tables(values.as_slice()) => Ok(values.as_slice()),
        _ => Err(KeyFault::Value { key }),
    }
}
