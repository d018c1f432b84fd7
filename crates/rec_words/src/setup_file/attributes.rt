//! The attributes that a user adds.

ghost use Rattle.std.specs.Prelude.{◌≡◌, Ok, IfOk, MatchResult, map, option_map, option_and_then};
ghost use Rattle.std.specs.List.{list_all};
ghost use Rattle.toml.specs.Data.{as_str};
ghost use Rattle.toml.specs.View.{table_view, view, items_view};
ghost use Rattle.ch11_setup.specs.Attributes.{attribute_of};
ghost use Rattle.rec_words.specs.SetupFile.{attributes_in, attributes_of, attributes_said, all_attributes};
ghost use Rattle.rec_words.specs.SetupFile.{attribute_said, attribute_with, is_attribute_byte};
ghost use Rattle.rec_words.specs.SetupViews.{attribute_data};
ghost use Rattle.rec_words.specs.KeyViews.{KeyReports};

use super::AddedAttribute;
use super::parts::cut_at;
use super::reserved::is_reserved;
use crate::keys::{KeyFault, value_at};
use std::alloc::{AllocError, Global};
use toml::{Table, Value};

/// The attributes in a document's table.
pub(super) fn attributes_in(alloc: Global, table: &Table) -> Result<Vec<AddedAttribute>, KeyFault>
    ensures { MatchResult result
        (λ found. attributes_in (table_view table.now) ≡ Ok (map attribute_data found.items))
        (KeyReports (attributes_in (table_view table.now))) }
{
    match value_at(table, "attributes") {
        Some(value) => attributes_from(alloc, value),
        None => Ok(Vec::new(alloc)),
    }
}

/// The attributes in a list of texts.
fn attributes_from(alloc: Global, value: &Value) -> Result<Vec<AddedAttribute>, KeyFault>
    ensures { MatchResult result
        (λ found. attributes_of (view value.now) ≡ Ok (map attribute_data found.items))
        (KeyReports (attributes_of (view value.now))) }
{
    match value.as_array() {
        Some(values) => attributes_of(alloc, values),
        None => Err(KeyFault::Value { key: "attributes" }),
    }
}

/// The attributes that values say, each of which must be the text of one.
fn attributes_of(alloc: Global, values: &[Value]) -> Result<Vec<AddedAttribute>, KeyFault>
    ensures { MatchResult result
        (λ found. all_attributes (attributes_said (items_view values.now))
        ≡ Ok (map attribute_data found.items))
        (KeyReports (all_attributes (attributes_said (items_view values.now)))) }
{
    let mut attributes = Vec::new(alloc);
    'values: for value in values {
        let Some((name, value)) = attribute_in(alloc, value)? else {
            return Err(KeyFault::Value { key: "attributes" });
        };
        attributes.push(AddedAttribute {
            name: String::from_str(alloc, name)?,
            value: String::from_str(alloc, value)?,
        })?;
    }
    Ok(attributes)
}

/// The name and the value of the attribute that a value says.
fn attribute_in(alloc: Global, value: &Value) -> Result<Option<(&str, &str)>, AllocError>
    ensures { IfOk result (λ found. option_map (λ parts. attribute_of parts.0.now parts.1.now) found
        ≡ option_and_then attribute_said (as_str (view value.now))) }
{
    match value.as_str() {
        Some(text) => attribute_said(alloc, text),
        None => Ok(None),
    }
}

/// The name and the value of the attribute that a text says.
fn attribute_said(alloc: Global, text: &str) -> Result<Option<(&str, &str)>, AllocError>
    ensures { IfOk result (λ found. option_map (λ parts. attribute_of parts.0.now parts.1.now) found
        ≡ attribute_said text.now) }
{
    if !are_attribute_bytes(text.as_bytes()) {
        return Ok(None);
    }
    match cut_at(text, ':') {
        Some((name, value)) => attribute_with(alloc, name, value),
        None => Ok(None),
    }
}

/// An attribute by its name and its value, if it may be added.
fn attribute_with<'t>(
    alloc: Global,
    name: &'t str,
    value: &'t str,
) -> Result<Option<(&'t str, &'t str)>, AllocError>
    ensures { IfOk result (λ found. option_map (λ parts. attribute_of parts.0.now parts.1.now) found
        ≡ attribute_with (name.now, value.now)) }
{
    if name.is_empty() || is_reserved(alloc, name)? {
        return Ok(None);
    }
    Ok(Some((name, value)))
}

/// Whether all bytes may stand in an attribute.
fn are_attribute_bytes(bytes: &[u8]) -> bool
    ensures { result ≡ list_all is_attribute_byte bytes.now }
{
    'bytes: for byte in bytes {
        if !is_attribute_byte(*byte) {
            return false;
        }
    }
    true
}

/// Whether a byte may stand in an attribute: printable ASCII that doesn't end one.
fn is_attribute_byte(byte: u8) -> bool
    ensures { result ≡ is_attribute_byte byte }
{
    (b' '..=b'~').contains(&byte) && byte != b';'
}
