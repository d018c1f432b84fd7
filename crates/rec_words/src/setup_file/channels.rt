//! What is said of channels.

ghost use Rattle.std.specs.Prelude.{◌≡◌, ◌==◌, List, [], Ok, Some, MatchResult, map};
ghost use Rattle.std.specs.List.{list_any};
ghost use Rattle.toml.specs.Data.{Members};
ghost use Rattle.toml.specs.View.{table_view, view, items_view};
ghost use Rattle.rec_words.specs.Settings.{tables_in};
ghost use Rattle.rec_words.specs.SetupFile.{setup_channels_in, setup_channels_of, setup_channel_in, each_after};
ghost use Rattle.rec_words.specs.SetupViews.{setup_channel_data};
ghost use Rattle.rec_words.specs.KeyViews.{KeyReports};

use super::ChannelSetup;
use crate::keys::{KeyFault, number_at, number_or, only, tables_of, text_or, value_at};
use std::alloc::Global;
use toml::{Table, Value};

/// The channels in a document's table.
pub(super) fn channels_in(alloc: Global, table: &Table) -> Result<Vec<ChannelSetup>, KeyFault>
    ensures { MatchResult result
        (λ found. setup_channels_in (table_view table.now)
        ≡ Ok (map setup_channel_data found.items))
        (KeyReports (setup_channels_in (table_view table.now))) }
{
    match value_at(table, "channel") {
        Some(value) => channels_from(alloc, value),
        None => Ok(Vec::new(alloc)),
    }
}

/// The channels in a list of tables.
fn channels_from(alloc: Global, value: &Value) -> Result<Vec<ChannelSetup>, KeyFault>
    ensures { MatchResult result
        (λ found. setup_channels_of (view value.now) ≡ Ok (map setup_channel_data found.items))
        (KeyReports (setup_channels_of (view value.now))) }
{
    channels_of(alloc, tables_of(value, "channel")?)
}

/// The channels in tables.
fn channels_of(alloc: Global, values: &[Value]) -> Result<Vec<ChannelSetup>, KeyFault>
    ensures { (tables : List Members) → tables_in (items_view values.now) ≡ Some tables
        → MatchResult result
        (λ found. each_after setup_channel_in [] tables ≡ Ok (map setup_channel_data found.items))
        (KeyReports (each_after setup_channel_in [] tables)) }
{
    let mut channels = Vec::new(alloc);
    'values: for value in values {
        if let Some(table) = value.as_table() {
            let channel = channel_in(alloc, &channels, table)?;
            channels.push(channel)?;
        }
    }
    Ok(channels)
}

/// The channel in a table, which has another ID than those before it.
fn channel_in(
    alloc: Global,
    before: &[ChannelSetup],
    table: &Table,
) -> Result<ChannelSetup, KeyFault>
    ensures { MatchResult result
        (λ found. setup_channel_in (map setup_channel_data before.now) (table_view table.now)
        ≡ Ok (setup_channel_data found))
        (KeyReports (setup_channel_in (map setup_channel_data before.now)
        (table_view table.now))) }
{
    only(alloc, table, &["id", "name", "net"])?;
    let id = number_at(table, "id", 1, u64::from(u16::MAX))? as u16;
    if has_id(before, id) {
        return Err(KeyFault::Value { key: "id" });
    }
    Ok(ChannelSetup {
        id,
        name: text_or(alloc, table, "name", "channel")?,
        net: number_or(table, "net", 0, u64::from(u8::MAX), 0)? as u8,
    })
}

/// Whether one of the channels has this ID.
fn has_id(channels: &[ChannelSetup], id: u16) -> bool
    ensures { result
        ≡ list_any (λ channel. channel.id == id) (map setup_channel_data channels.now) }
{
    'channels: for channel in channels {
        if channel.id == id {
            return true;
        }
    }
    false
}
