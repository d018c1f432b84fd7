//! Reads the settings of a recording from a TOML document.

ghost use Rattle.std.specs.Prelude.{◌≡◌, ◌==◌, [], List, Ok, Some, MatchResult, map, codes};
ghost use Rattle.std.specs.List.{list_any};
ghost use Rattle.toml.specs.Data.{Members};
ghost use Rattle.toml.specs.View.{table_view, items_view};
ghost use Rattle.ch11_packet.specs.declared.limit.TheConstants.{MIN_LIMIT, MAX_LIMIT};
ghost use Rattle.rec_words.specs.Settings.{settings, settings_in, channel_in, channels_in, channel_tables, tables_in, number_or, repeated};
ghost use Rattle.rec_words.specs.SettingsViews.{settings_data, channel_data, Reports};
ghost use Rattle.rec_words.specs.KeyViews.{KeyReports};

use super::fault::SettingsFault;
use super::{ChannelSettings, Settings};
use crate::keys::{KeyFault, number_at, number_or, only, tables_of, text_at, value_at};
use ch11_packet::{Limit, MAX_LIMIT, MAX_SPEED, MIN_LIMIT};
use rec_channel::{MAX_CHANNELS, MAX_RING};
use std::alloc::Global;
use toml::{Table, Value};

/// The greatest span: that of the greatest counter of 48 bits.
const MAX_SPAN: u64 = 281_474_976_710_655;

/// The settings that a text has.
///
/// # Errors
///
/// The first fault: that of the text as TOML; at the top a key that means nothing, then what is
/// wrong with `limit`, `ring`, `version` and `channel`; then the same in each channel's table, its
/// keys in the order of [`ChannelSettings`]; last an ID that repeats an earlier one.
pub fn settings_of(alloc: Global, text: &str) -> Result<Settings, SettingsFault>
    ensures { MatchResult result
        (λ found. settings text.now ≡ Ok (settings_data found))
        (Reports (settings text.now)) }
{
    match toml::table_from_str(alloc, text) {
        Ok(table) => settings_in(alloc, &table),
        Err(error) if error.is_memory() => Err(SettingsFault::Memory),
        Err(_) => Err(SettingsFault::Syntax),
    }
}

/// The settings in a document's table.
fn settings_in(alloc: Global, table: &Table) -> Result<Settings, SettingsFault>
    ensures { MatchResult result
        (λ found. settings_in (table_view table.now) ≡ Ok (settings_data found))
        (Reports (settings_in (table_view table.now))) }
{
    only(alloc, table, &["limit", "ring", "version", "channel"])?;
    let limit = limit_in(table)?;
    let ring = number_or(table, "ring", 1, MAX_RING as u64, 64)? as usize;
    let version = number_or(table, "version", 0, u64::from(u8::MAX), 8)? as u8;
    let channels = channels_in(alloc, channel_tables(table)?)?;
    if let Some(id) = repeated(channels.as_slice()) {
        return Err(SettingsFault::SameChannel { id });
    }
    Ok(Settings {
        limit,
        ring,
        version,
        channels,
    })
}

/// The limit of packets, which counts no data checksum.
fn limit_in(table: &Table) -> Result<Limit, KeyFault>
    ensures { MatchResult result
        (λ limit. number_or 65536 MIN_LIMIT MAX_LIMIT (codes "limit") (table_view table.now)
        ≡ Ok limit)
        (KeyReports (number_or 65536 MIN_LIMIT MAX_LIMIT (codes "limit") (table_view table.now))) }
{
    let least = u64::from(MIN_LIMIT);
    let bytes = number_or(table, "limit", least, u64::from(MAX_LIMIT), 65_536)?;
    Limit::new(bytes as u32).ok_or(KeyFault::Value { key: "limit" })
}

/// The channels, 1 to [`MAX_CHANNELS`] values, each of which is a table.
fn channel_tables(table: &Table) -> Result<&[Value], SettingsFault>
    ensures { MatchResult result
        (λ values. (tables : List Members) × (tables_in (items_view values.now) ≡ Some tables)
        × (channel_tables (table_view table.now) ≡ Ok tables))
        (Reports (channel_tables (table_view table.now))) }
{
    let Some(value) = value_at(table, "channel") else {
        return Err(SettingsFault::Channels);
    };
    let values = tables_of(value, "channel")?;
    if values.is_empty() || values.len() > MAX_CHANNELS {
        return Err(SettingsFault::Channels);
    }
    Ok(values)
}

/// The settings of the channels, in order.
fn channels_in(alloc: Global, values: &[Value]) -> Result<Vec<ChannelSettings>, KeyFault>
    ensures { (tables : List Members) → tables_in (items_view values.now) ≡ Some tables
        → MatchResult result
        (λ found. channels_in tables ≡ Ok (map channel_data found.items))
        (KeyReports (channels_in tables)) }
{
    let mut channels = Vec::new(alloc);
    'values: for value in values {
        if let Some(table) = value.as_table() {
            channels.push(channel_in(alloc, table)?)?;
        }
    }
    Ok(channels)
}

/// The settings of a channel.
fn channel_in(alloc: Global, table: &Table) -> Result<ChannelSettings, KeyFault>
    ensures { MatchResult result
        (λ found. channel_in (table_view table.now) ≡ Ok (channel_data found))
        (KeyReports (channel_in (table_view table.now))) }
{
    only(
        alloc,
        table,
        &["id", "feed", "filter", "net", "speed", "max", "span"],
    )?;
    let most = i64::MAX as u64;
    Ok(ChannelSettings {
        id: number_at(table, "id", 1, u64::from(u16::MAX))? as u16,
        feed: text_at(alloc, table, "feed")?,
        filter: text_at(alloc, table, "filter")?,
        net: number_or(table, "net", 0, u64::from(u8::MAX), 0)? as u8,
        speed: number_or(table, "speed", 0, u64::from(MAX_SPEED), 0)? as u8,
        max: number_or(table, "max", 0, most, most)?,
        span: number_or(table, "span", 0, MAX_SPAN, 0)?,
    })
}

/// The first ID that repeats an earlier one.
fn repeated(channels: &[ChannelSettings]) -> Option<u16>
    ensures { result ≡ repeated [] (map (λ c. c.id) channels.now) }
{
    'channels: for k in 0..channels.len() {
        let id = channels[k].id;
        if has_id(&channels[..k], id) {
            return Some(id);
        }
    }
    None
}

/// Whether one of the channels has this ID.
fn has_id(channels: &[ChannelSettings], id: u16) -> bool
    ensures { result ≡ list_any (λ before. before == id) (map (λ c. c.id) channels.now) }
{
    'channels: for channel in channels {
        if channel.id == id {
            return true;
        }
    }
    false
}
