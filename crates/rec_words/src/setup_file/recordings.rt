//! What is said of recordings.

ghost use Rattle.std.specs.Prelude.{ℕ, ◌≡◌, ◌<◌, ◌≤◌, Bool, List, [], None, Ok, Some, IfOk, IfSome, MatchResult, map, length};
ghost use Rattle.std.specs.List.{list_any};
ghost use Rattle.toml.specs.Data.{Members};
ghost use Rattle.toml.specs.View.{table_view, view, items_view};
ghost use Rattle.rec_words.specs.Settings.{tables_in};
ghost use Rattle.rec_words.specs.SetupFile.{recordings_of, recording_in, after_in, followed_at, is_place, stands_alone, each_after};
ghost use Rattle.rec_words.specs.SetupViews.{recording_data};
ghost use Rattle.rec_words.specs.KeyViews.{KeyReports};

use super::RecordingSettings;
use super::channels::channels_in;
use super::origins::origins_in;
use crate::keys::{KeyFault, number_in, only, tables_of, value_at};
use std::alloc::Global;
use toml::{Table, Value};

/// The greatest place that is read.
const MAX_PLACE: u64 = (1 << 63) - 1;

/// So many recordings, in a list of tables of a document, which says nothing of a recording beside them.
pub(super) fn recordings_from(
    alloc: Global,
    document: &Table,
    value: &Value,
    unknown: Option<u64>,
    count: usize,
) -> Result<Vec<RecordingSettings>, KeyFault>
    requires { IfSome unknown (λ ahead. ahead ≤ 255) }
    ensures found { MatchResult result
        (λ found. recordings_of count unknown (table_view document.now) (view value.now)
        ≡ Ok (map recording_data found.items))
        (KeyReports (recordings_of count unknown (table_view document.now) (view value.now))) }
    ensures as_many { IfOk result (λ found. length found.items ≡ count) }
{
    let values = tables_of(value, "recording")?;
    if values.len() != count || !stands_alone(document) {
        return Err(KeyFault::Value { key: "recording" });
    }
    recordings_of(alloc, values, unknown)
}

/// Whether a document says nothing of a recording at its top.
fn stands_alone(document: &Table) -> bool
    ensures { result ≡ stands_alone (table_view document.now) }
{
    value_at(document, "origin").is_none()
        && value_at(document, "origins").is_none()
        && value_at(document, "channel").is_none()
}

/// The recordings in tables.
fn recordings_of(
    alloc: Global,
    values: &[Value],
    unknown: Option<u64>,
) -> Result<Vec<RecordingSettings>, KeyFault>
    requires { IfSome unknown (λ ahead. ahead ≤ 255) }
    ensures found { (tables : List Members) → tables_in (items_view values.now) ≡ Some tables
        → MatchResult result
        (λ found. each_after (recording_in unknown) [] tables ≡ Ok (map recording_data found.items))
        (KeyReports (each_after (recording_in unknown) [] tables)) }
    ensures as_many { (tables : List Members) → tables_in (items_view values.now) ≡ Some tables
        → IfOk result (λ found. length found.items ≡ length values.now) }
{
    let mut recordings = Vec::new(alloc);
    'values: for value in values {
        if let Some(table) = value.as_table() {
            let recording = recording_in(alloc, &recordings, table, unknown)?;
            recordings.push(recording)?;
        }
    }
    Ok(recordings)
}

/// The recording in a table, behind these.
fn recording_in(
    alloc: Global,
    before: &[RecordingSettings],
    table: &Table,
    unknown: Option<u64>,
) -> Result<RecordingSettings, KeyFault>
    requires { IfSome unknown (λ ahead. ahead ≤ 255) }
    ensures { MatchResult result
        (λ found. recording_in unknown (map recording_data before.now) (table_view table.now)
        ≡ Ok (recording_data found))
        (KeyReports (recording_in unknown (map recording_data before.now) (table_view table.now))) }
{
    only(alloc, table, &["origin", "origins", "after", "channel"])?;
    Ok(RecordingSettings {
        origins: origins_in(alloc, table, unknown)?,
        after: after_in(before, table)?,
        channels: channels_in(alloc, table)?,
    })
}

/// The place of the recording that one behind these follows, if it follows one.
fn after_in(before: &[RecordingSettings], table: &Table) -> Result<Option<usize>, KeyFault>
    ensures { MatchResult result
        (λ found. after_in (map recording_data before.now) (table_view table.now) ≡ Ok found)
        (KeyReports (after_in (map recording_data before.now) (table_view table.now))) }
{
    match value_at(table, "after") {
        None => Ok(None),
        Some(value) => Ok(Some(followed_at(before, value)?)),
    }
}

/// The place of one of these recordings, which none of them follows.
fn followed_at(before: &[RecordingSettings], value: &Value) -> Result<usize, KeyFault>
    ensures { MatchResult result
        (λ place. followed_at (map recording_data before.now) (view value.now) ≡ Ok (Some place))
        (KeyReports (followed_at (map recording_data before.now) (view value.now))) }
{
    let place = number_in(value, "after", 0, MAX_PLACE)? as usize;
    if place >= before.len() || is_followed(before, place) {
        return Err(KeyFault::Value { key: "after" });
    }
    Ok(place)
}

/// Whether one of the recordings follows the one at this place.
fn is_followed(recordings: &[RecordingSettings], place: usize) -> bool
    ensures { result ≡ list_any (λ recording. is_place place recording.after)
        (map recording_data recordings.now) }
{
    'recordings: for recording in recordings {
        if recording.after == Some(place) {
            return true;
        }
    }
    false
}
