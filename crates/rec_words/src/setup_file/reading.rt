//! Reads the setup of a Chapter 11 file from a TOML document.

ghost use Rattle.std.specs.Prelude.{◌≡◌, ◌≤◌, None, Ok, IfOk, IfSome, MatchResult, codes, false, length};
ghost use Rattle.toml.specs.Data.{get_member};
ghost use Rattle.toml.specs.View.{table_view};
ghost use Rattle.rec_words.specs.SetupFile.{setup_file, file_in, file_by, general_in, has_tables, says_tables};
ghost use Rattle.rec_words.specs.SetupViews.{file_data, general_data, SetupReports};
ghost use Rattle.rec_words.specs.KeyViews.{KeyReports};

use super::attributes::attributes_in;
use super::channels::channels_in;
use super::fault::SetupFault;
use super::origins::origins_in;
use super::recordings::recordings_from;
use super::scales::unknown_scale;
use super::{FileSettings, GeneralSettings, RecordingSettings};
use crate::keys::{KeyFault, only, text_or, truth_or, value_at};
use std::alloc::Global;
use toml::Table;

/// What a text says of a Chapter 11 file of so many recordings.
///
/// # Errors
///
/// The first fault: that of the text as TOML; at the top a key that means nothing, then what is wrong with `scale`,
/// `tai_offset`, what is said of recordings, and the keys of [`GeneralSettings`] in their order. Of a list of tables
/// first that it is one, then the same in each table. `recording` is missing where there isn't one recording and it
/// isn't set; its value is wrong where it has another number of tables, or where a recording's key stands at the
/// top. Where neither `origin` nor `origins` is set, `origin` is missing; where both are, the value of `origins` is
/// wrong. So is that of an `id` that an earlier table has, and that of an `after` that is no place of an earlier
/// table, or one that an earlier table has. What is said of channels at the top is judged last.
pub fn setup_of(alloc: Global, text: &str, recordings: usize) -> Result<FileSettings, SetupFault>
    ensures said { MatchResult result
        (λ found. setup_file recordings text.now ≡ Ok (file_data found))
        (SetupReports (setup_file recordings text.now)) }
    ensures as_many { IfOk result (λ found. length found.recordings.items ≡ recordings) }
    ensures tables { IfOk result (λ found. found.has_tables ≡ says_tables text.now) }
{
    match toml::table_from_str(alloc, text) {
        Ok(table) => Ok(file_in(alloc, &table, recordings)?),
        Err(error) if error.is_memory() => Err(SetupFault::Memory),
        Err(_) => Err(SetupFault::Syntax),
    }
}

/// What is said in a document's table.
fn file_in(alloc: Global, table: &Table, count: usize) -> Result<FileSettings, KeyFault>
    ensures said { MatchResult result
        (λ found. file_in count (table_view table.now) ≡ Ok (file_data found))
        (KeyReports (file_in count (table_view table.now))) }
    ensures as_many { IfOk result (λ found. length found.recordings.items ≡ count) }
    ensures tables { IfOk result (λ found. found.has_tables ≡ has_tables (table_view table.now)) }
{
    only(
        alloc,
        table,
        &[
            "scale",
            "tai_offset",
            "recording",
            "origin",
            "origins",
            "host",
            "program",
            "external",
            "attributes",
            "channel",
        ],
    )?;
    let unknown = unknown_scale(table)?;
    file_by(alloc, table, unknown, count)
}

/// The same, with what a scale is that isn't known.
fn file_by(
    alloc: Global,
    table: &Table,
    unknown: Option<u64>,
    count: usize,
) -> Result<FileSettings, KeyFault>
    requires { IfSome unknown (λ ahead. ahead ≤ 255) }
    ensures said { MatchResult result
        (λ found. file_by count unknown (table_view table.now)
        (get_member (codes "recording") (table_view table.now))
        ≡ Ok (file_data found))
        (KeyReports (file_by count unknown (table_view table.now)
        (get_member (codes "recording") (table_view table.now)))) }
    ensures as_many { IfOk result (λ found. length found.recordings.items ≡ count) }
    ensures tables { IfOk result (λ found. found.has_tables ≡ has_tables (table_view table.now)) }
{
    match value_at(table, "recording") {
        None => file_of_one(alloc, table, unknown, count),
        Some(value) => Ok(FileSettings {
            recordings: recordings_from(alloc, table, value, unknown, count)?,
            general: general_in(alloc, table)?,
            has_tables: true,
        }),
    }
}

/// What a document says of a file that has no tables of recordings: it is of one.
fn file_of_one(
    alloc: Global,
    table: &Table,
    unknown: Option<u64>,
    count: usize,
) -> Result<FileSettings, KeyFault>
    requires { IfSome unknown (λ ahead. ahead ≤ 255) }
    ensures said { MatchResult result
        (λ found. file_by count unknown (table_view table.now) None ≡ Ok (file_data found))
        (KeyReports (file_by count unknown (table_view table.now) None)) }
    ensures as_many { IfOk result (λ found. length found.recordings.items ≡ count) }
    ensures tables { IfOk result (λ found. found.has_tables ≡ false) }
{
    if count != 1 {
        return Err(KeyFault::Missing { key: "recording" });
    }
    let origins = origins_in(alloc, table, unknown)?;
    let general = general_in(alloc, table)?;
    let recording = RecordingSettings {
        origins,
        after: None,
        channels: channels_in(alloc, table)?,
    };
    Ok(FileSettings {
        recordings: vec![in alloc; recording]?,
        general,
        has_tables: false,
    })
}

/// What is said of the whole file.
fn general_in(alloc: Global, table: &Table) -> Result<GeneralSettings, KeyFault>
    ensures { MatchResult result
        (λ found. general_in (table_view table.now) ≡ Ok (general_data found))
        (KeyReports (general_in (table_view table.now))) }
{
    Ok(GeneralSettings {
        host: text_or(alloc, table, "host", "bpfrec")?,
        program: text_or(alloc, table, "program", "bpfrec")?,
        is_external: truth_or(table, "external", false)?,
        attributes: attributes_in(alloc, table)?,
    })
}
