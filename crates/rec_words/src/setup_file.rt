//! The setup of a Chapter 11 file: what its recording doesn't say.

ghost use Rattle.std.specs.Prelude.{◌<◌, length};

mod attributes;
mod channels;
mod fault;
mod origins;
mod parts;
mod reading;
mod recordings;
mod reserved;
mod scales;

use ch11_clock::Origin;
pub use fault::SetupFault;
pub use reading::setup_of;

/// What is said of a Chapter 11 file. The document's top has the keys `scale` and `tai_offset`, which say what an
/// unknown scale is; `recording`, a table for each recording; and those of [`GeneralSettings`]. For a single
/// recording its keys `origin`, `origins` and `channel` may stand at the top, and `recording` isn't set.
#[derive(Drop)]
pub struct FileSettings {
    /// What is said of each recording, in their order.
    pub recordings: Vec<RecordingSettings>,
    /// What is said of the whole file.
    pub general: GeneralSettings,
    /// Whether the document has the key `recording`, so that the places of recordings are of interest to its writer.
    pub has_tables: bool,
}

/// What is said of a recording.
#[derive(Drop)]
pub struct RecordingSettings {
    /// 1 to 65,536 origins of the clock, in UTC and in the order in which they were noted: the tables of
    /// `origins`, each with a `counter` and an `origin`, and with the `scale` that it is in ("UTC" if it
    /// isn't set, "TAI", "unknown"), of TAI with `tai_offset`, the seconds by which TAI is ahead; or
    /// `origin` alone, in UTC from counter 0 on. One of the two must be set.
    pub origins: Vec<Origin>,
    /// The place, from 0, of an earlier recording that this one follows in its run, if it follows one; no two
    /// follow the same.
    pub after: Option<usize>,
    /// What is said of channels, each with an ID of its own; none if they aren't set.
    pub channels: Vec<ChannelSetup>,
    pub ghost has_origin: { 0 < length origins.items },
}

/// What is said of the whole file.
#[derive(Drop)]
pub struct GeneralSettings {
    /// The computer that recorded; `bpfrec` if it isn't set.
    pub host: String,
    /// The program that recorded; `bpfrec` if it isn't set.
    pub program: String,
    /// Whether an outside source held the clock (`external`); it didn't if that isn't set.
    pub is_external: bool,
    /// The attributes that a user adds, in their order; none if they aren't set.
    pub attributes: Vec<AddedAttribute>,
}

/// An attribute of the setup record that a user adds: `NAME:VALUE` in printable ASCII without `;`.
#[derive(Drop)]
pub struct AddedAttribute {
    /// A name with no `:`, which isn't empty, and which a setup record doesn't write.
    pub name: String,
    /// The value, which may be empty.
    pub value: String,
}

/// What is said of a channel.
#[derive(Drop)]
pub struct ChannelSetup {
    /// The channel ID, 1 to 65,535; it must be set.
    pub id: u16,
    /// Its name; `channel` if it isn't set.
    pub name: String,
    /// The number of its network: 0 to 255; 0 if it isn't set.
    pub net: u8,
    pub ghost named: { 0 < id },
}
