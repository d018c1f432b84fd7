//! The settings of a recording, and of its channels.

ghost use Rattle.std.specs.Prelude.{◌≤◌, ◌<◌, ◌^◌};
ghost use Rattle.rec_channel.specs.declared.limits.TheConstants.{MAX_RING};
ghost use Rattle.ch11_packet.specs.declared.frames.word.TheConstants.{MAX_SPEED};

mod fault;
mod reading;

use ch11_packet::Limit;
pub use fault::SettingsFault;
pub use reading::settings_of;

/// The settings of a recording. The document's top has the keys `limit`, `ring`, `version` and
/// `channel`, and each table of `channel` the keys of [`ChannelSettings`].
#[derive(Drop)]
pub struct Settings {
    /// How long a packet of frames may get without its data checksum, in bytes: 16,424 to 524,284;
    /// 65,536 if it isn't set.
    pub limit: Limit,
    /// How many pieces wait for the output, for each channel: 1 to 4,096; 64 if it isn't set.
    pub ring: usize,
    /// The data type version of the packets: 0 to 255; 8 if it isn't set, that of IRIG 106-17.
    pub version: u8,
    /// 1 to 64 channels, each with an ID of its own.
    pub channels: Vec<ChannelSettings>,
    pub ghost ring_fits: { (1 ≤ ring) × (ring ≤ MAX_RING) },
}

/// The settings of a channel.
#[derive(Drop)]
pub struct ChannelSettings {
    /// The channel ID, 1 to 65,535; it must be set.
    pub id: u16,
    /// The path of the feed that its frames come from; it must be set.
    pub feed: String,
    /// The path of the listing of its filter's first program; it must be set.
    pub filter: String,
    /// The network identifier that its frames get: 0 to 255; 0 if it isn't set.
    pub net: u8,
    /// The Ethernet speed that its frames get: 0 to 15; 0 if it isn't set.
    pub speed: u8,
    /// How many frames may be taken: 0 to 9,223,372,036,854,775,807, and that if it isn't set.
    pub max: u64,
    /// How old a packet of frames may get, in units of the counter, 100 ns each: 0 to
    /// 281,474,976,710,655; 0 if it isn't set, and then no packet is closed by its age.
    pub span: u64,
    pub ghost named: { 0 < id },
    pub ghost speed_fits: { speed ≤ MAX_SPEED },
    pub ghost span_fits: { span < 2 ^ 48 },
}
