//! What the channels of a core are set to.

ghost use Rattle.std.specs.Prelude.{ℕ, ◌≡◌, ◌≢◌, ◌<◌, ◌≤◌, ◌↔◌, length, All, IsTrue};
ghost use Rattle.arrayvec.specs.ArrayVec.{array_vec_len};
ghost use Rattle.rec_writer.specs.Numbers.{AreDistinctChannels};
ghost use Rattle.rec_core.specs.Openings.{AreSpecs, channels_of_specs, IsNew};
ghost use Rattle.rec_core.specs.Views.{specs_data};

use arrayvec::ArrayVec;
use bpf_verify::Verified;
use rec_channel::MAX_CHANNELS;
use rec_lane::LaneSpec;
use std::alloc::Global;
use std::sync::Arc;

/// What a channel of a core is set to.
#[derive(Debug, Drop)]
pub struct ChannelSpec {
    /// What its lane is set to.
    pub lane: LaneSpec,
    /// Its filter's first program.
    pub program: Arc<Verified, Global>,
    /// How many frames it may have.
    pub max: u64,
}

/// Whether a core may have these channels: 1 to [`MAX_CHANNELS`] of them, each with an ID of its
/// own.
pub fn specs_ok(specs: &[ChannelSpec]) -> bool
    ensures { IsTrue result ↔ AreSpecs (specs_data specs.now) }
{
    if specs.is_empty() || specs.len() > MAX_CHANNELS {
        return false;
    }
    are_distinct(channels_of(specs).as_slice())
}

/// Whether no two of these channel IDs are the same.
pub fn are_distinct(channels: &[u16]) -> bool
    ensures { IsTrue result ↔ AreDistinctChannels channels.now }
{
    'channels: for k in 0..channels.len() {
        if !is_new(channels, k) {
            return false;
        }
    }
    true
}

/// Whether no channel ID before this one is the same.
fn is_new(channels: &[u16], k: usize) -> bool
    requires { k < length channels.now }
    ensures { IsTrue result ↔ IsNew channels.now k }
{
    'earlier: for i in 0..k {
        if channels[i] == channels[k] {
            return false;
        }
    }
    true
}

/// The IDs of the channels.
pub(crate) fn channels_of(specs: &[ChannelSpec]) -> ArrayVec<u16, MAX_CHANNELS>
    requires { length specs.now ≤ MAX_CHANNELS }
    ensures channels { result.items ≡ channels_of_specs (specs_data specs.now) }
    ensures named { All (λ (channel : ℕ). channel ≢ 0) result.items }
{
    let mut channels = ArrayVec::new();
    'specs: for k in 0..specs.len() {
        channels.push(specs[k].lane.channel);
    }
    channels
}
