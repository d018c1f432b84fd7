//! What a channel's lane is set to.

ghost use Rattle.std.specs.Prelude.{◌<◌, ◌≤◌, ◌^◌};
ghost use Rattle.std.specs.Option.{ForSome};
ghost use Rattle.ch11_packet.specs.declared.frames.word.TheConstants.{MAX_SPEED};

use ch11_packet::{Limit, MAX_SPEED};

/// What a channel's lane is set to.
#[derive(Clone, Copy, Debug)]
pub struct LaneSpec {
    /// The channel ID, which is not 0.
    pub channel: u16,
    /// The network identifier that each frame gets.
    pub net: u8,
    /// The speed that each frame gets, at most [`MAX_SPEED`].
    pub speed: u8,
    /// How long a packet of frames may get.
    pub limit: Limit,
    /// How old a packet of frames may get, in units of the counter, 1 to 2^48 - 1, if there is such a
    /// limit: a frame or a time mark that is so much later than its first frame closes it.
    pub span: Option<u64>,
    pub ghost named: { 0 < channel },
    pub ghost speed_fits: { speed ≤ MAX_SPEED },
    pub ghost span_fits: { ForSome span (λ age. (0 < age) × (age < 2 ^ 48)) },
}

impl LaneSpec {
    ghost use Rattle.std.specs.Prelude.{◌≡◌, ◌<◌, ◌≤◌, ◌^◌, ◌↔◌, IsSome, IfSome};
    ghost use Rattle.rec_lane.specs.Settings.{settings_of, with_span, spec_data};

    /// A lane's settings without a span: `None` for channel 0, and for a speed over [`MAX_SPEED`].
    pub fn new(channel: u16, net: u8, speed: u8, limit: Limit) -> Option<LaneSpec>
        ensures in_range { IsSome result ↔ ((0 < channel) × (speed ≤ MAX_SPEED)) }
        ensures fields { IfSome result (λ spec. spec_data spec
            ≡ settings_of channel net speed limit) }
    {
        if channel == 0 || speed > MAX_SPEED {
            return None;
        }
        Some(LaneSpec {
            channel,
            net,
            speed,
            limit,
            span: None,
        })
    }

    /// The same settings with a span.
    pub fn with_span(self, span: u64) -> LaneSpec
        requires some { 0 < span }
        requires fits { span < 2 ^ 48 }
        ensures { spec_data result ≡ with_span (spec_data self) span }
    {
        LaneSpec {
            channel: self.channel,
            net: self.net,
            speed: self.speed,
            limit: self.limit,
            span: Some(span),
        }
    }
}
