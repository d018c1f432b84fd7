//! The script that drives the recorder's core: a recorder, its channels, and events, a line each.

ghost use Rattle.std.specs.Prelude.{◌<◌, ◌≤◌, IfSome};
ghost use Rattle.rec_channel.specs.declared.limits.TheConstants.{MAX_RING};

use bpf_insn::ListingFault;
use bpf_verify::Verified;
use ch11_packet::{Limit, MAX_SPEED};
use cli_streams::{ListedFault, channel_in, listed_program};
use eth_frame::{COUNTER_BITS, Frame};
use hex::FromHexError;
use rec_core::{ChannelSpec, Event, MAX_RING};
use rec_lane::LaneSpec;
use std::alloc::{AllocError, AllocFailed, Global};
use std::sync::Arc;

/// The greatest counter.
const MAX_COUNTER: u64 = (1 << COUNTER_BITS) - 1;

/// Why a line of a script isn't read.
#[derive(Clone, Copy)]
pub(crate) enum LineFault {
    /// It has another shape, or something in it is out of its range.
    Shape,
    /// There is no memory for it.
    Memory,
}

impl From<AllocError> for LineFault {
    fn from(_error: AllocError) -> LineFault {
        LineFault::Memory
    }
}

impl<T: Drop> From<AllocFailed<T>> for LineFault {
    fn from(_error: AllocFailed<T>) -> LineFault {
        LineFault::Memory
    }
}

impl From<ListingFault> for LineFault {
    fn from(fault: ListingFault) -> LineFault {
        match fault {
            ListingFault::Memory => LineFault::Memory,
            _ => LineFault::Shape,
        }
    }
}

impl From<FromHexError> for LineFault {
    fn from(error: FromHexError) -> LineFault {
        match error {
            FromHexError::OutOfMemory => LineFault::Memory,
            _ => LineFault::Shape,
        }
    }
}

/// What the first line sets for all channels.
#[derive(Clone, Copy)]
pub(crate) struct Recorder {
    pub(crate) limit: Limit,
    pub(crate) ring: usize,
    pub(crate) version: u8,
    ghost ring_fits: { (0 < ring) × (ring ≤ MAX_RING) },
}

/// `recorder <limit> <ring> <version>`
pub(crate) fn recorder_in(line: &str) -> Option<Recorder> {
    let fields = line.strip_prefix("recorder ")?;
    let (limit, fields) = fields.split_once(' ')?;
    let (ring, version) = fields.split_once(' ')?;
    let ring = number_in(ring, MAX_RING as u64)?;
    if ring == 0 {
        return None;
    }
    Some(Recorder {
        limit: Limit::new(number_in(limit, u64::from(u32::MAX))? as u32)?,
        ring: ring as usize,
        version: number_in(version, u64::from(u8::MAX))? as u8,
    })
}

/// `channel <id> <net> <speed> <max> <listing>`
pub(crate) fn channel_of(
    alloc: Global,
    fields: &str,
    limit: Limit,
) -> Result<ChannelSpec, LineFault> {
    let Some((lane, fields)) = lane_in(fields, limit) else {
        return Err(LineFault::Shape);
    };
    let (max, listing) = fields.split_once(' ').ok_or(LineFault::Shape)?;
    Ok(ChannelSpec {
        lane,
        max: number_in(max, u64::MAX).ok_or(LineFault::Shape)?,
        program: program_of(alloc, listing)?,
    })
}

/// `<id> <net> <speed>`, and what follows them.
fn lane_in(fields: &str, limit: Limit) -> Option<(LaneSpec, &str)> {
    let (id, fields) = fields.split_once(' ')?;
    let (net, fields) = fields.split_once(' ')?;
    let (speed, fields) = fields.split_once(' ')?;
    let net = number_in(net, u64::from(u8::MAX))? as u8;
    let speed = number_in(speed, u64::from(MAX_SPEED))? as u8;
    let lane = LaneSpec::new(channel_in(id)?, net, speed, limit)?;
    Some((lane, fields))
}

/// `<channel> <ticks>`: sets the span of a channel that is among these. Whether it is.
pub(crate) fn span_in(fields: &str, specs: &mut [ChannelSpec]) -> bool {
    let Some((channel, ticks)) = fields.split_once(' ') else {
        return false;
    };
    let (Some(channel), Some(span)) = (channel_in(channel), number_in(ticks, MAX_COUNTER)) else {
        return false;
    };
    if span == 0 {
        return false;
    }
    'specs: for spec in specs {
        if spec.lane.channel == channel {
            spec.lane = spec.lane.with_span(span);
            return true;
        }
    }
    false
}

/// `take <channel> <counter> <marks> <frame>`, `time <channel> <counter>`, `install <channel> <listing>`,
/// `send <channel>`, `write <channel>` or `close <channel>`
pub(crate) fn event_in(alloc: Global, line: &str) -> Result<Event, LineFault> {
    let (word, fields) = line.split_once(' ').ok_or(LineFault::Shape)?;
    let (channel, rest) = match fields.split_once(' ') {
        Some((channel, rest)) => (channel, Some(rest)),
        None => (fields, None),
    };
    let channel = channel_in(channel).ok_or(LineFault::Shape)?;
    match (word, rest) {
        ("take", Some(rest)) => take_of(alloc, channel, rest),
        ("time", Some(counter)) => Ok(Event::Time {
            channel,
            counter: number_in(counter, MAX_COUNTER).ok_or(LineFault::Shape)?,
        }),
        ("install", Some(listing)) => Ok(Event::Install {
            channel,
            program: program_of(alloc, listing)?,
        }),
        ("send", None) => Ok(Event::Send { channel }),
        ("write", None) => Ok(Event::Write { channel }),
        ("close", None) => Ok(Event::Close { channel }),
        _ => Err(LineFault::Shape),
    }
}

/// `<counter> <marks> <frame>`
fn take_of(alloc: Global, channel: u16, fields: &str) -> Result<Event, LineFault> {
    let (counter, fields) = fields.split_once(' ').ok_or(LineFault::Shape)?;
    let (marks, digits) = fields.split_once(' ').ok_or(LineFault::Shape)?;
    let counter = number_in(counter, u64::MAX).ok_or(LineFault::Shape)?;
    let marks = number_in(marks, 3).ok_or(LineFault::Shape)?;
    let bytes = hex::decode(alloc, digits)?;
    let frame = match Frame::new(counter, marks % 2 == 1, marks / 2 == 1, bytes.as_slice()) {
        Some(frame) => frame.to_owned(alloc)?,
        None => return Err(LineFault::Shape),
    };
    Ok(Event::Take { channel, frame })
}

/// The program that a listing has, if it is valid.
fn program_of(alloc: Global, listing: &str) -> Result<Arc<Verified, Global>, LineFault> {
    match listed_program(alloc, listing) {
        Ok(program) => Ok(Arc::new(alloc, program)?),
        Err(ListedFault::Listing(fault)) => Err(LineFault::from(fault)),
        Err(ListedFault::Refused(_)) => Err(LineFault::Shape),
    }
}

/// The number of a word in decimal digits alone, if it is at most this.
fn number_in(word: &str, most: u64) -> Option<u64>
    ensures { IfSome result (λ number. number ≤ most) }
{
    match word.parse() {
        Ok(number) if number <= most && !word.starts_with('+') => Some(number),
        _ => None,
    }
}
