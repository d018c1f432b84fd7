//! The channels of a stream: those that are named before it begins.

ghost use Rattle.std.specs.Prelude.{◌≡◌, IfOk, MatchOption};
ghost use Rattle.ch11_channels.specs.FreeIds.{AreAllTaken, IsLeastFree};
ghost use Rattle.rec_stream.specs.StreamChannels.{is_said, said_below};

use ch11_setup::SetupChannel;
use std::alloc::{AllocError, Global};

/// How many channel IDs there are.
const CHANNEL_IDS: u32 = 65_536;

/// Whether one of these channels has this ID.
pub(crate) fn is_said(channels: &[SetupChannel<'_>], id: u16) -> bool
    ensures { result ≡ is_said channels.now id }
{
    'channels: for channel in channels {
        if channel.id == id {
            return true;
        }
    }
    false
}

/// Their IDs, the least first.
pub(crate) fn said_ids(alloc: Global, channels: &[SetupChannel<'_>]) -> Result<Vec<u16>, AllocError>
    ensures { IfOk result (λ ids. ids.items ≡ said_below channels.now CHANNEL_IDS) }
{
    let mut ids = Vec::new(alloc);
    'ids: for at in 0..CHANNEL_IDS {
        let id = at as u16;
        if is_said(channels, id) {
            ids.push(id)?;
        }
    }
    Ok(ids)
}

/// The channel ID of time packets: the least from 1 on that isn't named.
pub(crate) fn time_channel(channels: &[SetupChannel<'_>]) -> Option<u16>
    ensures { MatchOption result (AreAllTaken (is_said channels.now))
        (IsLeastFree (is_said channels.now)) }
{
    'ids: for id in 1..=u16::MAX {
        if !is_said(channels, id) {
            return Some(id);
        }
    }
    None
}
