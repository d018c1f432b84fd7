//! The channels of a recording in the setup record of its whole file.

ghost use Rattle.std.specs.Prelude.{◌≡◌, IfOk, MatchOption};
ghost use Rattle.rec_pieces.specs.PieceListings.{is_listed};
ghost use Rattle.ch11_channels.specs.FreeIds.{AreAllTaken, IsLeastFree};
ghost use Rattle.rec_whole.specs.NamedChannels.{AreNamed, name_of, name_said};

use ch11_setup::SetupChannel;
use rec_pieces::PieceListing;
use std::alloc::{AllocError, Global};

/// The name of a channel that has none.
const UNNAMED: &str = "channel";

/// The channels of these IDs, as a setup record has them.
pub fn setup_channels<'a>(
    alloc: Global,
    ids: &[u16],
    names: &[SetupChannel<'a>],
) -> Result<Vec<SetupChannel<'a>>, AllocError>
    ensures { IfOk result (λ channels. AreNamed names.now ids.now channels.items) }
{
    let mut channels = Vec::new(alloc);
    'channels: for k in 0..ids.len() {
        channels.push(named(names, ids[k]))?;
    }
    Ok(channels)
}

/// A channel with its name, if it has one.
fn named<'a>(names: &[SetupChannel<'a>], id: u16) -> SetupChannel<'a>
    ensures { name_said result ≡ name_of names.now id }
{
    'names: for channel in names {
        if channel.id == id {
            return *channel;
        }
    }
    SetupChannel {
        id,
        name: UNNAMED,
        net: 0,
    }
}

/// The channel ID of time packets: the least from 1 on that the recording doesn't name.
pub(crate) fn time_channel(listing: &PieceListing) -> Option<u16>
    ensures { MatchOption result (AreAllTaken (is_listed listing.now))
        (IsLeastFree (is_listed listing.now)) }
{
    'ids: for id in 1..=u16::MAX {
        if listing.packets_of(id).is_empty() {
            return Some(id);
        }
    }
    None
}
