//! The sources of all channels of a recording.

ghost use Rattle.std.specs.Prelude.{IfOk, IfSome, map};
ghost use Rattle.ch11_merge.specs.Placing.{SayLeft};
ghost use Rattle.rec_pieces.specs.PieceListings.{listed_channels};
ghost use Rattle.rec_pieces.specs.AllSources.{left_of, source_left};

use crate::channel::ChannelPieces;
use crate::listing::PieceListing;
use crate::packets::PacketsAt;
use ch11_merge::{MergedChannel, MergedChannels, PieceFault};
use std::alloc::Global;

/// The sources of the pieces of all channels of a recording that is listed, the least channel first. The first
/// packets of each channel are read.
pub fn channel_sources<'f, P: PacketsAt>(
    alloc: Global,
    packets: &'f P,
    listing: &'f PieceListing,
) -> Result<MergedChannels<ChannelPieces<'f, P>>, PieceFault>
    ensures { IfOk result (λ sources. IfSome (P.there packets.entry.now) (λ places.
        SayLeft source_left sources
        (map (left_of places listing.entry.now) (listed_channels listing.entry.now)))) }
{
    let channels = listing.channels(alloc)?;
    let mut sources = Vec::new(alloc);
    'channels: for k in 0..channels.len() {
        let channel = channels[k];
        let source = ChannelPieces::new(alloc, packets, listing.packets_of(channel))?;
        sources.push(MergedChannel { channel, source })?;
    }
    MergedChannels::new(alloc, sources)
}
