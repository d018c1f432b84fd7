//! What comes next of the pieces of several channels.

ghost use Rattle.std.specs.Prelude.{◌≡◌, List, IfOk};
ghost use Rattle.ch11_merge.specs.Merging.{ChannelLeft, is_due};
ghost use Rattle.ch11_merge.specs.Placing.{Answers, IsNextPiece, SayLeft};

use crate::channels::{MergedChannels, first_of, stand_again};
use crate::source::{Head, PieceFault, PieceSource};

/// What has a place in the file.
#[derive(Debug, Drop)]
pub enum Placed<P> {
    /// The time packet of this tick.
    Time { tick: u64 },
    /// A piece of a channel.
    Piece { channel: u16, piece: P },
}

/// What comes next of these channels, where the next time packet is that of this tick: `None` where each
/// source is at its end.
pub fn next_placed<S: PieceSource>(
    channels: &mut MergedChannels<S>,
    tick: u64,
) -> Result<Option<Placed<S::Piece>>, PieceFault>
    ensures { (old : List ChannelLeft) → SayLeft S.left channels.old old
        → IfOk result (λ next. (new : List ChannelLeft) × SayLeft S.left channels.new new
        × Answers S.data_of tick old next new) }
{
    let Some(at) = first_of(channels.channels.as_slice(), &channels.waiting) else {
        return Ok(None);
    };
    let first = &mut channels.channels[at];
    if is_due(tick, first.source.head()) {
        return Ok(Some(Placed::Time { tick }));
    }
    let channel = first.channel;
    let taken = first.source.take(tick);
    let head = first.source.head();
    stand_again(&mut channels.waiting, head);
    let piece = taken?;
    Ok(Some(Placed::Piece { channel, piece }))
}

/// Where the next piece of channels stands.
#[derive(Clone, Copy, Debug, PartialEq, Eq)]
pub struct NextPiece {
    /// Where it stands in the file.
    pub head: Head,
    /// Where its packet stands in the recording.
    pub place: u64,
}

/// Where the next piece of these channels stands: `None` where each source is at its end.
pub fn next_piece<S: PieceSource>(channels: &MergedChannels<S>) -> Option<NextPiece>
    ensures { (old : List ChannelLeft) → SayLeft S.left channels.now old → IsNextPiece old result }
{
    match first_of(channels.channels.as_slice(), &channels.waiting) {
        Some(at) => {
            let first = &channels.channels[at];
            Some(NextPiece {
                head: first.source.head(),
                place: first.source.place(),
            })
        }
        None => None,
    }
}

/// Whether the time packet of this tick goes ahead of such a piece.
fn is_due(tick: u64, head: Head) -> bool
    ensures { result ≡ is_due tick head }
{
    match head {
        Head::At(counter) => tick <= counter,
        Head::Uncounted | Head::End => false,
    }
}
