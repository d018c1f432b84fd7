//! What is in hand of a channel: the packet whose pieces go out next.

ghost use Rattle.std.specs.Prelude.{◌≡◌, ◌≢◌, ◌∷◌, [], IfOk, IfSome};
ghost use Rattle.ch11_packet.specs.Classes.{data_in};
ghost use Rattle.ch11_merge.specs.Merging.FilePiece.{OfRecord};
ghost use Rattle.rec_pieces.specs.Entries.{pieces_of};
ghost use Rattle.rec_pieces.specs.Sources.{hand_pieces, pieces_held};

use crate::entry::{PieceEntry, PieceKind};
use crate::frames::FramesInHand;
use ch11_file::RecordBody;
use ch11_merge::{Head, PieceFault};
use ch11_packet::What;
use rec_reader::OwnedPacket;
use std::alloc::Global;

/// More bytes than any record has.
const TOO_LONG: usize = 1 << 31;

/// A packet whose pieces go out next.
#[derive(Debug, Drop)]
pub enum InHand {
    /// What is left of its frames.
    Frames(FramesInHand),
    /// A record, of the packet at a place.
    Record { place: u64, body: RecordBody },
}

impl InHand {
    ghost use Rattle.std.specs.Prelude.{ℕ, ◌≡◌, ◌≢◌, ◌<◌, ◌^◌, []};
    ghost use Rattle.ch11_merge.specs.declared.source.Head.TheVariants.{At};
    ghost use Rattle.ch11_merge.specs.Merging.{StandsFirst, head_of};
    ghost use Rattle.rec_pieces.specs.Sources.{hand_pieces};

    /// Where its next piece stands.
    pub fn head(&self) -> Head
        ensures is { result ≡ head_of (hand_pieces self.now) }
        ensures fits { (counter : ℕ) → result ≡ At counter → counter < 2 ^ 48 }
    {
        match self {
            InHand::Frames(frames) => frames.head(),
            InHand::Record { body, .. } => match body.counter() {
                Some(counter) => Head::At(counter),
                None => Head::Uncounted,
            },
        }
    }

    /// Where it stands in the recording.
    pub(crate) fn place(&self) -> u64
        requires { hand_pieces self.now ≢ [] }
        ensures { StandsFirst (hand_pieces self.now) result }
    {
        match self {
            InHand::Frames(frames) => frames.place(),
            InHand::Record { place, .. } => *place,
        }
    }
}

/// The packet that an entry names, in hand: `None` if it has no piece.
pub fn in_hand(
    alloc: Global,
    entry: PieceEntry,
    packet: OwnedPacket,
) -> Result<Option<InHand>, PieceFault>
    ensures pieces { IfOk result (λ hand. pieces_held hand
        ≡ pieces_of entry.kind entry.at packet.header.counter
        (data_in packet.header packet.body)) }
    ensures some { IfOk result (λ hand. IfSome hand (λ hand. hand_pieces hand ≢ [])) }
{
    let counter = packet.packet().header.counter;
    match (entry.kind, packet.packet().what) {
        (PieceKind::Frames, What::Frames(count)) => {
            match FramesInHand::of(packet, entry.at, count) {
                Some(frames) => Ok(Some(InHand::Frames(frames))),
                None => Ok(None),
            }
        }
        (PieceKind::Record, What::Program { .. } | What::End { .. }) => {
            record_in_hand(alloc, entry.at, Some(counter), &packet)
        }
        (PieceKind::Uncounted, What::End { .. }) => {
            record_in_hand(alloc, entry.at, None, &packet)
        }
        // another packet stands there than before
        _ => Err(PieceFault::Device),
    }
}

/// A packet's data as a record with this counter.
fn record_in_hand(
    alloc: Global,
    place: u64,
    counter: Option<u64>,
    packet: &OwnedPacket,
) -> Result<Option<InHand>, PieceFault>
    requires { IfSome counter (λ counter. counter ≡ packet.now.header.counter) }
    ensures pieces { IfOk result (λ hand. pieces_held hand
        ≡ OfRecord place counter (data_in packet.now.header packet.now.body) ∷ []) }
    ensures some { IfOk result (λ hand. IfSome hand (λ hand. hand_pieces hand ≢ [])) }
{
    let packet = packet.packet();
    let bytes = packet.data();
    if bytes.len() >= TOO_LONG {
        return Err(PieceFault::Device);
    }
    let mut held = Vec::with_capacity(alloc, bytes.len())?;
    held.extend_from_slice(bytes)?;
    let body = RecordBody::new(counter, held);
    Ok(Some(InHand::Record { place, body }))
}
