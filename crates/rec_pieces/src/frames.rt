//! A packet of frames, of which pieces go out one after the other.

ghost use Rattle.std.specs.Prelude.{◌≡◌, ◌+◌, drop, length};
ghost use Rattle.ch11_packet.specs.declared.class.What.{What};
ghost use Rattle.ch11_packet.specs.Classes.{data_in, said_frames};
ghost use Rattle.ch11_packet.specs.FramesRead.{AreFrames, first_reads};
ghost use Rattle.ch11_packet.specs.Views.{header_data};

use crate::part::take_part;
use ch11_file::OwnedPiece;
use ch11_merge::{Head, PieceSoFar};
use ch11_packet::{a_packet_holds_one_thing, first_frame};
use rec_reader::{OwnedPacket, Packet};
use std::alloc::{AllocError, Global};
use std::marker::Model;

/// How many bytes of a body of frames stand before the first.
const BODY_WORD_LEN: usize = 4;

/// What is left of a packet of frames.
#[derive(Debug, Drop)]
pub struct FramesInHand {
    packet: OwnedPacket,
    /// Where the packet stands in the recording.
    place: u64,
    /// Where the first frame that is left stands in the packet's data.
    at: usize,
    /// How many frames are left.
    count: u16,
    /// The piece so far that the first of them belongs to.
    ahead: PieceSoFar,
}

impl Model for FramesInHand {
    ghost use Rattle.std.specs.Prelude.{List};
    ghost use Rattle.ch11_packet.specs.Classes.{data_in};
    ghost use Rattle.ch11_merge.specs.Merging.{FilePiece};
    ghost use Rattle.rec_pieces.specs.Hands.{pieces_in_hand, IsInHand};

    ghost Value = { List FilePiece };

    ghost view = { λ f.
        pieces_in_hand f.place f.ahead f.count f.at (data_in f.packet.header f.packet.body) };

    ghost invariant = { λ f.
        IsInHand f.ahead f.count f.at (data_in f.packet.header f.packet.body) };
}

impl FramesInHand {
    ghost use Rattle.std.specs.Prelude.{ℕ, ◌≡◌, ◌≢◌, ◌<◌, ◌^◌, ◌↔◌, false, [], IsTrue, IfSome, IfNone, IfOk};
    ghost use Rattle.ch11_packet.specs.declared.class.What.{What};
    ghost use Rattle.ch11_packet.specs.Classes.{data_in, said_frames};
    ghost use Rattle.ch11_merge.specs.declared.source.Head.TheVariants.{At};
    ghost use Rattle.ch11_merge.specs.Merging.{StandsFirst, head_of, is_due, TakesPart};
    ghost use Rattle.ch11_merge.specs.Parts.{frames_pieces};
    ghost use Rattle.ch11_file.specs.OwnedPieces.{owned_data};

    /// A packet of this many frames, at this place in the recording: `None` if it has none.
    pub(crate) fn of(packet: OwnedPacket, place: u64, count: u16) -> Option<FramesInHand>
        requires { packet.what ≡ What.Frames count }
        ensures some { IfSome result (λ frames.
            frames ≡ frames_pieces place (said_frames (data_in packet.header packet.body))) }
        ensures more { IfSome result (λ frames. frames ≢ []) }
        ensures none { IfNone result (said_frames (data_in packet.header packet.body) ≡ []) }
    {
        let (first, _) = first_frame(count, frames_bytes(&packet.packet(), count))?;
        let ahead = PieceSoFar::before(first.counter);
        Some(FramesInHand {
            packet,
            place,
            at: BODY_WORD_LEN,
            count,
            ahead,
        })
    }

    /// Where its next piece stands.
    pub fn head(&self) -> Head
        ensures is { result ≡ head_of self.now }
        ensures fits { (counter : ℕ) → result ≡ At counter → counter < 2 ^ 48 }
    {
        let packet = self.packet.packet();
        match first_frame(self.count, &packet.data()[self.at..]) {
            Some((first, _)) => Head::At(first.counter),
            None => Head::End,
        }
    }

    /// Where the packet stands in the recording.
    pub(crate) fn place(&self) -> u64
        requires { self.now ≢ [] }
        ensures { StandsFirst self.now result }
    {
        self.place
    }

    /// Takes the next piece, up to the first frame that doesn't lie before the tick.
    pub fn take(&mut self, alloc: Global, tick: u64) -> Result<OwnedPiece, AllocError>
        requires some { self.old ≢ [] }
        requires early { is_due tick (head_of self.old) ≡ false }
        ensures { IfOk result (λ piece. TakesPart tick self.old (owned_data piece) self.new) }
    {
        let packet = self.packet.packet();
        let data = packet.data();
        let bytes = &data[self.at..];
        let part = take_part(alloc, self.place, self.count, bytes, self.ahead, tick)?;
        self.at = data.len() - part.len;
        self.count = part.count;
        self.ahead = part.ahead;
        Ok(part.piece)
    }

    /// Whether no frame is left.
    pub fn is_over(&self) -> bool
        ensures { IsTrue result ↔ (self.now ≡ []) }
    {
        self.count == 0
    }
}

/// The bytes of this many frames, which a packet holds.
fn frames_bytes<'a>(packet: &Packet<'a>, count: u16) -> &'a [u8]
    requires { packet.now.what ≡ What.Frames count }
    ensures frames { first_reads count result.now
        ≡ said_frames (data_in (header_data packet.now.header) packet.now.body.now) }
    ensures held { ∥ AreFrames count result.now ∥₁ }
    ensures bytes { result.now
        ≡ drop BODY_WORD_LEN (data_in (header_data packet.now.header) packet.now.body.now) }
    ensures len { length result.now + BODY_WORD_LEN
        ≡ length (data_in (header_data packet.now.header) packet.now.body.now) }
{
    a_packet_holds_one_thing();
    &packet.data()[BODY_WORD_LEN..]
}
