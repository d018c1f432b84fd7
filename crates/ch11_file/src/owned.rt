//! Pieces that own their bytes.

use eth_frame::counter_of;
use std::marker::Model;

/// A piece of a channel as it goes out, and the place at which its packet stands in the recording that it
/// comes from.
#[derive(Debug, Drop)]
pub enum OwnedPiece {
    /// Frames.
    Frames { place: u64, body: FramesBody },
    /// A record: a program, or the end of a channel.
    Record { place: u64, body: RecordBody },
}

/// The body of a packet of frames, at least one.
#[derive(Debug, Drop)]
pub struct FramesBody {
    count: u16,
    bytes: Vec<u8>,
}

impl Model for FramesBody {
    ghost use Rattle.std.specs.Prelude.{List};
    ghost use Rattle.ch11_packet.specs.FramesRead.{ReadFrameData};
    ghost use Rattle.ch11_file.specs.HeldPieces.{copies_held, IsFramesBody};

    ghost Value = { List ReadFrameData };

    ghost view = { λ b. copies_held b.count b.bytes.items };

    ghost invariant = { λ b. IsFramesBody b.count b.bytes.items };
}

impl FramesBody {
    ghost use Rattle.std.specs.Prelude.{ℕ, ◌≡◌, ◌<◌, ◌≤◌, ◌^◌, length};
    ghost use Rattle.ch11_packet.specs.declared.header.TheConstants.{MAX_ETHERNET_PACKET_LEN};
    ghost use Rattle.ch11_packet.specs.PacketLen.{written_len};
    ghost use Rattle.ch11_packet.specs.Profiles.Profile.{WithSum};
    ghost use Rattle.ch11_merge.specs.Merging.{head_of_piece};
    ghost use Rattle.ch11_merge.specs.Merging.FilePiece.{OfFrames};
    ghost use Rattle.ch11_merge.specs.declared.source.Head.TheVariants.{At};
    ghost use Rattle.ch11_file.specs.CopiedFrames.{frames_body};
    ghost use Rattle.ch11_file.specs.HeldPieces.{copies_held, IsFramesBody};

    /// The body with these bytes.
    pub(crate) fn new(count: u16, bytes: Vec<u8>) -> FramesBody
        requires { IsFramesBody count bytes.items }
        ensures { result ≡ copies_held count bytes.items }
    {
        FramesBody { count, bytes }
    }

    /// The body's bytes.
    pub fn bytes(&self) -> &[u8]
        ensures bytes { result.now ≡ frames_body self.now }
        ensures fits { written_len WithSum (length result.now) ≤ MAX_ETHERNET_PACKET_LEN }
    {
        self.bytes.as_slice()
    }

    /// The counter of the first frame.
    pub fn counter(&self) -> u64
        ensures first { (place : ℕ) → head_of_piece (OfFrames place self.now) ≡ At result }
        ensures fits { result < 2 ^ 48 }
    {
        let [_, _, _, _, c0, c1, c2, c3, c4, c5, ..] = self.bytes.as_slice() else {
            unreachable!()
        };
        counter_of([*c0, *c1, *c2, *c3, *c4, *c5])
    }
}

/// The data of a record, with its counter: the end of a channel that was offered no frame has none.
#[derive(Debug, Drop)]
pub struct RecordBody {
    counter: Option<u64>,
    bytes: Vec<u8>,
}

impl Model for RecordBody {
    ghost use Rattle.ch11_file.specs.HeldPieces.{PieceRecord, piece_record, IsPieceRecord};

    ghost Value = { PieceRecord };

    ghost view = { λ r. piece_record r.counter r.bytes.items };

    ghost invariant = { λ r. IsPieceRecord (piece_record r.counter r.bytes.items) };
}

impl RecordBody {
    ghost use Rattle.std.specs.Prelude.{◌≡◌, ◌<◌, ◌^◌, IfSome};
    ghost use Rattle.ch11_file.specs.HeldPieces.{piece_record, IsPieceRecord};

    /// The record of these data, which are less than 2^31 bytes, with this counter, which is below 2^48.
    pub fn new(counter: Option<u64>, bytes: Vec<u8>) -> RecordBody
        requires { IsPieceRecord (piece_record counter bytes.items) }
        ensures { result ≡ piece_record counter bytes.items }
    {
        RecordBody { counter, bytes }
    }

    /// Its data.
    pub fn bytes(&self) -> &[u8]
        ensures bytes { result.now ≡ self.now.body }
        ensures valid { IsPieceRecord self.now }
    {
        self.bytes.as_slice()
    }

    /// Its counter, if it has one.
    pub fn counter(&self) -> Option<u64>
        ensures is { result ≡ self.now.counter }
        ensures fits { IfSome result (λ counter. counter < 2 ^ 48) }
    {
        self.counter
    }
}

impl OwnedPiece {
    ghost use Rattle.std.specs.Prelude.{◌≡◌};
    ghost use Rattle.ch11_merge.specs.Merging.{place_of};
    ghost use Rattle.ch11_file.specs.OwnedPieces.{owned_data};

    /// The place of its packet in the recording that it comes from.
    pub fn place(&self) -> u64
        ensures { result ≡ place_of (owned_data self.now) }
    {
        match self {
            OwnedPiece::Frames { place, .. } | OwnedPiece::Record { place, .. } => *place,
        }
    }
}
