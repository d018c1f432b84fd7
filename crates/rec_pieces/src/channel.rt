//! The pieces of a channel, read from a recording's file.

ghost use Rattle.std.specs.Prelude.{◌≡◌, ◌≢◌, ◌≤◌, ◌++◌, false, [], length, IfOk, IfSome};
ghost use Rattle.ch11_merge.specs.Merging.{head_of, is_due, TakesPart};
ghost use Rattle.ch11_file.specs.OwnedPieces.{owned_data};
ghost use Rattle.rec_pieces.specs.Sources.{hand_pieces, pieces_held, pieces_to_come};

use crate::entry::PieceEntry;
use crate::hand::InHand;
use crate::packets::PacketsAt;
use crate::upcoming::next_in_hand;
use ch11_file::OwnedPiece;
use ch11_merge::{Head, PieceFault, PieceSource};
use std::alloc::Global;
use std::marker::Model;

/// The pieces of a channel. It holds one packet of the recording, and the places of the others.
#[derive(Debug, Drop)]
pub struct ChannelPieces<'f, P: PacketsAt> {
    alloc: Global,
    packets: &'f P,
    entries: &'f [PieceEntry],
    next: usize,
    hand: Option<InHand>,
}

impl<'f, P: PacketsAt> Model for ChannelPieces<'f, P> {
    ghost use Rattle.std.specs.Prelude.{◌≡◌, ◌≤◌, [], length};
    ghost use Rattle.rec_pieces.specs.Sources.{SourceState, source_state, pieces_held};

    ghost Value = { SourceState };

    ghost view = { λ c. source_state (P.there c.packets.now) c.entries.now c.next c.hand };

    ghost invariant = { λ c. pieces_held c.hand ≡ [] → length c.entries.now ≤ c.next };
}

impl<'f, P: PacketsAt> ChannelPieces<'f, P> {
    ghost use Rattle.std.specs.Prelude.{◌≡◌, Some, IfOk, IfSome};
    ghost use Rattle.rec_pieces.specs.Sources.{pieces_to_come};

    /// The pieces of the packets that these entries name in a recording, in order. The first packet is
    /// read.
    pub fn new(
        alloc: Global,
        packets: &'f P,
        entries: &'f [PieceEntry],
    ) -> Result<ChannelPieces<'f, P>, PieceFault>
        ensures { IfOk result (λ pieces. IfSome (P.there packets.entry.now) (λ places.
            pieces.left ≡ Some (pieces_to_come entries.entry.now 0 places))) }
    {
        let mut next = 0;
        let hand = next_in_hand(alloc, packets, entries, &mut next)?;
        Ok(ChannelPieces {
            alloc,
            packets,
            entries,
            next,
            hand,
        })
    }
}

impl<'f, P: PacketsAt> PieceSource for ChannelPieces<'f, P> {
    ghost use Rattle.ch11_file.specs.OwnedPieces.{owned_data};
    ghost use Rattle.rec_pieces.specs.Sources.{stands_by, stands_first};

    type Piece = OwnedPiece;

    ghost data_of = { owned_data };

    ghost left = { λ s. s.left };

    ghost stands = { λ s. stands_by s.left s.head };

    fn head(&self) -> Head {
        match &self.hand {
            Some(hand) => hand.head(),
            None => Head::End,
        }
    }

    fn place(&self) -> u64 {
        match &self.hand {
            Some(hand) => hand.place(),
            None => unreachable!(),
        }
    }

    fn take(&mut self, tick: u64) -> Result<OwnedPiece, PieceFault> {
        let Some(hand) = self.hand.take() else {
            unreachable!()
        };
        match take_from(
            self.alloc,
            self.packets,
            self.entries,
            &mut self.next,
            hand,
            tick,
        ) {
            Ok((piece, hand)) => {
                put(&mut self.hand, hand);
                Ok(piece)
            }
            Err(fault) => {
                self.next = self.entries.len();
                Err(fault)
            }
        }
    }

    ghost stands_first = { λ s. stands_first s.left s.head };
}

/// Puts a packet in hand.
fn put(slot: &mut Option<InHand>, hand: Option<InHand>)
    ensures { slot.new ≡ hand }
{
    *slot = hand;
}

/// Takes the next piece of a packet in hand, and gives what is in hand behind it.
fn take_from<P: PacketsAt>(
    alloc: Global,
    packets: &P,
    entries: &[PieceEntry],
    next: &mut usize,
    hand: InHand,
    tick: u64,
) -> Result<(OwnedPiece, Option<InHand>), PieceFault>
    requires some { hand_pieces hand ≢ [] }
    requires early { is_due tick (head_of (hand_pieces hand)) ≡ false }
    ensures taken { IfOk result (λ taken. IfSome (P.there packets.now) (λ places. TakesPart tick
        (hand_pieces hand ++ pieces_to_come entries.now next.old places) (owned_data taken.0)
        (pieces_held taken.1 ++ pieces_to_come entries.now next.new places))) }
    ensures fetched { IfOk result (λ taken. pieces_held taken.1 ≡ []
        → length entries.now ≤ next.new) }
{
    match hand {
        InHand::Frames(mut frames) => {
            let piece = frames.take(alloc, tick)?;
            if !frames.is_over() {
                return Ok((piece, Some(InHand::Frames(frames))));
            }
            let hand = next_in_hand(alloc, packets, entries, next)?;
            Ok((piece, hand))
        }
        InHand::Record { place, body } => {
            let hand = next_in_hand(alloc, packets, entries, next)?;
            Ok((OwnedPiece::Record { place, body }, hand))
        }
    }
}
