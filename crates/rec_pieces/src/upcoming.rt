//! The packets of a channel that are still to be read.

ghost use Rattle.std.specs.Prelude.{◌≡◌, ◌≢◌, ◌≤◌, ◌++◌, [], length, IfOk, IfSome, IfNone};
ghost use Rattle.rec_pieces.specs.Sources.{hand_pieces, pieces_held, pieces_to_come};

use crate::entry::PieceEntry;
use crate::hand::{InHand, in_hand};
use crate::packets::PacketsAt;
use ch11_merge::PieceFault;
use std::alloc::Global;

/// Takes the next packet with a piece in hand: `None` if there is none.
pub(crate) fn next_in_hand<P: PacketsAt>(
    alloc: Global,
    packets: &P,
    entries: &[PieceEntry],
    next: &mut usize,
) -> Result<Option<InHand>, PieceFault>
    ensures pieces { IfOk result (λ hand. IfSome (P.there packets.now) (λ places.
        pieces_to_come entries.now next.old places
        ≡ pieces_held hand ++ pieces_to_come entries.now next.new places)) }
    ensures some { IfOk result (λ hand. IfSome hand (λ hand. hand_pieces hand ≢ [])) }
    ensures none { IfOk result (λ hand. IfNone hand (length entries.now ≤ next.new)) }
{
    'packets: while *next < entries.len() {
        let entry = entries[*next];
        let packet = packets.packet_at(alloc, entry.at)?;
        let hand = in_hand(alloc, entry, packet)?;
        *next += 1;
        if hand.is_some() {
            return Ok(hand);
        }
    }
    Ok(None)
}
