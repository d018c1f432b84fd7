//! How far a stream has come.

ghost use Rattle.std.specs.Prelude.{ℕ, ◌≡◌, ◌++◌, ◌∷◌, ◌<◌, ◌^◌, true, [], List, Option, IfOk, IfErr, IfSome, OnOk, MatchResult, length, map};
ghost use Rattle.rec_reader.specs.Packets.{PacketData};
ghost use Rattle.rec_pieces.specs.Sources.{pieces_held};
ghost use Rattle.rec_stream.specs.StreamChannels.{is_said};
ghost use Rattle.rec_stream.specs.StreamPieces.{stream_pieces};
ghost use Rattle.rec_stream.specs.StreamBlocks.{StreamFacts};
ghost use Rattle.rec_stream.specs.StreamEnds.{StreamPast, GoingFails, PacketFails};
ghost use Rattle.rec_stream.specs.Sending.{HasCome, IsFreshStream, IsMade, NamesPacket, MayWait, StreamStands, WaitFails, origin_pieces};
ghost use Rattle.rec_stream.specs.Sending.{waiting_piece, waits_in};

use crate::course::{Course, begin};
use crate::end::{StreamEnd, StreamRefusal};
use crate::made::Made;
use crate::named::Named;
use crate::origin::PieceOrigin;
use crate::pieces::{put_hand, put_record};
use crate::sent::Sent;
use crate::waiting::WaitingEnd;
use ch11_file::{FileSetup, OwnedPiece};
use rec_pieces::InHand;
use std::alloc::Global;
use std::io::Write;

/// How far a stream has come.
#[derive(Debug, Drop)]
pub(crate) enum Stage<'a> {
    /// Nothing went out, and these ends wait.
    Waiting(Vec<WaitingEnd>),
    /// It has begun.
    Begun(Course<'a>),
}

/// Puts the pieces of a packet in hand, which names a channel of the stream, behind the others.
pub(crate) fn put_named<'a, W: Write>(
    alloc: Global,
    made: Made<'a>,
    stage: Stage<'a>,
    named: Named,
    hand: Option<InHand>,
    sent: &mut Sent,
    out: &mut W,
) -> Result<Stage<'a>, StreamEnd>
    requires number { length made.setup.now.channels.now < 2 ^ 16 }
    requires fits { IfSome named.least (λ least. least < 2 ^ 48) }
    ensures { (facts : StreamFacts) (before : Option (List ℕ)) (packets : List PacketData)
        (packet : PacketData) → IsMade facts made.entry → NamesPacket packet named
        → is_said facts.setup.channels.now named.origin.channel ≡ true
        → origin_pieces named.origin (pieces_held hand) ≡ stream_pieces packet
        → StreamStands facts before (W.contents out.old) sent.old stage.entry packets
        → MatchResult result
        (λ new. StreamStands facts before (W.contents out.new) sent.new new (packets ++ packet
        ∷ []))
        (PacketFails facts packets packet before (W.contents out.new)) }
{
    match stage {
        Stage::Begun(mut course) => {
            put_hand(
                alloc,
                made.setup,
                named.origin,
                hand,
                &mut course,
                sent,
                out,
            )?;
            Ok(Stage::Begun(course))
        }
        Stage::Waiting(ends) => match named.least {
            None => {
                let ends = with_end(ends, named, hand)?;
                Ok(Stage::Waiting(ends))
            }
            Some(least) => {
                let course = begin_with(alloc, made, least, named.origin, hand, &ends, sent, out)?;
                Ok(Stage::Begun(course))
            }
        },
    }
}

/// The ends that wait, with that of a packet without a counter, if it has one. A second one of a channel is refused.
fn with_end(
    ends: Vec<WaitingEnd>,
    named: Named,
    hand: Option<InHand>,
) -> Result<Vec<WaitingEnd>, StreamEnd>
    ensures waits { IfOk result (λ new.
        MayWait ends.items (origin_pieces named.origin (pieces_held hand)) new.items) }
    ensures refused { IfErr result (WaitFails ends.items named (pieces_held hand)) }
{
    let mut ends = ends;
    match hand {
        None => Ok(ends),
        Some(InHand::Record { place, body }) => {
            if waits(ends.as_slice(), named.origin.channel) {
                return Err(StreamEnd::Refused(StreamRefusal::Other { at: named.at }));
            }
            let piece = OwnedPiece::Record { place, body };
            ends.push(WaitingEnd {
                origin: named.origin,
                piece,
            })?;
            Ok(ends)
        }
        // Frames have counters.
        Some(InHand::Frames(_)) => Err(StreamEnd::Memory),
    }
}

/// Whether an end of a channel waits.
fn waits(ends: &[WaitingEnd], channel: u16) -> bool
    ensures { result ≡ waits_in ends.now channel }
{
    'ends: for end in ends {
        if end.origin.channel == channel {
            return true;
        }
    }
    false
}

/// Begins a stream with a packet of this least counter, behind whose pieces the ends go out that waited.
fn begin_with<'a, W: Write>(
    alloc: Global,
    made: Made<'a>,
    least: u64,
    origin: PieceOrigin,
    hand: Option<InHand>,
    ends: &Vec<WaitingEnd>,
    sent: &mut Sent,
    out: &mut W,
) -> Result<Course<'a>, StreamEnd>
    requires least { least < 2 ^ 48 }
    requires number { length made.setup.now.channels.now < 2 ^ 16 }
    ensures begun { (past : StreamPast) → past.facts.setup ≡ made.entry.setup.now
        → past.facts.rules ≡ made.entry.clock.now
        → IsFreshStream past least (origin_pieces origin (pieces_held hand)
        ++ map waiting_piece ends.now.items)
        (W.contents out.old) sent.old
        → MatchResult result
        (λ course. HasCome past (W.contents out.new) sent.new course [])
        (GoingFails past (W.contents out.new)) }
    ensures other { IfOk result (λ _. sent.new.counts.other ≡ sent.old.counts.other) }
{
    let mut course = begin(alloc, made, least, sent, out)?;
    put_hand(alloc, made.setup, origin, hand, &mut course, sent, out)?;
    put_ends(alloc, made.setup, ends.as_slice(), &mut course, sent, out)?;
    Ok(course)
}

/// Sends the ends that waited.
fn put_ends<W: Write>(
    alloc: Global,
    setup: &FileSetup<'_>,
    ends: &[WaitingEnd],
    course: &mut Course<'_>,
    sent: &mut Sent,
    out: &mut W,
) -> Result<(), StreamEnd>
    requires number { length setup.now.channels.now < 2 ^ 16 }
    ensures gone { (past : StreamPast) → past.facts.setup ≡ setup.now
        → HasCome past (W.contents out.old) sent.old course.old (map waiting_piece ends.now)
        → MatchResult result (λ _. HasCome past (W.contents out.new) sent.new course.new [])
        (GoingFails past (W.contents out.new)) }
    ensures other { OnOk result (sent.new.counts.other ≡ sent.old.counts.other) }
{
    'ends: for k in 0..ends.len() {
        let end = &ends[k];
        put_record(alloc, setup, end.origin, &end.piece, course, sent, out)?;
    }
    Ok(())
}
