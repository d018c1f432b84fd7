//! What a lane does with a frame, step by step.

ghost use Rattle.std.specs.Prelude.{ℕ, if◌then◌else◌, ◌≡◌, ◌≢◌, ◌+◌, ◌-◌, ◌^◌, ◌<◌, ◌==◌, true, false, [], ◌∷◌, ◌++◌, map, List, Option, None, Some, IsSome, IsNone, IfSome, IfNone, ◌↔◌, IsOk, IfOk, OnErr};
ghost use Rattle.arrayvec.specs.ArrayVec.{array_vec_len};
ghost use Rattle.ch11_packet.specs.Building.{open_of};
ghost use Rattle.rec_lane.specs.Moments.{age};
ghost use Rattle.rec_lane.specs.Parts.{as_part};
ghost use Rattle.rec_lane.specs.Pieces.{data_piece};
ghost use Rattle.rec_lane.specs.Settings.{spec_data};
ghost use Rattle.rec_lane.specs.Views.{piece_data, pieces_data, packet_pieces};

use crate::lane::Lane;
use crate::offered::{Offered, OfferedKnown};
use crate::piece::{DataPiece, EndPiece, Piece, ProgramPiece};
use crate::spec::LaneSpec;
use crate::version::Current;
use arrayvec::ArrayVec;
use ch11_packet::DataBuilder;
use eth_frame::{COUNTER_BITS, Frame};
use rec_channel::Drawn;
use std::mem;

/// How many counters there are.
const TURN: u64 = 1 << COUNTER_BITS;

impl Lane {
    ghost use Rattle.std.specs.Arc.{arc_value};
    ghost use Rattle.bpf_insn.specs.declared.insn.Insn.{Insn};
    ghost use Rattle.bpf_machine.specs.Machine.{Runs};
    ghost use Rattle.eth_frame.specs.Frame.{view};
    ghost use Rattle.eth_frame.specs.Views.{frame_data};
    ghost use Rattle.rec_lane.specs.Packets.{has_room};
    ghost use Rattle.rec_lane.specs.Moments.{is_span_due};
    ghost use Rattle.rec_lane.specs.Pieces.{has_no_packet};
    ghost use Rattle.rec_lane.specs.Settings.{spec_data};
    ghost use Rattle.rec_lane.specs.Lanes.{HasMet, is_current, running, offered_now, new_lane, Meets, MakesCertain, AreLeft, TakesFrame, EndsLane};
    ghost use Rattle.rec_lane.specs.Steps.{RunsAs, packet_closed, closed_pieces, begins, closes_at, IsBegun, time_met, time_pieces, frame_added, frame_begun, frame_judged, judged_pieces, frame_counted, frame_of_new_version, version_begun, begun_piece, begun_pieces};

    /// What [`Lane::end`] gives.
    pub(super) fn last_pieces(self) -> ArrayVec<Piece, 2>
        ensures { AreLeft self (pieces_data result.items) }
    {
        let Lane {
            spec,
            offered,
            kept,
            counter,
            packet,
            ..
        } = self;
        let end = EndPiece {
            channel: spec.channel,
            counter,
            offered,
            kept,
        };
        left_pieces(spec, packet, end)
    }

    /// A frame of the version that the lane met last.
    pub(super) fn offer_next(&mut self, frame: &Frame<'_>) -> OfferedKnown
        requires ready { self.old.ready ≡ true }
        requires some { IsSome self.old.current }
        requires few { self.old.offered < 2 ^ 64 - 1 }
        ensures value { RunsAs self.old.current (view (frame_data frame.now)) result.value }
        ensures lane { self.new
            ≡ frame_judged (frame_counted self.old (frame_data frame.now)) (frame_data frame.now)
            result.value }
        ensures packet { packet_pieces result.packet
            ≡ judged_pieces self.old (frame_data frame.now) result.value }
        ensures roomy { has_room self.old.settings.limit [] (frame_data frame.now) ≡ true }
    {
        self.count(frame);
        let value = self.value_on(frame);
        if self.begins_packet(frame.counter) {
            let packet = self.begin_packet(frame, value);
            return OfferedKnown { value, packet };
        }
        let mut packet = None;
        if value != 0 && !self.keep(frame) {
            packet = self.keep_in_next(frame);
        }
        OfferedKnown { value, packet }
    }

    /// What [`Lane::at`] does.
    pub(super) fn meet_time(&mut self, counter: u64) -> Option<DataPiece>
        requires { self.old.ready ≡ true }
        ensures lane { self.new ≡ time_met self.old counter }
        ensures packet { packet_pieces result ≡ time_pieces self.old counter }
    {
        if self.is_due(counter) {
            self.close_packet()
        } else {
            None
        }
    }

    /// The first frame of a version.
    // rare, and apart so that a frame that gives no piece pays nothing for it
    #[cold]
    #[inline(never)]
    pub(super) fn offer_first(&mut self, frame: &Frame<'_>, drawn: Drawn) -> Offered
        requires ready { self.old.ready ≡ true }
        requires few { self.old.offered < 2 ^ 64 - 1 }
        ensures value { (steps : ℕ) × Runs (arc_value drawn.program)
            (view (frame_data frame.now)) steps result.value }
        ensures lane { self.new
            ≡ frame_of_new_version self.old drawn.version (arc_value drawn.program)
            (frame_data frame.now) result.value }
        ensures pieces { pieces_data result.pieces.items
            ≡ begun_pieces self.old drawn.version (arc_value drawn.program)
            (frame_data frame.now) }
        ensures roomy { has_room self.old.settings.limit [] (frame_data frame.now) ≡ true }
    {
        let mut pieces = pieces_of(self.close_packet());
        pieces.push(self.begin_version(frame, drawn));
        self.count(frame);
        let value = self.value_on(frame);
        if value != 0 {
            self.begin(frame);
        }
        Offered { value, pieces }
    }

    /// What the program of the version that the lane met last returns on a frame's view.
    fn value_on(&self, frame: &Frame<'_>) -> u32
        requires { IsSome self.now.current }
        ensures { RunsAs self.now.current (view (frame_data frame.now)) result }
    {
        self.prepared.value(frame.view())
    }

    /// Counts a frame.
    fn count(&mut self, frame: &Frame<'_>)
        requires { self.old.offered < 2 ^ 64 - 1 }
        ensures counted { self.new ≡ frame_counted self.old (frame_data frame.now) }
        ensures more { self.new.kept < self.new.offered }
        ensures roomy { has_room self.new.settings.limit [] (frame_data frame.now) ≡ true }
    {
        self.offered += 1;
        self.counter = frame.counter;
    }

    /// Takes a version as the one in force, and gives the piece of its program.
    fn begin_version(&mut self, frame: &Frame<'_>, drawn: Drawn) -> Piece
        ensures lane { self.new
            ≡ version_begun self.old drawn.version (arc_value drawn.program) }
        ensures piece { piece_data result
            ≡ begun_piece self.old drawn.version (arc_value drawn.program)
            (frame_data frame.now) }
    {
        let Drawn {
            version,
            program,
            share,
            ..
        } = drawn;
        self.prepared.prepare(&share);
        self.current = Some(Current {
            version,
            program: share,
        });
        Piece::Program(ProgramPiece {
            channel: self.spec.channel,
            counter: frame.counter,
            version,
            first: self.offered,
            program,
        })
    }

    /// Adds an accepted frame to the open packet, if it fits.
    fn keep(&mut self, frame: &Frame<'_>) -> bool
        requires counted { self.old.kept < self.old.offered }
        requires begun { IsBegun self.old.settings.span self.old.pending }
        ensures fits { result
            ≡ has_room self.old.settings.limit self.old.pending (frame_data frame.now) }
        ensures lane { self.new
            ≡ (if result then frame_added self.old (frame_data frame.now) else self.old) }
        ensures roomy { has_room self.old.settings.limit [] (frame_data frame.now) ≡ true }
    {
        let fits = self.packet.fits(frame.bytes.len());
        if fits {
            self.add(frame);
        }
        fits
    }

    /// Adds an accepted frame to the next packet; gives the open one.
    // once a packet, and apart as the first frame of a version
    #[cold]
    #[inline(never)]
    fn keep_in_next(&mut self, frame: &Frame<'_>) -> Option<DataPiece>
        requires ready { self.old.ready ≡ true }
        requires counted { self.old.kept < self.old.offered }
        requires roomy { has_room self.old.settings.limit [] (frame_data frame.now) ≡ true }
        ensures lane { self.new ≡ frame_added (packet_closed self.old) (frame_data frame.now) }
        ensures packet { packet_pieces result ≡ closed_pieces self.old }
    {
        let packet = self.close_packet();
        self.begin(frame);
        packet
    }

    /// Adds an accepted frame to the open packet, where it fits.
    fn add(&mut self, frame: &Frame<'_>)
        requires fits { has_room self.old.settings.limit self.old.pending (frame_data frame.now)
            ≡ true }
        requires counted { self.old.kept < self.old.offered }
        requires begun { IsBegun self.old.settings.span self.old.pending }
        ensures { self.new ≡ frame_added self.old (frame_data frame.now) }
    {
        self.packet.push(frame);
        self.kept += 1;
    }

    /// Adds an accepted frame to the next packet, as its first.
    fn begin(&mut self, frame: &Frame<'_>)
        requires empty { self.old.pending ≡ [] }
        requires roomy { has_room self.old.settings.limit [] (frame_data frame.now) ≡ true }
        requires counted { self.old.kept < self.old.offered }
        ensures { self.new ≡ frame_added self.old (frame_data frame.now) }
    {
        self.packet.push(frame);
        self.kept += 1;
        self.first = frame.counter;
    }

    /// Whether a frame with this counter begins a packet, since no packet is open or that one is a span
    /// old; never, where packets have no span.
    #[inline(always)]
    fn begins_packet(&self, counter: u64) -> bool
        ensures begins { result ≡ begins self.now.settings.span self.now.pending counter }
        ensures begun { result ≡ false → IsBegun self.now.settings.span self.now.pending }
    {
        match self.spec.span {
            None => false,
            Some(span) => self.packet.is_empty() || self.is_old(span, counter),
        }
    }

    /// Whether this counter closes the open packet.
    fn is_due(&self, counter: u64) -> bool
        ensures { result ≡ closes_at self.now counter }
    {
        match self.spec.span {
            None => false,
            Some(span) => !self.packet.is_empty() && self.is_old(span, counter),
        }
    }

    /// Whether this counter is a span or more after that of the open packet's first frame.
    #[inline(always)]
    fn is_old(&self, span: u64, counter: u64) -> bool
        requires span { self.now.settings.span ≡ Some span }
        requires some { self.now.pending ≢ [] }
        ensures { result ≡ is_span_due (Some span) self.now.pending counter }
    {
        age(self.first, counter) >= span
    }

    /// Closes the open packet, if it has frames, and begins the next one with the frame if it is accepted.
    // once a span, and apart as the first frame of a version
    #[cold]
    #[inline(never)]
    fn begin_packet(&mut self, frame: &Frame<'_>, value: u32) -> Option<DataPiece>
        requires ready { self.old.ready ≡ true }
        requires counted { self.old.kept < self.old.offered }
        requires roomy { has_room self.old.settings.limit [] (frame_data frame.now) ≡ true }
        ensures lane { self.new ≡ frame_begun self.old (frame_data frame.now) value }
        ensures packet { packet_pieces result ≡ closed_pieces self.old }
    {
        let packet = self.close_packet();
        if value != 0 {
            self.begin(frame);
        }
        packet
    }

    /// The open packet, if it has frames.
    fn close_packet(&mut self) -> Option<DataPiece>
        requires { self.old.ready ≡ true }
        ensures lane { self.new ≡ packet_closed self.old }
        ensures packet { packet_pieces result ≡ closed_pieces self.old }
    {
        if self.packet.is_empty() {
            return None;
        }
        let Some(next) = self.spare.take() else {
            unreachable!()
        };
        let packet = mem::replace(&mut self.packet, next);
        Some(DataPiece {
            channel: self.spec.channel,
            body: packet.seal(),
        })
    }
}

/// How much later a counter is than a first one of 48 bits, as such counters go round.
fn age(first: u64, counter: u64) -> u64
    requires { first < 2 ^ 48 }
    ensures { result ≡ age first counter }
{
    (counter % TURN + TURN - first) % TURN
}

/// A packet, if there is one, as pieces.
pub(super) fn pieces_of(packet: Option<DataPiece>) -> ArrayVec<Piece, 2>
    ensures pieces { pieces_data result.items ≡ packet_pieces packet }
    ensures few { array_vec_len result < 2 }
{
    let mut pieces = ArrayVec::new();
    if let Some(packet) = packet {
        pieces.push(Piece::Data(packet));
    }
    pieces
}

/// The open packet as a piece, if it has frames, and the channel's end.
fn left_pieces(spec: LaneSpec, packet: DataBuilder, end: EndPiece) -> ArrayVec<Piece, 2>
    requires { packet ≡ open_of packet.frames spec.net spec.speed spec.limit }
    ensures { pieces_data result.items
        ≡ map (data_piece (spec_data spec)) (as_part packet.frames)
        ++ piece_data (Piece.End end) ∷ [] }
{
    let mut pieces = ArrayVec::new();
    if !packet.is_empty() {
        pieces.push(Piece::Data(DataPiece {
            channel: spec.channel,
            body: packet.seal(),
        }));
    }
    pieces.push(Piece::End(end));
    pieces
}
