//! A lane: the frames of one channel, filtered and packed.
mod steps;

ghost use Rattle.std.specs.Prelude.{ℕ, if◌then◌else◌, ◌≡◌, ◌+◌, ◌-◌, ◌^◌, ◌<◌, ◌==◌, true, false, [], ◌∷◌, ◌++◌, map, List, Option, None, Some, IsSome, IsNone, IfSome, IfNone, ◌↔◌, IsOk, IfOk, OnErr};
ghost use Rattle.arrayvec.specs.ArrayVec.{array_vec_len};
ghost use Rattle.ch11_packet.specs.Building.{open_of};
ghost use Rattle.rec_lane.specs.Parts.{as_part};
ghost use Rattle.rec_lane.specs.Pieces.{data_piece};
ghost use Rattle.rec_lane.specs.Settings.{spec_data};
ghost use Rattle.rec_lane.specs.Views.{piece_data, pieces_data, packet_pieces};

use crate::lane::steps::pieces_of;
use crate::laws::a_lane_stands_for_frames_and_a_history;
use crate::offered::{Offered, OfferedKnown};
use crate::piece::{DataPiece, Piece};
use crate::spec::LaneSpec;
use crate::version::Current;
use arrayvec::ArrayVec;
use bpf_machine::Prepared;
use ch11_packet::{Blank, DataBuilder};
use eth_frame::Frame;
use rec_channel::Drawn;
use std::alloc::{AllocError, Global};
use std::marker::Model;

/// The lane of one channel. It keeps no frame but those of the open packet.
#[derive(Debug, Drop)]
pub struct Lane {
    alloc: Global,
    spec: LaneSpec,
    offered: u64,
    kept: u64,
    counter: u64,
    current: Option<Current>,
    /// The program of the version that was met last.
    prepared: Prepared,
    packet: DataBuilder,
    /// The counter of the open packet's first frame, where packets have a span.
    first: u64,
    spare: Option<DataBuilder>,
}

impl Model for Lane {
    ghost use Rattle.std.specs.Prelude.{is_some};
    ghost use Rattle.rec_lane.specs.Settings.{spec_data};
    ghost use Rattle.rec_lane.specs.Lanes.{LaneState};
    ghost use Rattle.rec_lane.specs.Currents.{current_of};
    ghost use Rattle.rec_lane.specs.Steps.{IsLane};

    ghost Value = { LaneState };

    ghost view = { λ l. record {
      settings = spec_data l.spec;
      offered = l.offered;
      kept = l.kept;
      counter = l.counter;
      current = current_of l.current;
      pending = l.packet.frames;
      ready = is_some l.spare;
    } };

    ghost invariant = { λ l. IsLane (spec_data l.spec) l.offered l.kept l.counter l.first l.packet
        l.spare (current_of l.current) l.prepared };
}

impl Lane {
    ghost use Rattle.std.specs.Arc.{arc_value};
    ghost use Rattle.bpf_insn.specs.declared.insn.Insn.{Insn};
    ghost use Rattle.bpf_machine.specs.Machine.{Runs};
    ghost use Rattle.eth_frame.specs.Frame.{view};
    ghost use Rattle.eth_frame.specs.Views.{frame_data};
    ghost use Rattle.rec_lane.specs.Packets.{has_room};
    ghost use Rattle.rec_lane.specs.Moments.{is_span_due};
    ghost use Rattle.rec_lane.specs.Pieces.{has_no_packet};
    ghost use Rattle.rec_lane.specs.Settings.{spec_data};
    ghost use Rattle.rec_lane.specs.Lanes.{HasMet, is_current, running, offered_now, new_lane, Meets, MakesCertain, MeetsTime, MakesCertainAt, AreLeft, TakesFrame, TakesTime, EndsLane};
    ghost use Rattle.rec_lane.specs.Steps.{RunsAs, packet_closed, closed_pieces, frame_added, frame_judged, judged_pieces, frame_counted, frame_of_new_version, version_begun, begun_piece, begun_pieces};

    /// A lane of no frames, which isn't ready.
    pub fn new(alloc: Global, spec: LaneSpec) -> Result<Lane, AllocError>
        ensures empty { IfOk result (λ lane. lane ≡ new_lane (spec_data spec)) }
        ensures stands { IfOk result (λ lane. HasMet lane []) }
    {
        let packet = DataBuilder::with_limit(alloc, spec.limit, spec.net, spec.speed)?;
        Ok(Lane {
            alloc,
            spec,
            offered: 0,
            kept: 0,
            counter: 0,
            current: None,
            prepared: Prepared::with_room(alloc)?,
            packet,
            first: 0,
            spare: None,
        })
    }

    /// Takes the buffer of the next packet, if it is missing.
    ///
    /// # Errors
    ///
    /// [`AllocError`] if there is no memory for it; the lane is as it was.
    pub fn ready(&mut self) -> Result<(), AllocError>
        ensures ready { IfOk result (λ _. self.new ≡ record self.old { ready = true }) }
        ensures again { (self.old.ready ≡ true) → IsOk result }
        ensures refused { OnErr result (self.new ≡ self.old) }
    {
        if self.spare.is_none() {
            let LaneSpec {
                net,
                speed,
                limit,
                ..
            } = self.spec;
            self.spare = Some(DataBuilder::with_limit(self.alloc, limit, net, speed)?);
        }
        Ok(())
    }

    /// Takes an empty buffer for the next packet. It comes back if the lane has one, or if the
    /// buffer's limit isn't the lane's.
    pub fn give(&mut self, blank: Blank) -> Option<Blank>
        ensures taken { IsNone result ↔ ((self.old.ready ≡ false)
            × (blank ≡ self.old.settings.limit)) }
        ensures ready { IfNone result (self.new ≡ record self.old { ready = true }) }
        ensures back { IfSome result (λ same. (same ≡ blank) × (self.new ≡ self.old)) }
    {
        if self.spare.is_some() || blank.limit() != self.spec.limit {
            return Some(blank);
        }
        self.spare = Some(DataBuilder::over(blank, self.spec.net, self.spec.speed));
        None
    }

    /// Whether the lane has the buffer of the next packet.
    pub fn is_ready(&self) -> bool
        ensures ready { result ≡ self.now.ready }
    {
        self.spare.is_some()
    }

    /// How many frames were offered.
    pub fn offered(&self) -> u64
        ensures offered { result ≡ self.now.offered }
    {
        self.offered
    }

    /// How many of them the filter accepted.
    pub fn kept(&self) -> u64
        ensures kept { result ≡ self.now.kept }
    {
        self.kept
    }

    /// Whether this is the version that the lane met last.
    pub fn is_current(&self, version: u32) -> bool
        ensures current { result ≡ is_current self.now.current version }
        ensures known { result ≡ true → IsSome self.now.current }
    {
        match &self.current {
            None => false,
            Some(current) => current.version == version,
        }
    }

    /// Runs the filter in force on a frame, and packs the frame if it is accepted. The frame's number
    /// is the lane's count. Within a version the program that came with its first frame runs.
    pub fn offer(&mut self, frame: &Frame<'_>, drawn: Drawn) -> Offered
        requires ready { self.old.ready ≡ true }
        requires number { drawn.number ≡ self.old.offered }
        requires few { drawn.number < 2 ^ 64 - 1 }
        // The value is that of the version's program on the frame's view.
        ensures value { (steps : ℕ) × Runs
            (running self.old.current drawn.version (arc_value drawn.program))
            (view (frame_data frame.now)) steps result.value }
        // The lane stands for one frame more, and the pieces are those that became certain.
        ensures met { Meets self.old self.new (offered_now self.old drawn.version
            (arc_value drawn.program) (frame_data frame.now) result.value) }
        ensures pieces { MakesCertain self.old (offered_now self.old drawn.version
            (arc_value drawn.program) (frame_data frame.now) result.value)
            (pieces_data result.pieces.items) }
        ensures settings { self.new.settings ≡ self.old.settings }
        // The lane is ready again unless a packet is among the pieces.
        ensures ready { self.new.ready ≡ has_no_packet (pieces_data result.pieces.items) }
        // In a history: the frame is taken under its version.
        ensures in_history { TakesFrame self.old self.new (frame_data frame.now) drawn.version
            (arc_value drawn.program) (pieces_data result.pieces.items) }
    {
        a_lane_stands_for_frames_and_a_history();
        if self.is_current(drawn.version) {
            let known = self.offer_known(frame);
            Offered {
                value: known.value,
                pieces: pieces_of(known.packet),
            }
        } else {
            self.offer_first(frame, drawn)
        }
    }

    /// [`Lane::offer`] of a frame of the version that the lane met last, and so of a program that
    /// it has. At most one piece becomes certain by it, a packet.
    pub fn offer_known(&mut self, frame: &Frame<'_>) -> OfferedKnown
        requires ready { self.old.ready ≡ true }
        requires known { IsSome self.old.current }
        requires few { self.old.offered < 2 ^ 64 - 1 }
        // What an offer says with that version, whatever program comes with it.
        ensures value { (version : ℕ) (program : List Insn)
            → is_current self.old.current version ≡ true
            → (steps : ℕ) × Runs (running self.old.current version program)
            (view (frame_data frame.now)) steps result.value }
        ensures met { (version : ℕ) (program : List Insn)
            → is_current self.old.current version ≡ true
            → Meets self.old self.new (offered_now self.old version program
            (frame_data frame.now) result.value) }
        ensures pieces { (version : ℕ) (program : List Insn)
            → is_current self.old.current version ≡ true
            → MakesCertain self.old (offered_now self.old version program
            (frame_data frame.now) result.value) (packet_pieces result.packet) }
        ensures settings { self.new.settings ≡ self.old.settings }
        ensures ready { self.new.ready ≡ has_no_packet (packet_pieces result.packet) }
        ensures in_history { (version : ℕ) (program : List Insn)
            → is_current self.old.current version ≡ true
            → TakesFrame self.old self.new (frame_data frame.now) version program
            (packet_pieces result.packet) }
    {
        a_lane_stands_for_frames_and_a_history();
        self.offer_next(frame)
    }

    /// A time mark: a time at which no frame came. It closes the open packet if it is a span or more
    /// after that packet's first frame; without a span it does nothing.
    pub fn at(&mut self, counter: u64) -> Option<DataPiece>
        requires { self.old.ready ≡ true }
        // The lane stands for one time mark more, and the piece is the one that became certain.
        ensures met { MeetsTime self.old self.new counter }
        ensures pieces { MakesCertainAt self.old counter (packet_pieces result) }
        ensures settings { self.new.settings ≡ self.old.settings }
        ensures offered { self.new.offered ≡ self.old.offered }
        ensures current { self.new.current ≡ self.old.current }
        ensures ready { self.new.ready ≡ has_no_packet (packet_pieces result) }
        // Without a span nothing happens, and with one no frame that is kept waits any more from a
        // span ago.
        ensures idle { (self.old.settings.span ≡ None) → self.new ≡ self.old }
        ensures none_due { is_span_due self.new.settings.span self.new.pending counter ≡ false }
        // In a history: the time mark is taken.
        ensures in_history { TakesTime self.old self.new counter (packet_pieces result) }
    {
        a_lane_stands_for_frames_and_a_history();
        self.meet_time(counter)
    }

    /// The last pieces: the open packet, if it has frames, and the channel's end.
    pub fn end(self) -> ArrayVec<Piece, 2>
        ensures pieces { AreLeft self (pieces_data result.items) }
        ensures in_history { EndsLane self (pieces_data result.items) }
    {
        a_lane_stands_for_frames_and_a_history();
        self.last_pieces()
    }
}
