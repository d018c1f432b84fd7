//! One channel of a core: its slot, its lane until it is closed, and the two queues of its pieces.

ghost use Rattle.std.specs.Prelude.{ℕ, ◌≡◌, ◌+◌, ◌<◌, ◌≤◌, ◌∷◌, ◌++◌, [], true, length, MatchResult, IfOk, IfErr};
ghost use Rattle.std.specs.VecDeque.{deque_len, deque_capacity};
ghost use Rattle.arrayvec.specs.ArrayVec.{array_vec_len};
ghost use Rattle.eth_frame.specs.Views.{frame_data};
ghost use Rattle.rec_lane.specs.Views.{pieces_data};
ghost use Rattle.rec_channel.specs.Slots.{SlotState};
ghost use Rattle.rec_core.specs.Steps.{Offers, NotOffered, Notes};

use crate::event::Event;
use crate::fault::CoreFault;
use crate::reply::{Reply, Which};
use crate::ring::Ring;
use crate::spec::ChannelSpec;
use arrayvec::ArrayVec;
use bpf_verify::Verified;
use eth_frame::Frame;
use rec_channel::{Installed, MAX_VERSIONS, Slot};
use rec_lane::{
    Lane, LaneSpec, Offered, Piece, later_versions_leave_the_frames, pieces_are_of_their_channel,
    pieces_so_far_begin_all_pieces,
};
use rec_writer::{Writer, packet_len};
use std::alloc::{AllocError, Global};
use std::collections::VecDeque;
use std::io::Write;
use std::sync::Arc;

/// How many pieces become certain at once: by a frame, or by a channel's end.
const MOST_PIECES: usize = 2;

/// One channel of a core.
#[derive(Debug, Drop)]
pub(crate) struct Channel {
    pub(crate) spec: LaneSpec,
    /// How many frames it may have.
    pub(crate) max: u64,
    pub(crate) slot: Slot,
    /// None once the channel is closed.
    pub(crate) lane: Option<Lane>,
    /// The pieces that are certain and were not sent.
    pub(crate) pending: VecDeque<Piece>,
    pub(crate) ring: Ring,
}

impl Channel {
    ghost use Rattle.std.specs.Arc.{arc_value};
    ghost use Rattle.rec_lane.specs.Parts.{BeginsList};
    ghost use Rattle.rec_writer.specs.Numbers.{numbered_channels};
    ghost use Rattle.rec_writer.specs.Writers.{Knows};
    ghost use Rattle.rec_core.specs.Openings.{IsFilter};
    ghost use Rattle.rec_core.specs.World.{opening_channel};
    ghost use Rattle.rec_core.specs.World.EventData.{OfTake, OfTime, OfInstall, OfSend, OfWrite, OfClose};
    ghost use Rattle.rec_core.specs.Worlds.{HoldsChannel, AreHeldParts};
    ghost use Rattle.rec_core.specs.Steps.{AnswersEvent, Serves};
    ghost use Rattle.rec_core.specs.Views.{channel_spec_data, channel_parts, event_data};

    /// A channel of which nothing was taken. Its ring has room for this many pieces.
    pub(crate) fn new(alloc: Global, spec: &ChannelSpec, ring: usize) -> Result<Channel, AllocError>
        ensures opening { IfOk result (λ c.
            HoldsChannel ring (channel_parts c) (opening_channel (channel_spec_data spec.now))) }
        ensures spec { IfOk result (λ c. c.spec ≡ spec.now.lane) }
        ensures filter { IsFilter (arc_value spec.now.program) }
    {
        let _valid = spec.program.insns();
        let slot = Slot::new(alloc, Arc::try_clone(&spec.program)?, spec.max)?;
        let lane = Lane::new(alloc, spec.lane)?;
        Ok(Channel {
            spec: spec.lane,
            max: spec.max,
            slot,
            lane: Some(lane),
            pending: VecDeque::new(alloc),
            ring: Ring::new(alloc, ring)?,
        })
    }

    /// Does an event of this channel.
    pub(crate) fn serve<W: Write>(
        &mut self,
        writer: &mut Writer<W>,
        event: &Event,
    ) -> Result<Reply, CoreFault>
        requires held { AreHeldParts (channel_parts self.old) }
        requires known { Knows writer.old self.old.spec.channel }
        ensures serves { (size : ℕ) → Serves size (channel_parts self.old)
            (channel_parts self.new) writer.old writer.new (event_data event.now) result }
        // The channel stays, and so does the ring's first piece where the output failed.
        ensures spec { self.new.spec ≡ self.old.spec }
        ensures front { writer.new.failed ≡ true
            → BeginsList self.old.ring.pieces self.new.ring.pieces }
        // The writer stays one of the same channels.
        ensures version { writer.new.version ≡ writer.old.version }
        ensures channels { numbered_channels writer.new.numbers
            ≡ numbered_channels writer.old.numbers }
    {
        match event {
            Event::Take { frame, .. } => self.take(&frame.frame()),
            Event::Time { counter, .. } => self.meet_time(*counter),
            Event::Install { program, .. } => self.install(program),
            Event::Send { .. } => self.send(),
            Event::Write { .. } => self.write(writer),
            Event::Close { .. } => self.close(),
        }
    }

    /// Takes a frame.
    fn take(&mut self, frame: &Frame<'_>) -> Result<Reply, CoreFault>
        requires { AreHeldParts (channel_parts self.old) }
        ensures answers { (size channel : ℕ) → AnswersEvent size (channel_parts self.old)
            (channel_parts self.new) (OfTake channel (frame_data frame.now)) result }
        ensures spec { self.new.spec ≡ self.old.spec }
        ensures ring { self.new.ring ≡ self.old.ring }
    {
        let Some(lane) = &mut self.lane else {
            return Err(CoreFault::Closed);
        };
        if lane.offered() == self.max {
            return Err(CoreFault::CountFull);
        }
        offer(&mut self.slot, lane, &mut self.pending, frame)
    }

    /// Takes a time mark.
    fn meet_time(&mut self, counter: u64) -> Result<Reply, CoreFault>
        ensures answers { (size channel : ℕ) → AnswersEvent size (channel_parts self.old)
            (channel_parts self.new) (OfTime channel counter) result }
        ensures spec { self.new.spec ≡ self.old.spec }
        ensures ring { self.new.ring ≡ self.old.ring }
    {
        let LaneSpec { span, .. } = self.spec;
        let Some(lane) = &mut self.lane else {
            return Err(CoreFault::Closed);
        };
        if span.is_none() {
            return Ok(Reply::Timed);
        }
        note(lane, &mut self.pending, counter)
    }

    /// Installs a program.
    fn install(&mut self, program: &Arc<Verified, Global>) -> Result<Reply, CoreFault>
        ensures answers { (size channel : ℕ) → AnswersEvent size (channel_parts self.old)
            (channel_parts self.new) (OfInstall channel (arc_value program.now)) result }
        ensures spec { self.new.spec ≡ self.old.spec }
        ensures ring { self.new.ring ≡ self.old.ring }
    {
        later_versions_leave_the_frames();
        if self.slot.versions().len() == MAX_VERSIONS {
            return Err(CoreFault::VersionsFull);
        }
        let share = Arc::try_clone(program)?;
        // a verified program is valid, as the channel's history says of it
        let _valid = share.insns();
        match self.slot.install(share) {
            Ok(Installed { version, mark }) => Ok(Reply::Installed { version, mark }),
            Err(_) => unreachable!(),
        }
    }

    /// Sends the next piece into the ring.
    fn send(&mut self) -> Result<Reply, CoreFault>
        ensures answers { (size channel : ℕ) → AnswersEvent size (channel_parts self.old)
            (channel_parts self.new) (OfSend channel) result }
        ensures spec { self.new.spec ≡ self.old.spec }
        ensures front { BeginsList self.old.ring.pieces self.new.ring.pieces }
    {
        if self.pending.is_empty() {
            return Err(CoreFault::NothingToSend);
        }
        if self.ring.is_full() {
            return Err(CoreFault::RingFull);
        }
        let Some(piece) = self.pending.pop_front() else {
            unreachable!()
        };
        let which = Which::of(&piece);
        self.ring.push(piece);
        Ok(Reply::Sent(which))
    }

    /// Writes the first piece of the ring. It leaves the ring when it is written.
    fn write<W: Write>(&mut self, writer: &mut Writer<W>) -> Result<Reply, CoreFault>
        requires held { AreHeldParts (channel_parts self.old) }
        requires known { Knows writer.old self.old.spec.channel }
        ensures serves { (size channel : ℕ) → Serves size (channel_parts self.old)
            (channel_parts self.new) writer.old writer.new (OfWrite channel) result }
        ensures spec { self.new.spec ≡ self.old.spec }
        ensures front { writer.new.failed ≡ true
            → BeginsList self.old.ring.pieces self.new.ring.pieces }
        ensures version { writer.new.version ≡ writer.old.version }
        ensures channels { numbered_channels writer.new.numbers
            ≡ numbered_channels writer.old.numbers }
    {
        pieces_are_of_their_channel();
        pieces_so_far_begin_all_pieces();
        let Some(piece) = self.ring.front() else {
            return Err(CoreFault::NothingToWrite);
        };
        let bytes = packet_len(piece);
        match writer.put(piece) {
            Ok(()) => {}
            Err(_) => return Err(CoreFault::Output),
        }
        self.ring.pop();
        Ok(Reply::Wrote { bytes })
    }

    /// Closes the channel: its last pieces are certain.
    fn close(&mut self) -> Result<Reply, CoreFault>
        ensures answers { (size channel : ℕ) → AnswersEvent size (channel_parts self.old)
            (channel_parts self.new) (OfClose channel) result }
        ensures spec { self.new.spec ≡ self.old.spec }
        ensures ring { self.new.ring ≡ self.old.ring }
    {
        if self.lane.is_none() {
            return Err(CoreFault::Closed);
        }
        self.pending.reserve(MOST_PIECES)?;
        let Some(lane) = self.lane.take() else {
            unreachable!()
        };
        let offered = lane.offered();
        let kept = lane.kept();
        append(&mut self.pending, lane.end());
        Ok(Reply::Closed { offered, kept })
    }
}

/// Draws the filter in force for a frame, and offers the frame to the lane. What is certain then is
/// pending. Room is taken first.
fn offer(
    slot: &mut Slot,
    lane: &mut Lane,
    pending: &mut VecDeque<Piece>,
    frame: &Frame<'_>,
) -> Result<Reply, CoreFault>
    requires number { lane.old.offered ≡ slot.old.offered }
    requires room { slot.old.offered < slot.old.max }
    ensures took { IfOk result (Offers slot.old slot.new lane.old lane.new
        (pieces_data pending.old.items) (pieces_data pending.new.items) (frame_data frame.now)) }
    ensures refused { IfErr result (NotOffered slot.old slot.new lane.old lane.new
        (pieces_data pending.old.items) (pieces_data pending.new.items)) }
{
    lane.ready()?;
    pending.reserve(MOST_PIECES)?;
    let Ok(drawn) = slot.draw() else {
        return Err(CoreFault::Memory);
    };
    let number = drawn.number;
    let version = drawn.version;
    let Offered { value, pieces } = lane.offer(frame, drawn);
    append(pending, pieces);
    Ok(Reply::Took {
        number,
        version,
        value,
    })
}

/// Gives a time mark to the lane. What is certain then is pending. Room is taken first.
fn note(lane: &mut Lane, pending: &mut VecDeque<Piece>, counter: u64) -> Result<Reply, CoreFault>
    ensures took { IfOk result (Notes lane.old lane.new
        (pieces_data pending.old.items) (pieces_data pending.new.items) counter) }
    ensures refused { IfErr result (λ fault. (slot : SlotState) → NotOffered slot slot lane.old
        lane.new (pieces_data pending.old.items) (pieces_data pending.new.items) fault) }
{
    lane.ready()?;
    pending.reserve(1)?;
    if let Some(packet) = lane.at(counter) {
        pending.push_back_reserved(Piece::Data(packet));
    }
    Ok(Reply::Timed)
}

/// Adds pieces behind the others, for which there is room.
fn append(pending: &mut VecDeque<Piece>, pieces: ArrayVec<Piece, MOST_PIECES>)
    requires { deque_len pending.old + MOST_PIECES ≤ deque_capacity pending.old }
    ensures { pending.new.items ≡ pending.old.items ++ pieces.items }
{
    'pieces: for piece in pieces {
        pending.push_back_reserved(piece);
    }
}
