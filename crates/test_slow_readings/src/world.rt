//! A slow model of a recorder's core: lists of all frames, of all versions and of all pieces that
//! were written, from which each answer is worked out anew.

use crate::packets::{output_of, packet_of};
use crate::pieces::{
    Channel, Holds, PlainFrame, PlainVersion, ReadPiece, all_pieces, in_force, last_value,
    pieces_so_far,
};
use bpf_verify::Verified;
use std::alloc::{AllocError, Global};
use std::sync::Arc;

/// The most versions that a channel may have.
const MOST_VERSIONS: usize = 1_024;

/// What may happen to a channel.
#[derive(Drop)]
pub(crate) enum PlainEvent {
    /// A frame comes.
    Take(PlainFrame),
    /// A time mark comes.
    Time(u64),
    /// The filter is changed.
    Install(Arc<Verified, Global>),
    /// A piece goes into the ring.
    Send,
    /// A piece of the ring is written.
    Write,
    /// No more frames come.
    Close,
}

/// What an event that isn't refused is answered.
#[derive(Clone, Copy, Debug, PartialEq, Eq)]
pub(crate) enum PlainReply {
    /// The frame's number, the version that it met, and what the filter returned on it.
    Took {
        number: usize,
        version: Option<usize>,
        value: Option<u32>,
    },
    /// The time mark was taken.
    Timed,
    /// The new version, and the number of frames before it.
    Installed {
        version: usize,
        mark: usize,
    },
    /// The piece of this version's program went into the ring.
    SentProgram(usize),
    /// A packet of this number of frames went into the ring.
    SentFrames(usize),
    /// The channel's end went into the ring.
    SentEnd,
    /// The piece was written as a packet of this number of bytes.
    Wrote {
        bytes: usize,
    },
    /// The channel had this number of frames, and kept that many.
    Closed {
        offered: usize,
        kept: usize,
    },
}

/// Why an event is refused.
#[derive(Clone, Copy, Debug, PartialEq, Eq)]
pub(crate) enum Refusal {
    NoChannel,
    Closed,
    RingFull,
    NothingToSend,
    NothingToWrite,
    VersionsFull,
    CountFull,
}

/// The answer to an event.
pub(crate) type PlainAnswer = Result<PlainReply, Refusal>;

/// A channel: what it is set to, its frames and versions, whether it is closed, and how many of its
/// pieces were sent and written.
#[derive(Drop)]
pub(crate) struct PlainChannel {
    channel: Channel,
    max: usize,
    frames: Vec<PlainFrame>,
    versions: Vec<PlainVersion>,
    closed: bool,
    sent: usize,
    written: usize,
}

/// The channels of a recorder, and the pieces that were written.
#[derive(Drop)]
pub(crate) struct PlainWorld {
    channels: Vec<PlainChannel>,
    ring: usize,
    version: u8,
    out: Vec<ReadPiece>,
}

impl PlainWorld {
    /// A recorder without channels, whose rings have room for `ring` pieces, and whose packets have
    /// this version byte.
    pub(crate) fn new(alloc: Global, ring: usize, version: u8) -> PlainWorld {
        PlainWorld {
            channels: Vec::new(alloc),
            ring,
            version,
            out: Vec::new(alloc),
        }
    }

    /// Adds a channel that takes at most `max` frames, the first under this program.
    pub(crate) fn add_channel(
        &mut self,
        alloc: Global,
        channel: Channel,
        program: Arc<Verified, Global>,
        max: usize,
    ) -> Result<(), AllocError> {
        let mut versions = Vec::new(alloc);
        versions.push(PlainVersion { mark: 0, program })?;
        self.channels.push(PlainChannel {
            channel,
            max,
            frames: Vec::new(alloc),
            versions,
            closed: false,
            sent: 0,
            written: 0,
        })?;
        Ok(())
    }

    /// What happens at an event.
    pub(crate) fn step(
        &mut self,
        alloc: Global,
        channel: u16,
        event: PlainEvent,
    ) -> Result<PlainAnswer, AllocError> {
        let mut channels = self.channels.iter_mut();
        let Some(found) = channels.find(|found| found.channel.id == channel) else {
            return Ok(Err(Refusal::NoChannel));
        };
        match event {
            PlainEvent::Take(frame) => found.take(frame),
            PlainEvent::Time(counter) => found.meet_time(counter),
            PlainEvent::Install(program) => found.install(program),
            PlainEvent::Send => found.send(alloc, self.ring),
            PlainEvent::Write => found.write(alloc, &mut self.out),
            PlainEvent::Close => found.close(alloc),
        }
    }

    /// Whether all channels are closed and all their pieces written.
    pub(crate) fn is_written(&self, alloc: Global) -> Result<bool, AllocError> {
        for channel in &self.channels {
            if !channel.closed || channel.written < channel.produced(alloc)?.len() {
                return Ok(false);
            }
        }
        Ok(true)
    }

    /// The bytes of all pieces that were written.
    pub(crate) fn output(&self, alloc: Global) -> Result<Vec<u8>, AllocError> {
        output_of(alloc, self.out.as_slice(), self.version)
    }
}

impl PlainChannel {
    /// The pieces that may be sent by now.
    fn produced(&self, alloc: Global) -> Result<Vec<ReadPiece>, AllocError> {
        let (frames, versions) = (self.frames.as_slice(), self.versions.as_slice());
        if self.closed {
            all_pieces(alloc, self.channel, frames, versions)
        } else {
            pieces_so_far(alloc, self.channel, frames, versions)
        }
    }

    /// A frame comes.
    fn take(&mut self, frame: PlainFrame) -> Result<PlainAnswer, AllocError> {
        if self.closed {
            return Ok(Err(Refusal::Closed));
        }
        let number = self.frames.len();
        if number >= self.max {
            return Ok(Err(Refusal::CountFull));
        }
        self.frames.push(frame)?;
        let versions = self.versions.as_slice();
        Ok(Ok(PlainReply::Took {
            number,
            version: in_force(versions, number).map(|(version, _)| version),
            value: last_value(self.frames.as_slice(), versions),
        }))
    }

    /// A time mark comes. One ahead of the first frame is of none.
    fn meet_time(&mut self, counter: u64) -> Result<PlainAnswer, AllocError> {
        if self.closed {
            return Ok(Err(Refusal::Closed));
        }
        if let Some(frame) = self.frames.last_mut() {
            frame.times.push(counter)?;
        }
        Ok(Ok(PlainReply::Timed))
    }

    /// The filter is changed for the frames to come.
    fn install(&mut self, program: Arc<Verified, Global>) -> Result<PlainAnswer, AllocError> {
        let version = self.versions.len();
        if version >= MOST_VERSIONS {
            return Ok(Err(Refusal::VersionsFull));
        }
        let mark = self.frames.len();
        self.versions.push(PlainVersion { mark, program })?;
        Ok(Ok(PlainReply::Installed { version, mark }))
    }

    /// The next piece goes into the ring.
    fn send(&mut self, alloc: Global, ring: usize) -> Result<PlainAnswer, AllocError> {
        let produced = self.produced(alloc)?;
        let Some(piece) = produced.get(self.sent) else {
            return Ok(Err(Refusal::NothingToSend));
        };
        if self.sent.saturating_sub(self.written) >= ring {
            return Ok(Err(Refusal::RingFull));
        }
        self.sent = self.sent.saturating_add(1);
        Ok(Ok(match piece.holds {
            Holds::Program { version, .. } => PlainReply::SentProgram(version),
            Holds::Data { count, .. } => PlainReply::SentFrames(count),
            Holds::End { .. } => PlainReply::SentEnd,
        }))
    }

    /// The oldest piece of the ring is written.
    fn write(
        &mut self,
        alloc: Global,
        out: &mut Vec<ReadPiece>,
    ) -> Result<PlainAnswer, AllocError> {
        if self.written >= self.sent {
            return Ok(Err(Refusal::NothingToWrite));
        }
        let mut produced = self.produced(alloc)?;
        produced.truncate(self.written.saturating_add(1));
        let Some(piece) = produced.pop() else {
            return Ok(Err(Refusal::NothingToWrite));
        };
        let bytes = packet_of(alloc, &piece, 0, 0)?.len();
        out.push(piece)?;
        self.written = self.written.saturating_add(1);
        Ok(Ok(PlainReply::Wrote { bytes }))
    }

    /// No more frames come.
    fn close(&mut self, alloc: Global) -> Result<PlainAnswer, AllocError> {
        if self.closed {
            return Ok(Err(Refusal::Closed));
        }
        self.closed = true;
        let offered = self.frames.len();
        let kept = match self.produced(alloc)?.last() {
            Some(
                ReadPiece {
                    holds: Holds::End { kept, .. },
                    ..
                },
            ) => *kept,
            _ => 0,
        };
        Ok(Ok(PlainReply::Closed { offered, kept }))
    }
}
