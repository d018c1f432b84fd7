//! The packets of a stream that went out so far.

ghost use Rattle.std.specs.Prelude.{◌≡◌};

use crate::counts::StreamCounts;
use ch11_file::{BlockHead, FileFault, SequenceNumbers, header_of, send_packet};
use std::alloc::{AllocError, Global};
use std::io::Write;
use std::marker::Model;

/// What is known of the packets that went out: the number of each channel's next one, the greatest counter, and how
/// many there are.
#[derive(Debug, Drop)]
pub(crate) struct Sent {
    numbers: SequenceNumbers,
    greatest: u64,
    counts: StreamCounts,
}

impl Model for Sent {
    ghost use Rattle.std.specs.Prelude.{◌<◌, ◌^◌};
    ghost use Rattle.rec_stream.specs.SentStates.{StreamSent, stream_sent};

    ghost Value = { StreamSent };

    ghost view = { λ s. stream_sent s.numbers s.greatest s.counts };

    ghost invariant = { λ s. s.greatest < 2 ^ 48 };
}

impl Sent {
    ghost use Rattle.std.specs.Prelude.{ℕ, ◌≡◌, ◌<◌, ◌≤◌, ◌^◌, List, Option, [], IfErr, IfOk, OnOk, MatchResult, length, max};
    ghost use Rattle.ch11_packet.specs.declared.header.TheConstants.{MAX_ETHERNET_PACKET_LEN};
    ghost use Rattle.ch11_packet.specs.PacketLen.{written_len};
    ghost use Rattle.ch11_packet.specs.Profiles.Profile.{WithSum};
    ghost use Rattle.ch11_file.specs.declared.limits.TheConstants.{MAX_SETUP_LEN};
    ghost use Rattle.ch11_file.specs.declared.kind.BlockKind.TheVariants.{Frames, Setup as SetupKind};
    ghost use Rattle.ch11_file.specs.FileBlocks.{BlockContent};
    ghost use Rattle.ch11_file.specs.Sending.{IsContent};
    ghost use Rattle.rec_stream.specs.StreamBlocks.{StreamState, StreamContentGoes};
    ghost use Rattle.rec_stream.specs.SentStates.{stream_counts_behind, other_more, stream_sent};
    ghost use Rattle.rec_stream.specs.Sending.{HasGone, StreamHasSent, StreamWritesPart, StreamWritesWhole};
    ghost use Rattle.rec_stream.specs.StreamEnds.{StreamPast, HoldsStreamFront};

    /// Nothing went out yet.
    pub(crate) fn new(alloc: Global) -> Result<Sent, AllocError>
        ensures fresh { (held : Option (List ℕ))
            → IfOk result (λ sent. StreamHasSent held held sent []) }
        ensures other { IfOk result (λ sent. sent.counts.other ≡ 0) }
    {
        Ok(Sent {
            numbers: SequenceNumbers::new(alloc)?,
            greatest: 0,
            counts: StreamCounts::NONE,
        })
    }

    /// The greatest counter of a header that went out.
    pub(crate) fn greatest(&self) -> u64
        ensures is { result ≡ self.now.greatest }
        ensures fits { result < 2 ^ 48 }
    {
        self.greatest
    }

    /// How many packets went out.
    pub(crate) fn counts(&self) -> StreamCounts
        ensures { result ≡ self.now.counts }
    {
        self.counts
    }

    /// Notes a packet of another kind, which is left out.
    pub(crate) fn note_other(&mut self)
        ensures { self.new ≡ stream_sent self.old.numbers self.old.greatest
            (other_more self.old.counts) }
    {
        self.counts.other = self.counts.other.saturating_add(1);
    }

    /// Sends a packet.
    pub(crate) fn put<W: Write>(
        &mut self,
        out: &mut W,
        head: BlockHead,
        body: &[u8],
    ) -> Result<(), FileFault>
        requires counter { head.counter < 2 ^ 48 }
        requires fits { written_len WithSum (length body.now) < 2 ^ 32 }
        requires frames { head.kind ≡ Frames
            → written_len WithSum (length body.now) ≤ MAX_ETHERNET_PACKET_LEN }
        requires setup { head.kind ≡ SetupKind
            → written_len WithSum (length body.now) ≤ MAX_SETUP_LEN }
        ensures sent { (past : StreamPast) (old next : StreamState) (content : BlockContent)
            → HasGone past (W.contents out.old) self.old old
            → IsContent past.facts.setup content head.kind head.channel body.now
            → StreamContentGoes past.facts old content head.counter next
            → MatchResult result (λ _. HasGone past (W.contents out.new) self.new next)
            (λ _. HoldsStreamFront past (W.contents out.new)) }
        ensures other { OnOk result (self.new.counts.other ≡ self.old.counts.other) }
    {
        self.write(out, head, body)?;
        self.note(head);
        Ok(())
    }

    /// Writes a packet with the next number of its channel.
    fn write<W: Write>(
        &mut self,
        out: &mut W,
        head: BlockHead,
        body: &[u8],
    ) -> Result<(), FileFault>
        requires counter { head.counter < 2 ^ 48 }
        requires fits { written_len WithSum (length body.now) < 2 ^ 32 }
        requires frames { head.kind ≡ Frames
            → written_len WithSum (length body.now) ≤ MAX_ETHERNET_PACKET_LEN }
        ensures whole { OnOk result
            (StreamWritesWhole self.old head.kind head.channel head.counter body.now
            (W.contents out.old) (W.contents out.new) self.new) }
        ensures part { IfErr result
            (λ _. StreamWritesPart self.old head.kind head.channel head.counter body.now
            (W.contents out.old) (W.contents out.new)) }
    {
        let sequence = self.numbers.take(head.channel);
        let header = header_of(head, sequence, body);
        send_packet(out, &header, body)?;
        Ok(())
    }

    /// Notes a packet that went out.
    fn note(&mut self, head: BlockHead)
        requires { head.counter < 2 ^ 48 }
        ensures { self.new ≡ stream_sent self.old.numbers (max self.old.greatest head.counter)
            (stream_counts_behind self.old.greatest self.old.counts head.kind head.counter) }
    {
        self.counts = self.counts.with(self.greatest, head);
        self.greatest = self.greatest.max(head.counter);
    }
}
