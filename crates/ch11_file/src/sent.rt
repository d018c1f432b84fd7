//! The packets of a file that went out so far.

ghost use Rattle.std.specs.Prelude.{◌≡◌};

use crate::counts::FileCounts;
use crate::end::FileFault;
use crate::kind::{BlockHead, BlockKind};
use crate::numbers::SequenceNumbers;
use crate::send::{header_of, send_packet};
use ch11_index::{FilePacket, Index, IndexPacket};
use ch11_packet::written_len;
use std::alloc::{AllocError, Global};
use std::io::Write;
use std::marker::Model;

/// What is known of the packets that went out: the number of each channel's next one, what the index names,
/// and how many there are.
#[derive(Debug, Drop)]
pub(crate) struct Sent {
    numbers: SequenceNumbers,
    index: Index,
    counts: FileCounts,
}

impl Model for Sent {
    ghost use Rattle.ch11_file.specs.Sending.{SentState, sent_state, CountsFit};

    ghost Value = { SentState };

    ghost view = { λ s. sent_state s.numbers s.index s.counts };

    ghost invariant = { λ s. CountsFit s.counts s.index };
}

impl Sent {
    ghost use Rattle.std.specs.Prelude.{ℕ, ◌≡◌, ◌≢◌, ◌+◌, ◌<◌, ◌≤◌, ◌^◌, IfOk, OnOk, IfErr, IfSome, IsTrue, MatchResult, None, Some, List, Option, length};
    ghost use Rattle.ch11_packet.specs.declared.header.TheConstants.{MAX_ETHERNET_PACKET_LEN};
    ghost use Rattle.ch11_packet.specs.PacketLen.{written_len};
    ghost use Rattle.ch11_packet.specs.Profiles.Profile.{WithSum};
    ghost use Rattle.ch11_index.specs.declared.index.TheConstants.{MOST_NAMED};
    ghost use Rattle.ch11_index.specs.declared.index.IndexPacket.TheVariants.{Node};
    ghost use Rattle.ch11_index.specs.FileIndex.{due, due_at_end, after_packet, after_index_packet};
    ghost use Rattle.ch11_file.specs.declared.limits.TheConstants.{MAX_SETUP_LEN};
    ghost use Rattle.ch11_file.specs.declared.kind.BlockKind.TheVariants.{Frames, Setup as SetupKind, Index as IndexKind};
    ghost use Rattle.ch11_file.specs.FileBlocks.{BlockContent};
    ghost use Rattle.ch11_file.specs.WholeFile.{FileFacts, MergeState, ContentGoesNext, IndexIsDue, IsMerged};
    ghost use Rattle.ch11_file.specs.FileEnds.{HoldsFront};
    ghost use Rattle.ch11_file.specs.Sending.{HasSent, IsContent, IsFresh, IndexGrows, WritesWhole, WritesPart, sent_state};
    ghost use Rattle.ch11_file.specs.Sending.{counts_behind, index_next, named_with};

    /// Nothing went out yet. Nodes and roots of the index name at most this many.
    pub(crate) fn new(alloc: Global, most: u16) -> Result<Sent, AllocError>
        requires some { 0 < most }
        requires few { most ≤ MOST_NAMED }
        ensures { IfOk result (λ sent. IsFresh most sent) }
    {
        Ok(Sent {
            numbers: SequenceNumbers::new(alloc)?,
            index: Index::new(alloc, most)?,
            counts: FileCounts {
                times: 0,
                packets: 0,
                records: 0,
                index: 0,
                bytes: 0,
            },
        })
    }

    /// The greatest counter of a header that went out.
    pub(crate) fn greatest(&self) -> u64
        ensures is { result ≡ self.now.index.greatest }
        ensures fits { result < 2 ^ 48 }
    {
        self.index.greatest()
    }

    /// How many packets went out.
    pub(crate) fn counts(&self) -> FileCounts
        ensures { result ≡ self.now.counts }
    {
        self.counts
    }

    /// Sends a packet that the index names, and ahead of it those of the index that are due.
    pub(crate) fn put<W: Write>(
        &mut self,
        alloc: Global,
        out: &mut W,
        head: BlockHead,
        body: &[u8],
    ) -> Result<(), FileFault>
        requires counter { head.counter < 2 ^ 48 }
        requires fits { written_len WithSum (length body.now) < 2 ^ 32 }
        requires frames { head.kind ≡ Frames
            → written_len WithSum (length body.now) ≤ MAX_ETHERNET_PACKET_LEN }
        requires setup { head.kind ≡ SetupKind
            → written_len WithSum (length body.now) ≤ MAX_SETUP_LEN }
        ensures sent { (facts : FileFacts) (before : Option (List ℕ)) (merge next : MergeState)
            (content : BlockContent)
            → HasSent facts before (W.contents out.old) self.old merge
            → IsContent facts.setup content head.kind head.channel body.now
            → ContentGoesNext facts self.old.index.greatest merge content head.counter next
            → MatchResult result (λ _. HasSent facts before (W.contents out.new) self.new next)
            (λ _. HoldsFront facts before (W.contents out.new)) }
        ensures grows { OnOk result ((self.old.index.place < self.new.index.place)
            × (self.new.index.place < 2 ^ 64)) }
    {
        self.put_index(alloc, out, false)?;
        let len = self.write(out, head, body)?;
        self.note(head, len);
        Ok(())
    }

    /// Sends the packets of the index that are due: ahead of a further packet, or at the end of the file.
    pub(crate) fn put_index<W: Write>(
        &mut self,
        alloc: Global,
        out: &mut W,
        is_last: bool,
    ) -> Result<(), FileFault>
        ensures sent { (facts : FileFacts) (before : Option (List ℕ)) (merge : MergeState)
            → HasSent facts before (W.contents out.old) self.old merge
            → (IsTrue is_last → IsMerged merge)
            → MatchResult result (λ _. HasSent facts before (W.contents out.new) self.new merge)
            (λ _. HoldsFront facts before (W.contents out.new)) }
        ensures none_due { OnOk result (index_next is_last self.new.index ≡ None) }
        ensures grows { OnOk result (IndexGrows self.old.index self.new.index) }
    {
        self.put_if_due(alloc, out, is_last)?;
        self.put_if_due(alloc, out, is_last)
    }

    /// Sends the packet of the index that is due, if one is. Behind a root none is.
    fn put_if_due<W: Write>(
        &mut self,
        alloc: Global,
        out: &mut W,
        is_last: bool,
    ) -> Result<(), FileFault>
        ensures sent { (facts : FileFacts) (before : Option (List ℕ)) (merge : MergeState)
            → HasSent facts before (W.contents out.old) self.old merge
            → (IsTrue is_last → IsMerged merge)
            → MatchResult result (λ _. HasSent facts before (W.contents out.new) self.new merge)
            (λ _. HoldsFront facts before (W.contents out.new)) }
        ensures no_node { OnOk result (index_next is_last self.new.index ≢ Some Node) }
        ensures none_due { index_next is_last self.old.index ≢ Some Node
            → OnOk result (index_next is_last self.new.index ≡ None) }
        ensures grows { OnOk result (IndexGrows self.old.index self.new.index) }
    {
        match self.index_next(is_last) {
            Some(packet) => self.put_index_packet(alloc, out, packet),
            None => Ok(()),
        }
    }

    /// The packet of the index that is due ahead of a further packet, or at the end of the file.
    fn index_next(&self, is_last: bool) -> Option<IndexPacket>
        ensures next { result ≡ index_next is_last self.now.index }
        ensures at_end { IfSome result (λ packet. due_at_end self.now.index ≡ Some packet) }
        ensures some { 0 < self.now.index.most }
    {
        if is_last {
            self.index.due_at_end()
        } else {
            self.index.due()
        }
    }

    /// Sends this packet of the index, which names all that none names yet.
    fn put_index_packet<W: Write>(
        &mut self,
        alloc: Global,
        out: &mut W,
        packet: IndexPacket,
    ) -> Result<(), FileFault>
        requires { due_at_end self.old.index ≡ Some packet }
        ensures sent { (facts : FileFacts) (before : Option (List ℕ)) (merge : MergeState)
            → HasSent facts before (W.contents out.old) self.old merge
            → IndexIsDue packet self.old.index merge
            → MatchResult result (λ _. HasSent facts before (W.contents out.new) self.new merge)
            (λ _. HoldsFront facts before (W.contents out.new)) }
        ensures index { OnOk result ((len : ℕ)
            × (self.new.index ≡ after_index_packet self.old.index packet len)) }
    {
        let mut body = Vec::new(alloc);
        self.index.add_body(packet, &mut body)?;
        let head = BlockHead::of_index(self.greatest());
        let len = self.write(out, head, &body)?;
        self.close(packet, len);
        Ok(())
    }

    /// Writes a packet with the next number of its channel, and gives its length.
    fn write<W: Write>(
        &mut self,
        out: &mut W,
        head: BlockHead,
        body: &[u8],
    ) -> Result<u32, FileFault>
        requires counter { head.counter < 2 ^ 48 }
        requires fits { written_len WithSum (length body.now) < 2 ^ 32 }
        requires frames { head.kind ≡ Frames
            → written_len WithSum (length body.now) ≤ MAX_ETHERNET_PACKET_LEN }
        ensures whole { IfOk result (λ len. WritesWhole self.old head.kind head.channel head.counter
            body.now (W.contents out.old) (W.contents out.new) len self.new) }
        ensures part { IfErr result (λ _. WritesPart self.old head.kind head.channel head.counter
            body.now (W.contents out.old) (W.contents out.new)) }
    {
        let len = written_len(body.len()) as u32;
        let sequence = self.numbers.take(head.channel);
        let header = header_of(head, sequence, body);
        if !self.index.has_room(len) {
            return Err(FileFault::Long);
        }
        send_packet(out, &header, body)?;
        Ok(len)
    }

    /// Notes a packet that went out and that the index names.
    fn note(&mut self, head: BlockHead, len: u32)
        requires none_due { due self.old.index ≡ None }
        requires room { self.old.index.place + len < 2 ^ 64 }
        requires some { 0 < len }
        requires counter { head.counter < 2 ^ 48 }
        ensures { self.new ≡ sent_state self.old.numbers
            (after_packet self.old.index (named_with head.kind head.channel head.counter len))
            (counts_behind self.old.counts head.kind len) }
    {
        self.counts = self.counts.with(head.kind, len);
        self.index.note(FilePacket {
            counter: head.counter,
            channel: head.channel,
            kind: head.kind.data_type(),
            len,
        });
    }

    /// Notes a packet of the index that went out.
    fn close(&mut self, packet: IndexPacket, len: u32)
        requires is_due { due_at_end self.old.index ≡ Some packet }
        requires room { self.old.index.place + len < 2 ^ 64 }
        requires some { 0 < len }
        ensures { self.new ≡ sent_state self.old.numbers
            (after_index_packet self.old.index packet len)
            (counts_behind self.old.counts IndexKind len) }
    {
        self.counts = self.counts.with(BlockKind::Index, len);
        self.index.close(packet, len);
    }
}
