//! The index of a file that is being written.

ghost use Rattle.std.specs.Prelude.{◌≡◌};

use crate::body::{add_node, add_root};
use crate::entry::{NodeEntry, RootEntry};
use std::alloc::{AllocError, Global};
use std::marker::Model;

/// How many packets a node names at most, and how many nodes a root.
pub const MOST_NAMED: u16 = 16_384;

/// A packet of the file that an index names.
#[derive(Clone, Copy, Debug, PartialEq, Eq)]
pub struct FilePacket {
    /// The counter of its header.
    pub counter: u64,
    /// Its channel's ID.
    pub channel: u16,
    /// Its data type.
    pub kind: u8,
    /// How many bytes the whole packet has.
    pub len: u32,
}

/// A packet of the index itself.
#[derive(Clone, Copy, Debug, PartialEq, Eq)]
pub enum IndexPacket {
    /// A node, which names packets.
    Node,
    /// A root, which names nodes.
    Root,
}

/// The index of the packets that went out so far.
#[derive(Debug, Drop)]
pub struct Index {
    most: u16,
    packets: Vec<NodeEntry>,
    nodes: Vec<RootEntry>,
    root: Option<RootEntry>,
    greatest: u64,
    place: u64,
}

impl Model for Index {
    ghost use Rattle.std.specs.Vec.{vec_capacity};
    ghost use Rattle.ch11_index.specs.FileIndex.{IndexState, index_state};
    ghost use Rattle.ch11_index.specs.Rooms.{HasIndexRoom};

    ghost Value = { IndexState };

    ghost view = { λ i.
        index_state i.most i.packets.items i.nodes.items i.root i.greatest i.place };

    ghost invariant = { λ i. HasIndexRoom i.most i.packets.items (vec_capacity i.packets)
        i.nodes.items (vec_capacity i.nodes) };
}

impl Index {
    ghost use Rattle.std.specs.Prelude.{◌+◌, ◌<◌, ◌≤◌, ◌^◌, ◌↔◌, ◌++◌, None, Some, IfOk, IfSome, OnOk, IsTrue, length};
    ghost use Rattle.ch11_index.specs.FileIndex.{empty_index, due, due_at_end, after_packet, after_index_packet};
    ghost use Rattle.ch11_index.specs.FileIndex.{index_body, here_of, last_entry};

    /// The index of no packets, whose nodes and roots name at most this many. It takes room for one node
    /// and one root.
    pub fn new(alloc: Global, most: u16) -> Result<Index, AllocError>
        requires some { 0 < most }
        requires few { most ≤ MOST_NAMED }
        ensures { IfOk result (λ index. index ≡ empty_index most) }
    {
        let room = usize::from(most);
        Ok(Index {
            most,
            packets: Vec::with_capacity(alloc, room)?,
            nodes: Vec::with_capacity(alloc, room)?,
            root: None,
            greatest: 0,
            place: 0,
        })
    }

    /// The place of the next packet: how many bytes went out.
    pub fn place(&self) -> u64
        ensures { result ≡ self.now.place }
    {
        self.here().at
    }

    /// The greatest counter of a header that went out.
    pub fn greatest(&self) -> u64
        ensures { result ≡ self.now.greatest }
    {
        self.here().counter
    }

    /// Whether a file may have a further packet of this length.
    pub fn has_room(&self, len: u32) -> bool
        ensures { IsTrue result ↔ (self.now.place + len < 2 ^ 64) }
    {
        self.place.checked_add(u64::from(len)).is_some()
    }

    /// The packet of the index that goes out ahead of any other.
    pub fn due(&self) -> Option<IndexPacket>
        ensures due { result ≡ due self.now }
        ensures at_end { IfSome result (λ packet. due_at_end self.now ≡ Some packet) }
    {
        if self.packets.len() == usize::from(self.most) {
            return Some(IndexPacket::Node);
        }
        if self.nodes.len() == usize::from(self.most) {
            return Some(IndexPacket::Root);
        }
        None
    }

    /// The packet of the index that goes out next, where no packet follows that it would name.
    pub fn due_at_end(&self) -> Option<IndexPacket>
        ensures { result ≡ due_at_end self.now }
    {
        if !self.packets.is_empty() {
            return Some(IndexPacket::Node);
        }
        if !self.nodes.is_empty() || self.root.is_none() {
            return Some(IndexPacket::Root);
        }
        None
    }

    /// Names a packet that went out, which is none of the index.
    pub fn note(&mut self, packet: FilePacket)
        requires none_due { due self.old ≡ None }
        requires room { self.old.place + packet.len < 2 ^ 64 }
        ensures { self.new ≡ after_packet self.old packet }
    {
        let at = self.place;
        self.packets.push_reserved(NodeEntry {
            counter: packet.counter,
            channel: packet.channel,
            kind: packet.kind,
            at,
        });
        self.greatest = self.greatest.max(packet.counter);
        self.place += u64::from(packet.len);
    }

    /// Adds the body of this packet of the index, as it would go out now, to what stands in a buffer.
    pub fn add_body(&self, packet: IndexPacket, body: &mut Vec<u8>) -> Result<(), AllocError>
        ensures body { OnOk result (body.new.items
            ≡ body.old.items ++ index_body self.now packet) }
        ensures few_packets { length self.now.packets ≤ MOST_NAMED }
        ensures few_nodes { length self.now.nodes ≤ MOST_NAMED }
    {
        match packet {
            IndexPacket::Node => add_node(self.packets.as_slice(), body),
            IndexPacket::Root => add_root(self.nodes.as_slice(), self.last(), body),
        }
    }

    /// This packet of the index went out, with this length and the greatest counter.
    pub fn close(&mut self, packet: IndexPacket, len: u32)
        requires is_due { due_at_end self.old ≡ Some packet }
        requires room { self.old.place + len < 2 ^ 64 }
        ensures { self.new ≡ after_index_packet self.old packet len }
    {
        let here = self.here();
        match packet {
            IndexPacket::Node => {
                self.packets.clear();
                self.nodes.push_reserved(here);
            }
            IndexPacket::Root => {
                self.root = Some(here);
                self.nodes.clear();
            }
        }
        self.place += u64::from(len);
    }

    /// The last entry of a root that goes out now: the root before, or itself.
    fn last(&self) -> RootEntry
        ensures { result ≡ last_entry self.now }
    {
        self.root.unwrap_or(self.here())
    }

    /// What a root says of a packet of the index that stands next.
    fn here(&self) -> RootEntry
        ensures { result ≡ here_of self.now }
    {
        RootEntry {
            counter: self.greatest,
            at: self.place,
        }
    }
}
