//! The index of a Chapter 11 file of one packet more than the nodes of a root can name.

use ch11_index::{FilePacket, Index, IndexPacket, MOST_NAMED};
use ch11_packet::{CHECKSUM_LEN, HEADER_LEN};
use std::alloc::Global;

/// How many packets the index names: one more than 16,384 nodes name.
const PACKETS: u64 = 16_384 * 16_384 + 1;

/// How many bytes each of these packets has.
const LEN: u32 = 64;

/// What an index was made of.
#[derive(Drop)]
struct Written {
    /// How many nodes went out.
    nodes: u64,
    /// How many roots went out.
    roots: u64,
}

/// How many bytes a file has whose index names all packets: `None` unless a root went out when it was
/// full, and another at the end.
pub(crate) fn name_all(alloc: Global) -> Option<u64> {
    let mut index = Index::new(alloc, MOST_NAMED).ok()?;
    let mut body = Vec::new(alloc);
    let mut written = Written { nodes: 0, roots: 0 };
    for counter in 0..PACKETS {
        while let Some(packet) = index.due() {
            put(&mut index, packet, &mut body, &mut written)?;
        }
        note(&mut index, counter)?;
    }
    let before_end = written.roots;
    while let Some(packet) = index.due_at_end() {
        put(&mut index, packet, &mut body, &mut written)?;
    }
    if written.nodes == u64::from(MOST_NAMED) + 1 && before_end == 1 && written.roots == 2 {
        Some(index.place())
    } else {
        None
    }
}

/// Names a packet, where none of the index is due.
fn note(index: &mut Index, counter: u64) -> Option<()> {
    if index.due().is_some() || !index.has_room(LEN) {
        return None;
    }
    index.note(FilePacket {
        counter,
        channel: 1,
        kind: 0x68,
        len: LEN,
    });
    Some(())
}

/// A packet of the index goes out.
fn put(
    index: &mut Index,
    packet: IndexPacket,
    body: &mut Vec<u8>,
    written: &mut Written,
) -> Option<()> {
    body.clear();
    index.add_body(packet, body).ok()?;
    let len = len_of(body.len())?;
    if index.due_at_end() != Some(packet) || !index.has_room(len) {
        return None;
    }
    index.close(packet, len);
    match packet {
        IndexPacket::Node => written.nodes += 1,
        IndexPacket::Root => written.roots += 1,
    }
    Some(())
}

/// How many bytes a packet has with its header, its filler and its data checksum.
fn len_of(body: usize) -> Option<u32> {
    let whole = body.checked_next_multiple_of(4)?;
    u32::try_from(whole.checked_add(HEADER_LEN + CHECKSUM_LEN)?).ok()
}
