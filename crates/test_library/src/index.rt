//! Tests of the index of a file. Bodies, and the packets around them, are worked by hand.

use ch11_index::*;
use ch11_packet::{CHECKSUM_LEN, HEADER_LEN, Header, body_sum, write_packet};
use std::alloc::Global;
use std::test::Fail;
use test_samples::{all_bytes, assert_same, joined_bytes};

/// Notes a packet, if none of the index is due and the file has room for it.
fn note(index: &mut Index, packet: FilePacket) -> Result<(), Fail> {
    if !index.has_room(packet.len) {
        return Err("no room".into());
    }
    match index.due() {
        Some(_) => Err("a packet of the index is due".into()),
        None => {
            index.note(packet);
            Ok(())
        }
    }
}

/// How many bytes a packet of the index has, with its data checksum.
fn len_of(body: &[u8]) -> Result<u32, Fail> {
    Ok(u32::try_from(body.len().saturating_add(HEADER_LEN + CHECKSUM_LEN))?)
}

/// The packet of the index that goes out at the end goes out now, with its data checksum: its body is
/// added to what stands in a buffer. There is none where nothing is left.
fn put(index: &mut Index, body: &mut Vec<u8>) -> Result<Option<IndexPacket>, Fail> {
    body.clear();
    let Some(packet) = index.due_at_end() else {
        return Ok(None);
    };
    index.add_body(packet, body)?;
    let len = len_of(body)?;
    if !index.has_room(len) {
        return Err("no room".into());
    }
    index.close(packet, len);
    Ok(Some(packet))
}

/// The packets of the file of a short recording, without those of the index: counter, channel, data type
/// and length of setup, time, two programs, frames and an end.
const SHORT: [(u64, u16, u8, u32); 6] = [
    (99_999, 0, 0x01, 688),
    (99_999, 2, 0x11, 40),
    (16, 0, 0x00, 64),
    (32, 0, 0x00, 64),
    (32, 1, 0x68, 64),
    (32, 0, 0x00, 56),
];

/// Its node and its root, with the sequence numbers 4 and 5 of channel 0.
const SHORT_INDEX: [&str; 2] = [
    "25eb 0000 98000000 7c000000 08 04 03 03 9f8601000000 e479 06000080 \
        9f86010000000000 0000 01 00 0000000000000000 9f86010000000000 0200 11 00 b002000000000000 \
        1000000000000000 0000 00 00 d802000000000000 2000000000000000 0000 00 00 1803000000000000 \
        2000000000000000 0100 68 00 5803000000000000 2000000000000000 0000 00 00 9803000000000000 \
        471d7d80",
    "25eb 0000 40000000 24000000 08 05 03 03 9f8601000000 347a 02000000 \
        9f86010000000000 d003000000000000 9f86010000000000 6804000000000000 78150300",
];

#[test]
fn the_index_of_a_short_recording_has_the_bytes_of_the_format(rt: HostRuntime) -> Result<(), Fail> {
    let mut index = Index::new(rt.alloc(), MOST_NAMED)?;
    for &(counter, channel, kind, len) in &SHORT {
        note(
            &mut index,
            FilePacket {
                counter,
                channel,
                kind,
                len,
            },
        )?;
    }
    let mut body = Vec::new(rt.alloc());
    let mut sequence = 4;
    for &text in &SHORT_INDEX {
        let counter = index.greatest();
        let put = put(&mut index, &mut body)?;
        assert_same!(rt; put.is_some(), true, "{text}");
        let out = packet(rt.alloc(), sequence, counter, body.as_slice())?;
        assert_same!(rt; out, all_bytes(rt.alloc(), text)?);
        sequence = 5;
    }
    assert_same!(rt; put(&mut index, &mut body)?, None);
    assert_same!(rt; index.place(), 1192);
    Ok(())
}

/// A packet of the index with this body.
fn packet(alloc: Global, sequence: u8, counter: u64, body: &[u8]) -> Result<Vec<u8>, Fail> {
    let len = len_of(body)?;
    let data_len = len.saturating_sub(28);
    let header = Header::new(0, len, data_len, 8, sequence, 3, 3, counter);
    let mut out = Vec::new(alloc);
    write_packet(
        &mut out,
        &header.ok_or("a header in range")?,
        body,
        body_sum(body),
    )
    .map_err(|_| "an output that takes all")?;
    Ok(out)
}

/// Numbers of packets, and the file of so many whose nodes and roots name two: P a packet, N a node, R a
/// root.
const FILES: [(u64, &str); 9] = [
    (0, "R"),
    (1, "PNR"),
    (2, "PPNR"),
    (3, "PPNPNR"),
    (4, "PPNPPNR"),
    (5, "PPNPPNRPNR"),
    (8, "PPNPPNRPPNPPNR"),
    (10, "PPNPPNRPPNPPNRPPNR"),
    (11, "PPNPPNRPPNPPNRPPNPNR"),
];

#[test]
fn nodes_and_roots_go_out_when_they_are_full_and_at_the_end(rt: HostRuntime) -> Result<(), Fail> {
    for &(count, file) in &FILES {
        let mut index = Index::new(rt.alloc(), 2)?;
        let mut found = Vec::new(rt.alloc());
        let mut body = Vec::new(rt.alloc());
        for counter in 0..count {
            put_due(&mut index, &mut body, &mut found)?;
            note(&mut index, packet_at(counter))?;
            found.push(b'P')?;
        }
        put_due(&mut index, &mut body, &mut found)?;
        for _ in 0..3 {
            if let Some(packet) = put(&mut index, &mut body)? {
                found.push(letter(packet))?;
            }
        }
        assert!(rt; found.as_slice() == file.as_bytes());
    }
    Ok(())
}

/// A packet of 40 bytes with this counter.
fn packet_at(counter: u64) -> FilePacket {
    FilePacket {
        counter,
        channel: 1,
        kind: 0x68,
        len: 40,
    }
}

/// What stands for a packet of the index.
fn letter(packet: IndexPacket) -> u8 {
    match packet {
        IndexPacket::Node => b'N',
        IndexPacket::Root => b'R',
    }
}

/// The packets of the index that are due go out.
fn put_due(index: &mut Index, body: &mut Vec<u8>, found: &mut Vec<u8>) -> Result<(), Fail> {
    for _ in 0..2 {
        if index.due().is_some()
            && let Some(packet) = put(index, body)?
        {
            found.push(letter(packet))?;
        }
    }
    Ok(())
}

/// The bodies of the index of five packets whose nodes and roots name two. The counter of the second is
/// the greatest. A packet has 40 bytes, a node of two 72, a root of two 80, and a node of one 52.
const FIVE: [&str; 5] = [
    "02000080 0a00000000000000 0100 68 00 0000000000000000 \
        3200000000000000 0100 68 00 2800000000000000",
    "02000080 1e00000000000000 0100 68 00 9800000000000000 \
        2800000000000000 0100 68 00 c000000000000000",
    "03000000 3200000000000000 5000000000000000 3200000000000000 e800000000000000 \
        3200000000000000 3001000000000000",
    "01000080 1400000000000000 0100 68 00 8001000000000000",
    "02000000 3200000000000000 a801000000000000 3200000000000000 3001000000000000",
];

#[test]
fn each_root_leads_to_the_one_before(rt: HostRuntime) -> Result<(), Fail> {
    let mut index = Index::new(rt.alloc(), 2)?;
    let mut found = Vec::new(rt.alloc());
    let mut body = Vec::new(rt.alloc());
    for &counter in &[10, 50, 30, 40, 20] {
        note(&mut index, packet_at(counter))?;
        for _ in 0..2 {
            if index.due().is_some() {
                put(&mut index, &mut body)?;
                found.extend_from_slice(body.as_slice())?;
            }
        }
    }
    for _ in 0..2 {
        put(&mut index, &mut body)?;
        found.extend_from_slice(body.as_slice())?;
    }
    assert_same!(rt; found, joined_bytes(rt.alloc(), &FIVE)?);
    assert_same!(rt; put(&mut index, &mut body)?, None);
    Ok(())
}

#[test]
fn a_node_names_16384_packets_and_a_root_16384_nodes(rt: HostRuntime) -> Result<(), Fail> {
    let mut body = Vec::new(rt.alloc());
    let mut full = Index::new(rt.alloc(), MOST_NAMED)?;
    for counter in 0..16_384 {
        assert!(rt; full.due().is_none());
        note(&mut full, packet_at(counter))?;
    }
    assert_same!(rt; full.due(), Some(IndexPacket::Node));
    put(&mut full, &mut body)?;
    assert_same!(rt; body.len(), 327_684);
    assert_same!(rt; body.first_chunk(), Some(&[0x00, 0x40, 0x00, 0x80]));
    let mut index = Index::new(rt.alloc(), MOST_NAMED)?;
    for counter in 0..16_384 {
        assert!(rt; index.due().is_none());
        note(&mut index, packet_at(counter))?;
        put(&mut index, &mut body)?;
    }
    assert_same!(rt; index.due(), Some(IndexPacket::Root));
    put(&mut index, &mut body)?;
    assert_same!(rt; body.len(), 262_164);
    assert_same!(rt; body.first_chunk(), Some(&[0x01, 0x40, 0x00, 0x00]));
    Ok(())
}
