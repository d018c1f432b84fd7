//! Packet headers.
use super::*;
use test_samples::assert_same;

/// The header of a packet of Ethernet data with one frame of 18 bytes at counter 16.
const HEADER: &str = "25eb 0100 3c000000 22000000 08 00 00 68 100000000000 9c53";

/// A header's fields but the data type version, which is 8, and its bytes.
#[derive(Clone, Copy)]
struct Row {
    channel: u16,
    packet_len: u32,
    data_len: u32,
    sequence: u8,
    flags: u8,
    kind: u8,
    counter: u64,
    bytes: &'static str,
}

/// A packet of one frame of 18 bytes at counter 16.
const FRAMES: Row = Row {
    channel: 1,
    packet_len: 60,
    data_len: 34,
    sequence: 0,
    flags: 0,
    kind: ETHERNET_DATA,
    counter: 16,
    bytes: HEADER,
};

/// A packet of the record of a program of one instruction.
const PROGRAM: Row = Row {
    channel: 0,
    data_len: 36,
    kind: COMPUTER_GENERATED_DATA,
    bytes: "25eb 0000 3c000000 24000000 08 00 00 00 100000000000 9deb",
    ..FRAMES
};

const HEADERS: [Row; 8] = [
    FRAMES,
    Row {
        flags: 0x80,
        bytes: "25eb 0100 3c000000 22000000 08 00 80 68 100000000000 1c54",
        ..FRAMES
    },
    Row {
        counter: 32,
        bytes: "25eb 0100 3c000000 22000000 08 00 00 68 200000000000 ac53",
        ..FRAMES
    },
    Row {
        packet_len: 88,
        data_len: 64,
        bytes: "25eb 0100 58000000 40000000 08 00 00 68 100000000000 d653",
        ..FRAMES
    },
    PROGRAM,
    Row {
        sequence: 1,
        counter: 32,
        bytes: "25eb 0000 3c000000 24000000 08 01 00 00 200000000000 adec",
        ..PROGRAM
    },
    Row {
        packet_len: 52,
        data_len: 28,
        sequence: 2,
        counter: 32,
        bytes: "25eb 0000 34000000 1c000000 08 02 00 00 200000000000 9ded",
        ..PROGRAM
    },
    Row {
        packet_len: 28,
        data_len: 4,
        kind: 1,
        counter: 0,
        bytes: "25eb 0000 1c000000 04000000 08 00 00 01 000000000000 4dec",
        ..PROGRAM
    },
];

#[test]
fn headers_are_written_and_read(rt: HostRuntime) -> Result<(), Fail> {
    for &row in &HEADERS {
        let header = Header::new(
            row.channel,
            row.packet_len,
            row.data_len,
            8,
            row.sequence,
            row.flags,
            row.kind,
            row.counter,
        )
        .ok_or("a header in range")?;
        let spelled = bytes(rt.alloc(), row.bytes)?;
        assert_same!(rt; header.encode(), spelled);
        assert_same!(rt; Header::decode(&spelled), Ok(header));
    }
    Ok(())
}

#[test]
fn each_changed_bit_of_a_header_is_refused(rt: HostRuntime) -> Result<(), Fail> {
    let header: [u8; HEADER_LEN] = bytes(rt.alloc(), HEADER)?;
    for at in 0..HEADER_LEN {
        for bit in [1, 2, 4, 8, 16, 32, 64, 128] {
            let mut changed = header;
            changed[at] ^= bit;
            let fault = if at < 2 {
                HeaderFault::Sync
            } else {
                HeaderFault::Checksum
            };
            assert_same!(rt;
                Header::decode(&changed),
                Err(fault),
                "byte {at}, bit {bit}"
            );
        }
    }
    Ok(())
}

#[test]
fn a_packet_of_an_odd_frame_may_leave_its_filler_out(rt: HostRuntime) -> Result<(), Fail> {
    for &(data_len, sum) in &[(34, 0x539c), (35, 0x539d), (36, 0x539e)] {
        let header = Header::new(1, 60, data_len, 8, 0, 0, ETHERNET_DATA, 16).ok_or(
            "a header in range",
        )?;
        let spelled = header.encode();
        assert_same!(rt; u16::from_le_bytes([spelled[22], spelled[23]]), sum);
        assert_same!(rt; Header::decode(&spelled), Ok(header));
    }
    Ok(())
}

/// The headers of packets with a data checksum of 32 bits: the channel, the packet length, the data
/// length, the sequence number, the data type, the counter, and the sum of the words before it.
const CHECKED: [(u16, u32, u32, u8, u8, u64, u16); 10] = [
    // frames: one of 18 bytes, at counter 16 and at 32, one of 19 bytes, and two of 18
    (1, 64, 34, 0, 0x68, 16, 0x53a3),
    (1, 64, 34, 0, 0x68, 32, 0x53b3),
    (1, 64, 36, 0, 0x68, 16, 0x53a5),
    (1, 92, 64, 0, 0x68, 16, 0x53dd),
    // records of programs, and of ends
    (0, 64, 36, 0, 0x00, 16, 0xeba4),
    (0, 64, 36, 1, 0x00, 32, 0xecb4),
    (0, 56, 28, 2, 0x00, 32, 0xeda4),
    (0, 56, 28, 1, 0x00, 32, 0xeca4),
    (0, 56, 28, 0, 0x00, 0, 0xeb84),
    // no data at all
    (1, 28, 0, 0, 0x01, 0, 0xec4d),
];

#[test]
fn headers_with_a_data_checksum_are_written_and_read(rt: HostRuntime) -> Result<(), Fail> {
    for &(channel, packet_len, data_len, sequence, kind, counter, sum) in &CHECKED {
        let header = Header::new(
            channel, packet_len, data_len, 8, sequence, 3, kind, counter,
        ).ok_or("a header in range")?;
        let spelled = header.encode();
        assert_same!(rt; u16::from_le_bytes([spelled[22], spelled[23]]), sum);
        assert_same!(rt; Header::decode(&spelled), Ok(header));
    }
    Ok(())
}

/// Headers whose data end less than four bytes before the packet, or just there: the bytes, the flags,
/// the packet length, the data length, and whether they are one.
const NEAR_THE_END: [(&str, (u8, u32, u32), bool); 8] = [
    (
        "25eb 0100 40000000 25000000 08 00 03 01 000000000000 96ec",
        (0x03, 64, 37),
        false,
    ),
    (
        "25eb 0100 40000000 24000000 08 00 03 01 000000000000 95ec",
        (0x03, 64, 36),
        true,
    ),
    (
        "25eb 0100 18000000 00000000 08 00 03 01 000000000000 49ec",
        (0x03, 24, 0),
        false,
    ),
    (
        "25eb 0100 1c000000 01000000 08 00 03 01 000000000000 4eec",
        (0x03, 28, 1),
        false,
    ),
    // with a secondary header too
    (
        "25eb 0100 1c000000 01000000 08 00 c3 01 000000000000 0eed",
        (0xc3, 28, 1),
        false,
    ),
    // one bit alone, and none
    (
        "25eb 0100 40000000 25000000 08 00 01 01 000000000000 94ec",
        (0x01, 64, 37),
        true,
    ),
    (
        "25eb 0100 40000000 28000000 08 00 02 01 000000000000 98ec",
        (0x02, 64, 40),
        true,
    ),
    (
        "25eb 0100 40000000 28000000 08 00 3c 01 000000000000 d2ec",
        (0x3c, 64, 40),
        true,
    ),
];

#[test]
fn data_end_four_bytes_before_a_packet_with_a_data_checksum(rt: HostRuntime) -> Result<(), Fail> {
    for &(text, (flags, packet_len, data_len), fits) in &NEAR_THE_END {
        let made = Header::new(1, packet_len, data_len, 8, 0, flags, 1, 0);
        assert_same!(rt; made.is_some(), fits, "{text}");
        let read = Header::decode(&bytes(rt.alloc(), text)?);
        assert_same!(rt; read, made.ok_or(HeaderFault::Length), "{text}");
    }
    Ok(())
}
