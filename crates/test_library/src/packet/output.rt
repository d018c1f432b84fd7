//! Whole packets, as they are written.
use super::*;
use test_samples::assert_same;

/// The packets of a frame of 18 bytes and of one of 19, with their data checksums.
const CHECKED: [(usize, &str); 2] = [
    (
        18,
        "25eb 0100 40000000 22000000 08 00 03 68 100000000000 a353 \
            01000000 100000000000 0000 12000003 ffffffffffff 020000000001 0806 a1b2c3d4 0000 \
            ecdaa4b6",
    ),
    (
        19,
        "25eb 0100 40000000 24000000 08 00 03 68 100000000000 a553 \
            01000000 100000000000 0000 13000003 ffffffffffff 020000000001 0806 a1b2c3d4 e5 00 \
            edda89b7",
    ),
];

/// The packet of the first frame without a data checksum.
const PLAIN: &str = "25eb 0100 3c000000 22000000 08 00 00 68 100000000000 9c53 \
    01000000 100000000000 0000 12000003 ffffffffffff 020000000001 0806 a1b2c3d4 0000";

#[test]
fn a_packet_is_written_with_its_filler_and_its_sum(rt: HostRuntime) -> Result<(), Fail> {
    let arp: [u8; 19] = bytes(rt.alloc(), ARP)?;
    for &(len, text) in &CHECKED {
        let frame = Frame::new(16, false, false, &arp[..len]).ok_or("a frame in range")?;
        let limit = Limit::new(MIN_LIMIT).ok_or("the least limit")?;
        let mut builder = DataBuilder::with_limit(rt.alloc(), limit, 0, 3)?;
        builder.push(&frame);
        let body = builder.seal();
        let data_len = body.bytes().len();
        let packet_len = written_len(data_len) as u32;
        let data_len = data_len as u32;
        let header = Header::new(
            1,
            packet_len,
            data_len,
            8,
            0,
            3,
            ETHERNET_DATA,
            body.counter(),
        )
        .ok_or("a header in range")?;
        let mut out = Vec::new(rt.alloc());
        let written = write_packet(&mut out, &header, body.bytes(), body.sum());
        assert_same!(rt; written, Ok(()));
        assert_same!(rt; out, all_bytes(rt.alloc(), text)?);
    }
    Ok(())
}

#[test]
fn a_packet_is_written_by_its_parts(rt: HostRuntime) -> Result<(), Fail> {
    let body: [u8; 34] = bytes(rt.alloc(), BODY)?;
    let header = Header::new(1, 60, 34, 8, 0, 0, ETHERNET_DATA, 16).ok_or("a header in range")?;
    let mut out = Vec::new(rt.alloc());
    assert_same!(rt;
        write_parts(&mut out, &header.encode(), &body, &[0, 0]),
        Ok(())
    );
    assert_same!(rt; out, all_bytes(rt.alloc(), PLAIN)?);
    Ok(())
}
