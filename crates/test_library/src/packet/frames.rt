//! Bodies of Ethernet data, written and read.
use super::*;
use test_samples::assert_same;

#[test]
fn a_limit_is_16424_to_524284_bytes(rt: HostRuntime) {
    let table = &[
        (16_423, None),
        (16_424, Some(16_424)),
        (524_284, Some(524_284)),
        (524_285, None),
        (524_288, None),
    ];
    for &(bytes, limit) in table {
        assert_same!(rt; Limit::new(bytes).map(Limit::get), limit);
    }
}

#[test]
fn a_body_of_one_frame_is_written(rt: HostRuntime) -> Result<(), Fail> {
    let arp: [u8; 19] = bytes(rt.alloc(), ARP)?;
    for &(len, text, sum) in &[(18, BODY, 0xb6a4_daec), (19, ODD_BODY, 0xb789_daed)] {
        let frame = Frame::new(16, false, false, &arp[..len]).ok_or("a frame in range")?;
        let limit = Limit::new(MIN_LIMIT).ok_or("the least limit")?;
        let mut builder = DataBuilder::with_limit(rt.alloc(), limit, 0, 3)?;
        assert!(rt; builder.is_empty());
        assert!(rt; builder.fits(len));
        builder.push(&frame);
        let body = builder.seal();
        assert_same!(rt; body.bytes(), all_bytes(rt.alloc(), text)?.as_slice());
        assert_same!(rt; body.counter(), 16);
        assert_same!(rt; body.count(), 1);
        assert_same!(rt; body.sum(), sum);
    }
    Ok(())
}

#[test]
fn the_longest_frame_fills_the_least_packet(rt: HostRuntime) -> Result<(), Fail> {
    let bytes = [0x5a; 16_383];
    let frame = Frame::new(16, false, false, &bytes).ok_or("the longest frame")?;
    let limit = Limit::new(16_424).ok_or("the least limit")?;
    let mut builder = DataBuilder::with_limit(rt.alloc(), limit, 0, 3)?;
    assert!(rt; builder.fits(16_383));
    builder.push(&frame);
    for len in [0, 18, 16_383] {
        assert!(rt; !builder.fits(len), "{len} bytes");
    }
    let body = builder.seal();
    assert_same!(rt; body.bytes().len(), 16_400);
    let header = Header::new(1, 16_428, 16_400, 8, 0, 3, ETHERNET_DATA, 16).ok_or(
        "a header in range",
    )?;
    assert_same!(rt; Header::decode(&header.encode()), Ok(header));
    Ok(())
}

#[test]
fn the_greatest_packet_is_filled_with_every_bit_of_net_and_speed(
    rt: HostRuntime,
) -> Result<(), Fail> {
    let bytes = [0x5a; 18];
    let frame = Frame::new(281_474_976_710_655, true, true, &bytes).ok_or("the greatest counter")?;
    let limit = Limit::new(524_284).ok_or("the greatest limit")?;
    let mut builder = DataBuilder::with_limit(rt.alloc(), limit, 255, 15)?;
    for _ in 0..17_475 {
        assert!(rt; builder.fits(18));
        builder.push(&frame);
    }
    assert!(rt; !builder.fits(18));
    assert!(rt; !builder.is_empty());
    let body = builder.seal();
    assert_same!(rt;
        (body.count(), body.counter()),
        (17_475, 281_474_976_710_655)
    );
    let frames = decode_frames(body.bytes())?;
    assert_same!(rt; frames.count(), 17_475);
    let last = frames.frame_at(17_474).ok_or("the last frame")?;
    assert_same!(rt; (last.net, last.speed, last.content), (255, 15, 0));
    assert_same!(rt;
        (last.counter, last.crc_error, last.frame_error),
        (frame.counter, true, true)
    );
    Ok(())
}

/// The first frame of a body.
fn first_frame(body: &[u8]) -> Result<ReadFrame<'_>, Fail> {
    let frames = decode_frames(body)?;
    Ok(frames.frame_at(0).ok_or("a frame")?)
}

#[test]
fn a_body_of_one_frame_is_read(rt: HostRuntime) -> Result<(), Fail> {
    let arp: [u8; 19] = bytes(rt.alloc(), ARP)?;
    let even: [u8; 34] = bytes(rt.alloc(), BODY)?;
    let odd: [u8; 36] = bytes(rt.alloc(), ODD_BODY)?;
    let table = &[
        (even.as_slice(), 18),
        (odd.as_slice(), 19),
        (&odd[..35], 19),
    ];
    for &(body, len) in table {
        let frames = decode_frames(body)?;
        assert_same!(rt; frames.count(), 1);
        let frame = frames.frame_at(0).ok_or("a frame")?;
        assert_same!(rt; (frame.net, frame.speed, frame.content), (0, 3, 0));
        assert_same!(rt; frame.frame(), Frame::new(16, false, false, &arp[..len]));
        assert_same!(rt; frames.frame_at(1), None);
        let mut walk = frames.walk();
        assert_same!(rt; walk.next(), Some(frame));
        assert_same!(rt; walk.next(), None);
    }
    Ok(())
}

#[test]
fn a_body_of_65535_frames_is_read(rt: HostRuntime) -> Result<(), Fail> {
    let mut body = all_bytes(rt.alloc(), "ffff0000")?;
    for counter in 0..65_535u16 {
        let [low, high] = counter.to_le_bytes();
        body.extend_from_slice(&[low, high, 0, 0, 0, 0, 0, 0, 0, 0, 7, 3])?;
    }
    let frames = decode_frames(&body)?;
    assert_same!(rt; frames.count(), 65_535);
    for (at, frame) in frames.walk().enumerate() {
        assert_same!(rt; frame.counter, at as u64);
    }
    let last = frames.walk().last().ok_or("the last frame")?;
    assert_same!(rt; (last.counter, last.net, last.speed), (65_534, 7, 3));
    assert_same!(rt; last.bytes.len(), 0);
    assert_same!(rt; frames.frame_at(65_534), Some(last));
    assert_same!(rt; frames.frame_at(65_535), None);
    body.push(0)?;
    assert!(rt; has_fault(&body, BodyFault::LeftOver));
    body.truncate(4 + 12 * 65_534);
    assert!(rt; has_fault(&body, BodyFault::Short));
    Ok(())
}

#[test]
fn unused_bits_of_a_body_make_no_difference(rt: HostRuntime) -> Result<(), Fail> {
    let odd: [u8; 36] = bytes(rt.alloc(), ODD_BODY)?;
    for &(at, value) in &[
        (2, 0xff),
        (3, 0x0f),
        (10, 0xff),
        (11, 0xff),
        (13, 0xc0),
        (35, 0xff),
    ] {
        let mut body: [u8; 36] = bytes(rt.alloc(), ODD_BODY)?;
        put(&mut body, at, value);
        assert_same!(rt; first_frame(&body)?, first_frame(&odd)?, "byte {at}");
    }
    Ok(())
}

#[test]
fn a_frame_is_read_with_its_marks_speed_and_content(rt: HostRuntime) -> Result<(), Fail> {
    for &(top_byte, fields) in &[
        (0x83, (true, false, 0, 3)),
        (0x43, (false, true, 0, 3)),
        (0x1f, (false, false, 1, 15)),
        (0x33, (false, false, 3, 3)),
    ] {
        let mut body: [u8; 34] = bytes(rt.alloc(), BODY)?;
        put(&mut body, 14, 7);
        put(&mut body, 15, top_byte);
        let frame = first_frame(&body)?;
        let read = (
            frame.crc_error,
            frame.frame_error,
            frame.content,
            frame.speed,
        );
        assert_same!(rt; read, fields);
        assert_same!(rt; frame.net, 7);
        assert_same!(rt; frame.frame().is_some(), frame.content == 0);
    }
    Ok(())
}

#[test]
fn a_frame_of_17_bytes_is_read_as_no_whole_frame(rt: HostRuntime) -> Result<(), Fail> {
    let arp: [u8; 19] = bytes(rt.alloc(), ARP)?;
    let mut body: [u8; 34] = bytes(rt.alloc(), BODY)?;
    put(&mut body, 12, 17);
    let frame = first_frame(&body)?;
    assert_same!(rt; frame.bytes, &arp[..17]);
    assert_same!(rt; frame.frame(), None);
    Ok(())
}

/// Whether the body has this fault.
fn has_fault(body: &[u8], fault: BodyFault) -> bool {
    matches!(decode_frames(body), Err(found) if found == fault)
}

#[test]
fn each_bad_body_has_its_fault(rt: HostRuntime) -> Result<(), Fail> {
    for &(text, fault) in &[
        ("010000", BodyFault::Short),
        ("000010", BodyFault::Short),
        ("01000010", BodyFault::Format),
        ("ffff0000", BodyFault::Short),
        ("01000000 100000000000 0000 120000", BodyFault::Short),
        (
            "01000000 100000000000 0000 12000003 ffffffffffff 020000000001 0806 a1b2c3",
            BodyFault::Short,
        ),
        ("00000000 00", BodyFault::LeftOver),
        (
            "01000000 100000000000 0000 12000003 ffffffffffff 020000000001 0806 a1b2c3d4 \
            00000000",
            BodyFault::LeftOver,
        ),
        (
            "01000000 100000000000 0000 13000003 ffffffffffff 020000000001 0806 a1b2c3d4 e5 00 \
            00",
            BodyFault::LeftOver,
        ),
    ] {
        assert!(rt; has_fault(&all_bytes(rt.alloc(), text)?, fault), "{text}");
    }
    Ok(())
}

#[test]
fn what_a_builder_sealed_is_read(rt: HostRuntime) -> Result<(), Fail> {
    let limit = Limit::new(MIN_LIMIT).ok_or("the least limit")?;
    let mut builder = DataBuilder::with_limit(rt.alloc(), limit, 7, 5)?;
    let arp: [u8; 19] = bytes(rt.alloc(), ARP)?;
    let odd = Frame::new(1, true, false, &arp).ok_or("a frame in range")?;
    let even = Frame::new(2, false, true, &arp[..18]).ok_or("a frame in range")?;
    for frame in [odd, even, odd] {
        assert!(rt; builder.fits(frame.bytes.len()));
        builder.push(&frame);
    }
    assert!(rt; !builder.is_empty());
    let body = builder.seal();
    let frames = decode_frames(body.bytes())?;
    let mut walk = frames.walk();
    for frame in [odd, even, odd] {
        let read = walk.next().ok_or("a frame")?;
        assert_same!(rt; (read.net, read.speed), (7, 5));
        assert_same!(rt; read.frame(), Some(frame));
    }
    assert_same!(rt; walk.next(), None);
    Ok(())
}

#[test]
fn a_buffer_that_comes_back_has_the_next_frames_alone(rt: HostRuntime) -> Result<(), Fail> {
    let arp: [u8; 19] = bytes(rt.alloc(), ARP)?;
    let odd = "01000000 010000000000 0000 13000705 ffffffffffff 020000000001 0806 a1b2c3d4 e5 00";
    let even = "01000000 020000000000 0000 1200ff0f ffffffffffff 020000000001 0806 a1b2c3d4";
    let bodies = &[
        (7, 5, 1, 19, odd, 0xb990_dade),
        (255, 15, 2, 18, even, 0xc3a3_dade),
        (0, 3, 16, 18, BODY, 0xb6a4_daec),
    ];
    for &(most, fits_another) in &[(16_424, false), (524_284, true)] {
        let limit = Limit::new(most).ok_or("a limit in range")?;
        let mut blank = Blank::with_limit(rt.alloc(), limit)?;
        for &(net, speed, counter, len, text, sum) in bodies {
            let frame = Frame::new(counter, false, false, &arp[..len]).ok_or("a frame in range")?;
            assert!(rt; speed <= MAX_SPEED);
            let mut builder = DataBuilder::over(blank, net, speed);
            assert!(rt; builder.is_empty());
            assert!(rt; builder.fits(16_383));
            assert!(rt; builder.fits(len));
            builder.push(&frame);
            assert_same!(rt; builder.fits(16_383), fits_another, "{most}");
            let body = builder.seal();
            assert_same!(rt; body.bytes(), all_bytes(rt.alloc(), text)?.as_slice());
            assert_same!(rt;
                (body.counter(), body.count(), body.sum()),
                (counter, 1, sum)
            );
            blank = body.reuse();
            assert_same!(rt; blank.limit(), limit);
        }
    }
    Ok(())
}
