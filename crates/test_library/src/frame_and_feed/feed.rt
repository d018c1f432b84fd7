//! Feeds: what is written and what is read.
use super::*;
use test_samples::{assert_same, joined_bytes};

#[test]
fn a_record_is_written_and_read(rt: HostRuntime) -> Result<(), Fail> {
    let arp: [u8; 18] = bytes(rt.alloc(), ARP)?;
    let frame = Frame::new(16, false, false, &arp).ok_or("a frame")?;
    let mut feed = Vec::new(rt.alloc());
    write_feed(&frame, &mut feed)?;
    let record: [u8; 27] = bytes(rt.alloc(), RECORD)?;
    assert_same!(rt; feed.as_slice(), record.as_slice());
    let mut buffer = FrameBuf::new();
    let mut source = FeedSource::new(Pieces::of(&feed, 1));
    assert_same!(rt; source.next(&mut buffer), Ok(Next::Frame));
    assert_same!(rt; buffer.frame(), Some(frame));
    assert_same!(rt; answers(&mut source, &mut buffer), [Ok(Next::End); 3]);
    assert!(rt; buffer.frame().is_none());
    Ok(())
}

#[test]
fn each_cut_record_is_truncated(rt: HostRuntime) -> Result<(), Fail> {
    let record: [u8; 27] = bytes(rt.alloc(), RECORD)?;
    let mut buffer = FrameBuf::new();
    for cut in 1..27 {
        let mut source = FeedSource::new(Pieces::of(&record[..cut], 4_096));
        let want = [Err(SourceFault::Truncated); 3];
        assert_same!(rt;
            answers(&mut source, &mut buffer),
            want,
            "cut after {cut} bytes"
        );
        assert!(rt; buffer.frame().is_none());
    }
    Ok(())
}

#[test]
fn each_bad_length_and_each_bad_mark_is_refused(rt: HostRuntime) -> Result<(), Fail> {
    let mut record: [u8; 27] = bytes(rt.alloc(), RECORD)?;
    let mut buffer = FrameBuf::new();
    for &(marks_and_length, fault) in &[
        ("00 1100", SourceFault::Length),
        ("00 0000", SourceFault::Length),
        ("00 0040", SourceFault::Length),
        ("00 ffff", SourceFault::Length),
        ("04 1200", SourceFault::Marks),
        ("08 1200", SourceFault::Marks),
        ("10 1200", SourceFault::Marks),
        ("20 1200", SourceFault::Marks),
        ("40 1200", SourceFault::Marks),
        ("83 1200", SourceFault::Marks),
        ("04 1100", SourceFault::Length),
        ("00 1300", SourceFault::Truncated),
        ("03 ff3f", SourceFault::Truncated),
    ] {
        let field: [u8; 3] = bytes(rt.alloc(), marks_and_length)?;
        record[6..9].copy_from_slice(&field);
        let mut source = FeedSource::new(Pieces::of(&record, 4_096));
        let want = [Err(fault); 3];
        assert_same!(rt;
            answers(&mut source, &mut buffer),
            want,
            "marks and length {marks_and_length}"
        );
        assert!(rt; buffer.frame().is_none());
    }
    Ok(())
}

#[test]
fn a_failing_reader_is_a_fault_of_the_device(rt: HostRuntime) -> Result<(), Fail> {
    let two: [u8; 54] = bytes(rt.alloc(), TWO_RECORDS)?;
    let mut buffer = FrameBuf::new();
    for kind in [ErrorKind::BrokenPipe, ErrorKind::Interrupted] {
        let device = Err(SourceFault::Device);
        for &(call, want) in &[
            (1, [device, device, device]),
            (2, [device, device, device]),
            (3, [Ok(Next::Frame), device, device]),
            (4, [Ok(Next::Frame), device, device]),
            (5, [Ok(Next::Frame), Ok(Next::Frame), device]),
        ] {
            let mut source = FeedSource::new(Pieces::failing(&two, call, kind));
            assert_same!(rt;
                answers(&mut source, &mut buffer),
                want,
                "failing at call {call}"
            );
            assert!(rt; buffer.frame().is_none());
        }
    }
    Ok(())
}

#[test]
fn a_source_that_has_ended_reads_no_more(rt: HostRuntime) -> Result<(), Fail> {
    let mut buffer = FrameBuf::new();
    // a feed of one frame at most, the call at which its reader fails, and the ending
    for &(text, fails_at, ending) in &[
        ("", None, Ok(Next::End)),
        (RECORD, None, Ok(Next::End)),
        ("100000000000 00", None, Err(SourceFault::Truncated)),
        (
            "100000000000 00 1200 ffff",
            None,
            Err(SourceFault::Truncated),
        ),
        ("100000000000 00 1100 ffff", None, Err(SourceFault::Length)),
        ("100000000000 04 1200 ffff", None, Err(SourceFault::Marks)),
        (TWO_RECORDS, Some(1), Err(SourceFault::Device)),
        (TWO_RECORDS, Some(2), Err(SourceFault::Device)),
        (TWO_RECORDS, Some(3), Err(SourceFault::Device)),
    ] {
        let feed = all_bytes(rt.alloc(), text)?;
        let calls = Cell::new(0);
        let mut reader = Pieces::of(&feed, usize::MAX);
        reader.fails_at = fails_at;
        let mut source = FeedSource::new(Counted {
            reader,
            calls: &calls,
        });
        let mut answer = source.next(&mut buffer);
        if answer == Ok(Next::Frame) {
            answer = source.next(&mut buffer);
        }
        assert_same!(rt; answer, ending, "{text}");
        let reads = calls.get();
        assert_same!(rt; answers(&mut source, &mut buffer), [ending; 3]);
        assert_same!(rt; calls.get(), reads, "{text}");
    }
    Ok(())
}

#[test]
fn a_failing_output_is_a_fault_of_the_device(rt: HostRuntime) -> Result<(), Fail> {
    let arp: [u8; 18] = bytes(rt.alloc(), ARP)?;
    let frame = Frame::new(16, false, false, &arp).ok_or("a frame")?;
    let device = Err(FeedWriteFault::Device);
    for &(room, fails, want) in &[
        (27, true, Ok(())),
        (26, true, device),
        (26, false, device),
        (8, true, device),
        (0, false, device),
    ] {
        let mut out = Full { room, fails };
        assert_same!(rt; write_feed(&frame, &mut out), want, "room for {room} bytes");
    }
    Ok(())
}

/// The length of frame `at` of a long feed.
fn length_at(at: u64) -> usize {
    match at % 100 {
        0 => 18,
        1 => 16_383,
        2..50 => 64,
        50..80 => 301,
        _ => 1_518,
    }
}

/// Frame `at` of a long feed, with bytes that follow from `at`.
fn frame_at(at: u64, bytes: &[u8]) -> Option<Frame<'_>> {
    let from = (at % 251) as usize;
    let bytes = bytes.get(from..)?.get(..length_at(at))?;
    Frame::new(at << 16, at % 2 == 1, at % 3 == 1, bytes)
}

#[test]
fn a_long_feed_is_read_in_any_pieces(rt: HostRuntime) -> Result<(), Fail> {
    let mut bytes = [0; 16_640];
    for (at, byte) in bytes.iter_mut().enumerate() {
        *byte = (at % 253) as u8;
    }
    let mut feed = Vec::new(rt.alloc());
    for at in 0..10_000 {
        let frame = frame_at(at, &bytes).ok_or("a frame")?;
        write_feed(&frame, &mut feed)?;
    }
    for most in [1, 7, 4_096] {
        let mut source = FeedSource::new(Pieces::of(&feed, most));
        let mut buffer = FrameBuf::new();
        for at in 0..10_000 {
            let want = frame_at(at, &bytes).ok_or("a frame")?;
            assert_same!(rt; source.next(&mut buffer), Ok(Next::Frame));
            assert_same!(rt; buffer.frame(), Some(want), "frame {at}, pieces of {most}");
        }
        assert_same!(rt; answers(&mut source, &mut buffer), [Ok(Next::End); 3]);
    }
    Ok(())
}

#[test]
fn a_long_feed_is_read_from_a_buffer_of_any_room(rt: HostRuntime) -> Result<(), Fail> {
    let mut bytes = [0; 16_640];
    for (at, byte) in bytes.iter_mut().enumerate() {
        *byte = (at % 253) as u8;
    }
    let mut feed = Vec::new(rt.alloc());
    for at in 0..1_000 {
        let frame = frame_at(at, &bytes).ok_or("a frame")?;
        write_feed(&frame, &mut feed)?;
    }
    for (room, most) in [
        (1, 1),
        (9, 4_096),
        (27, 4_096),
        (4_096, 7),
        (65_536, 65_536),
    ] {
        let reader = BufReader::with_capacity(rt.alloc(), room, Pieces::of(&feed, most))?;
        let mut source = BufferedFeedSource::new(reader);
        let mut buffer = FrameBuf::new();
        for at in 0..1_000 {
            let want = frame_at(at, &bytes).ok_or("a frame")?;
            assert_same!(rt; source.next(&mut buffer), Ok(Next::Frame));
            assert_same!(rt; buffer.frame(), Some(want), "frame {at}, room {room}, pieces of {most}");
        }
        assert_same!(rt; answers(&mut source, &mut buffer), [Ok(Next::End); 3]);
        assert!(rt; buffer.frame().is_none());
    }
    Ok(())
}

#[test]
fn each_record_cut_in_a_buffer_is_truncated(rt: HostRuntime) -> Result<(), Fail> {
    let record: [u8; 27] = bytes(rt.alloc(), RECORD)?;
    let mut buffer = FrameBuf::new();
    for cut in 1..27 {
        let reader = BufReader::with_capacity(rt.alloc(), 64, Pieces::of(&record[..cut], 4_096))?;
        let mut source = BufferedFeedSource::new(reader);
        let want = [Err(SourceFault::Truncated); 3];
        assert_same!(rt;
            answers(&mut source, &mut buffer),
            want,
            "cut after {cut} bytes"
        );
        assert!(rt; buffer.frame().is_none());
    }
    Ok(())
}

/// A mark ahead of a frame, two behind it, and one behind another frame.
#[test]
fn time_marks_are_read_among_frames(rt: HostRuntime) -> Result<(), Fail> {
    let mark = "100000000000 00 0000";
    let feed = joined_bytes(
        rt.alloc(),
        &[mark, RECORD, mark, "ffffffffffff 00 0000", RECORD, mark],
    )?;
    for room in [1, 9, 27, 4_096] {
        let reader = BufReader::with_capacity(rt.alloc(), room, Pieces::of(&feed, 7))?;
        let mut source = BufferedFeedSource::with_times(reader);
        let mut buffer = FrameBuf::new();
        for answer in [
            Next::Time(16),
            Next::Frame,
            Next::Time(16),
            Next::Time((1 << 48) - 1),
            Next::Frame,
            Next::Time(16),
        ] {
            assert_same!(rt; source.next(&mut buffer), Ok(answer), "room {room}");
            assert_same!(rt; buffer.frame().is_some(), answer == Next::Frame);
        }
        assert_same!(rt; answers(&mut source, &mut buffer), [Ok(Next::End); 3]);
    }
    Ok(())
}

#[test]
fn a_mark_with_error_flags_is_refused(rt: HostRuntime) -> Result<(), Fail> {
    for &(record, timed, fault) in &[
        ("100000000000 01 0000", true, SourceFault::Length),
        ("100000000000 00 0000", false, SourceFault::Length),
        ("100000000000 00 0100 00", true, SourceFault::Length),
        ("100000000000 00 00", true, SourceFault::Truncated),
    ] {
        let feed = all_bytes(rt.alloc(), record)?;
        let reader = BufReader::with_capacity(rt.alloc(), 64, Pieces::of(&feed, 64))?;
        let mut source = if timed {
            BufferedFeedSource::with_times(reader)
        } else {
            BufferedFeedSource::new(reader)
        };
        let mut buffer = FrameBuf::new();
        assert_same!(rt; answers(&mut source, &mut buffer), [Err(fault); 3], "{record}");
    }
    Ok(())
}
