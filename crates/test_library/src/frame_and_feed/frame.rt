//! Frames, their copies and their counters.
use super::*;
use test_samples::assert_same;

#[test]
fn a_frame_and_its_copies_are_the_same(rt: HostRuntime) -> Result<(), Fail> {
    let arp: [u8; 18] = bytes(rt.alloc(), ARP)?;
    let frame = Frame::new(16, true, false, &arp).ok_or("a frame")?;
    assert_same!(rt; frame.view(), &arp[..14]);
    let owned = frame.to_owned(rt.alloc())?;
    let mut buffer = FrameBuf::new();
    assert!(rt; buffer.frame().is_none());
    buffer.put(owned.frame());
    assert_same!(rt; buffer.frame(), Some(frame));
    buffer.clear();
    assert!(rt; buffer.frame().is_none());
    Ok(())
}

#[test]
fn a_frame_has_18_to_16383_bytes_and_a_counter_of_48_bits(rt: HostRuntime) {
    let zeros = [0; 16_384];
    for &(counter, len, fits) in &[
        (0xffff_ffff_ffff, 18, true),
        (0x1_0000_0000_0000, 18, false),
        (0, 17, false),
        (0, 16_383, true),
        (0, 16_384, false),
    ] {
        let frame = zeros
            .get(..len)
            .and_then(|bytes| Frame::new(counter, false, false, bytes));
        assert_same!(rt; frame.is_some(), fits, "counter {counter}, {len} bytes");
    }
}

#[test]
fn a_counter_is_its_6_bytes_the_lowest_first(rt: HostRuntime) -> Result<(), Fail> {
    for &(counter, text) in &[
        (0, "000000000000"),
        (16, "100000000000"),
        (0x0605_0403_0201, "010203040506"),
        (0xffff_ffff_ffff, "ffffffffffff"),
    ] {
        let spelled = counter_bytes(counter);
        assert_same!(rt; spelled, bytes(rt.alloc(), text)?);
        assert_same!(rt; counter_of(spelled), counter);
    }
    Ok(())
}
