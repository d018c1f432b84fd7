//! Recordings that are audited: approved, damaged, and with very many channels.
use crate::shared::packets_of;
use ch11_packet::{COMPUTER_GENERATED_DATA, Header, end_body};
use rec_reader::*;
use std::alloc::Global;
use std::fmt::Write as _;
use std::test::Fail;
use test_samples::{ACCEPTING, END, FRAMES, REJECTING, assert_same, joined_bytes};

/// The recording of a channel that kept the second of two frames.
const TWO_VERSIONS: [&str; 4] = [REJECTING, ACCEPTING, FRAMES, END];

/// A packet of one frame of channel 1, and the same with a secondary header.
const LONE_FRAME: &str = "25eb 0100 3c000000 22000000 08 00 00 68 100000000000 9c53 \
    01000000 100000000000 0000 12000003 ffffffffffff 020000000001 0806 a1b2c3d4 0000";

const SECONDARY: &str = "25eb 0100 3c000000 22000000 08 00 80 68 100000000000 1c54 \
    01000000 100000000000 0000 12000003 ffffffffffff 020000000001 0806 a1b2c3d4 0000";

/// The end of channel 1, to which no frame was offered.
const EMPTY_END: &str = "25eb 0000 34000000 1c000000 08 00 00 00 000000000000 7deb \
    00000000 43425052 0200 0100 0000000000000000 0000000000000000";

/// What an audit answers, in one line.
pub(crate) fn told(alloc: Global, answer: Result<Audit, AuditFault>) -> Result<String, Fail> {
    let mut text = String::new(alloc);
    match answer {
        Ok(audit) => {
            for line in audit.channels.as_slice() {
                write!(
                    text,
                    "channel {} programs {} frames {} offered {} ",
                    line.channel, line.programs, line.frames, line.offered
                )?;
            }
            write!(text, "yes other {}", audit.other)?;
        }
        Err(fault) => write!(text, "{fault}")?,
    }
    Ok(text)
}

#[test]
fn recordings_are_approved_or_refused(rt: HostRuntime) -> Result<(), Fail> {
    let whole = "channel 1 programs 2 frames 1 offered 2 yes other 0";
    let none = "channel 1 programs 0 frames 0 offered 0 yes other 0";
    for &(packets, want) in &[
        (TWO_VERSIONS.as_slice(), whole),
        (&[EMPTY_END], none),
        (&[], "yes other 0"),
        (&[SECONDARY], "yes other 1"),
        (&[LONE_FRAME], "no 1 NoProgram 0"),
        (&[REJECTING, ACCEPTING, FRAMES], "no 5 NoEnd 1"),
        (&[REJECTING, ACCEPTING, FRAMES, END, END], "no 4 Order 4"),
        (&[REJECTING, REJECTING, END], "no 4 Order 1"),
        (&[ACCEPTING, FRAMES, END], "no 4 Order 0"),
        (&[REJECTING, FRAMES, ACCEPTING, END], "no 3 NotAccepted 1 0"),
    ] {
        let bytes = joined_bytes(rt.alloc(), packets)?;
        let recording = packets_of(rt.alloc(), bytes.as_slice());
        let answer = told(rt.alloc(), audit(rt.alloc(), &recording))?;
        assert_same!(rt; answer.as_str(), want);
    }
    Ok(())
}

#[test]
fn a_changed_byte_is_found(rt: HostRuntime) -> Result<(), Fail> {
    // the packets, the byte that is set, its value, and the answer
    for &(packets, at, value, want) in &[
        (TWO_VERSIONS.as_slice(), 116, 0x00, "no 3 NotAccepted 2 0"),
        (TWO_VERSIONS.as_slice(), 112, 0xff, "no 2 BadProgram 1"),
        (TWO_VERSIONS.as_slice(), 224, 0x02, "no 6 Counts 1"),
        (TWO_VERSIONS.as_slice(), 216, 0x01, "no 6 Counts 1"),
        (&[END], 44, 0x00, "no 6 Counts 1"),
    ] {
        let mut bytes = joined_bytes(rt.alloc(), packets)?;
        if let Some(byte) = bytes.get_mut(at) {
            *byte = value;
        }
        let recording = packets_of(rt.alloc(), bytes.as_slice());
        let answer = told(rt.alloc(), audit(rt.alloc(), &recording))?;
        assert_same!(rt; answer.as_str(), want, "byte {at}");
    }
    Ok(())
}

#[test]
fn a_cut_recording_has_no_end(rt: HostRuntime) -> Result<(), Fail> {
    let bytes = joined_bytes(rt.alloc(), &TWO_VERSIONS)?;
    for len in [200, 210] {
        let Some(front) = bytes.get(..len) else {
            return Err("232 bytes".into());
        };
        let recording = packets_of(rt.alloc(), front);
        assert_same!(rt; recording.packets().len(), 3);
        let answer = told(rt.alloc(), audit(rt.alloc(), &recording))?;
        assert_same!(rt; answer.as_str(), "no 5 NoEnd 1", "{len} bytes");
    }
    Ok(())
}

#[test]
fn after_a_fault_each_call_answers_the_same(rt: HostRuntime) -> Result<(), Fail> {
    let packets = [REJECTING, FRAMES, ACCEPTING, END];
    let bytes = joined_bytes(rt.alloc(), &packets)?;
    let recording = packets_of(rt.alloc(), bytes.as_slice());
    let fault = AuditFault::NotAccepted {
        packet: 1,
        frame: 0,
    };
    let mut auditor = Auditor::new(rt.alloc());
    for (number, packet) in recording.packets().iter().enumerate() {
        let want = if number == 0 { Ok(()) } else { Err(fault) };
        assert_same!(rt; auditor.take(packet), want, "packet {number}");
    }
    assert_same!(rt; auditor.end().err(), Some(fault));
    Ok(())
}

#[test]
fn each_of_65535_channels_has_its_line(rt: HostRuntime) -> Result<(), Fail> {
    let alloc = rt.alloc();
    let mut bytes = Vec::new(alloc);
    let header = Header::new(0, 52, 28, 8, 0, 0, COMPUTER_GENERATED_DATA, 0).ok_or("a header")?;
    for channel in (1..=u16::MAX).rev() {
        bytes.extend_from_slice(&header.encode())?;
        bytes.extend_from_slice(&end_body(channel, 0, 0))?;
    }
    let recording = packets_of(alloc, bytes.as_slice());
    assert_same!(rt; recording.packets().len(), 65_535);
    let audited = audit(alloc, &recording)?;
    assert_same!(rt; audited.other, 0);
    let lines = audited.channels.as_slice();
    assert_same!(rt; lines.len(), 65_535);
    for (number, line) in lines.iter().enumerate() {
        assert_same!(rt; usize::from(line.channel), number + 1);
    }
    Ok(())
}
