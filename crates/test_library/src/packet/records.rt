//! The recording's own records, written and read.
use super::*;
use test_samples::assert_same;

/// A program that keeps nothing, as version 0 of channel 1 from frame 0 on.
const REJECTING: &str = "00000000 43425052 0100 0100 00000000 0000000000000000 0100 0000 \
    0600000000000000";

/// A program that keeps frames, as version 1 of channel 1 from frame 1 on.
const ACCEPTING: &str = "00000000 43425052 0100 0100 01000000 0100000000000000 0100 0000 \
    0600000001000000";

/// The end of channel 1 after two frames, of which one was kept.
const END: &str = "00000000 43425052 0200 0100 0200000000000000 0100000000000000";

#[test]
fn records_are_written(rt: HostRuntime) -> Result<(), Fail> {
    for &(version, first, listing, text) in &[
        (0, 0, "1,6 0 0 0,", REJECTING),
        (1, 1, "1,6 0 0 1,", ACCEPTING),
    ] {
        let program = verify(parse_listing(rt.alloc(), listing)?)?;
        let body = program_body(1, version, first, &program);
        assert_same!(rt; body.as_slice(), all_bytes(rt.alloc(), text)?.as_slice());
    }
    assert_same!(rt; end_body(1, 2, 1), bytes(rt.alloc(), END)?);
    Ok(())
}

#[test]
fn the_record_of_a_program_is_read(rt: HostRuntime) -> Result<(), Fail> {
    for &(text, number) in &[(REJECTING, 0), (ACCEPTING, 1)] {
        let body = all_bytes(rt.alloc(), text)?;
        let Some(Record::Program(program)) = decode_record(&body)? else {
            return Err("a program's record".into());
        };
        assert_same!(rt;
            (program.channel, program.version, program.count),
            (1, number, 1)
        );
        assert_same!(rt; program.first, u64::from(number));
        let insn = Insn::from_bytes([6, 0, 0, 0, number as u8, 0, 0, 0]);
        assert_same!(rt; program.insn_at(0), Some(insn));
        assert_same!(rt; program.insn_at(1), None);
    }
    Ok(())
}

/// A return of this constant.
fn returns(k: u32) -> Insn {
    Insn {
        code: 6,
        jt: 0,
        jf: 0,
        k,
    }
}

#[test]
fn the_record_of_the_longest_program_is_written_and_read(rt: HostRuntime) -> Result<(), Fail> {
    let mut insns = Vec::new(rt.alloc());
    for k in 0..4_096 {
        insns.push(returns(k))?;
    }
    let body = program_body(1, 0, 0, &verify(insns)?);
    assert_same!(rt; body.len(), 32_796);
    let head = "00000000 43425052 0100 0100 00000000 0000000000000000 0010 0000";
    let head = all_bytes(rt.alloc(), head)?;
    assert_same!(rt; body.get(..28), Some(head.as_slice()));
    let last = "06000000 ff0f0000";
    let last = all_bytes(rt.alloc(), last)?;
    assert_same!(rt; body.get(32_788..), Some(last.as_slice()));
    let Some(Record::Program(program)) = decode_record(&body)? else {
        return Err("a program's record".into());
    };
    assert_same!(rt; program.count, 4_096);
    assert_same!(rt; program.insn_at(4_095), Some(returns(4_095)));
    assert_same!(rt; program.insn_at(4_096), None);
    Ok(())
}

#[test]
fn a_record_of_65535_instructions_is_read(rt: HostRuntime) -> Result<(), Fail> {
    let head = "00000000 43425052 0100 0100 00000000 0000000000000000 ffff 0000";
    let mut body = all_bytes(rt.alloc(), head)?;
    for k in 0..65_535 {
        body.extend_from_slice(&returns(k).to_bytes())?;
    }
    let Some(Record::Program(program)) = decode_record(&body)? else {
        return Err("a program's record".into());
    };
    assert_same!(rt; program.count, 65_535);
    assert_same!(rt; program.insn_at(65_534), Some(returns(65_534)));
    assert_same!(rt; program.insn_at(65_535), None);
    body.push(0)?;
    assert_same!(rt; decode_record(&body), Err(RecordFault::Length));
    Ok(())
}

#[test]
fn the_record_of_an_end_is_read(rt: HostRuntime) -> Result<(), Fail> {
    let body: [u8; END_RECORD_LEN] = bytes(rt.alloc(), END)?;
    let end = Record::End {
        channel: 1,
        offered: 2,
        kept: 1,
    };
    assert_same!(rt; decode_record(&body), Ok(Some(end)));
    Ok(())
}

#[test]
fn unused_bytes_of_a_record_make_no_difference(rt: HostRuntime) -> Result<(), Fail> {
    let rejecting: [u8; 36] = bytes(rt.alloc(), REJECTING)?;
    for at in [0, 1, 2, 3, 26, 27] {
        let mut body: [u8; 36] = bytes(rt.alloc(), REJECTING)?;
        put(&mut body, at, 0xff);
        let said = decode_record(&rejecting);
        assert_same!(rt; decode_record(&body), said, "byte {at}");
    }
    Ok(())
}

#[test]
fn bytes_without_the_tag_are_no_record(rt: HostRuntime) -> Result<(), Fail> {
    for text in ["00000000 43425053 0100 0100", "00000000 434250"] {
        let body = all_bytes(rt.alloc(), text)?;
        assert_same!(rt; decode_record(&body), Ok(None), "{text}");
    }
    Ok(())
}

#[test]
fn each_bad_record_has_its_fault(rt: HostRuntime) -> Result<(), Fail> {
    for &(text, fault) in &[
        ("00000000 43425052 0300 0100", RecordFault::Kind),
        ("00000000 43425052 0100 0000", RecordFault::Channel),
        ("00000000 43425052 0300 0000", RecordFault::Kind),
        ("00000000 43425052 0100", RecordFault::Length),
        ("00000000 43425052 0100 0100", RecordFault::Length),
        (
            "00000000 43425052 0100 0100 00000000 0000000000000000 ffff 0000",
            RecordFault::Length,
        ),
        (
            "00000000 43425052 0100 0100 00000000 0000000000000000 0100 0000 06000000000000",
            RecordFault::Length,
        ),
        (
            "00000000 43425052 0200 0100 0200000000000000 01000000000000",
            RecordFault::Length,
        ),
    ] {
        let body = all_bytes(rt.alloc(), text)?;
        assert_same!(rt; decode_record(&body), Err(fault), "{text}");
    }
    Ok(())
}
