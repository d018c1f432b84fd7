//! Instructions as they are stored, read and printed.
use bpf_insn::*;
use std::test::Fail;
use test_samples::assert_same;

/// The ARP filter as tcpdump prints it: accepts frames whose EtherType is 0x0806.
const ARP: &str = "4,40 0 0 12,21 0 1 2054,6 0 0 4294967295,6 0 0 0,";

#[test]
fn the_arp_filter_is_read_and_stored(rt: HostRuntime) -> Result<(), Fail> {
    let program = parse_listing(rt.alloc(), ARP)?;
    assert_same!(rt; program.len(), 4);
    assert_same!(rt; form_of(program[0]), Some(Form::LdAbs(Size::H)));
    assert_same!(rt; form_of(program[1]), Some(Form::Test(Cond::Eq, Src::K)));
    assert_same!(rt; program[0].to_bytes(), [0x28, 0, 0, 0, 12, 0, 0, 0]);
    assert_same!(rt; program[1].to_bytes(), [0x15, 0, 0, 1, 6, 8, 0, 0]);
    assert_same!(rt; Insn::from_bytes([0x15, 0, 0, 1, 6, 8, 0, 0]), program[1]);
    Ok(())
}

#[test]
fn an_instruction_may_stand_on_a_line(rt: HostRuntime) -> Result<(), Fail> {
    let program = parse_listing(rt.alloc(), "1 ,\r\n 6 0\t0 01 \r\n")?;
    let ret = Insn {
        code: 6,
        jt: 0,
        jf: 0,
        k: 1,
    };
    assert_same!(rt; program.as_slice(), [ret].as_slice());
    Ok(())
}

#[test]
fn a_listing_is_refused_with_its_first_fault(rt: HostRuntime) {
    let table = &[
        ("", ListingFault::Syntax { at: 0 }),
        (" ,\n", ListingFault::Syntax { at: 3 }),
        ("1 1,6 0 0 0,", ListingFault::Syntax { at: 0 }),
        ("1,6 0 0,", ListingFault::Syntax { at: 2 }),
        ("1,6 0 0 0 0,", ListingFault::Syntax { at: 2 }),
        ("1,6 0 256 +0,", ListingFault::Syntax { at: 2 }),
        ("1,6 0\r 0 0,", ListingFault::Syntax { at: 2 }),
        // after good instructions
        ("2,6 0 0 0,6 0 0,", ListingFault::Syntax { at: 10 }),
        ("2,6 0 0 0,6 0 256 0,", ListingFault::Range { at: 14 }),
        ("3,6 0 0 0,6 0 0 0,", count(3, 2)),
        ("65536,", ListingFault::Range { at: 0 }),
        ("1,65536 0 0 0,", ListingFault::Range { at: 2 }),
        ("1,6 256 0 0,", ListingFault::Range { at: 4 }),
        ("1, 6 0 256 4294967296,", ListingFault::Range { at: 7 }),
        ("1,6 0 0 4294967296,", ListingFault::Range { at: 8 }),
        ("2,6 0 256 0,x", ListingFault::Range { at: 6 }),
        ("65535,", count(65_535, 0)),
        ("0,6 0 0 0,", count(0, 1)),
    ];
    for &(text, fault) in table {
        assert_same!(rt;
            parse_listing(rt.alloc(), text).err(),
            Some(fault),
            "{text}"
        );
    }
}

fn count(said: u16, found: usize) -> ListingFault {
    ListingFault::Count { said, found }
}

#[test]
fn a_program_is_printed_as_its_listing(rt: HostRuntime) -> Result<(), Fail> {
    for text in ["0,", ARP] {
        let program = parse_listing(rt.alloc(), text)?;
        assert!(rt; program.len() <= 65_535);
        let printed = print_listing(rt.alloc(), program.as_slice())?;
        assert_same!(rt; printed.as_str(), text);
    }
    Ok(())
}

#[test]
fn the_longest_listing_is_read_and_printed(rt: HostRuntime) -> Result<(), Fail> {
    let mut text = String::from_str(rt.alloc(), "65535,")?;
    for _ in 0..65_535 {
        text.push_str("6 0 0 1,")?;
    }
    let program = parse_listing(rt.alloc(), text.as_str())?;
    assert_same!(rt; program.len(), 65_535);
    assert_same!(rt;
        print_listing(rt.alloc(), program.as_slice())?.as_str(),
        text.as_str()
    );
    Ok(())
}

#[test]
fn jumps_lead_where_their_distances_say(rt: HostRuntime) -> Result<(), Fail> {
    let program = parse_listing(rt.alloc(), ARP)?;
    let test = Form::Test(Cond::Eq, Src::K);
    assert_same!(rt; jump_targets(test, program[1], 1), Targets::Two(2, 3));
    assert_same!(rt;
        successors(Form::LdAbs(Size::H), program[0], 0),
        Targets::One(1)
    );
    assert_same!(rt; successors(Form::RetK, program[2], 2), Targets::Nowhere);
    assert!(rt; jumps_out(test, program[1], 1, 3));
    assert!(rt; !jumps_out(test, program[1], 1, 4));
    Ok(())
}

#[test]
fn a_form_tells_its_code_its_name_and_its_fields(rt: HostRuntime) {
    assert_same!(rt; code_of(Form::Test(Cond::Set, Src::X)), 0x4d);
    assert_same!(rt; op_mnemonic(Op::Lsh), "lsh");
    assert_same!(rt; cond_mnemonic(Cond::Ge), "jge");
    assert_same!(rt; load_mnemonic(Size::B), "ldb");
    assert!(rt; uses_k(Form::RetK) && !uses_k(Form::RetA));
    assert!(rt; uses_distances(Form::Test(Cond::Eq, Src::X)) && !uses_distances(Form::Ja));
    assert!(rt; reads_scratch(Form::LdxMem) && !reads_scratch(Form::Stx));
    assert!(rt; writes_scratch(Form::Stx) && !writes_scratch(Form::LdxMem));
}
