//! The sums of data checksums.
use super::*;
use test_samples::assert_same;

/// Bodies, and the four bytes of their sums.
const SUMS: [(&str, &str); 16] = [
    // two records of programs: REJECTING's and ACCEPTING's
    (
        "00000000 43425052 0100 0100 00000000 0000000000000000 0100 0000 0600000000000000",
        "4b425152",
    ),
    (
        "00000000 43425052 0100 0100 01000000 0100000000000000 0100 0000 0600000001000000",
        "4e425152",
    ),
    // records of ends: after two frames of which one was kept, after two that were kept, after none
    (
        "00000000 43425052 0200 0100 0200000000000000 0100000000000000",
        "48425152",
    ),
    (
        "00000000 43425052 0200 0100 0200000000000000 0200000000000000",
        "49425152",
    ),
    (
        "00000000 43425052 0200 0100 0000000000000000 0000000000000000",
        "45425152",
    ),
    // frames, without the filler and with it
    (BODY, "ecdaa4b6"),
    (
        "01000000 200000000000 0000 12000003 ffffffffffff 020000000001 0806 a1b2c3d4 0000",
        "fcdaa4b6",
    ),
    (
        "02000000 100000000000 0000 12000003 ffffffffffff 020000000001 0806 a1b2c3d4 \
            200000000000 0000 12000003 ffffffffffff 020000000001 0806 a1b2c3d4",
        "8f91a191",
    ),
    // fewer bytes than a word has, alone and behind a word
    ("", "00000000"),
    ("01", "01000000"),
    ("0102", "01020000"),
    ("010203", "01020300"),
    ("f0f0f0f0 010203", "f1f2f3f0"),
    // sums over 2^32
    ("ffffffff 01000000", "00000000"),
    ("ffffffff ffffffff ffffffff", "fdffffff"),
    ("000000ff 0000ff01 ff", "ff00ff00"),
];

#[test]
fn a_sum_is_of_the_words_with_their_filler(rt: HostRuntime) -> Result<(), Fail> {
    for &(body, sum) in &SUMS {
        let found = body_sum(all_bytes(rt.alloc(), body)?.as_slice());
        assert_same!(rt; found.to_le_bytes(), bytes::<4>(rt.alloc(), sum)?, "{body}");
    }
    Ok(())
}
