//! How refusals of several recordings, and the faults of reading them, are printed: with two numbers.

use cli_streams::{CommandEnding, RunRefusal};
use rec_reader::{ReadEnd, ReadFaultKind};
use rec_whole::WholeRefusal;
use std::process::Abort;
use test_samples::assert_same;

/// Where each of three recordings ends in the joined one; the second has no byte.
const ENDS: [u64; 3] = [100, 100, 250];

/// Refusals of the joined recording, and what is printed of them.
const REFUSALS: [(WholeRefusal, &str); 8] = [
    (WholeRefusal::Other { at: 0 }, "refused 1 Other 0 0\n"),
    (WholeRefusal::Other { at: 99 }, "refused 1 Other 99 0\n"),
    (
        WholeRefusal::Disorder { at: 100 },
        "refused 2 Disorder 0 2\n",
    ),
    (WholeRefusal::Gap { at: 100 }, "refused 3 Gap 0 2\n"),
    (WholeRefusal::Gap { at: 249 }, "refused 3 Gap 149 2\n"),
    (WholeRefusal::Origin, "refused 4 Origin 0 0\n"),
    (WholeRefusal::Year, "refused 5 Year 0 0\n"),
    (WholeRefusal::Full, "refused 7 Full 0 0\n"),
];

/// Reports an ending, and compares its status, output and errors.
fn check<R: AllocGlobal + Abort>(
    rt: &R,
    ending: CommandEnding<'_>,
    status: u8,
    output: &str,
    errors: &str,
) {
    let mut out = Vec::new(rt.alloc());
    let mut err = Vec::new(rt.alloc());
    let ended = ending.report(rt.alloc(), &mut out, &mut err, false);
    assert_same!(*rt; ended, status, "{output}{errors}");
    assert_same!(*rt; out.as_slice(), output.as_bytes(), "{output}{errors}");
    assert_same!(*rt; err.as_slice(), errors.as_bytes(), "{output}{errors}");
}

/// What the recording `a` comes to that isn't read to its end for this reason.
fn unread(kind: ReadFaultKind) -> CommandEnding<'static> {
    CommandEnding::of_reading("a", ReadEnd { kind, at: 180 })
}

#[test]
fn a_refusal_of_several_has_its_place_in_its_recording(rt: HostRuntime) {
    for &(refusal, line) in &REFUSALS {
        check(&rt, CommandEnding::of_joined(refusal, &ENDS), 1, line, "");
    }
}

#[test]
fn a_refusal_in_a_run_has_its_place_in_its_recording(rt: HostRuntime) {
    let part = CommandEnding::InRun {
        refusal: RunRefusal::Part { at: 152 },
        place: 1,
    };
    check(&rt, part, 1, "refused 8 Part 152 1\n", "");
    let sum = CommandEnding::InRun {
        refusal: RunRefusal::Sum { at: 0 },
        place: 1_023,
    };
    check(&rt, sum, 1, "refused 9 Sum 0 1023\n", "");
}

#[test]
fn the_place_of_a_recording_follows_its_own_fault(rt: HostRuntime) {
    let refused = CommandEnding::Whole(WholeRefusal::Gap { at: 7 });
    check(&rt, refused.with_place(0), 1, "refused 3 Gap 7 0\n", "");
    let cut = unread(ReadFaultKind::Truncated);
    check(&rt, cut.with_place(1), 1, "", "read 1 Truncated 180 1\n");
    check(
        &rt,
        unread(ReadFaultKind::Device).with_place(1),
        3,
        "",
        "file a\n",
    );
    check(
        &rt,
        unread(ReadFaultKind::Memory).with_place(1),
        4,
        "",
        "memory\n",
    );
}
