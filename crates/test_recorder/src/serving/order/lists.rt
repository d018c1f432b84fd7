//! Lists of notes that were made by hand: what the model allows, and what it forbids.

use crate::serving::order::channel::Setting;
use crate::serving::order::notes::Note::*;
use crate::serving::order::notes::Piece::{End, Frames, Program};
use crate::serving::order::notes::{Note, Piece};
use crate::serving::order::search::Verdict::{Allowed, Forbidden};
use crate::serving::order::search::{Verdict, verdict_of};
use crate::serving::order::world::Settings;
use std::alloc::Global;
use std::test::Fail;
use test_samples::assert_same;

/// The program of the first filter, which the first frame met.
const FIRST: Piece = Program {
    version: 0,
    first: 0,
};

/// The end of a channel of one frame, which was kept.
const ONE_KEPT: Piece = End {
    offered: 1,
    kept: 1,
};

/// The end of a channel without frames.
const NONE: Piece = End {
    offered: 0,
    kept: 0,
};

/// A whole recording: of one frame on the first channel, and of none on the second one.
const WHOLE: [Note; 15] = [
    Asked(0),
    Gave(0),
    Begun,
    Written(0, FIRST),
    Asked(0),
    Ended(0),
    Begun,
    Written(0, Frames { first: 0 }),
    Begun,
    Written(0, ONE_KEPT),
    Begun,
    Written(1, NONE),
    ControlAsked,
    ControlEnded,
    Flushed,
];

/// Notes that stand in the place of some of a list: from which one on, of how many, and what is found
/// then.
type Edit<'a> = (usize, usize, &'a [Note], Verdict);

/// The same with other notes.
const EDITS: [Edit<'static>; 20] = [
    (0, 0, &[], Allowed),
    // the output waits while the source is asked, and the control is asked at any time
    (3, 2, &[Asked(0), Written(0, FIRST)], Allowed),
    (11, 2, &[ControlAsked, Written(1, NONE)], Allowed),
    (0, 0, &[ControlAsked], Forbidden),
    // a source is asked once, answers once, and has no frame behind its end
    (1, 0, &[Asked(0)], Forbidden),
    (2, 0, &[Gave(0)], Forbidden),
    (6, 0, &[Gave(0)], Forbidden),
    (6, 0, &[Asked(0)], Forbidden),
    (0, 1, &[Asked(1)], Forbidden),
    // what is written was offered, is of its channel, and is written once and in order
    (7, 1, &[Written(0, Frames { first: 1 })], Forbidden),
    (7, 1, &[Written(1, Frames { first: 0 })], Forbidden),
    (3, 1, &[Written(0, Frames { first: 0 })], Forbidden),
    (8, 0, &[Begun, Written(0, Frames { first: 0 })], Forbidden),
    (9, 1, &[Written(0, NONE)], Forbidden),
    (2, 0, &[Begun, Written(0, FIRST)], Forbidden),
    // packets go out one after the other
    (3, 0, &[Begun], Forbidden),
    // a failed output is given nothing
    (3, 1, &[Failed], Forbidden),
    // all is written before the flush, and nothing is noted behind it
    (4, 0, &[Flushed], Forbidden),
    (15, 0, &[Begun], Forbidden),
    (15, 0, &[Asked(1)], Forbidden),
];

/// Two frames, between which the filter becomes one that keeps none.
const CHANGE: [Note; 16] = [
    Asked(0),
    Gave(0),
    ControlAsked,
    Changed(0, false),
    Told {
        version: 1,
        mark: 1,
    },
    Asked(0),
    Gave(0),
    Begun,
    Written(0, FIRST),
    Begun,
    Written(0, Frames { first: 0 }),
    Begun,
    Written(
        0,
        Program {
            version: 1,
            first: 1,
        },
    ),
    Asked(0),
    Ended(0),
    Begun,
];

/// The same with other notes.
const CHANGE_EDITS: [Edit<'static>; 7] = [
    (0, 0, &[], Allowed),
    (
        16,
        0,
        &[Written(
            0,
            End {
                offered: 2,
                kept: 1,
            },
        )],
        Allowed,
    ),
    (
        16,
        0,
        &[Written(
            0,
            End {
                offered: 2,
                kept: 2,
            },
        )],
        Forbidden,
    ),
    // the frame met the filter that was told of, and no other
    (
        4,
        1,
        &[Told {
            version: 1,
            mark: 0,
        }],
        Forbidden,
    ),
    (
        4,
        1,
        &[Told {
            version: 1,
            mark: 2,
        }],
        Forbidden,
    ),
    (
        4,
        1,
        &[Told {
            version: 2,
            mark: 1,
        }],
        Forbidden,
    ),
    // a change is told of before the control is asked again
    (4, 1, &[ControlAsked], Forbidden),
];

/// Channels with rings of this size; the second one may have no frame.
fn settings(ring: u32) -> Settings {
    let first = Setting {
        ring,
        most: 100,
        keeps: true,
    };
    [first, Setting { most: 0, ..first }]
}

/// A list in which some notes stand in the place of others.
fn edited(alloc: Global, list: &[Note], edit: Edit<'_>) -> Result<Vec<Note>, Fail> {
    let (from, many, notes, _) = edit;
    let mut edited = Vec::new(alloc);
    edited.extend_from_slice(list.get(..from).ok_or("a place in the list")?)?;
    edited.extend_from_slice(notes)?;
    let rest = list.get(from.saturating_add(many)..);
    edited.extend_from_slice(rest.ok_or("notes of the list")?)?;
    Ok(edited)
}

#[test]
fn the_model_allows_a_recording_and_no_other_order(rt: HostRuntime) -> Result<(), Fail> {
    for edit in EDITS {
        let list = edited(rt.alloc(), &WHOLE, edit)?;
        let verdict = verdict_of(rt.alloc(), settings(1), list.as_slice())?;
        assert_same!(rt; verdict, edit.3, "{list:?}");
    }
    for edit in CHANGE_EDITS {
        let list = edited(rt.alloc(), &CHANGE, edit)?;
        let verdict = verdict_of(rt.alloc(), settings(2), list.as_slice())?;
        assert_same!(rt; verdict, edit.3, "{list:?}");
    }
    Ok(())
}

/// Without any note but the last one the others are none of a recording.
#[test]
fn each_note_of_a_recording_is_needed(rt: HostRuntime) -> Result<(), Fail> {
    for at in 0..WHOLE.len().saturating_sub(1) {
        let list = edited(rt.alloc(), &WHOLE, (at, 1, &[], Forbidden))?;
        let verdict = verdict_of(rt.alloc(), settings(1), list.as_slice())?;
        assert_same!(rt; verdict, Forbidden, "{list:?}");
    }
    Ok(())
}

/// While the writer has the program, a ring takes as many packets as it has places, and one waits: the
/// source is asked for two frames more than that, and for the next one once the program is written.
#[test]
fn a_full_ring_stops_its_worker(rt: HostRuntime) -> Result<(), Fail> {
    for ring in 1..=4u32 {
        let mut list = Vec::new(rt.alloc());
        for _ in 0..ring.saturating_add(2) {
            list.extend_from_slice(&[Asked(0), Gave(0)])?;
        }
        let full = verdict_of(rt.alloc(), settings(ring), list.as_slice())?;
        assert_same!(rt; full, Allowed, "ring {ring}");
        list.push(Begun)?;
        for (note, verdict) in [(Asked(0), Forbidden), (Written(0, FIRST), Allowed)] {
            list.push(note)?;
            let next = verdict_of(rt.alloc(), settings(ring), list.as_slice())?;
            assert_same!(rt; next, verdict, "ring {ring}");
            if verdict == Forbidden {
                list.pop();
            }
        }
        list.push(Asked(0))?;
        let next = verdict_of(rt.alloc(), settings(ring), list.as_slice())?;
        assert_same!(rt; next, Allowed, "ring {ring}");
    }
    Ok(())
}
