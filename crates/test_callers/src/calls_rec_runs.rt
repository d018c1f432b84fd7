//! A caller of `rec_runs`, as on its page.

use rec_reader::Recording;
use rec_runs::{RecordMoves, RunRecords};
use std::alloc::{AllocError, Global};

/// What becomes of the channels of the second of two recordings.
pub fn moves_of_second(
    alloc: Global,
    first: &Recording<'_>,
    second: &Recording<'_>,
) -> Result<Vec<RecordMoves>, AllocError> {
    let mut records = RunRecords::new(alloc);
    for packet in first.packets() {
        records.take(packet)?;
    }
    records.begin_next();
    for packet in second.packets() {
        records.take(packet)?;
    }
    records.moves(alloc)
}
