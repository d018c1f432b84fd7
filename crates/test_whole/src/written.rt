//! A caller of `write_whole_file` that concludes what a reader finds.

ghost use Rattle.std.specs.Prelude.{◌<◌, ◌≤◌, IfOk};
ghost use Rattle.ch11_index.specs.declared.index.TheConstants.{MOST_NAMED};
ghost use Rattle.test_whole.specs.WholeFileOf.{IsWholeFileOf};

use ch11_clock::Clock;
use rec_pieces::{FilePackets, list_recording, packets_are_read_at_their_places};
use rec_reader::Reader;
use rec_whole::{FileNames, WholeEnd, a_whole_file_is_read_back, write_whole_file};
use std::alloc::Global;

/// The whole file of a recording in memory. A reader finds of each channel what it finds in the recording.
///
/// # Errors
///
/// Those of [`write_whole_file`]; [`WholeEnd::Recording`] also if the recording isn't read to its end.
pub fn whole_file_of(
    alloc: Global,
    recording: &[u8],
    names: &FileNames<'_>,
    clock: &Clock,
    most: u16,
) -> Result<Vec<u8>, WholeEnd>
    requires some { 0 < most }
    requires few { most ≤ MOST_NAMED }
    ensures { IfOk result
        (λ file. IsWholeFileOf recording.now names.now clock.now most file.items) }
{
    a_whole_file_is_read_back();
    packets_are_read_at_their_places();
    let mut reader = Reader::new(alloc, recording);
    let Ok(listing) = list_recording(alloc, &mut reader) else {
        return Err(WholeEnd::Recording);
    };
    let mut file = Vec::new(alloc);
    let packets = FilePackets::new(&recording);
    match write_whole_file(alloc, &packets, &listing, names, clock, most, &mut file) {
        Ok(_counts) => Ok(file),
        Err(end) => Err(end),
    }
}
