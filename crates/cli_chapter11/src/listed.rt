//! What is known of recordings that are joined, by their packets.

ghost use Rattle.std.specs.Prelude.{ℕ, ◌≡◌, ◌<◌, ◌^◌, [], List, None, IfOk, IfSome, length, map, get_or};
ghost use Rattle.rec_reader.specs.Packets.{PacketData};
ghost use Rattle.rec_reader.specs.Reading.{Reads};
ghost use Rattle.rec_pieces.specs.ListingEnds.{ListsRecording};
ghost use Rattle.joined_theorem.specs.RunMoves.{with_one_of};
ghost use Rattle.cli_chapter11.specs.Joining.{AreHeld, AreReadings};
ghost use Rattle.cli_chapter11.specs.RecordsInRuns.{AreListedIn, IsKnownBy, StandForRuns, run_of_listed};

use crate::files::listing_of;
use crate::joined_channels::ListedRecording;
use crate::run_records::{is_of_several, read_in_run};
use cli_streams::CommandEnding;
use rec_pieces::{PieceListing, PlacedRead};
use rec_reader::bytes_have_one_reading;
use rec_runs::RunRecords;
use std::alloc::Global;
use std::collections::BTreeMap;

/// What is known of recordings, each of its run, once all of them were read to their ends. Their packets aren't kept.
pub(crate) fn list_all<'a, F: PlacedRead>(
    alloc: Global,
    recordings: &'a [String],
    files: &[F],
    runs: &[usize],
) -> Result<Vec<ListedRecording>, CommandEnding<'a>>
    requires files { length files.now ≡ length recordings.now }
    requires runs { length runs.now ≡ length recordings.now }
    ensures runs { IfOk result (λ all. map run_of_listed all.items ≡ runs.entry.now) }
    ensures known { IfOk result (λ all. (bytes : List (List ℕ))
        → AreHeld F.held files.entry.now bytes
        → (read : List (List PacketData)) × AreReadings bytes read
        × AreListedIn runs.entry.now (λ run. []) all.items read) }
{
    let mut kept = BTreeMap::new(alloc);
    let mut all = Vec::new(alloc);
    'recordings: for place in 0..recordings.len() {
        let name = recordings[place].as_str();
        all.push(known_at(alloc, name, &files[place], runs, &mut kept, place)?)?;
    }
    Ok(all)
}

/// What is known of the recording at a place, which follows those that were read before.
fn known_at<'a, F: PlacedRead>(
    alloc: Global,
    name: &'a str,
    file: &F,
    runs: &[usize],
    kept: &mut BTreeMap<usize, RunRecords>,
    place: usize,
) -> Result<ListedRecording, CommandEnding<'a>>
    requires { place < length runs.now }
    ensures run { IfOk result (λ listed. listed.run ≡ get_or runs.entry.now place 0) }
    ensures known { IfOk result (λ listed. IfSome (F.held file.entry.now) (λ recording.
        length recording < 2 ^ 64 → (own : List PacketData) × Reads recording own None
        × ((earlier : ℕ → List (List PacketData)) → StandForRuns runs.entry.now kept.old earlier
        → IsKnownBy runs.entry.now (earlier listed.run) own listed
        × StandForRuns runs.entry.now kept.new (with_one_of listed.run own earlier)))) }
{
    bytes_have_one_reading();
    let run = runs[place];
    let listing = listed_at(alloc, name, file, place)?;
    let mut listed = ListedRecording {
        run,
        ids: listing.channels(alloc)?,
        other: listing.other(),
        part: None,
        records: Vec::new(alloc),
    };
    if is_of_several(runs, run) {
        let found = read_in_run(alloc, name, file, kept, run, place)?;
        listed.part = found.part;
        listed.records = found.records;
    }
    Ok(listed)
}

/// The packets of the recording at a place, by channels.
fn listed_at<'a, F: PlacedRead>(
    alloc: Global,
    recording: &'a str,
    file: &F,
    place: usize,
) -> Result<PieceListing, CommandEnding<'a>>
    ensures { IfOk result (λ listing. IfSome (F.held file.entry.now) (λ bytes.
        length bytes < 2 ^ 64 → ListsRecording bytes listing)) }
{
    match listing_of(alloc, recording, file) {
        Ok(listing) => Ok(listing),
        Err(ending) => Err(ending.with_place(place)),
    }
}
