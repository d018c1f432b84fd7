//! The records of recordings that follow one another.

ghost use Rattle.std.specs.Prelude.{ℕ, ◌≡◌, ◌≢◌, ◌<◌, ◌^◌, ◌∷◌, ◌++◌, [], List, None, IfOk, IfSome, OnOk, length};
ghost use Rattle.std.specs.Ordering.{nat_cmp};
ghost use Rattle.std.specs.BTreeMap.{get};
ghost use Rattle.rec_reader.specs.Auditors.{AuditorStandsFor, fault_in};
ghost use Rattle.rec_reader.specs.Packets.{PacketData, packets_len};
ghost use Rattle.rec_reader.specs.Views.{packet_data};
ghost use Rattle.cli_chapter11.specs.RecordsInRuns.{StandsForRun, is_several};
ghost use Rattle.cli_chapter11.specs.RunParts.{IsJudgedSoFar, IsPartOfRun};
ghost use Rattle.rec_reader.specs.Reading.{Reads};
ghost use Rattle.rec_reader.specs.Readers.{HasRead};
ghost use Rattle.rec_runs.specs.Moves.{AreRecordMoves};
ghost use Rattle.rec_runs.specs.RunsRead.{RunStandsFor};

use crate::files::reader_of;
use cli_streams::CommandEnding;
use rec_pieces::PlacedRead;
use rec_reader::{AuditFault, Auditor, Packet, ReadEnd, Reader};
use rec_runs::{RecordMoves, RunRecords};
use std::alloc::{AllocError, Global};
use std::collections::BTreeMap;
use std::io::Read;

/// Why a recording of a run isn't read.
#[derive(Clone, Copy, Debug)]
enum PartEnd {
    /// It isn't read to its end.
    Reading(ReadEnd),
    /// Out of memory.
    Memory,
}

impl From<ReadEnd> for PartEnd {
    fn from(end: ReadEnd) -> PartEnd {
        PartEnd::Reading(end)
    }
}

impl From<AllocError> for PartEnd {
    fn from(_error: AllocError) -> PartEnd {
        PartEnd::Memory
    }
}

/// What is found in a recording that is one of several of its run.
#[derive(Drop)]
pub(crate) struct FoundInRun {
    /// Where it isn't a part of its run, if it isn't.
    pub part: Option<u64>,
    /// What the records of its channels become, where no later recording of the run is known.
    pub records: Vec<RecordMoves>,
}

/// Whether two recordings or more are of this run.
pub(crate) fn is_of_several(runs: &[usize], run: usize) -> bool
    ensures { result ≡ is_several run runs.now }
{
    let mut count: usize = 0;
    'recordings: for other in runs {
        if *other == run {
            count += 1;
        }
    }
    count > 1
}

/// Reads the recording at a place, which follows those of its run that were read before.
pub(crate) fn read_in_run<'a, F: PlacedRead>(
    alloc: Global,
    name: &'a str,
    file: &F,
    kept: &mut BTreeMap<usize, RunRecords>,
    run: usize,
    place: usize,
) -> Result<FoundInRun, CommandEnding<'a>>
    ensures found { IfOk result (λ found. IfSome (F.held file.entry.now) (λ recording.
        length recording < 2 ^ 64 → (own : List PacketData) × Reads recording own None
        × IsPartOfRun own found.part
        × ((earlier : List (List PacketData)) → StandsForRun (get nat_cmp kept.old run) earlier
        → AreRecordMoves earlier own found.records.items
        × StandsForRun (get nat_cmp kept.new run) (earlier ++ own ∷ [])))) }
    ensures others { OnOk result ((other : ℕ) → run ≢ other
        → get nat_cmp kept.new other ≡ get nat_cmp kept.old other) }
{
    match kept.get_mut(&run) {
        Some(records) => read_next(alloc, name, file, records, place),
        None => {
            let mut records = RunRecords::new(alloc);
            let found = read_next(alloc, name, file, &mut records, place)?;
            kept.insert(run, records)?;
            Ok(found)
        }
    }
}

/// Reads the recording at a place, which follows those whose records were taken.
fn read_next<'a, F: PlacedRead>(
    alloc: Global,
    name: &'a str,
    file: &F,
    records: &mut RunRecords,
    place: usize,
) -> Result<FoundInRun, CommandEnding<'a>>
    ensures { IfOk result (λ found. IfSome (F.held file.entry.now) (λ recording.
        length recording < 2 ^ 64 → (own : List PacketData) × Reads recording own None
        × IsPartOfRun own found.part
        × ((earlier : List (List PacketData)) → RunStandsFor records.old earlier []
        → AreRecordMoves earlier own found.records.items
        × RunStandsFor records.new (earlier ++ own ∷ []) []))) }
{
    let part = part_of(alloc, name, file, records, place)?;
    let moves = records.moves(alloc)?;
    records.begin_next();
    Ok(FoundInRun {
        part,
        records: moves,
    })
}

/// Reads the recording at a place, whose records are taken, and gives where it isn't a part of its run.
fn part_of<'a, F: PlacedRead>(
    alloc: Global,
    name: &'a str,
    file: &F,
    records: &mut RunRecords,
    place: usize,
) -> Result<Option<u64>, CommandEnding<'a>>
    ensures { IfOk result (λ part. IfSome (F.held file.entry.now) (λ recording.
        length recording < 2 ^ 64 → (own : List PacketData) × Reads recording own None
        × IsPartOfRun own part
        × ((earlier : List (List PacketData)) → RunStandsFor records.old earlier []
        → RunStandsFor records.new earlier own))) }
{
    let mut reader = reader_of(alloc, file)?;
    match read_part(alloc, &mut reader, records) {
        Ok(part) => Ok(part),
        Err(PartEnd::Reading(end)) => Err(CommandEnding::of_reading(name, end).with_place(place)),
        Err(PartEnd::Memory) => Err(CommandEnding::Memory),
    }
}

/// Reads a recording, whose records are taken, and gives where it isn't a part of its run: at the first packet of which
/// the audit answers that it is out of order or has no program, or at the end of its bytes, if the end of a channel is
/// missing or has other counts.
fn read_part<R: Read>(
    alloc: Global,
    reader: &mut Reader<R>,
    records: &mut RunRecords,
) -> Result<Option<u64>, PartEnd>
    ensures { IfOk result (λ part. (recording : List ℕ) → HasRead recording [] reader.old
        → (own : List PacketData) × Reads recording own None × IsPartOfRun own part
        × ((earlier : List (List PacketData)) → RunStandsFor records.old earlier []
        → RunStandsFor records.new earlier own)) }
{
    let mut auditor = Auditor::new(alloc);
    let mut failed = None;
    let mut end: u64 = 0;
    'packets: for _ in 0..u64::MAX {
        let Some(owned) = reader.next()? else {
            return part_by(auditor, failed, end);
        };
        let packet = owned.packet();
        records.take(&packet)?;
        failed = judged(&mut auditor, &packet, failed);
        let Some(next) = end.checked_add(packet.header.packet_len as u64) else {
            return Err(PartEnd::Memory);
        };
        end = next;
        reader.give_back(owned);
    }
    // a recording of fewer than 2^64 bytes ends before
    Err(PartEnd::Memory)
}

/// A packet of a recording that fails its audit.
#[derive(Clone, Copy, Debug)]
struct Failed {
    /// Why.
    fault: AuditFault,
    /// Its place.
    at: u64,
}

/// The first packet that fails, with this one, which the audit takes if none has failed.
fn judged(auditor: &mut Auditor, packet: &Packet<'_>, failed: Option<Failed>) -> Option<Failed>
    ensures { (packets : List PacketData) → IsJudgedSoFar packets auditor.old failed
        → IsJudgedSoFar (packets ++ packet_data packet.now ∷ []) auditor.new result }
{
    match failed {
        Some(failed) => Some(failed),
        None => match auditor.take(packet) {
            Ok(()) => None,
            Err(fault) => Some(Failed {
                fault,
                at: packet.at,
            }),
        },
    }
}

/// Where a recording of so many bytes isn't a part of its run.
fn part_by(auditor: Auditor, failed: Option<Failed>, end: u64) -> Result<Option<u64>, PartEnd>
    ensures { IfOk result (λ part. (packets : List PacketData)
        → IsJudgedSoFar packets auditor failed
        → end ≡ packets_len packets → IsPartOfRun packets part) }
{
    let Some(failed) = failed else {
        return part_at_end(auditor, end);
    };
    match failed.fault {
        AuditFault::Order { .. } | AuditFault::NoProgram { .. } => Ok(Some(failed.at)),
        AuditFault::Memory => Err(PartEnd::Memory),
        AuditFault::BadProgram { .. }
        | AuditFault::NotAccepted { .. }
        | AuditFault::NoEnd { .. }
        | AuditFault::Counts { .. } => Ok(None),
    }
}

/// The same of one whose packets pass: its end, if the audit of all finds a channel wrong.
fn part_at_end(auditor: Auditor, end: u64) -> Result<Option<u64>, PartEnd>
    ensures { IfOk result (λ part. (packets : List PacketData) → AuditorStandsFor auditor packets
        → fault_in auditor ≡ None → end ≡ packets_len packets → IsPartOfRun packets part) }
{
    match auditor.end() {
        Err(AuditFault::NoEnd { .. } | AuditFault::Counts { .. }) => Ok(Some(end)),
        Err(AuditFault::Memory) => Err(PartEnd::Memory),
        Ok(_)
        | Err(
            AuditFault::Order { .. }
            | AuditFault::NoProgram { .. }
            | AuditFault::BadProgram { .. }
            | AuditFault::NotAccepted { .. },
        ) => Ok(None),
    }
}
