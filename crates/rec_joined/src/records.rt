//! The numbers of records, in a recording that follows others of its run.

ghost use Rattle.std.specs.Prelude.{◌≡◌, ◌+◌, ◌<◌, ◌≤◌, ◌^◌, IfSome, IfNone};
ghost use Rattle.std.specs.Option.{unwrap_or};
ghost use Rattle.rec_joined.specs.MovedRecords.{record_moving};

use rec_runs::RecordMoves;

/// The version of a program and the number of its first frame, in the file: `None` if one of them doesn't fit.
pub(crate) fn program_numbers(moves: RecordMoves, version: u32, first: u64) -> Option<(u32, u64)>
    ensures version { IfSome result
        (λ numbers. numbers.0 ≡ (record_moving moves).versions + version) }
    ensures first { IfSome result (λ numbers. numbers.1 ≡ (record_moving moves).offered + first) }
    ensures none { IfNone result (¬ (((record_moving moves).versions + version < 2 ^ 32)
        × ((record_moving moves).offered + first < 2 ^ 64))) }
{
    let Some(version) = version_from(moves.versions, version) else {
        return None;
    };
    let Some(first) = sum_of(moves.offered, first) else {
        return None;
    };
    Some((version, first))
}

/// How many frames a channel was offered, and how many of them were kept, in the file: `None` if one of them doesn't
/// fit.
pub(crate) fn end_numbers(moves: RecordMoves, offered: u64, kept: u64) -> Option<(u64, u64)>
    ensures offered { IfSome result
        (λ numbers. numbers.0 ≡ (record_moving moves).offered + offered) }
    ensures kept { IfSome result (λ numbers. numbers.1 ≡ (record_moving moves).kept + kept) }
    ensures none { IfNone result (¬ (((record_moving moves).offered + offered < 2 ^ 64)
        × ((record_moving moves).kept + kept < 2 ^ 64))) }
{
    let Some(offered) = sum_of(moves.offered, offered) else {
        return None;
    };
    let Some(kept) = sum_of(moves.kept, kept) else {
        return None;
    };
    Some((offered, kept))
}

/// A version, behind those of the recordings before: `None` from 2^32 on.
fn version_from(added: u64, version: u32) -> Option<u32>
    ensures some { IfSome result (λ sum. sum ≡ added + version) }
    ensures none { IfNone result (2 ^ 32 ≤ added + version) }
{
    let Some(sum) = added.checked_add(u64::from(version)) else {
        return None;
    };
    if sum > u64::from(u32::MAX) {
        return None;
    }
    Some(sum as u32)
}

/// A number of frames and those of the recordings before, if these have 64 bits: `None` from 2^64 on.
fn sum_of(before: Option<u64>, number: u64) -> Option<u64>
    ensures some { IfSome result (λ sum. sum ≡ unwrap_or before (2 ^ 64) + number) }
    ensures none { IfNone result (2 ^ 64 ≤ unwrap_or before (2 ^ 64) + number) }
{
    match before {
        Some(before) => before.checked_add(number),
        None => None,
    }
}
