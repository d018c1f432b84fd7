//! The channels of a file of several recordings.

ghost use Rattle.std.specs.Prelude.{ℕ, ◌≡◌, ◌<◌, ◌⊎◌, None, Some, IfOk, IfErr, IsTrue, MatchResult, get_or, length, map, option_map};
ghost use Rattle.std.specs.List.{flat_map};
ghost use Rattle.ch11_channels.specs.FreeIds.{IsLeastFree};
ghost use Rattle.ch11_channels.specs.GivenIds.{AreNumberedChannels, is_id_of};
ghost use Rattle.ch11_channels.specs.NamedIds.{named_by_recording};
ghost use Rattle.ch11_channels.specs.Runs.{AreRunsOf};
ghost use Rattle.rec_whole.specs.declared.refusal.WholeRefusal.TheVariants.{Full, Other};
ghost use Rattle.cli_streams.specs.declared.ending.CommandEnding.TheVariants.{InRun, Joined, Memory};
ghost use Rattle.cli_streams.specs.declared.run_refusal.RunRefusal.TheVariants.{Part};
ghost use Rattle.cli_chapter11.specs.JoinedChannels.{IsFirstRefusal, IsFull, ListedRefusal, NoneRefused, after_of, all_listed_channels, ending_listed, listed_refusal};

use ch11_channels::{FileChannel, NamedIds, file_channels, named_channels, runs_of, time_channel};
use cli_streams::{CommandEnding, RunRefusal};
use rec_runs::RecordMoves;
use rec_whole::WholeRefusal;
use rec_words::{RecordingSettings, SetupFault};
use std::alloc::{AllocError, Global};

/// What is known of a recording that was read to its end.
#[derive(Drop)]
pub(crate) struct ListedRecording {
    /// The run that it is of.
    pub run: usize,
    /// The channels that its packets name, the least first.
    pub ids: Vec<u16>,
    /// The place of its first packet that is neither frames of a channel from 1 on, a program nor an end.
    pub other: Option<u64>,
    /// Where it isn't a part of its run, if it is one of several and isn't.
    pub part: Option<u64>,
    /// What the records of its channels become, if it is one of several.
    pub records: Vec<RecordMoves>,
}

/// The channels of a file.
#[derive(Drop)]
pub(crate) struct JoinedChannels {
    /// Those of its recordings, with their IDs.
    pub channels: Vec<FileChannel>,
    /// The ID of the channel of time packets.
    pub time_channel: u16,
}

/// The run of each recording.
pub(crate) fn runs_in(
    alloc: Global,
    recordings: &[RecordingSettings],
) -> Result<Vec<usize>, CommandEnding<'static>>
    ensures { IfOk result (λ runs. AreRunsOf (map after_of recordings.now) runs.items) }
{
    let mut afters = Vec::new(alloc);
    'recordings: for place in 0..recordings.len() {
        let after = recordings[place].after;
        if is_from(place, after) {
            return Err(CommandEnding::Setup(SetupFault::Value { key: "after" }));
        }
        afters.push(after)?;
    }
    Ok(runs_of(alloc, &afters)?)
}

/// Whether the recording that one at a place follows doesn't stand before it.
fn is_from(place: usize, after: Option<usize>) -> bool
    ensures { ¬ IsTrue result → (earlier : ℕ) → after ≡ Some earlier → earlier < place }
{
    match after {
        Some(earlier) => earlier >= place,
        None => false,
    }
}

/// Refuses recordings of which one can't be in a file: the first that has a packet of another kind, or that isn't a part
/// of its run, by what stands first in it.
pub(crate) fn refuse_first(all: &[ListedRecording]) -> Result<(), CommandEnding<'static>>
    ensures { MatchResult result
        (λ _. NoneRefused all.now)
        (λ ending. (place : ℕ) × (refusal : ListedRefusal)
        × IsFirstRefusal (map listed_refusal all.now) place refusal
        × (ending ≡ ending_listed refusal place)) }
{
    'recordings: for place in 0..all.len() {
        if let Some(ending) = refusal_of(&all[place], place) {
            return Err(ending);
        }
    }
    Ok(())
}

/// Why the recording at this place can't be in a file, if it can't.
fn refusal_of(listed: &ListedRecording, place: usize) -> Option<CommandEnding<'static>>
    ensures { result ≡ option_map (λ refusal. ending_listed refusal place)
        (listed_refusal listed.now) }
{
    let Some(part) = listed.part else {
        return match listed.other {
            Some(other) => Some(other_at(other, place)),
            None => None,
        };
    };
    match listed.other {
        Some(other) => {
            if other < part {
                Some(other_at(other, place))
            } else {
                Some(part_at(part, place))
            }
        }
        None => Some(part_at(part, place)),
    }
}

/// The refusal of a packet of another kind.
fn other_at(at: u64, place: usize) -> CommandEnding<'static>
    ensures { result ≡ Joined (Other at) place }
{
    CommandEnding::Joined {
        refusal: WholeRefusal::Other { at },
        place,
    }
}

/// The refusal of a recording that isn't a part of its run.
fn part_at(at: u64, place: usize) -> CommandEnding<'static>
    ensures { result ≡ InRun (Part at) place }
{
    CommandEnding::InRun {
        refusal: RunRefusal::Part { at },
        place,
    }
}

/// The channels of a file of these recordings.
pub(crate) fn channels_in(
    alloc: Global,
    all: &[ListedRecording],
) -> Result<JoinedChannels, CommandEnding<'static>>
    ensures numbered { IfOk result
        (λ file. AreNumberedChannels (all_listed_channels all.now) file.channels.items) }
    ensures time { IfOk result
        (λ file. IsLeastFree (is_id_of file.channels.items) file.time_channel) }
    ensures fault { IfErr result (λ ending. (ending ≡ Memory)
        ⊎ ((ending ≡ Joined Full 0) × IsFull (all_listed_channels all.now))) }
{
    let named = named_in(alloc, all)?;
    let named = named_channels(alloc, &named)?;
    let Some(channels) = file_channels(alloc, &named)? else {
        return Err(full());
    };
    let Some(time_channel) = time_channel(&channels) else {
        return Err(full());
    };
    Ok(JoinedChannels {
        channels,
        time_channel,
    })
}

/// What the recordings name.
fn named_in<'l>(alloc: Global, all: &'l [ListedRecording]) -> Result<Vec<NamedIds<'l>>, AllocError>
    ensures { IfOk result
        (λ named. flat_map named_by_recording named.items ≡ all_listed_channels all.entry.now) }
{
    let mut named = Vec::new(alloc);
    'recordings: for listed in all {
        named.push(NamedIds {
            run: listed.run,
            ids: listed.ids.as_slice(),
        })?;
    }
    Ok(named)
}

/// The refusal of a file that has no ID left.
fn full() -> CommandEnding<'static>
    ensures { result ≡ Joined Full 0 }
{
    CommandEnding::Joined {
        refusal: WholeRefusal::Full,
        place: 0,
    }
}
