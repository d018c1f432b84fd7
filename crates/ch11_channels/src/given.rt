//! The channels of a file, with their IDs.

ghost use Rattle.std.specs.Prelude.{◌≡◌, ◌^◌, true, List, length, option_map, IfOk, MatchOption};
ghost use Rattle.std.specs.List.{find, list_any};
ghost use Rattle.ch11_channels.specs.FreeIds.{AreAllTaken, IsLeastFree};
ghost use Rattle.ch11_channels.specs.GivenIds.{AreNumberedChannels, AreTakenIds, given_id, HasId, NoIdIsFree, is_id_of, is_owned_by, is_taken_id, was_own};

use crate::channels::{FileChannel, RunChannel};
use crate::taken::{free_id, taken_ids};
use std::alloc::{AllocError, Global};

/// The channels of a file, each once, of the channels that its recordings name, in their order. `None` where one
/// of them has to have another ID and none is free.
pub fn file_channels(
    alloc: Global,
    named: &[RunChannel],
) -> Result<Option<Vec<FileChannel>>, AllocError>
    ensures { IfOk result (λ channels. MatchOption channels (NoIdIsFree named.now)
        (λ channels. AreNumberedChannels named.now channels.items)) }
{
    let mut taken = taken_ids(alloc, named)?;
    let mut channels = Vec::new(alloc);
    'named: for of in named {
        if !is_among(&channels, *of) {
            let Some(id) = next_id(&taken, &channels, *of) else {
                return Ok(None);
            };
            taken[usize::from(id)] = true;
            channels.push(FileChannel { of: *of, id })?;
        }
    }
    Ok(Some(channels))
}

/// The ID of a channel behind these: its own, if none of them has the same in its recordings; else the least
/// that isn't taken.
fn next_id(taken: &[bool], channels: &[FileChannel], of: RunChannel) -> Option<u16>
    requires { length taken.now ≡ 2 ^ 16 }
    ensures { (named : List RunChannel) → AreTakenIds taken.now named channels.now
        → MatchOption result
        ((list_any (was_own of.channel) channels.now ≡ true)
        × AreAllTaken (is_taken_id named channels.now))
        (λ id. HasId named channels.now (record { of = of; id = id })) }
{
    if is_own(channels, of.channel) {
        free_id(taken)
    } else {
        Some(of.channel)
    }
}

/// The channel ID of time packets: the least from 1 on that no channel of a file has.
pub fn time_channel(channels: &[FileChannel]) -> Option<u16>
    ensures { MatchOption result (AreAllTaken (is_id_of channels.now))
        (IsLeastFree (is_id_of channels.now)) }
{
    'ids: for id in 1..=u16::MAX {
        if !is_id(channels, id) {
            return Some(id);
        }
    }
    None
}

/// Whether one of the channels of a file has this ID.
fn is_id(channels: &[FileChannel], id: u16) -> bool
    ensures { result ≡ is_id_of channels.now id }
{
    'channels: for channel in channels {
        if channel.id == id {
            return true;
        }
    }
    false
}

/// Whether one of the channels of a file is this one.
fn is_among(channels: &[FileChannel], of: RunChannel) -> bool
    ensures { result ≡ list_any (is_owned_by of) channels.now }
{
    'channels: for channel in channels {
        if is_owned_by(channel, of) {
            return true;
        }
    }
    false
}

/// Whether one of them has this ID in its recordings.
fn is_own(channels: &[FileChannel], id: u16) -> bool
    ensures { result ≡ list_any (was_own id) channels.now }
{
    'channels: for channel in channels {
        if channel.of.channel == id {
            return true;
        }
    }
    false
}

/// The ID in a file of a channel of a run, if the file has it.
pub fn id_in_file(channels: &[FileChannel], of: RunChannel) -> Option<u16>
    ensures { result ≡ option_map given_id (find (is_owned_by of) channels.now) }
{
    'channels: for channel in channels {
        if is_owned_by(channel, of) {
            return Some(channel.id);
        }
    }
    None
}

/// Whether a channel of a file has the frames of this one.
fn is_owned_by(channel: &FileChannel, of: RunChannel) -> bool
    ensures { result ≡ is_owned_by of channel.now }
{
    channel.of.run == of.run && channel.of.channel == of.channel
}
