//! The answers that the control was told, beside the slots' histories.

ghost use Rattle.std.specs.Prelude.{◌≡◌, true, drop, All};
ghost use Rattle.std.specs.Arc.{arc_value};
ghost use Rattle.rec_run.specs.Reports.{history_in};
ghost use Rattle.rec_run.specs.Control.{IsNext, FollowsVersions, AreAnswered, IsOfSome};

use crate::control::change::{Answer, Logged};
use bpf_verify::Verified;
use rec_channel::MAX_VERSIONS;
use std::alloc::Global;
use std::sync::Arc;

/// Whether a channel's versions are its first program and then the changes that were given for it,
/// each answered as the history has it.
pub(crate) fn are_answered(
    channel: u16,
    program: &Arc<Verified, Global>,
    versions: &[Arc<Verified, Global>],
    marks: &[u64],
    log: &[Logged],
) -> bool
    ensures { result ≡ true → AreAnswered channel (arc_value program.now)
        (history_in versions.now marks.now) log.now }
{
    let Some((first, later)) = versions.split_first() else {
        return false;
    };
    let Some((_, later_marks)) = marks.split_first() else {
        return false;
    };
    first.same(program) && follow(channel, later, later_marks, log)
}

/// Whether the changes of a channel are these later versions, in order, and those after them were
/// refused since there is no room.
fn follow(channel: u16, versions: &[Arc<Verified, Global>], marks: &[u64], log: &[Logged]) -> bool
    ensures { result ≡ true
        → FollowsVersions channel 1 (history_in versions.now marks.now) log.now }
{
    let mut versions = versions;
    let mut marks = marks;
    let mut log = log;
    let mut version = 1u64;
    'entries: while let Some((entry, later)) = log.split_first() {
        if entry.told.channel == channel {
            if !is_next(entry, version, versions, marks) {
                return false;
            }
            let Some(next) = version.checked_add(1) else {
                return false;
            };
            version = next;
            versions = rest_of(versions);
            marks = rest_of(marks);
        }
        log = later;
    }
    versions.is_empty() || marks.is_empty()
}

/// Whether a change is the next version of its channel, which has this number; where there is none,
/// whether it was refused since there is no room.
fn is_next(entry: &Logged, version: u64, versions: &[Arc<Verified, Global>], marks: &[u64]) -> bool
    ensures { result ≡ true → IsNext version (history_in versions.now marks.now) entry.now }
{
    let (Some((program, _)), Some((mark, _))) = (versions.split_first(), marks.split_first()) else {
        return entry.told.answer == Answer::VersionsFull && version >= MAX_VERSIONS as u64;
    };
    let Answer::Installed {
        version: told,
        mark: told_mark,
    } = entry.told.answer
    else {
        return false;
    };
    u64::from(told) == version && told_mark == *mark && program.same(&entry.program)
}

/// What follows the first item.
fn rest_of<T>(items: &[T]) -> &[T]
    ensures { result.now ≡ drop 1 items.now }
{
    match items.split_first() {
        None => items,
        Some((_, rest)) => rest,
    }
}

/// Whether each change was for one of these channels, or was told that there is none.
pub(crate) fn are_of_some(channels: &[u16], log: &[Logged]) -> bool
    ensures { result ≡ true → All (IsOfSome channels.now) log.now }
{
    'entries: for entry in log {
        if entry.told.answer != Answer::NoChannel && !channels.contains(&entry.told.channel) {
            return false;
        }
    }
    true
}
