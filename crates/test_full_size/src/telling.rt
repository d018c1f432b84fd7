//! What is told of a recording, beside what was fed, and what is printed.

use crate::channel::{Channel, Channels};
use crate::feed::Feed;
use crate::making::Made;
use eth_frame::FeedSource;
use rec_run::{Answer, ChannelReport, Ending, Told};

/// Prints a number between two texts: whether there is one, and it went out.
pub(crate) fn tell(rt: HostRuntime, before: &str, number: Option<u64>, behind: &str) -> bool {
    match number {
        Some(number) => print!(rt; "{before}{number}{behind}").is_ok(),
        None => false,
    }
}

/// How many channels were recorded: `None` unless the report and the control's answers say what they
/// were fed.
pub(crate) fn count_told(channels: Channels, made: &Made) -> Option<u64> {
    let reports = made.report.channels.as_slice();
    let is_told = made.report.bytes == made.out.len() as u64
        && are_reported(channels, reports)
        && are_answered(Channel::at(channels.first), made.control.log.told());
    if is_told {
        Some(reports.len() as u64)
    } else {
        None
    }
}

/// Whether the reports are those of the channels, and say what each was fed.
fn are_reported(channels: Channels, reports: &[ChannelReport<FeedSource<Feed>>]) -> bool {
    let mut index = channels.first;
    for report in reports {
        if !is_reported(Channel::at(index), report) {
            return false;
        }
        index = index.saturating_add(1);
    }
    index == channels.end
}

/// Whether the report of a channel says what it was fed.
fn is_reported(channel: Channel, report: &ChannelReport<FeedSource<Feed>>) -> bool {
    report.channel == channel.id
        && report.offered == u64::from(channel.frames())
        && report.kept == channel.kept()
        && report.ending == Ending::SourceEnd
        && report.versions.len() == channel.versions() as usize
        && are_numbers(report.marks.as_slice(), channel.versions())
}

/// Whether each version's mark is its number.
fn are_numbers(marks: &[u64], versions: u32) -> bool {
    let mut number = 0u64;
    for mark in marks {
        if *mark != number {
            return false;
        }
        number = number.saturating_add(1);
    }
    number == u64::from(versions)
}

/// Whether each change became the next version, from the frame of the same number on.
fn are_answered(channel: Channel, answers: &[Told]) -> bool {
    let mut version = 1u32;
    for told in answers {
        if !is_installed(channel, version, told) {
            return false;
        }
        version = version.saturating_add(1);
    }
    version == channel.versions()
}

/// Whether the version came into force at the frame of its number.
fn is_installed(channel: Channel, version: u32, told: &Told) -> bool {
    let mark = u64::from(version);
    told.channel == channel.id && told.answer == Answer::Installed { version, mark }
}
