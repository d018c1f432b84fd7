//! The feeds that are extracted from recordings.

/// A channel's frames to extract from a recording.
pub(crate) struct ExtractCase {
    /// The recording's file.
    pub(crate) recording: &'static str,
    pub(crate) channel: &'static str,
    /// The feed's file, a name of its own for each case, so that it is seen whether it was created.
    pub(crate) feed: &'static str,
}

/// Recordings with their channels; recordings that aren't read to their end, for which no feed is
/// created, nor tried to be; words that are no channel; and feeds that can't be created.
pub(crate) static EXTRACTS: [ExtractCase; 24] = [
    ExtractCase {
        recording: "recordings/two_versions.ch11",
        channel: "1",
        feed: "feed_1",
    },
    ExtractCase {
        recording: "recordings/two_versions.ch11",
        channel: "01",
        feed: "feed_01",
    },
    ExtractCase {
        recording: "recordings/two_versions.ch11",
        channel: "2",
        feed: "feed_2",
    },
    ExtractCase {
        recording: "recordings/two_versions.ch11",
        channel: "65535",
        feed: "feed_65535",
    },
    ExtractCase {
        recording: "recordings/passed.ch11",
        channel: "7",
        feed: "feed_7",
    },
    ExtractCase {
        recording: "recordings/secondary_header.ch11",
        channel: "1",
        feed: "feed_secondary",
    },
    ExtractCase {
        recording: "recordings/two_versions_checked.ch11",
        channel: "1",
        feed: "feed_checked",
    },
    ExtractCase {
        recording: "recordings/both_profiles.ch11",
        channel: "1",
        feed: "feed_both",
    },
    ExtractCase {
        recording: "empty",
        channel: "0",
        feed: "feed_0",
    },
    // recordings that aren't read to their end: no feed is created
    ExtractCase {
        recording: "recordings/cut_to_210.ch11",
        channel: "1",
        feed: "feed_cut",
    },
    ExtractCase {
        recording: "recordings/bad_checksum.ch11",
        channel: "1",
        feed: "feed_bad",
    },
    ExtractCase {
        recording: "recordings/bad_sum.ch11",
        channel: "1",
        feed: "feed_sum",
    },
    ExtractCase {
        recording: "recordings/cut_to_210.ch11",
        channel: "1",
        feed: "arp/feed",
    },
    ExtractCase {
        recording: "nowhere",
        channel: "1",
        feed: "feed_nowhere",
    },
    // words that are no channel
    ExtractCase {
        recording: "recordings/two_versions.ch11",
        channel: "65536",
        feed: "feed_65536",
    },
    ExtractCase {
        recording: "nowhere",
        channel: "+1",
        feed: "feed_plus",
    },
    ExtractCase {
        recording: "recordings/two_versions.ch11",
        channel: "0x1",
        feed: "feed_0x1",
    },
    ExtractCase {
        recording: "recordings/two_versions.ch11",
        channel: "",
        feed: "feed_none",
    },
    // feeds that can't be created
    ExtractCase {
        recording: "recordings/two_versions.ch11",
        channel: "1",
        feed: "nowhere/feed",
    },
    ExtractCase {
        recording: "recordings/two_versions.ch11",
        channel: "1",
        feed: "arp/feed",
    },
    ExtractCase {
        recording: "recordings/two_versions.ch11",
        channel: "1",
        feed: "",
    },
    // the recording itself, which keeps its bytes
    ExtractCase {
        recording: "recordings/two_versions.ch11",
        channel: "1",
        feed: "recordings/two_versions.ch11",
    },
    ExtractCase {
        recording: "recordings/two_versions.ch11",
        channel: "1",
        feed: "./recordings/two_versions.ch11",
    },
    // also a damaged one, which is refused before it is read
    ExtractCase {
        recording: "recordings/cut_to_210.ch11",
        channel: "1",
        feed: "recordings/cut_to_210.ch11",
    },
];
