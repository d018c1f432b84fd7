//! The recordings that are brought up to date.

/// A recording to upgrade.
pub(crate) struct UpgradeCase {
    /// The recording's file.
    pub(crate) recording: &'static str,
    /// The upgrade's file, a name of its own for each case, so that it is seen whether it was created.
    pub(crate) out: &'static str,
}

/// Recordings without data checksums, with them and with some; packets of other kinds; recordings that
/// aren't read to their end, for which no file is created, nor tried to be; and files that can't be
/// created.
pub(crate) static UPGRADES: [UpgradeCase; 19] = [
    UpgradeCase {
        recording: "recordings/two_versions.ch11",
        out: "new_two_versions",
    },
    UpgradeCase {
        recording: "recordings/two_versions_checked.ch11",
        out: "new_checked",
    },
    UpgradeCase {
        recording: "recordings/both_profiles.ch11",
        out: "new_both",
    },
    UpgradeCase {
        recording: "recordings/passed.ch11",
        out: "new_passed",
    },
    UpgradeCase {
        recording: "recordings/frames.ch11",
        out: "new_frames",
    },
    UpgradeCase {
        recording: "recordings/secondary_header.ch11",
        out: "new_secondary",
    },
    UpgradeCase {
        recording: "recordings/setup.ch11",
        out: "new_setup",
    },
    UpgradeCase {
        recording: "empty",
        out: "new_empty",
    },
    // recordings that aren't read to their end: no file is created
    UpgradeCase {
        recording: "recordings/cut_to_210.ch11",
        out: "new_cut",
    },
    UpgradeCase {
        recording: "recordings/bad_checksum.ch11",
        out: "new_bad",
    },
    UpgradeCase {
        recording: "recordings/bad_sum.ch11",
        out: "new_bad_sum",
    },
    UpgradeCase {
        recording: "recordings/cut_to_210.ch11",
        out: "arp/new",
    },
    UpgradeCase {
        recording: "nowhere",
        out: "new_nowhere",
    },
    // files that can't be created
    UpgradeCase {
        recording: "recordings/two_versions.ch11",
        out: "nowhere/new",
    },
    UpgradeCase {
        recording: "recordings/two_versions.ch11",
        out: "arp/new",
    },
    UpgradeCase {
        recording: "recordings/two_versions.ch11",
        out: "",
    },
    // the recording itself, which keeps its bytes
    UpgradeCase {
        recording: "recordings/two_versions.ch11",
        out: "recordings/two_versions.ch11",
    },
    UpgradeCase {
        recording: "recordings/two_versions.ch11",
        out: "./recordings/two_versions.ch11",
    },
    // also a damaged one, which is refused before it is read
    UpgradeCase {
        recording: "recordings/cut_to_210.ch11",
        out: "recordings/cut_to_210.ch11",
    },
];
