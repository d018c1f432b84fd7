//! The pcapng files that recordings are exported into.

/// A recording to export.
pub(crate) struct ExportCase {
    /// The recording's file.
    pub(crate) recording: &'static str,
    /// The file that is written, a name of its own for each case, so that it is seen whether it was
    /// created.
    pub(crate) out: &'static str,
    /// The origin of times, if one is given.
    pub(crate) origin: Option<&'static str>,
}

/// Recordings; recordings that aren't read to their end, of which the front is exported; words that
/// are no origin; and files that can't be created, or are the recording.
pub(crate) static EXPORTS: [ExportCase; 19] = [
    ExportCase {
        recording: "recordings/two_versions.ch11",
        out: "exported_two_versions",
        origin: None,
    },
    ExportCase {
        recording: "recordings/two_versions_checked.ch11",
        out: "exported_checked",
        origin: None,
    },
    ExportCase {
        recording: "recordings/both_profiles.ch11",
        out: "exported_both",
        origin: None,
    },
    ExportCase {
        recording: "recordings/passed.ch11",
        out: "exported_passed",
        origin: None,
    },
    ExportCase {
        recording: "recordings/frames.ch11",
        out: "exported_frames",
        origin: None,
    },
    ExportCase {
        recording: "recordings/setup.ch11",
        out: "exported_setup",
        origin: None,
    },
    ExportCase {
        recording: "empty",
        out: "exported_empty",
        origin: None,
    },
    ExportCase {
        recording: "recordings/frames.ch11",
        out: "exported_shifted",
        origin: Some("1764590400"),
    },
    ExportCase {
        recording: "recordings/frames.ch11",
        out: "exported_far",
        origin: Some("9223372036854775807"),
    },
    // recordings that aren't read to their end
    ExportCase {
        recording: "recordings/cut_to_210.ch11",
        out: "exported_cut",
        origin: None,
    },
    ExportCase {
        recording: "recordings/bad_checksum.ch11",
        out: "exported_bad",
        origin: None,
    },
    ExportCase {
        recording: "nowhere",
        out: "exported_nowhere",
        origin: None,
    },
    // words that are no origin
    ExportCase {
        recording: "recordings/frames.ch11",
        out: "exported_words",
        origin: Some("1.5"),
    },
    ExportCase {
        recording: "nowhere",
        out: "exported_words",
        origin: Some("+1"),
    },
    ExportCase {
        recording: "recordings/frames.ch11",
        out: "exported_words",
        origin: Some("9223372036854775808"),
    },
    // files that can't be created
    ExportCase {
        recording: "recordings/frames.ch11",
        out: "nowhere/exported",
        origin: None,
    },
    ExportCase {
        recording: "recordings/cut_to_210.ch11",
        out: "arp/exported",
        origin: None,
    },
    // the recording itself, which keeps its bytes
    ExportCase {
        recording: "recordings/two_versions.ch11",
        out: "recordings/two_versions.ch11",
        origin: None,
    },
    ExportCase {
        recording: "recordings/cut_to_210.ch11",
        out: "./recordings/cut_to_210.ch11",
        origin: None,
    },
];
