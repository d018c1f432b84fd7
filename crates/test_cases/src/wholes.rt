//! The whole Chapter 11 files of recordings.

/// A recording of which a whole file is made.
pub(crate) struct WholeCase {
    /// The recording's file.
    pub(crate) recording: &'static str,
    /// What is said beside it.
    pub(crate) setup: &'static str,
    /// The file that is written, a name of its own for each case, so that it is seen whether it was
    /// created.
    pub(crate) out: &'static str,
}

/// Recordings of both profiles, with one origin and with names; recordings that have no whole file, or
/// aren't read to their end; faults of what is said, of files and of words, and which of them goes first.
pub(crate) static WHOLES: [WholeCase; 22] = [
    WholeCase {
        recording: "recordings/two_versions_checked.ch11",
        setup: "setups/right.toml",
        out: "whole_checked",
    },
    WholeCase {
        recording: "recordings/two_versions.ch11",
        setup: "setups/right.toml",
        out: "whole_two",
    },
    WholeCase {
        recording: "recordings/both_profiles.ch11",
        setup: "setups/names.toml",
        out: "whole_names",
    },
    WholeCase {
        recording: "recordings/passed.ch11",
        setup: "setups/right.toml",
        out: "whole_passed",
    },
    WholeCase {
        recording: "empty",
        setup: "setups/right.toml",
        out: "whole_empty",
    },
    WholeCase {
        recording: "recordings/setup.ch11",
        setup: "setups/right.toml",
        out: "whole_setup",
    },
    WholeCase {
        recording: "recordings/frames.ch11",
        setup: "setups/late.toml",
        out: "whole_late",
    },
    WholeCase {
        recording: "recordings/frames.ch11",
        setup: "setups/syntax.toml",
        out: "whole_syntax",
    },
    WholeCase {
        recording: "recordings/frames.ch11",
        setup: "setups/unknown.toml",
        out: "whole_unknown",
    },
    WholeCase {
        recording: "recordings/frames.ch11",
        setup: "setups/missing.toml",
        out: "whole_missing",
    },
    WholeCase {
        recording: "recordings/frames.ch11",
        setup: "setups/value.toml",
        out: "whole_value",
    },
    WholeCase {
        recording: "recordings/cut_to_210.ch11",
        setup: "setups/right.toml",
        out: "whole_cut",
    },
    WholeCase {
        recording: "recordings/cut_to_210.ch11",
        setup: "setups/value.toml",
        out: "whole_cut_value",
    },
    WholeCase {
        recording: "recordings/setup.ch11",
        setup: "setups/late.toml",
        out: "whole_setup_late",
    },
    WholeCase {
        recording: "nowhere",
        setup: "setups/right.toml",
        out: "whole_nowhere",
    },
    WholeCase {
        recording: "recordings",
        setup: "setups/right.toml",
        out: "whole_folder",
    },
    WholeCase {
        recording: "recordings/frames.ch11",
        setup: "nowhere",
        out: "whole_no_setup",
    },
    WholeCase {
        recording: "recordings/frames.ch11",
        setup: "not_utf8",
        out: "whole_not_utf8",
    },
    WholeCase {
        recording: "-",
        setup: "setups/right.toml",
        out: "whole_stream",
    },
    WholeCase {
        recording: "recordings/frames.ch11",
        setup: "setups/right.toml",
        out: "recordings/frames.ch11",
    },
    WholeCase {
        recording: "recordings/frames.ch11",
        setup: "setups/value.toml",
        out: "setups/value.toml",
    },
    WholeCase {
        recording: "recordings/frames.ch11",
        setup: "setups/right.toml",
        out: "arp/whole",
    },
];

/// Words of one recording of which SETUP has a table, and of several: what they are refused for, and which fault goes
/// first. OUT isn't created.
pub(crate) static JOINED: [&[&str]; 17] = [
    // one recording, of which SETUP has a table
    &[
        "chapter11",
        "recordings/passed.ch11",
        "setups/tabled.toml",
        "joined",
    ],
    &[
        "chapter11",
        "recordings/frames.ch11",
        "setups/tabled_late.toml",
        "joined",
    ],
    &[
        "chapter11",
        "recordings/cut_to_210.ch11",
        "setups/tabled.toml",
        "joined",
    ],
    // files, and what SETUP says
    &[
        "chapter11",
        "recordings/frames.ch11",
        "nowhere",
        "setups/value.toml",
        "joined",
    ],
    &[
        "chapter11",
        "recordings/frames.ch11",
        "recordings",
        "setups/value.toml",
        "joined",
    ],
    &[
        "chapter11",
        "recordings/frames.ch11",
        "-",
        "setups/two.toml",
        "joined",
    ],
    &[
        "chapter11",
        "recordings/frames.ch11",
        "recordings/passed.ch11",
        "nowhere",
        "joined",
    ],
    &[
        "chapter11",
        "recordings/frames.ch11",
        "recordings/passed.ch11",
        "nowhere",
        "recordings/passed.ch11",
    ],
    &[
        "chapter11",
        "recordings/frames.ch11",
        "recordings/passed.ch11",
        "setups/two.toml",
        "setups/two.toml",
    ],
    &[
        "chapter11",
        "recordings/frames.ch11",
        "recordings/passed.ch11",
        "setups/right.toml",
        "joined",
    ],
    &[
        "chapter11",
        "recordings/frames.ch11",
        "recordings/frames.ch11",
        "recordings/cut_to_210.ch11",
        "setups/two.toml",
        "joined",
    ],
    &[
        "chapter11",
        "recordings/cut_to_210.ch11",
        "recordings/frames.ch11",
        "setups/two_follow.toml",
        "joined",
    ],
    // recordings: a fault of reading goes first, and then the first packet of another kind
    &[
        "chapter11",
        "recordings/setup.ch11",
        "recordings/cut_to_210.ch11",
        "setups/two.toml",
        "joined",
    ],
    &[
        "chapter11",
        "recordings/cut_to_210.ch11",
        "recordings/cut_to_210.ch11",
        "setups/two.toml",
        "joined",
    ],
    &[
        "chapter11",
        "recordings/passed.ch11",
        "recordings/setup.ch11",
        "setups/two.toml",
        "joined",
    ],
    &[
        "chapter11",
        "recordings/frames.ch11",
        "recordings/setup.ch11",
        "setups/two.toml",
        "joined",
    ],
    // an option among them
    &[
        "chapter11",
        "recordings/frames.ch11",
        "recordings/frames.ch11",
        "setups/two.toml",
        "joined",
        "--quiet",
    ],
];
