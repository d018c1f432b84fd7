//! The words of each run, but for those on texts. The runs are in tables of some sixty, since a check
//! of a function takes time and memory for each row of a table that it names.

/// The view of an ARP frame, a broadcast.
pub(crate) const ARP: &str = "ffffffffffff0200000000010806";
/// The view of an IPv4 frame whose header has 20 bytes.
pub(crate) const IPV4: &str = "ffffffffffff020000000001080045";

/// Runs on programs and texts.
pub(crate) static PROGRAMS: [&[&str]; 61] = [
    // programs that may be installed, and what they return
    &["verify", "arp"],
    &["verify", "arp_lines"],
    &["run", "arp", ARP],
    &["run", "arp", "ffffffffffff0200000000010800"],
    &["run", "arp", "FFFFFFFFFFFF0200000000010806"],
    &["run", "load_outside", ARP],
    &["run", "load_outside", ""],
    &["run", "index_past_word", ARP],
    &["run", "division_by_x", ""],
    &["run", "shift_by_32", ""],
    &["run", "shift_by_31", ""],
    &["run", "below_zero", ""],
    &["run", "header_length", IPV4],
    &["run", "view_length", ARP],
    &["verify", "scratch"],
    &["run", "scratch", ""],
    &["verify", "dead_scratch"],
    &["run", "dead_scratch", ""],
    &["verify", "jump_over"],
    &["verify", "unused_field"],
    &["verify", "returns_4096"],
    &["run", "line_4096", ""],
    // programs that are refused
    &["verify", "no_instruction"],
    &["verify", "returns_4097"],
    &["verify", "return_of_x"],
    &["verify", "scratch_16"],
    &["verify", "division_by_zero"],
    &["verify", "division_never_reached"],
    &["verify", "jump_out"],
    &["verify", "no_return"],
    &["verify", "unset_scratch"],
    &["run", "unset_scratch", ARP],
    &["run", "no_return", ARP],
    // the faults of run in their order: the file, the listing, the program, the view
    &["run", "nowhere", "f"],
    &["run", "wrong_count", "f"],
    &["run", "no_return", "f"],
    &["run", "arp", "f"],
    &["run", "arp", "0g"],
    &["run", "arp", "00 00"],
    // listings that aren't read
    &["verify", "empty"],
    &["verify", "wrong_count"],
    &["verify", "wide_constant"],
    // texts that are no program
    &["asm", "texts/backward.bpf"],
    &["asm", "texts/jump_over_256.bpf"],
    &["asm", "texts/extension.bpf"],
    &["asm", "texts/no_octal_digit.bpf"],
    &["asm", "texts/label_twice.bpf"],
    &["asm", "texts/label_missing.bpf"],
    &["asm", "texts/label_at_the_end.bpf"],
    &["asm", "texts/open_comment.bpf"],
    &["asm", "texts/unknown_mnemonic.bpf"],
    &["asm", "texts/returns_4097.bpf"],
    &["asm", "empty"],
    // programs as texts
    &["dis", "arp"],
    &["dis", "no_instruction"],
    &["dis", "unused_field"],
    &["verify", "unused_constant"],
    &["dis", "unused_constant"],
    &["dis", "return_of_x"],
    &["dis", "jump_out"],
    &["dis", "wrong_count"],
];

/// Runs on recordings without data checksums.
pub(crate) static RECORDINGS: [&[&str]; 23] = [
    // recordings, whole, cut and damaged
    &["list", "recordings/two_versions.ch11"],
    &["list", "recordings/frames.ch11"],
    &["list", "recordings/secondary_header.ch11"],
    &["list", "recordings/setup.ch11"],
    &["list", "recordings/passed.ch11"],
    &["list", "empty"],
    &["list", "recordings/cut_to_200.ch11"],
    &["list", "recordings/cut_to_210.ch11"],
    &["list", "recordings/bad_sync.ch11"],
    &["list", "recordings/bad_checksum.ch11"],
    &["list", "recordings/bad_length.ch11"],
    &["list", "recordings/bad_body.ch11"],
    &["list", "arp"],
    // recordings that are judged, or can't be
    &["audit", "recordings/two_versions.ch11"],
    &["audit", "recordings/frames.ch11"],
    &["audit", "recordings/secondary_header.ch11"],
    &["audit", "recordings/setup.ch11"],
    &["audit", "recordings/passed.ch11"],
    &["audit", "empty"],
    &["audit", "recordings/cut_to_210.ch11"],
    &["audit", "recordings/bad_checksum.ch11"],
    &["audit", "recordings/bad_body.ch11"],
    &["audit", "nowhere"],
];

/// Files that can't be read, words that are no command, and the version.
pub(crate) static REFUSED: [&[&str]; 43] = [
    // files that can't be read, or are no text
    &["verify", "nowhere"],
    &["verify", "."],
    &["verify", "not_utf8"],
    &["verify", ""],
    &["verify", "-"],
    &["asm", "nowhere"],
    &["asm", "not_utf8"],
    &["dis", "nowhere"],
    &["list", "nowhere"],
    &["list", "."],
    &["extract", "recordings/two_versions.ch11", "1", "/dev/full"],
    &["upgrade", "recordings/two_versions.ch11", "/dev/full"],
    &["upgrade", "recordings/two_versions.ch11", "/dev/null"],
    &["export", "recordings/two_versions.ch11", "/dev/full"],
    &["export", "recordings/two_versions.ch11", "/dev/null"],
    // words that are no command
    &["verify"],
    &["verify", "arp", "arp"],
    &["run", "arp"],
    &["run"],
    &["asm"],
    &["dis", "arp", "arp"],
    &["list"],
    &["list", "arp", "arp"],
    &["audit"],
    &["extract", "recordings/two_versions.ch11", "1"],
    &["extract"],
    &["upgrade", "recordings/two_versions.ch11"],
    &["upgrade"],
    &["export", "recordings/two_versions.ch11", "out", "0", "0"],
    &["chapter11", "recordings/frames.ch11", "setups/right.toml"],
    &["chapter11"],
    &["simulate"],
    &["simulate", "nowhere"],
    &["simulate", "not_utf8"],
    &["assemble", "arp"],
    &["--quiet"],
    &["verify", "--", "--arp"],
    // the version
    &["--version"],
    &["-V"],
    &["version"],
    &["version", "now"],
    &["verify", "--version"],
    &["versions"],
];

/// The words of each run on recordings with data checksums: right, wrong in a packet, cut inside the
/// packet whose checksum is wrong, a filter that accepts nothing, and packets with and without one.
pub(crate) static CHECKED: [&[&str]; 9] = [
    &["list", "recordings/two_versions_checked.ch11"],
    &["audit", "recordings/two_versions_checked.ch11"],
    &["list", "recordings/bad_sum.ch11"],
    &["audit", "recordings/bad_sum.ch11"],
    &["list", "recordings/bad_sum_cut.ch11"],
    &["audit", "recordings/bad_sum_cut.ch11"],
    &["audit", "recordings/rejecting_checked.ch11"],
    &["list", "recordings/both_profiles.ch11"],
    &["audit", "recordings/both_profiles.ch11"],
];

/// Words that ask for help.
pub(crate) static HELP: [&[&str]; 16] = [
    &["--help"],
    &["-h"],
    &["help"],
    &["verify", "--help"],
    &["help", "run"],
    &["asm", "--help"],
    &["help", "dis"],
    &["list", "--help"],
    &["audit", "--help"],
    &["extract", "--help"],
    &["help", "extract"],
    &["upgrade", "--help"],
    &["export", "--help"],
    &["chapter11", "--help"],
    &["simulate", "--help"],
    &["version", "--help"],
];
