//! What an ending means and what to do, in a line for who reads it on a terminal.

use crate::ending::CommandEnding;
use crate::run_refusal::RunRefusal;
use bpf_asm::AsmFault;
use bpf_dis::DisFault;
use bpf_insn::ListingFault;
use rec_reader::{AuditFault, ReadEnd, ReadFaultKind};
use rec_stream::StreamRefusal;
use rec_whole::WholeRefusal;
use rec_words::{SettingsFault, SetupFault};

/// What out of memory means.
const NO_MEMORY: &str = "there was no memory for it: nothing is wrong with the input";

impl<'a> CommandEnding<'a> {
    /// What the ending means, and what to do; `None` where its text says that.
    pub(crate) fn hint(&self) -> Option<&'static str> {
        match self {
            CommandEnding::Reading(end) | CommandEnding::JoinedReading { end, .. } => Some(
                hint_of_read_end(*end),
            ),
            CommandEnding::Audit(fault) => Some(hint_of_audit(*fault)),
            CommandEnding::Whole(refusal) | CommandEnding::Joined { refusal, .. } => Some(
                hint_of_whole(*refusal),
            ),
            CommandEnding::InRun { refusal, .. } => Some(hint_of_run(*refusal)),
            CommandEnding::Stream(refusal) => Some(hint_of_stream(*refusal)),
            CommandEnding::File(path) => Some(hint_of_file(path)),
            CommandEnding::NamedFile(path) => Some(hint_of_file(path.as_str())),
            CommandEnding::Refused(_) => Some(
                "no filter like this may run: the number is that of the instruction which breaks a rule of bpf(4)",
            ),
            CommandEnding::Assembler(fault) => Some(hint_of_text(*fault)),
            CommandEnding::Disassembler(fault) => Some(hint_of_program(*fault)),
            CommandEnding::Listing(fault) => Some(hint_of_listing(*fault)),
            CommandEnding::Settings(fault) => Some(hint_of_settings(fault)),
            CommandEnding::Setup(fault) => Some(hint_of_setup(fault)),
            CommandEnding::Script(_) => Some(
                "that line is no order of a script, comes out of its order, or has a value out of its range",
            ),
            CommandEnding::View(_) => Some("the bytes of a frame are two hexadecimal digits each"),
            CommandEnding::Memory => Some(NO_MEMORY),
            _ => None,
        }
    }
}

/// What it means that a file can't be opened, read or written, where an expression may have been meant.
fn hint_of_file(path: &str) -> &'static str {
    if path.as_bytes().contains(&b' ') {
        "it can't be opened or written: look at its name and its disk; a filter in words is for bpfrec filter and live"
    } else {
        "it can't be opened, read or written: look at its name, its permissions and the room on its disk"
    }
}

/// What it means that a recording isn't read beyond this place.
fn hint_of_read_end(end: ReadEnd) -> &'static str {
    match end.kind {
        ReadFaultKind::Sync if end.at == 0 =>
            "no recording begins so: bpfrec filter reads captures (.pcap, .pcapng), bpfrec asm texts of filters",
        kind => hint_of_reading(kind),
    }
}

/// What it means that a recording isn't read to its end for this reason.
fn hint_of_reading(kind: ReadFaultKind) -> &'static str {
    match kind {
        ReadFaultKind::Truncated =>
            "the recording ends inside of the packet there: bpfrec salvage keeps the packets before it",
        ReadFaultKind::Sync
        | ReadFaultKind::Checksum
        | ReadFaultKind::Length
        | ReadFaultKind::DataChecksum
        | ReadFaultKind::Body =>
            "the packet there is damaged: bpfrec salvage keeps the packets before and behind it",
        ReadFaultKind::Device => "the input failed there",
        ReadFaultKind::Memory => "there was no memory for the packet there",
    }
}

/// What it means that the audit says no for this reason.
fn hint_of_audit(fault: AuditFault) -> &'static str {
    match fault {
        AuditFault::NoProgram { .. } =>
            "that packet has frames ahead of each filter of its channel: packets are missing",
        AuditFault::BadProgram { .. } => "that packet has a filter that no recorder takes",
        AuditFault::NotAccepted { .. } =>
            "the filter before it doesn't accept that frame: the packet of a later filter is missing, or frames were added",
        AuditFault::Order { .. } =>
            "that packet comes after its channel's end, or its filter before an earlier one",
        AuditFault::NoEnd { .. } =>
            "the recording of that channel has no end, as after a kill: its packets so far are as they should be",
        AuditFault::Counts { .. } =>
            "that channel's end counts other frames than there are: frames are missing, or were added",
        AuditFault::Memory => "there was no memory for the audit",
    }
}

/// What it means that a recording can't be a whole file for this reason.
fn hint_of_whole(refusal: WholeRefusal) -> &'static str {
    match refusal {
        WholeRefusal::Other { .. } =>
            "the packet there has neither frames, a filter nor an end: a whole file has no place for it",
        WholeRefusal::Disorder { .. } =>
            "the counter of the packet there is over a second less than one before it",
        WholeRefusal::Gap { .. } =>
            "the counter of the packet there is over seven days greater than all before it: look at the origins in SETUP",
        WholeRefusal::Origin =>
            "no time packet can come before its frames: look at the origins in SETUP",
        WholeRefusal::Year =>
            "a time is outside of the years 1 to 3999: look at the origins in SETUP",
        WholeRefusal::Full => "all channel IDs are in use, and none is left for the time",
    }
}

/// What it means that a recording can't be in the file of its run for this reason.
fn hint_of_run(refusal: RunRefusal) -> &'static str {
    match refusal {
        RunRefusal::Part { .. } =>
            "the audit says no of that recording there: give it a file of its own, or leave `after` out",
        RunRefusal::Sum { .. } => "the run has more versions or frames than a record can count",
    }
}

/// What it means that a recording goes out no further as a stream for this reason.
fn hint_of_stream(refusal: StreamRefusal) -> &'static str {
    match refusal {
        StreamRefusal::Other { .. } =>
            "the packet there is of a channel that SETUP doesn't name, or has no place in a stream",
        StreamRefusal::Origin =>
            "no time packet can come before its frames: look at the origins in SETUP",
        StreamRefusal::Year =>
            "a time is outside of the years 1 to 3999: look at the origins in SETUP",
        StreamRefusal::Full => "all channel IDs are in use, and none is left for the time",
    }
}

/// What it means that a text has no program for this reason.
fn hint_of_text(fault: AsmFault) -> &'static str {
    match fault {
        AsmFault::Syntax { .. } =>
            "that line is no instruction; a listing, as tcpdump -ddd prints it, is for bpfrec verify",
        AsmFault::Number { .. } => "a number in that line is spelled wrong, or over 4294967295",
        AsmFault::UnknownMnemonic { .. } =>
            "that line begins as no instruction; a filter in words, as udp port 53, is for bpfrec filter",
        AsmFault::OperandNotAllowed { .. } => "the instruction in that line takes no such operand",
        AsmFault::LabelMissing { .. } => "the jump in that line names a label that no line has",
        AsmFault::LabelTwice { .. } => "a label of that line is that of an earlier line too",
        AsmFault::Backward { .. } =>
            "the jump in that line goes back or to itself: filters go forward alone",
        AsmFault::TooFar { .. } =>
            "the test in that line leads over more than 255 instructions: let it lead to a ja",
        AsmFault::TooLong => "a filter has 4096 instructions at most",
        AsmFault::Memory => NO_MEMORY,
    }
}

/// What it means that a program has no text for this reason.
fn hint_of_program(fault: DisFault) -> &'static str {
    match fault {
        DisFault::NoForm(_) =>
            "the instruction of that number is none of bpf(4), or has a number where it takes none",
        DisFault::JumpOut(_) => "the instruction of that number jumps out of the filter",
        DisFault::Memory => NO_MEMORY,
    }
}

/// What it means that a text lists no program for this reason.
fn hint_of_listing(fault: ListingFault) -> &'static str {
    match fault {
        ListingFault::Syntax { .. } =>
            "a listing is a count, and four numbers for each instruction: bpfrec asm makes it of a text",
        ListingFault::Count { .. } =>
            "the first number says how many instructions follow, and others do",
        ListingFault::Range { .. } => "that number is too large for its field",
        ListingFault::Memory => NO_MEMORY,
    }
}

/// What it means that a text has no settings for this reason.
fn hint_of_settings(fault: &SettingsFault) -> &'static str {
    match fault {
        SettingsFault::Syntax => "it is no TOML: bpfrec preflight SETTINGS names the line",
        SettingsFault::Unknown { .. } =>
            "the keys are limit, ring, version, and of a channel id, feed, filter, net, speed, max, span; others are of live",
        SettingsFault::Missing { .. } =>
            "a channel has id, feed and filter, and with an interface it is for bpfrec live: preflight names the line",
        SettingsFault::Value { .. } =>
            "it is of another type, or out of its range: bpfrec preflight SETTINGS names the line and what is allowed",
        SettingsFault::Channels => "there are 1 to 64 tables [[channel]]",
        SettingsFault::SameChannel { .. } => "each channel has an id of its own",
        SettingsFault::Memory => NO_MEMORY,
    }
}

/// What it means that a text has no setup for this reason.
fn hint_of_setup(fault: &SetupFault) -> &'static str {
    match fault {
        SetupFault::Syntax => "it is no TOML",
        SetupFault::Unknown { .. } =>
            "SETUP has no such key: bpfrec export makes SETUP of the facts, and the file with it",
        SetupFault::Missing { .. } =>
            "SETUP must have that key: bpfrec export makes SETUP of the facts, and the file with it",
        SetupFault::Value { .. } =>
            "that value is of another type, out of its range, or taken: bpfrec export makes SETUP of the facts",
        SetupFault::Memory => NO_MEMORY,
    }
}
