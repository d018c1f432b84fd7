//! The limits that the libraries offer, and the settings that hold where a key isn't set. Of these
//! lines `dev/checks/limits.py` makes the numbers of `host/` and of `docs/user/formats/`.

use bpf_insn::MAX_INSNS;
use ch11_packet::{
    CHECKSUM_LEN, COMPUTER_GENERATED_DATA, END_RECORD_LEN, ETHERNET_DATA, HEADER_LEN, INSN_LEN,
    MAX_ETHERNET_PACKET_LEN, MAX_LIMIT, MAX_SPEED, MIN_LIMIT, PROGRAM_HEAD_LEN, RECORD_CHANNEL,
    SYNC_PATTERN,
};
use cli_streams::{MAX_LISTING, MAX_TEXT};
use eth_frame::{CHECK_SEQUENCE_LEN, COUNTER_BITS, COUNTER_LEN, MAX_FRAME_LEN, MIN_FRAME_LEN};
use rec_channel::{MAX_CHANNELS, MAX_RING, MAX_VERSIONS};
use rec_cli::settings_of;
use std::io;
use std::io::ErrorKind;

/// The constants, with the names that they have in `host/bpfrec/formats/limits.py`.
static LIMITS: [(&str, u64); 25] = [
    ("COUNTER_BITS", COUNTER_BITS as u64),
    ("COUNTER_LEN", COUNTER_LEN as u64),
    ("MIN_FRAME_LEN", MIN_FRAME_LEN as u64),
    ("MAX_FRAME_LEN", MAX_FRAME_LEN as u64),
    ("CHECK_SEQUENCE_LEN", CHECK_SEQUENCE_LEN as u64),
    ("MAX_INSNS", MAX_INSNS as u64),
    ("INSN_LEN", INSN_LEN as u64),
    ("MAX_LISTING_LEN", MAX_LISTING),
    ("MAX_TEXT_LEN", MAX_TEXT),
    ("MAX_VERSIONS", MAX_VERSIONS as u64),
    ("SYNC_PATTERN", SYNC_PATTERN as u64),
    ("HEADER_LEN", HEADER_LEN as u64),
    ("CHECKSUM_LEN", CHECKSUM_LEN as u64),
    ("MAX_ETHERNET_PACKET_LEN", MAX_ETHERNET_PACKET_LEN as u64),
    ("ETHERNET_DATA", ETHERNET_DATA as u64),
    ("COMPUTER_GENERATED_DATA", COMPUTER_GENERATED_DATA as u64),
    ("RECORD_CHANNEL", RECORD_CHANNEL as u64),
    ("PROGRAM_HEAD_LEN", PROGRAM_HEAD_LEN as u64),
    ("END_RECORD_LEN", END_RECORD_LEN as u64),
    ("MIN_LIMIT", MIN_LIMIT as u64),
    ("MAX_LIMIT", MAX_LIMIT as u64),
    ("MAX_RING", MAX_RING as u64),
    ("MAX_CHANNELS", MAX_CHANNELS as u64),
    ("MAX_SPEED", MAX_SPEED as u64),
    ("MAX_NUMBER", i64::MAX as u64),
];

/// Settings with the keys alone that must be set.
const LEAST_SETTINGS: &str = "[[channel]]\nid = 1\nfeed = \"feed\"\nfilter = \"filter\"\n";

/// A line for each limit, and for each setting that has a default.
pub(crate) fn show_limits<R: AllocGlobal + Print>(rt: &R) -> io::Result<()> {
    println!(rt; "# limits")?;
    for &(name, value) in &LIMITS {
        println!(rt; "limit {name} {value}")?;
    }
    show_defaults(rt)
}

/// What holds where a key isn't set.
fn show_defaults<R: AllocGlobal + Print>(rt: &R) -> io::Result<()> {
    let Ok(settings) = settings_of(rt.alloc(), LEAST_SETTINGS) else {
        return Err(io::Error::from(ErrorKind::InvalidData));
    };
    println!(rt; "limit DEFAULT_LIMIT {}", settings.limit.get())?;
    println!(rt; "limit DEFAULT_RING {}", settings.ring)?;
    println!(rt; "limit DEFAULT_VERSION {}", settings.version)?;
    for channel in &settings.channels {
        println!(rt; "limit DEFAULT_NET {}", channel.net)?;
        println!(rt; "limit DEFAULT_SPEED {}", channel.speed)?;
        println!(rt; "limit DEFAULT_MAX {}", channel.max)?;
    }
    Ok(())
}
