//! The reader of a recording: its packets, or the first fault and the packets before it, from bytes
//! or packet by packet from a stream; the frames of a channel, and where they are; and the audit,
//! whether a recording is what its own programs and ends say.
#![tactic(auto)]

mod audits;
mod extract;
mod fault;
mod frames;
mod index;
mod laws;
mod owned;
mod packet;
mod read;
mod recording;
mod stream;
mod upgrades;

pub use audits::{Audit, AuditFault, AuditLine, AuditLines, Auditor, audit};
pub use extract::{Extracted, extract_packet};
pub use fault::{ReadEnd, ReadFault, ReadFaultKind};
pub use frames::frames_of;
pub use index::{Entry, Index};
pub use laws::{
    a_cut_recording_reads_as_its_front, a_feed_is_made_packet_by_packet,
    a_packet_says_what_its_record_spells, all_bytes_have_a_reading,
    an_approved_recording_is_what_it_says, an_upgrade_is_read_as_its_packets,
    an_upgrade_is_upgraded, an_upgrade_says_what_its_packets_say, bytes_have_one_reading,
    packets_have_one_audit, what_is_not_judged_makes_no_difference,
};
pub use owned::OwnedPacket;
pub use packet::Packet;
pub use read::read_recording;
pub use recording::Recording;
pub use stream::Reader;
pub use upgrades::{UpgradeFault, Upgraded, upgrade, upgrade_packet};
