//! What a packet holds: the class of its header and its data.
ghost use Rattle.std.specs.Prelude.{ℕ, List, ◌≡◌, ◌+◌, ◌≤◌, ◌^◌, ◌↔◌, IsTrue, IfOk, Ok, Err, Option, Some, length};
ghost use Rattle.ch11_packet.specs.declared.header.TheConstants.{HEADER_LEN};
ghost use Rattle.ch11_packet.specs.declared.class.What.{What};
ghost use Rattle.ch11_packet.specs.Header.{HeaderData};
ghost use Rattle.ch11_packet.specs.declared.class.ClassFault.{ClassFault};
ghost use Rattle.ch11_packet.specs.FramesRead.{HasBodyFault};
ghost use Rattle.ch11_packet.specs.Classes.{SaysFrames, SaysRecord, HasClass, IsAnswer, HasSum, Holds, HasClassFault};
ghost use Rattle.ch11_packet.specs.RecordsRead.{SpellsRecord};
ghost use Rattle.ch11_packet.specs.Views.{header_data, record_data};

use crate::flags::{has_checksum, is_plain};
use crate::frames::{BodyFault, decode_frames};
use crate::header::{COMPUTER_GENERATED_DATA, ETHERNET_DATA, Header};
use crate::records::{RECORD_CHANNEL, Record, decode_record};
use crate::sum::{CHECKSUM_LEN, body_sum};
use thiserror::Error;

/// What a packet holds.
#[derive(Clone, Copy, Debug, PartialEq, Eq)]
pub enum What {
    /// This number of frames.
    Frames(u16),
    /// The record of a program that came into force on a channel.
    Program {
        /// The channel, 1 to 65,535.
        channel: u16,
        /// The number of programs of the channel before this one.
        version: u32,
        /// The number of the first frame that met the program.
        first: u64,
        /// The number of its instructions.
        count: u16,
    },
    /// The record of a channel's end.
    End {
        /// The channel, 1 to 65,535.
        channel: u16,
        /// The number of frames offered.
        offered: u64,
        /// The number of those kept.
        kept: u64,
    },
    /// Anything else: another data type or format, a secondary header, a data checksum of 8 or 16
    /// bits, or computer-generated data that are no record.
    Other,
}

/// Why a packet holds nothing, in the order in which faults are looked for.
#[derive(Clone, Copy, Debug, PartialEq, Eq, Error)]
pub enum ClassFault {
    /// The data checksum is wrong.
    #[error("DataChecksum")]
    DataChecksum,
    /// The packet has the header of frames and isn't a body of frames in format 0, or of records and
    /// has their tag but isn't a record.
    #[error("Body")]
    Body,
}

/// What a packet holds, by its header and all bytes after it, the filler and the data checksum among
/// them; or what is wrong with it. The checksum is judged before the body, and only of a packet that
/// would hold frames or a record, or has a fault of the body.
#[tactic(auto, using(crate::proofs::Classing::is_held, crate::proofs::Classing::held_found, crate::proofs::Classing::fault_found, crate::proofs::Classing::sum_found, crate::proofs::Classing::sum_fault))]
pub fn classify(header: &Header, body: &[u8]) -> Result<What, ClassFault>
    requires { HEADER_LEN + length body.now ≡ header.now.packet_len }

    // What it holds.
    ensures holds { IfOk result (Holds (header_data header.now) body.now) }
    ensures found { (what : What) → Holds (header_data header.now) body.now what
        → result ≡ Ok what }

    // What is wrong with it.
    ensures fault { (fault : ClassFault) → (result ≡ Err fault)
        ↔ HasClassFault (header_data header.now) body.now fault }
{
    let class = class_of(header, &body[..header.data_len as usize]);
    if !is_other(class) && has_checksum(header.flags) && !has_sum(body) {
        return Err(ClassFault::DataChecksum);
    }
    class.ok_or(ClassFault::Body)
}

/// Whether data are neither frames nor a record, nor have a fault of these.
fn is_other(class: Option<What>) -> bool
    ensures { IsTrue result ↔ (class ≡ Some What.Other) }
{
    matches!(class, Some(What::Other))
}

/// Whether the last four of these bytes are the sum of those before them.
fn has_sum(body: &[u8]) -> bool
    requires { CHECKSUM_LEN ≤ length body.now }
    ensures { IsTrue result ↔ HasSum body.now }
{
    let at = body.len() - CHECKSUM_LEN;
    let sum = u32::from_le_bytes([body[at], body[at + 1], body[at + 2], body[at + 3]]);
    sum == body_sum(&body[..at])
}

/// What a packet with these data holds.
fn class_of(header: &Header, bytes: &[u8]) -> Option<What>
    ensures { IsAnswer (header_data header.now) bytes.now result }
{
    if !is_plain(header.flags) {
        return Some(What::Other);
    }
    match (header.kind, header.channel) {
        (ETHERNET_DATA, _) => class_of_frames(bytes),
        (COMPUTER_GENERATED_DATA, RECORD_CHANNEL) => class_of_records(bytes),
        _ => Some(What::Other),
    }
}

/// What the data of a plain packet of Ethernet data are.
fn class_of_frames(bytes: &[u8]) -> Option<What>
    ensures { (header : HeaderData) → SaysFrames header → IsAnswer header bytes.now result }
{
    match decode_frames(bytes) {
        Ok(frames) => Some(What::Frames(frames.count())),
        Err(fault) => class_of_fault(fault),
    }
}

/// What the data of a plain packet of Ethernet data are that have this fault.
fn class_of_fault(fault: BodyFault) -> Option<What>
    ensures { (header : HeaderData) (bytes : List ℕ) → SaysFrames header
        → HasBodyFault bytes fault → IsAnswer header bytes result }
{
    match fault {
        BodyFault::Format => Some(What::Other),
        BodyFault::Short | BodyFault::LeftOver => None,
    }
}

/// What the data of a plain packet of computer-generated data on channel 0 are.
fn class_of_records(bytes: &[u8]) -> Option<What>
    ensures { (header : HeaderData) → SaysRecord header → IsAnswer header bytes.now result }
{
    match decode_record(bytes) {
        Ok(Some(found)) => Some(class_of_record(found)),
        Ok(None) => Some(What::Other),
        Err(_) => None,
    }
}

/// What a packet with this record holds.
fn class_of_record(found: Record<'_>) -> What
    ensures { (header : HeaderData) (bytes : List ℕ) → SaysRecord header
        → SpellsRecord (record_data found.entry) bytes → HasClass header bytes result }
{
    match found {
        Record::Program(program) => What::Program {
            channel: program.channel,
            version: program.version,
            first: program.first,
            count: program.count,
        },
        Record::End {
            channel,
            offered,
            kept,
        } => What::End {
            channel,
            offered,
            kept,
        },
    }
}
