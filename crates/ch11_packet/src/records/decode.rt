//! How the records are read.
ghost use Rattle.std.specs.Prelude.{◌≡◌, ◌+◌, ◌*◌, ◌≤◌, ◌↔◌, IsTrue, IsSome, IfSome, IfNone, IfOk, IsOkAnd, Ok, Err, None, Some, length, drop};
ghost use Rattle.std.specs.Option.{option_map};
ghost use Rattle.ch11_packet.specs.declared.records.decode.RecordFault.{RecordFault};
ghost use Rattle.ch11_packet.specs.declared.records.record.Record.{Record};
ghost use Rattle.eth_frame.specs.Bytes.{u32_at, u64_at};
ghost use Rattle.ch11_packet.specs.RecordsRead.{RecordData, SpellsRecord, IsTagged, insn_count_in, HasRecordLength, HasRecordFields, HasRecordFault};
ghost use Rattle.ch11_packet.specs.Views.{record_data};

use crate::records::record::{ProgramRecord, Record};
use crate::records::{
    END_RECORD, END_RECORD_LEN, INSN_LEN, PROGRAM_HEAD_LEN, PROGRAM_RECORD, RECORD_HEAD_LEN,
    RECORD_TAG,
};
use thiserror::Error;

/// Why bytes with the tag are no record: the first of these, but `Length` if they end before the
/// kind and the channel.
#[derive(Clone, Copy, Debug, PartialEq, Eq, Error)]
pub enum RecordFault {
    /// The kind is neither that of a program nor that of an end.
    #[error("Kind")]
    Kind,
    /// The channel is 0.
    #[error("Channel")]
    Channel,
    /// The length isn't that of a record of this kind.
    #[error("Length")]
    Length,
}

/// `Ok(None)` if bytes 4 to 7 are not the tag; else the record, or its first fault. The word before
/// the tag may have any value, and so may the two bytes before a program's instructions.
pub fn decode_record(body: &[u8]) -> Result<Option<Record<'_>>, RecordFault>
    // Without the tag.
    ensures none { (result ≡ Ok None) ↔ (¬ IsTagged body.now) }

    // At a record.
    ensures spelled { IfOk result (λ read. IfSome read (λ found.
        SpellsRecord (record_data found) body.now)) }
    ensures read { (said : RecordData) → SpellsRecord said body.now
        → IsOkAnd result (λ read. option_map record_data read ≡ Some said) }

    // At a fault.
    ensures fault { (fault : RecordFault) → (result ≡ Err fault) ↔ HasRecordFault body.now fault }
{
    if !is_tagged(body) {
        return Ok(None);
    }
    if body.len() < RECORD_HEAD_LEN {
        return Err(RecordFault::Length);
    }
    let kind = u16::from_le_bytes([body[8], body[9]]);
    let channel = u16::from_le_bytes([body[10], body[11]]);
    if kind != PROGRAM_RECORD && kind != END_RECORD {
        return Err(RecordFault::Kind);
    }
    if channel == 0 {
        return Err(RecordFault::Channel);
    }
    match known_record(kind, channel, body) {
        Some(found) => Ok(Some(found)),
        None => Err(RecordFault::Length),
    }
}

/// The record of a known kind and of this channel in these bytes: `None` if they are too few or too
/// many.
fn known_record(kind: u16, channel: u16, body: &[u8]) -> Option<Record<'_>>
    requires { HasRecordFields kind channel body.now }
    ensures length { IfNone result (¬ HasRecordLength body.now) }
    ensures spelled { IfSome result (λ found. SpellsRecord (record_data found) body.now) }
{
    if kind == PROGRAM_RECORD {
        return Some(Record::Program(program_record(channel, body)?));
    }
    end_record(channel, body)
}

/// Whether the bytes 4 to 7 are the tag.
fn is_tagged(body: &[u8]) -> bool
    ensures tagged { IsTrue result ↔ IsTagged body.now }
{
    matches!(body, [_, _, _, _, t0, t1, t2, t3, ..] if [*t0, *t1, *t2, *t3] == RECORD_TAG)
}

/// The record of a program in these bytes: `None` if they are too few or too many.
fn program_record(channel: u16, body: &[u8]) -> Option<ProgramRecord<'_>>
    ensures length { IsSome result
        ↔ (length body.now ≡ PROGRAM_HEAD_LEN + INSN_LEN * insn_count_in body.now) }
    ensures fields { IfSome result (λ found. (found.channel ≡ channel)
        × (found.version ≡ u32_at body.now 12) × (found.first ≡ u64_at body.now 16)) }
    ensures insns { IfSome result (λ found. (found.count ≡ insn_count_in body.now)
        × (found.insns.now ≡ drop PROGRAM_HEAD_LEN body.now)) }
{
    if body.len() < PROGRAM_HEAD_LEN {
        return None;
    }
    let version = u32::from_le_bytes([body[12], body[13], body[14], body[15]]);
    let first = u64_from(body, 16);
    let count = u16::from_le_bytes([body[24], body[25]]);
    let insns = &body[PROGRAM_HEAD_LEN..];
    if insns.len() != INSN_LEN * usize::from(count) {
        return None;
    }
    Some(ProgramRecord {
        channel,
        version,
        first,
        count,
        insns,
    })
}

/// The record of an end in these bytes: `None` if they are too few or too many.
fn end_record(channel: u16, body: &[u8]) -> Option<Record<'_>>
    ensures length { IsSome result ↔ (length body.now ≡ END_RECORD_LEN) }
    ensures fields { IfSome result (λ found. found
        ≡ Record.End channel (u64_at body.now 12) (u64_at body.now 20)) }
{
    if body.len() != END_RECORD_LEN {
        return None;
    }
    Some(Record::End {
        channel,
        offered: u64_from(body, 12),
        kept: u64_from(body, 20),
    })
}

/// The number of the eight bytes from `at` on.
fn u64_from(body: &[u8], at: usize) -> u64
    requires { at + 8 ≤ length body.now }
    ensures { result ≡ u64_at body.now at }
{
    u64::from_le_bytes([
        body[at],
        body[at + 1],
        body[at + 2],
        body[at + 3],
        body[at + 4],
        body[at + 5],
        body[at + 6],
        body[at + 7],
    ])
}
