//! The data of packets, with the counters and the channel IDs of a file.

ghost use Rattle.std.specs.Prelude.{◌≡◌, ◌≢◌, ◌≤◌, ◌++◌, Err, OnOk, length};
ghost use Rattle.ch11_packet.specs.Classes.{said_frames};
ghost use Rattle.ch11_packet.specs.FramesRead.{IsBodyOf};
ghost use Rattle.rec_joined.specs.declared.fault.MoveFault.TheVariants.{Gap, Sum, Other as IsOther};
ghost use Rattle.rec_joined.specs.Moving.{moving_of};
ghost use Rattle.rec_joined.specs.MovedFrames.{HaveCounters};
ghost use Rattle.rec_joined.specs.MovedPackets.{moved_body, record_with};
ghost use Rattle.rec_joined.specs.MovedRecords.{end_numbers, program_numbers};

use crate::fault::MoveFault;
use crate::frames::add_moved;
use crate::moves::Moves;
use std::alloc::AllocError;

/// The number of bytes of the word that a body of frames begins with.
const BODY_WORD_LEN: usize = 4;

/// Where the channel ID of a record stands.
const CHANNEL_AT: usize = 10;

/// Where the number of a program's first frame ends.
const FIRST_END: usize = 24;

/// Where the number of frames kept ends in the record of an end.
const KEPT_END: usize = 28;

/// Adds a body of this many frames with their counters in the file.
pub(crate) fn add_body(
    out: &mut Vec<u8>,
    count: u16,
    held: &[u8],
    moves: &Moves,
) -> Result<(), MoveFault>
    requires { ∥ IsBodyOf count held.now ∥₁ }
    ensures bytes { OnOk result (out.new.items
        ≡ out.old.items ++ moved_body (moving_of moves.now) held.now) }
    ensures fit { OnOk result (HaveCounters (moving_of moves.now).counters (said_frames held.now)) }
    ensures gap { result ≡ Err Gap
        → ¬ HaveCounters (moving_of moves.now).counters (said_frames held.now) }
    ensures other { result ≢ Err IsOther }
    ensures sum { result ≢ Err Sum }
{
    let (word, frames) = held.split_at(BODY_WORD_LEN);
    out.extend_from_slice(word)?;
    add_moved(out, count, frames, moves)
}

/// Adds a program's record, with this channel ID, this version and this number of its first frame.
pub(crate) fn add_program(
    out: &mut Vec<u8>,
    id: u16,
    version: u32,
    first: u64,
    held: &[u8],
) -> Result<(), AllocError>
    requires { 24 ≤ length held.now }
    ensures { OnOk result (out.new.items
        ≡ out.old.items ++ record_with id (program_numbers version first held.now) held.now) }
{
    out.extend_from_slice(&held[..CHANNEL_AT])?;
    out.extend_from_slice(&id.to_le_bytes())?;
    out.extend_from_slice(&version.to_le_bytes())?;
    out.extend_from_slice(&first.to_le_bytes())?;
    out.extend_from_slice(&held[FIRST_END..])?;
    Ok(())
}

/// Adds the record of an end, with this channel ID and these numbers of frames.
pub(crate) fn add_end(
    out: &mut Vec<u8>,
    id: u16,
    offered: u64,
    kept: u64,
    held: &[u8],
) -> Result<(), AllocError>
    requires { 28 ≤ length held.now }
    ensures { OnOk result (out.new.items
        ≡ out.old.items ++ record_with id (end_numbers offered kept held.now) held.now) }
{
    out.extend_from_slice(&held[..CHANNEL_AT])?;
    out.extend_from_slice(&id.to_le_bytes())?;
    out.extend_from_slice(&offered.to_le_bytes())?;
    out.extend_from_slice(&kept.to_le_bytes())?;
    out.extend_from_slice(&held[KEPT_END..])?;
    Ok(())
}
