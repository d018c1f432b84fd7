//! The reader of a recording that comes as a stream, in any pieces.

ghost use Rattle.std.specs.Prelude.{ℕ, ◌≡◌, ◌+◌, ◌-◌, ◌^◌, ◌<◌, ◌≤◌, ◌⊎◌, ◌++◌, List, [], length, take, None, Some, IfOk, IfErr, IfSome, OnOk};
ghost use Rattle.std.specs.Io.KnownBytes.{Consumes, IsAtEnd};
ghost use Rattle.std.specs.Option.{option_map};
ghost use Rattle.rec_reader.specs.declared.fault.ReadFaultKind.{ReadFaultKind};
ghost use Rattle.ch11_packet.specs.Views.{header_data};
ghost use Rattle.rec_reader.specs.Reading.{HasHeader, HasReadFault};
ghost use Rattle.rec_reader.specs.Readers.{StopsOn, TakesFirst, TakesHeader, TakesRest};

use crate::fault::{ReadEnd, ReadFaultKind};
use crate::owned::OwnedPacket;
use ch11_packet::{HEADER_LEN, Header, classify};
use eth_frame::fill;
use std::alloc::Global;
use std::io::Read;
use std::marker::Model;
use std::mem;

/// The most bytes for which room is taken before they have come.
const STEP: usize = 65_536;

/// The most bytes for which room is kept from one packet to the next: no packet of frames has as many.
const MAX_SPARE: usize = 1_048_576;

/// Reads a recording packet by packet, in whatever pieces the input gives its bytes, and takes no
/// byte past a packet before that packet is answered. It keeps no packet that it gave.
///
/// It reads a packet's header and its body apart, so give it a buffered input over a file or a
/// device. Memory is taken for the packet that is read, and follows the bytes that have come: of room
/// that is taken at most 65,536 bytes are beyond them, whatever length a header says. The room of a packet
/// that is given back is kept for the next one, unless it is of more than 1,048,576 bytes.
#[derive(Debug, Drop)]
pub struct Reader<R: Read> {
    alloc: Global,
    input: R,
    at: u64,
    ended: Option<Result<(), ReadEnd>>,
    /// The body that was given back last, or no room.
    spare: Vec<u8>,
}

impl<R: Read> Model for Reader<R> {
    ghost use Rattle.std.specs.Prelude.{◌≤◌};
    ghost use Rattle.std.specs.Vec.{vec_capacity};
    ghost use Rattle.rec_reader.specs.declared.stream.TheConstants.{MAX_SPARE};
    ghost use Rattle.rec_reader.specs.Readers.{ReaderState};

    ghost Value = { ReaderState };

    ghost view = { λ r. record { left = R.remaining r.input; at = r.at; ended = r.ended } };

    ghost invariant = { λ r. vec_capacity r.spare ≤ MAX_SPARE };
}

impl<R: Read> Reader<R> {
    ghost use Rattle.rec_reader.specs.declared.fault.ReadEnd.{ReadEnd};
    ghost use Rattle.rec_reader.specs.Packets.{PacketData};
    ghost use Rattle.rec_reader.specs.Readers.{HasRead, AnswersBytes, Tells, last_answer, ended_by, given_by, place_after};

    /// A reader of the packets of the bytes that the input has left. It takes no memory yet.
    pub fn new(alloc: Global, input: R) -> Reader<R>
        ensures left { result.left ≡ R.remaining input }
        ensures at { result.at ≡ 0 }
        ensures open { result.ended ≡ None }
        ensures stands { IfSome (R.remaining input) (λ bytes. length bytes < 2 ^ 64
            → HasRead bytes [] result) }
    {
        Reader {
            alloc,
            input,
            at: 0,
            ended: None,
            spare: Vec::new(alloc),
        }
    }

    /// Takes a packet back, whose memory the next one may have, unless it is much.
    pub fn give_back(&mut self, packet: OwnedPacket)
        ensures same { self.new ≡ self.old }
    {
        let body = packet.into_body();
        if body.capacity() <= MAX_SPARE {
            self.spare = body;
        }
    }

    /// The next packet: `None` at the recording's end, and from then on.
    ///
    /// # Errors
    ///
    /// Why no packet follows, and the place where it would begin; from then on each call answers
    /// the same. [`ReadFaultKind::Device`] if a read failed, also if it was interrupted.
    /// [`ReadFaultKind::Memory`] if there was no memory for the packet. The others are those of
    /// [`read_recording`](crate::read_recording), in the same order.
    pub fn next(&mut self) -> Result<Option<OwnedPacket>, ReadEnd>
        // Before it has ended; of the bytes only where the input says them.
        ensures answer { self.old.ended ≡ None → IfSome self.old.left (λ bytes.
            AnswersBytes self.old.at bytes result self.new.left) }
        ensures place { self.old.ended ≡ None → self.new.at ≡ place_after self.old.at result }
        ensures fault_at { self.old.ended ≡ None → IfErr result (λ end. end.at ≡ self.old.at) }
        ensures ended { self.new.ended ≡ ended_by result }

        // Once it has ended.
        ensures again { IfSome self.old.ended (λ how. (result ≡ last_answer how)
            × (self.new ≡ self.old)) }

        // Of all bytes, in whatever pieces they come.
        ensures stands { (bytes : List ℕ) (packets : List PacketData)
            → HasRead bytes packets self.old
            → HasRead bytes (packets ++ given_by result) self.new }
        ensures tells { (bytes : List ℕ) (packets : List PacketData)
            → HasRead bytes packets self.old → Tells bytes packets result }
    {
        match self.ended {
            None => {}
            Some(Ok(())) => return Ok(None),
            Some(Err(end)) => return Err(end),
        }
        let spare = mem::replace(&mut self.spare, Vec::new(self.alloc));
        match take_packet(spare, self.at, &mut self.input) {
            Ok(Some(packet)) => {
                self.at = self.at.saturating_add(u64::from(packet.len()));
                Ok(Some(packet))
            }
            Ok(None) => {
                self.ended = Some(Ok(()));
                Ok(None)
            }
            Err(kind) => {
                let end = ReadEnd { kind, at: self.at };
                self.ended = Some(Err(end));
                Err(end)
            }
        }
    }
}

/// Takes the packet that stands first in what the input has left, of which the first byte has this
/// place in the recording, into the memory of another: `None` if nothing is left.
fn take_packet<R: Read>(
    spare: Vec<u8>,
    at: u64,
    input: &mut R,
) -> Result<Option<OwnedPacket>, ReadFaultKind>
    ensures first { IfOk result (λ taken. IfSome (R.remaining input.old) (λ bytes.
        TakesFirst at bytes taken (R.remaining input.new))) }
    ensures fault { IfErr result (λ kind. IfSome (R.remaining input.old) (λ bytes.
        StopsOn bytes kind)) }
{
    let Some(header) = take_header(input)? else {
        return Ok(None);
    };
    match take_rest(spare, at, header, input) {
        Ok(packet) => Ok(Some(packet)),
        Err(kind) => Err(kind),
    }
}

/// Takes the header that stands first in what the input has left: `None` if nothing is left.
fn take_header<R: Read>(input: &mut R) -> Result<Option<Header>, ReadFaultKind>
    ensures first { IfOk result (λ taken. IfSome (R.remaining input.old) (λ bytes.
        TakesHeader bytes (option_map header_data taken) (R.remaining input.new))) }
    ensures fault { IfErr result (λ kind. IfSome (R.remaining input.old) (λ bytes.
        HasReadFault bytes kind ⊎ (kind ≡ ReadFaultKind.Device))) }
{
    let mut head = [0; HEADER_LEN];
    let filled = fill(input, &mut head)?;
    if filled == 0 {
        return Ok(None);
    }
    if filled < HEADER_LEN {
        return Err(ReadFaultKind::Truncated);
    }
    let header = Header::decode(&head)?;
    Ok(Some(header))
}

/// Takes the rest of the packet that has this place in the recording and this header, which was
/// taken before, into the memory of another.
fn take_rest<R: Read>(
    spare: Vec<u8>,
    at: u64,
    header: Header,
    input: &mut R,
) -> Result<OwnedPacket, ReadFaultKind>
    ensures packet { IfOk result (λ packet.
        TakesRest at (header_data header) packet (R.remaining input.old) (R.remaining input.new)) }
    ensures fault { IfErr result (λ kind. IfSome (R.remaining input.old) (λ behind.
        (bytes : List ℕ) → HasHeader (header_data header) bytes behind → StopsOn bytes kind)) }
{
    let body = read_body(spare, header.packet_len as usize - HEADER_LEN, input)?;
    let what = classify(&header, body.as_slice())?;
    Ok(OwnedPacket::of(at, header, body, what))
}

/// Reads a body of this length, over the bytes of another and behind them.
fn read_body<R: Read>(spare: Vec<u8>, len: usize, input: &mut R) -> Result<Vec<u8>, ReadFaultKind>
    ensures len { IfOk result (λ body. length body.items ≡ len) }
    ensures taken { IfOk result (λ body.
        Consumes (R.remaining input.old) (R.remaining input.new) body.items) }
    ensures fault { IfErr result (λ kind. (kind ≡ ReadFaultKind.Device)
        ⊎ (kind ≡ ReadFaultKind.Memory)
        ⊎ ((kind ≡ ReadFaultKind.Truncated)
        × IfSome (R.remaining input.old) (λ bytes. length bytes < len))) }
{
    let mut body = spare;
    body.truncate(len);
    read_over(input, &mut body)?;
    read_behind(len, input, &mut body)?;
    Ok(body)
}

/// Reads as many bytes as are there, over these.
fn read_over<R: Read>(input: &mut R, body: &mut Vec<u8>) -> Result<(), ReadFaultKind>
    ensures len { OnOk result (length body.new.items ≡ length body.old.items) }
    ensures taken { OnOk result
        (Consumes (R.remaining input.old) (R.remaining input.new) body.new.items) }
    ensures fault { IfErr result (λ kind. (kind ≡ ReadFaultKind.Device)
        ⊎ (kind ≡ ReadFaultKind.Memory)
        ⊎ ((kind ≡ ReadFaultKind.Truncated)
        × IfSome (R.remaining input.old) (λ bytes. length bytes < length body.old.items))) }
{
    let len = body.len();
    let filled = fill(input, body.as_mut_slice())?;
    if filled < len {
        return Err(ReadFaultKind::Truncated);
    }
    Ok(())
}

/// Reads behind these bytes of a body, until it has this length.
fn read_behind<R: Read>(len: usize, input: &mut R, body: &mut Vec<u8>) -> Result<(), ReadFaultKind>
    requires { length body.old.items ≤ len }
    ensures len { OnOk result (length body.new.items ≡ len) }
    ensures taken { OnOk result ((part : List ℕ) × (body.new.items ≡ body.old.items ++ part)
        × Consumes (R.remaining input.old) (R.remaining input.new) part) }
    ensures fault { IfErr result (λ kind. (kind ≡ ReadFaultKind.Device)
        ⊎ (kind ≡ ReadFaultKind.Memory)
        ⊎ ((kind ≡ ReadFaultKind.Truncated)
        × IfSome (R.remaining input.old) (λ bytes. length body.old.items + length bytes < len))) }
{
    'steps: while body.len() < len {
        let step = (len - body.len()).min(STEP);
        read_step(step, input, body)?;
    }
    Ok(())
}

/// Reads this many bytes more of a body.
fn read_step<R: Read>(step: usize, input: &mut R, body: &mut Vec<u8>) -> Result<(), ReadFaultKind>
    requires { length body.old.items + step < 2 ^ 64 }
    ensures taken { OnOk result ((part : List ℕ) × (length part ≡ step)
        × (body.new.items ≡ body.old.items ++ part)
        × Consumes (R.remaining input.old) (R.remaining input.new) part) }
    ensures fault { IfErr result (λ kind. (kind ≡ ReadFaultKind.Device)
        ⊎ (kind ≡ ReadFaultKind.Memory)
        ⊎ ((kind ≡ ReadFaultKind.Truncated)
        × IfSome (R.remaining input.old) (λ bytes. length bytes < step))) }
{
    let start = body.len();
    body.reserve_exact(step)?;
    body.resize(start + step, 0)?;
    let filled = fill(input, &mut body[start..])?;
    if filled < step {
        return Err(ReadFaultKind::Truncated);
    }
    Ok(())
}
