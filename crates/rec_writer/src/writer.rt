//! The writer of a recording.

ghost use Rattle.std.specs.Prelude.{ℕ, ◌≡◌, ◌≢◌, ◌+◌, ◌<◌, ◌≤◌, ◌∷◌, false, true, [], length, IsTrue, ◌↔◌, IfOk, IfErr, IfSome, IfNone, OnOk, All, Contains, Some, slice_get};
ghost use Rattle.std.specs.Io.KnownBytes.{Keeps};
ghost use Rattle.rec_writer.specs.Numbers.{numbered_channels, fresh_numbers, with_packet};

use crate::fault::WriteFault;
use crate::numbers::Numbered;
use crate::packet::{packet_channel, packet_header};
use arrayvec::ArrayVec;
use ch11_packet::{RECORD_CHANNEL, body_sum, end_body, program_body, write_packet};
use rec_channel::MAX_CHANNELS;
use rec_lane::{Piece, ProgramPiece};
use std::io::Write;
use std::marker::Model;

/// How many channel IDs their packets may have: those of the channels, and that of records.
const MAX_NUMBERS: usize = MAX_CHANNELS + 1;

/// Writes pieces to an output, each as one packet, which has gone out when the call returns. It
/// takes no memory, and writes nothing after the output has failed.
#[derive(Debug, Drop)]
pub struct Writer<W: Write> {
    out: W,
    version: u8,
    numbers: ArrayVec<Numbered, MAX_NUMBERS>,
    whole: u64,
    bytes: u64,
    failed: bool,
}

impl<W: Write> Model for Writer<W> {
    ghost use Rattle.rec_writer.specs.Writers.{WriterState, IsWriter};

    ghost Value = { WriterState };

    ghost view = { λ w. record {
      held = W.contents w.out;
      version = w.version;
      numbers = w.numbers.items;
      whole = w.whole;
      bytes = w.bytes;
      failed = w.failed;
    } };

    ghost invariant = { λ w. IsWriter w.numbers.items w.bytes w.failed };
}

impl<W: Write> Writer<W> {
    ghost use Rattle.rec_lane.specs.declared.piece.Piece.TheVariants.{Program};
    ghost use Rattle.rec_lane.specs.Views.{piece_data};
    ghost use Rattle.rec_lane.specs.Pieces.{channel_of};
    ghost use Rattle.ch11_packet.specs.Sums.{body_sum};
    ghost use Rattle.rec_writer.specs.Encoding.{piece_bytes};
    ghost use Rattle.rec_writer.specs.Numbers.{AreDistinctChannels};
    ghost use Rattle.rec_writer.specs.Writers.{Knows, HasWritten, PutsWhole, PutFails, SendsWhole, SendsPart, FinishFails};

    /// A writer that has written nothing, of 1 to [`MAX_CHANNELS`] channels. Its packets have this
    /// data type version.
    #[tactic(auto, using(crate::proofs::Putting::new_channels, crate::proofs::Putting::new_writer, crate::proofs::Putting::new_stands))]
    pub fn new(out: W, channels: &[u16], version: u8) -> Writer<W>
        requires some { 0 < length channels.now }
        requires few { length channels.now ≤ MAX_CHANNELS }
        requires named { All (λ (channel : ℕ). channel ≢ 0) channels.now }
        requires distinct { AreDistinctChannels channels.now }
        ensures held { result.held ≡ W.contents out }
        ensures version { result.version ≡ version }
        ensures channels { numbered_channels result.numbers ≡ 0 ∷ channels.now }
        ensures works { result.failed ≡ false }
        ensures stands { HasWritten (W.contents out) [] [] result }
    {
        Writer {
            out,
            version,
            numbers: first_numbers(channels),
            whole: 0,
            bytes: 0,
            failed: false,
        }
    }

    /// Whether the writer has this channel.
    pub fn knows(&self, channel: u16) -> bool
        ensures { IsTrue result ↔ Knows self.now channel }
    {
        if channel == RECORD_CHANNEL {
            return false;
        }
        match position_of(self.numbers.as_slice(), channel) {
            Some(_) => true,
            None => false,
        }
    }

    /// How many pieces went out whole.
    pub fn whole(&self) -> u64
        ensures { result ≡ self.now.whole }
    {
        self.whole
    }

    /// How many bytes of the next piece went out; 0 as long as the output works.
    pub fn bytes(&self) -> u64
        ensures { result ≡ self.now.bytes }
    {
        self.bytes
    }

    /// The output.
    pub fn out(&self) -> &W
        ensures { W.contents result.now ≡ self.now.held }
    {
        &self.out
    }

    /// Writes a piece as one packet.
    ///
    /// # Errors
    ///
    /// [`WriteFault::Output`] if the output fails; the beginning of the packet may have gone out.
    /// [`WriteFault::Failed`] if it has failed before; then nothing is written.
    pub fn put(&mut self, piece: &Piece) -> Result<(), WriteFault>
        requires { Knows self.old (channel_of (piece_data piece.now)) }
        ensures whole { IfOk result (λ _. PutsWhole self.old self.new (piece_data piece.now)) }
        ensures fault { IfErr result (PutFails self.old self.new (piece_data piece.now)) }
        ensures version { self.new.version ≡ self.old.version }
        ensures channels { numbered_channels self.new.numbers ≡ numbered_channels self.old.numbers }
    {
        match piece {
            Piece::Program(program) => self.put_program(piece, program),
            Piece::Data(data) => self.put_body(piece, data.body.bytes(), data.body.sum()),
            Piece::End(end) => {
                let body = end_body(end.channel, end.offered, end.kept);
                self.put_body(piece, &body, body_sum(&body))
            }
        }
    }

    /// Flushes the output and gives it back.
    ///
    /// # Errors
    ///
    /// [`WriteFault::Output`] if the flush fails, [`WriteFault::Failed`] if the output has failed
    /// before, each with the output; then nothing is flushed.
    pub fn finish(self) -> Result<W, (WriteFault, W)>
        ensures whole { IfOk result (λ out.
            (self.failed ≡ false) × Keeps self.held (W.contents out)) }
        ensures fault { IfErr result (λ e.
            FinishFails self e.0 × Keeps self.held (W.contents e.1)) }
    {
        let Writer {
            mut out,
            whole,
            bytes,
            failed,
            ..
        } = self;
        if failed {
            return Err((WriteFault::Failed { whole, bytes }, out));
        }
        match out.flush() {
            Ok(()) => Ok(out),
            Err(_) => Err((WriteFault::Output { whole, bytes }, out)),
        }
    }

    /// Writes the packet of a program. Its record may be long, and stays off the stack of a call
    /// that writes frames.
    #[cold]
    #[inline(never)]
    fn put_program(&mut self, piece: &Piece, program: &ProgramPiece) -> Result<(), WriteFault>
        requires program { piece.now ≡ Program program.now }
        requires known { Knows self.old (channel_of (piece_data piece.now)) }
        ensures whole { IfOk result (λ _. PutsWhole self.old self.new (piece_data piece.now)) }
        ensures fault { IfErr result (PutFails self.old self.new (piece_data piece.now)) }
        ensures version { self.new.version ≡ self.old.version }
        ensures channels { numbered_channels self.new.numbers ≡ numbered_channels self.old.numbers }
    {
        let body = program_body(
            program.channel,
            program.version,
            program.first,
            &program.program,
        );
        let sum = body_sum(body.as_slice());
        self.put_body(piece, body.as_slice(), sum)
    }

    /// Writes the packet of a piece with this body, whose bytes have this sum.
    #[tactic(auto, using(crate::proofs::Putting::puts_whole, crate::proofs::Putting::puts_part))]
    fn put_body(&mut self, piece: &Piece, body: &[u8], sum: u32) -> Result<(), WriteFault>
        requires known { Knows self.old (channel_of (piece_data piece.now)) }
        requires body { body.now ≡ piece_bytes (piece_data piece.now) }
        requires sum { sum ≡ body_sum body.now }
        ensures whole { IfOk result (λ _. PutsWhole self.old self.new (piece_data piece.now)) }
        ensures fault { IfErr result (PutFails self.old self.new (piece_data piece.now)) }
        ensures version { self.new.version ≡ self.old.version }
        ensures channels { numbered_channels self.new.numbers ≡ numbered_channels self.old.numbers }
    {
        if self.failed {
            return Err(WriteFault::Failed {
                whole: self.whole,
                bytes: self.bytes,
            });
        }
        let at = self.number_of(packet_channel(piece));
        self.send(at, piece, body, sum)
    }

    /// Where the number of a channel ID stands: that of records, or of a channel that the writer
    /// has.
    fn number_of(&self, channel: u16) -> usize
        requires { channel ≢ 0 → Contains (numbered_channels self.now.numbers) channel }
        ensures there { slice_get (numbered_channels self.now.numbers) result ≡ Some channel }
        ensures within { result < length self.now.numbers }
        ensures distinct { AreDistinctChannels (numbered_channels self.now.numbers) }
    {
        let Some(at) = position_of(self.numbers.as_slice(), channel) else {
            unreachable!()
        };
        at
    }

    /// Writes the packet of a piece with this body, whose bytes have this sum, to an output that has
    /// not failed. The packet's number stands there.
    #[tactic(auto, using(crate::proofs::Putting::still_writer, crate::proofs::Putting::channels_after))]
    fn send(&mut self, at: usize, piece: &Piece, body: &[u8], sum: u32) -> Result<(), WriteFault>
        requires works { self.old.failed ≡ false }
        requires within { at < length self.old.numbers }
        requires body { body.now ≡ piece_bytes (piece_data piece.now) }
        requires sum { sum ≡ body_sum body.now }
        ensures whole { OnOk result (SendsWhole self.old self.new at (piece_data piece.now)) }
        ensures part { IfErr result (SendsPart self.old self.new at (piece_data piece.now)) }
        ensures channels { numbered_channels self.new.numbers ≡ numbered_channels self.old.numbers }
    {
        let header = packet_header(piece, self.version, self.numbers[at].next);
        match write_packet(&mut self.out, &header, body, sum) {
            Ok(()) => {
                count_packet(&mut self.numbers, at);
                self.whole = self.whole.saturating_add(1);
                Ok(())
            }
            Err(written) => {
                self.failed = true;
                self.bytes = written as u64;
                Err(WriteFault::Output {
                    whole: self.whole,
                    bytes: self.bytes,
                })
            }
        }
    }
}

/// Counts a packet with the channel ID that stands there.
fn count_packet(numbers: &mut ArrayVec<Numbered, MAX_NUMBERS>, at: usize)
    requires { at < length numbers.old.items }
    ensures { numbers.new.items ≡ with_packet numbers.old.items at }
{
    numbers[at].next = numbers[at].next.wrapping_add(1);
}

/// Where the number of a channel ID stands.
fn position_of(numbers: &[Numbered], channel: u16) -> Option<usize>
    ensures found { IfSome result (λ at.
        slice_get (numbered_channels numbers.now) at ≡ Some channel) }
    ensures within { IfSome result (λ at. at < length numbers.now) }
    ensures none { IfNone result (¬ Contains (numbered_channels numbers.now) channel) }
{
    'numbers: for at in 0..numbers.len() {
        if numbers[at].channel == channel {
            return Some(at);
        }
    }
    None
}

/// The first numbers of the packets with these channel IDs, and with that of records.
fn first_numbers(channels: &[u16]) -> ArrayVec<Numbered, MAX_NUMBERS>
    requires { length channels.now ≤ MAX_CHANNELS }
    ensures { result.items ≡ fresh_numbers channels.now }
{
    let mut numbers = ArrayVec::new();
    numbers.push(Numbered {
        channel: RECORD_CHANNEL,
        next: 0,
    });
    'channels: for at in 0..channels.len() {
        numbers.push(Numbered {
            channel: channels[at],
            next: 0,
        });
    }
    numbers
}
