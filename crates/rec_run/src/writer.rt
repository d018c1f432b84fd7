//! The writer: it writes what the workers send.
pub(crate) mod line;
pub(crate) mod tape;

ghost use Rattle.std.specs.Prelude.{ℕ, ◌≡◌, ◌+◌, List, Option, length, true, vec_len, Contains};
ghost use Rattle.rtrb.specs.Ring.{sent};
ghost use Rattle.rec_writer.specs.Numbers.{numbered_channels};
ghost use Rattle.rec_run.specs.Writer.{buffers_in, channels, handles, IsReady, WroteOne, Writes, WroteSo};

use crate::pause::Pause;
use crate::stop::{is_stopped, set_stop};
use crate::writer::line::WriterLine;
use crate::writer::tape::Tape;
use ch11_packet::Blank;
use eth_frame::FrameSource;
use rec_lane::Piece;
use rec_writer::WriteFault;
use rtrb::Producer;
use std::io::Write;
use std::sync::Wait;
use std::sync::atomic::AtomicU64;

/// What the writer did.
#[derive(Clone, Copy, PartialEq, Eq)]
pub(crate) enum Wrote {
    /// There was nothing to write, or all is written.
    Nothing,
    /// One piece or more was written.
    Piece,
    /// The output failed.
    Failed(WriteFault),
    /// A ring gave a piece of another channel, or took no buffer back.
    Link,
}

/// Writes what the workers of these lines send, until each channel has ended, the output fails, or the
/// recording stops.
pub(crate) fn write_lines<S: FrameSource + Drop, W: Write + Drop, R: Wait>(
    rt: &R,
    stop: &AtomicU64,
    lines: &mut Vec<WriterLine<S>>,
    tape: &mut Tape<W>,
) -> Wrote
    requires { IsReady lines.old.items tape.old.writer }
    ensures lines { (channels lines.new.items ≡ channels lines.old.items)
        × (handles lines.new.items ≡ handles lines.old.items) }
    ensures version { tape.new.writer.version ≡ tape.old.writer.version }
    ensures len { vec_len lines.new ≡ vec_len lines.old }
    ensures wrote { (first : Option (List ℕ)) → Writes first tape.old.writer tape.old.bytes
        lines.old.items → WroteSo result first tape.new.writer tape.new.bytes lines.new.items }
{
    let mut pause = Pause::new();
    'rounds: for _ in rt.forever() {
        if !lines.iter().any(|line| line.open_yet) {
            return Wrote::Nothing;
        }
        match write_round(lines.as_mut_slice(), tape) {
            Wrote::Nothing => {
                if is_stopped(stop) {
                    return Wrote::Nothing;
                }
                pause.wait(rt);
            }
            Wrote::Piece => pause.restart(),
            Wrote::Failed(fault) => {
                set_stop(stop);
                return Wrote::Failed(fault);
            }
            Wrote::Link => {
                set_stop(stop);
                return Wrote::Link;
            }
        }
    }
    unreachable!()
}

/// Writes one piece of each ring that has one, so that no channel waits for another one's.
#[tactic(auto, using(crate::proofs::Writes::good_writes))]
fn write_round<S: FrameSource + Drop, W: Write + Drop>(
    lines: &mut [WriterLine<S>],
    tape: &mut Tape<W>,
) -> Wrote
    requires { IsReady lines.old tape.old.writer }
    ensures lines { (channels lines.new ≡ channels lines.old)
        × (handles lines.new ≡ handles lines.old) }
    ensures numbers { numbered_channels tape.new.writer.numbers
        ≡ numbered_channels tape.old.writer.numbers }
    ensures version { tape.new.writer.version ≡ tape.old.writer.version }
    ensures wrote { (first : Option (List ℕ)) → Writes first tape.old.writer tape.old.bytes
        lines.old → WroteSo result first tape.new.writer tape.new.bytes lines.new }
{
    let mut wrote = Wrote::Nothing;
    'lines: for k in 0..lines.len() {
        match write_one(&mut lines[k], tape) {
            Wrote::Nothing => {}
            Wrote::Piece => wrote = Wrote::Piece,
            Wrote::Failed(fault) => return Wrote::Failed(fault),
            Wrote::Link => return Wrote::Link,
        }
    }
    wrote
}

/// Writes the next piece of a ring, and gives its buffer back.
fn write_one<S: FrameSource + Drop, W: Write + Drop>(
    line: &mut WriterLine<S>,
    tape: &mut Tape<W>,
) -> Wrote
    requires { Contains (numbered_channels tape.old.writer.numbers) line.old.channel }
    ensures channel { line.new.channel ≡ line.old.channel }
    ensures handle { line.new.handle ≡ line.old.handle }
    ensures numbers { numbered_channels tape.new.writer.numbers
        ≡ numbered_channels tape.old.writer.numbers }
    ensures version { tape.new.writer.version ≡ tape.old.writer.version }
    ensures wrote { WroteOne result line.old line.new tape.old.writer tape.new.writer
        tape.old.bytes tape.new.bytes }
{
    let Ok(piece) = line.pieces.pop() else {
        return Wrote::Nothing;
    };
    if piece.channel() != line.channel {
        return Wrote::Link;
    }
    if let Piece::End(_) = &piece {
        line.open_yet = false;
    }
    match tape.put(&piece) {
        Ok(()) => {}
        Err(fault) => return Wrote::Failed(fault),
    }
    if give_back(&mut line.returns, piece) {
        Wrote::Piece
    } else {
        Wrote::Link
    }
}

/// Gives the buffer of a written packet of frames back; `false` if the ring has no place for it.
fn give_back(returns: &mut Producer<Blank>, piece: Piece) -> bool
    ensures gave { result ≡ true → length (sent returns.new)
        ≡ length (sent returns.old) + buffers_in piece }
{
    match piece {
        Piece::Data(data) => returns.push(data.body.reuse()).is_ok(),
        Piece::Program(_) | Piece::End(_) => true,
    }
}
