//! A whole file, written once into nothing and then into its file.

ghost use Rattle.std.specs.Prelude.{ℕ, ◌≡◌, ◌≢◌, List, Option, None, Some, Err, IfOk, OnOk, []};
ghost use Rattle.std.specs.Io.KnownBytes.{Keeps};
ghost use Rattle.std.specs.Io.Buffered.{writer_buffer, writer_contents};
ghost use Rattle.rec_whole.specs.declared.refusal.WholeEnd.TheVariants.{Refused as IsRefused};
ghost use Rattle.cli_chapter11.specs.declared.passes.Seen.{Seen};
ghost use Rattle.cli_chapter11.specs.declared.writing.WriteEnd.TheVariants.{Refused};

use crate::discard::Discard;
use crate::passes::Passes;
use crate::uncreated::Uncreated;
use ch11_file::FileCounts;
use rec_whole::{WholeEnd, WholeRefusal};
use std::alloc::Global;
use std::io::{BufWriter, Write};

/// Why OUT isn't written, or not whole.
#[derive(Drop)]
pub(crate) enum WriteEnd<E> {
    /// The recording can't be a whole file.
    Refused(WholeRefusal),
    /// The recording can't be read, or is another one at the second time.
    Recording,
    /// OUT can't be created.
    Uncreated(E),
    /// OUT can't be written.
    Output,
    /// Out of memory.
    Memory,
}

/// Writes a whole file: first into nothing, and if it can be, into OUT, which is created then. So there is no OUT of
/// a recording that is refused. Where the second pass sees another recording than the first, that is the file's
/// fault; then some of OUT may be there.
pub(crate) fn judged_then_written<P: Passes, O: Uncreated>(
    alloc: Global,
    whole: &mut P,
    out: &mut O,
) -> Result<(FileCounts, BufWriter<O::File>), WriteEnd<O::Fault>>
    ensures unchanged { (refusal : WholeRefusal) → result ≡ Err (Refused refusal)
        → out.new ≡ out.old }
    ensures refused { (refusal : WholeRefusal) → result ≡ Err (Refused refusal)
        → P.fails whole.old None None (IsRefused refusal) }
    ensures written { IfOk result (λ written. (held : Option (List ℕ))
        × P.writes (P.next whole.old) (O.held out.old) held written.0
        × Keeps held (writer_contents O.File.contents written.1)) }
    ensures compared { OnOk result ((first second : Seen) → P.sees whole.old ≡ Some first
        → P.sees (P.next whole.old) ≡ Some second → first ≡ second) }
    ensures flushed { IfOk result (λ written. writer_buffer written.1 ≡ []) }
{
    let judged = match whole.pass(alloc, Discard) {
        Ok((seen, _)) => seen,
        Err(WholeEnd::Refused(refusal)) => return Err(WriteEnd::Refused(refusal)),
        Err(end) => return Err(again(end)),
    };
    let output = match out.create() {
        Ok(output) => output,
        Err(fault) => return Err(WriteEnd::Uncreated(fault)),
    };
    let (written, mut output) = match whole.pass(alloc, output) {
        Ok(written) => written,
        Err(end) => return Err(again(end)),
    };
    if written != judged {
        return Err(WriteEnd::Recording);
    }
    match output.flush() {
        Ok(()) => Ok((written.counts, output)),
        Err(_) => Err(WriteEnd::Output),
    }
}

/// What the end of a pass comes to; a recording that is refused by the second alone is another one.
fn again<E>(end: WholeEnd) -> WriteEnd<E>
    ensures { (refusal : WholeRefusal) → result ≢ Refused refusal }
{
    match end {
        WholeEnd::Refused(_) | WholeEnd::Recording => WriteEnd::Recording,
        WholeEnd::Output => WriteEnd::Output,
        WholeEnd::Memory => WriteEnd::Memory,
    }
}
