//! The export of a recording that comes as a stream.

ghost use Rattle.std.specs.Prelude.{ℕ, ◌≡◌, List, [], IfErr, OnOk};
ghost use Rattle.std.specs.Io.KnownBytes.{Keeps};
ghost use Rattle.rec_reader.specs.Readers.{HasRead};
ghost use Rattle.rec_export.specs.declared.fault.ExportFault.TheVariants.{Output};
ghost use Rattle.rec_export.specs.Exported.{FailsExport, IsExported};

use crate::exporter::Exporter;
use crate::fault::{ExportEnd, ExportFault};
use rec_reader::Reader;
use std::alloc::Global;
use std::io::{Read, Write};

/// Writes the frames of all channels of a recording to an output as one pcapng file, in one pass with
/// one packet at a time. Times are those since an origin, in seconds since 1970, if one is given; else
/// since counter 0. Before it asks for a packet it flushes the output, so whoever reads that has the
/// packets before.
///
/// # Errors
///
/// [`ExportEnd::Reading`] if the recording isn't read to its end. Then the output took what the
/// packets before add. [`ExportEnd::Output`] if the output failed, and [`ExportEnd::Memory`] if there
/// was no memory for a channel or a comment. Then it took the first bytes of the export.
pub fn export_recording<R: Read, W: Write>(
    alloc: Global,
    reader: &mut Reader<R>,
    origin: Option<u64>,
    out: &mut W,
) -> Result<(), ExportEnd>
    ensures whole { OnOk result ((recording : List ℕ) → HasRead recording [] reader.old
        → IsExported origin recording (W.contents out.old) (W.contents out.new)) }
    ensures part { IfErr result (λ end. (recording : List ℕ) → HasRead recording [] reader.old
        → FailsExport origin recording (W.contents out.old) (W.contents out.new) end) }
{
    let mut exporter = Exporter::new(alloc, origin);
    exporter.begin(out)?;
    'packets: for _ in 0..u64::MAX {
        hand_on(out)?;
        let Some(owned) = reader.next()? else {
            return Ok(());
        };
        exporter.export_packet(&owned.packet(), out)?;
        reader.give_back(owned);
    }
    // a recording of fewer than 2^64 bytes ends before
    Err(ExportEnd::Memory)
}

/// Flushes an output.
fn hand_on<W: Write>(out: &mut W) -> Result<(), ExportFault>
    ensures kept { Keeps (W.contents out.old) (W.contents out.new) }
    ensures fault { IfErr result (λ fault. fault ≡ Output) }
{
    match out.flush() {
        Ok(()) => Ok(()),
        Err(_) => Err(ExportFault::Output),
    }
}
