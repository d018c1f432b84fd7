//! The file that a command writes, created after its buffer.

ghost use Rattle.std.specs.Prelude.{◌≡◌, IfErr, OnOk};
ghost use Rattle.std.specs.Io.KnownBytes.{Appends};
ghost use Rattle.cli_streams.specs.declared.ending.CommandEnding.TheVariants.{File};

use crate::created::{LockFile, create_output};
use crate::ending::CommandEnding;
use crate::forced::force_to_disk;
use crate::inputs::Inputs;
use std::fs::OpenFile;
use std::io;
use std::io::{BufWriter, ErrorKind, Write};
use std::rt::Files;

/// How many bytes of an output are written at once.
pub const OUTPUT_PIECE: usize = 65_536;

/// An output's file. It is created after the buffer before it, so that there is none if there is no
/// memory for the buffer.
#[derive(Drop)]
pub struct OutputFile<F> {
    file: Option<F>,
}

impl<F: OpenFile> OutputFile<F> {
    /// Forces what went out to its disk, if it has one.
    pub fn keep<'a>(&self, out: &'a str) -> Result<(), CommandEnding<'a>>
        ensures named { IfErr result (λ ending. ending ≡ File out.entry) }
    {
        match &self.file {
            Some(file) => force_to_disk(file).map_err(|_| CommandEnding::File(out)),
            None => Ok(()),
        }
    }
}

impl<F: Write> Write for OutputFile<F> {
    fn write(&mut self, buf: &[u8]) -> io::Result<usize> {
        match &mut self.file {
            Some(file) => file.write(buf),
            None => Err(io::Error::from(ErrorKind::NotFound)),
        }
    }

    fn flush(&mut self) -> io::Result<()> {
        match &mut self.file {
            Some(file) => file.flush(),
            None => Ok(()),
        }
    }
}

/// An output's file behind a buffer, created after it.
pub fn buffered_output<'a, R: AllocGlobal + Files>(
    rt: &R,
    inputs: &Inputs,
    out: &'a str,
) -> Result<BufWriter<OutputFile<R::File>>, CommandEnding<'a>>
where
    R::File: LockFile,
{
    let uncreated = OutputFile { file: None };
    let mut output = BufWriter::with_capacity(rt.alloc(), OUTPUT_PIECE, uncreated).map_err(
        |_| CommandEnding::Memory,
    )?;
    output.get_mut().file = Some(create_output(rt, inputs, out)?);
    Ok(output)
}

/// Writes to an output's file what was held in memory, and forces it to its disk.
pub fn write_held<'a, R: AllocGlobal + Files>(
    rt: &R,
    inputs: &Inputs,
    out: &'a str,
    held: &[u8],
) -> Result<(), CommandEnding<'a>>
where
    R::File: LockFile,
{
    let created = create_output(rt, inputs, out)?;
    let mut output = OutputFile {
        file: Some(created),
    };
    write_whole(out, &mut output, held)?;
    output.keep(out)
}

/// Writes all bytes to an output, and flushes it.
fn write_whole<'a, W: Write>(
    out: &'a str,
    output: &mut W,
    bytes: &[u8],
) -> Result<(), CommandEnding<'a>>
    ensures { OnOk result (Appends (W.contents output.old) (W.contents output.new) bytes.now) }
{
    output
        .write_all(bytes)
        .map_err(|_| CommandEnding::File(out))?;
    output.flush().map_err(|_| CommandEnding::File(out))
}
