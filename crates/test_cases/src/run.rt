//! A run of the program. Its input and its output are of one type each: a caller of the program is
//! proved anew for each pair of types.

use rec_cli::{LockFile, PlacedRead};
use std::alloc::AllocError;
use std::io;
use std::io::{ErrorKind, Read, Write};
use std::rt::Files;
use std::sync::Wait;
use std::thread::Threads;

/// No input.
pub(crate) const NOTHING: Input<'static> = Input::Bytes(b"");

/// A standard input.
#[derive(Clone, Copy)]
pub(crate) enum Input<'b> {
    /// It gives these bytes, and ends.
    Bytes(&'b [u8]),
    /// It gives these bytes, and has no memory for more.
    Exhausted(&'b [u8]),
}

impl Read for Input<'_> {
    fn read(&mut self, buf: &mut [u8]) -> io::Result<usize> {
        match self {
            Input::Exhausted(left) if left.is_empty() => {
                Err(io::Error::from(ErrorKind::OutOfMemory))
            }
            Input::Bytes(left) | Input::Exhausted(left) => left.read(buf),
        }
    }
}

/// A standard output.
#[derive(Drop)]
enum Output {
    /// It keeps what is written.
    Kept(Vec<u8>),
    /// It can't be written.
    Closed,
}

impl Write for Output {
    fn write(&mut self, buf: &[u8]) -> io::Result<usize> {
        match self {
            Output::Kept(bytes) => bytes.write(buf),
            Output::Closed => Err(io::Error::from(ErrorKind::BrokenPipe)),
        }
    }

    fn flush(&mut self) -> io::Result<()> {
        match self {
            Output::Kept(bytes) => bytes.flush(),
            Output::Closed => Err(io::Error::from(ErrorKind::BrokenPipe)),
        }
    }
}

/// What a run left.
#[derive(Drop)]
pub(crate) struct Run {
    output: Output,
    errors: Vec<u8>,
    /// The status.
    pub(crate) status: u8,
}

impl Run {
    /// What was written to standard output.
    pub(crate) fn output(&self) -> &str {
        match &self.output {
            Output::Kept(bytes) => text(bytes),
            Output::Closed => "",
        }
    }

    /// What was written to standard error.
    pub(crate) fn errors(&self) -> &str {
        text(&self.errors)
    }
}

/// Runs the program on these words and this input.
pub(crate) fn run_program<R: AllocGlobal + Files + Threads + Wait + Sync>(
    rt: &R,
    words: &[&str],
    input: Input<'_>,
) -> io::Result<Run>
where
    R::File: Send + LockFile + PlacedRead,
    R::Dir: Send,
{
    run_into(rt, words, input, Output::Kept(Vec::new(rt.alloc())))
}

/// Runs the program on these words and this input, and shows what it prints.
pub(crate) fn show_run<R: AllocGlobal + Files + Print + Threads + Wait + Sync>(
    rt: &R,
    words: &[&str],
    input: Input<'_>,
) -> io::Result<Run>
where
    R::File: Send + LockFile + PlacedRead,
    R::Dir: Send,
{
    let run = run_program(rt, words, input)?;
    title(rt, words)?;
    print!(rt; "{}", run.output())?;
    for line in run.errors().lines() {
        println!(rt; "! {line}")?;
    }
    println!(rt; "= {}", run.status)?;
    Ok(run)
}

/// Runs the program on these words with an output that can't be written, and shows its errors.
pub(crate) fn show_closed<R: AllocGlobal + Files + Print + Threads + Wait + Sync>(
    rt: &R,
    words: &[&str],
) -> io::Result<()>
where
    R::File: Send + LockFile + PlacedRead,
    R::Dir: Send,
{
    let run = run_into(rt, words, NOTHING, Output::Closed)?;
    title(rt, words)?;
    print!(rt; "! {}", run.errors())?;
    println!(rt; "= {}, with a closed output", run.status)
}

/// The words of a run.
pub(crate) fn title<R: Print>(rt: &R, words: &[&str]) -> io::Result<()> {
    print!(rt; "$ bpfrec")?;
    for word in words {
        print!(rt; " {}", if word.is_empty() { "''" } else { *word })?;
    }
    println!(rt)
}

fn run_into<R: AllocGlobal + Files + Threads + Wait + Sync>(
    rt: &R,
    words: &[&str],
    input: Input<'_>,
    output: Output,
) -> io::Result<Run>
where
    R::File: Send + LockFile + PlacedRead,
    R::Dir: Send,
{
    let owned = words_of(rt, words)?;
    let mut output = output;
    let mut errors = Vec::new(rt.alloc());
    let status = rec_cli::program(rt, owned.as_slice(), input, &mut output, &mut errors, false);
    Ok(Run {
        output,
        errors,
        status,
    })
}

fn words_of<R: AllocGlobal>(rt: &R, words: &[&str]) -> Result<Vec<String>, AllocError> {
    let mut owned = Vec::new(rt.alloc());
    for word in words {
        owned.push(String::from_str(rt.alloc(), word)?)?;
    }
    Ok(owned)
}

fn text(bytes: &Vec<u8>) -> &str {
    str::from_utf8(bytes.as_slice()).unwrap_or("not UTF-8")
}
