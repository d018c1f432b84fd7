//! The program as a function: it reads the words, does what they ask for, and gives a status.

ghost use Rattle.std.specs.Prelude.{◌≡◌, ◌<◌, IfSome, OnOk, Ok, length, map, string_bytes};
ghost use Rattle.cli_filters.specs.Lines.{AnswersLines};
ghost use Rattle.rec_cli.specs.Answered.{AsksForStream, AnswersCommand, AnswersWords};

use crate::several::{join, several_in};
use cli_chapter11::{stream_chapter11, write_chapter11};
use cli_filters::{answer_lines, assemble_file, disassemble_file, run_file, verify_file};
use cli_reading::{
    audit_recording, export_frames, extract_frames, list_packets, upgrade_recording,
};
use cli_record::record_channels;
use cli_simulate::simulate_script;
use cli_streams::{ANSWERED, CommandEnding, LockFile, print_line, print_text};
use rec_pieces::PlacedRead;
use rec_words::{VERSION, Words, WordsFault, words_of};
use std::alloc::Global;
use std::io;
use std::io::{ErrorKind, Read, Write};
use std::rt::Files;
use std::sync::{Mutex, Wait};
use std::thread::Threads;

/// Runs the program on these words, without the program's name, and gives its exit status:
/// 0 answered, 1 refused, 2 words, 3 a file's fault, 4 no memory.
///
/// Without words it reads a listing and a view in hexadecimal, a line each, from `input`, and
/// prints `<value> <steps>`: what the program returns on the view, and after how many instructions.
/// Where `explains`, a line on what a refusal or a fault means follows it in `errors`, as on a terminal.
pub fn program<
    R: AllocGlobal + Files + Threads + Wait + Sync,
    I: Read + Send + Drop,
    O: Write,
    E: Write + Send + Drop,
>(rt: &R, words: &[String], input: I, output: &mut O, errors: E, explains: bool) -> u8
where
    R::File: Send + LockFile + PlacedRead,
    R::Dir: Send,
    ensures lines { length words.now ≡ 0 → result ≡ 0 → IfSome (I.remaining input) (λ bytes.
        AnswersLines bytes (O.contents output.old) (O.contents output.new)) }
    ensures asked { 0 < length words.now → result ≡ 0 → AnswersWords (map string_bytes words.now)
        (I.remaining input) (O.contents output.old) (O.contents output.new) (Ok (tt {0})) }
{
    if let Some(setup) = stream_setup(words) {
        return stream(rt, setup, input, output, errors, explains);
    }
    if let Some(asked) = several_in(words) {
        return join(rt, &asked, output, errors, explains);
    }
    let shared = Mutex::new(errors);
    let answer = if words.is_empty() {
        let mut input = input;
        answer_lines(rt.alloc(), &mut input, output)
    } else {
        obey(rt, words, input, output, &shared)
    };
    match answer {
        Ok(()) => ANSWERED,
        Err(ending) => ending.report(rt.alloc(), output, &mut shared.into_inner(), explains),
    }
}

/// SETUP, where the words are `chapter11 --stream SETUP`, which `clap` doesn't read. SETUP doesn't begin as an option.
fn stream_setup(words: &[String]) -> Option<&str>
    ensures three { IfSome result (λ _. length words.now ≡ 3) }
    ensures asked { IfSome result (λ _. AsksForStream (map string_bytes words.now)) }
{
    let [command, option, setup] = words else {
        return None;
    };
    if command.as_str() == "chapter11" && option.as_str() == "--stream" && !setup.starts_with('-') {
        Some(setup.as_str())
    } else {
        None
    }
}

/// Writes a recording as a stream, and gives the exit status.
fn stream<R: AllocGlobal + Files, I: Read + Drop, O: Write, E: Write + Drop>(
    rt: &R,
    setup: &str,
    input: I,
    output: &mut O,
    errors: E,
    explains: bool,
) -> u8 {
    let mut input = input;
    let mut errors = errors;
    match stream_chapter11(rt, setup, &mut input, output, &mut errors) {
        Ok(()) => ANSWERED,
        Err(ending) => ending.report(rt.alloc(), output, &mut errors, explains),
    }
}

/// Does what the words ask for.
fn obey<
    'a,
    R: AllocGlobal + Files + Threads + Wait + Sync,
    I: Read + Send + Drop,
    O: Write,
    E: Write + Send + Drop,
>(
    rt: &R,
    words: &'a [String],
    mut input: I,
    output: &mut O,
    errors: &Mutex<E>,
) -> Result<(), CommandEnding<'a>>
where
    R::File: Send + LockFile + PlacedRead,
    R::Dir: Send,
    ensures { OnOk result (AnswersWords (map string_bytes words.entry.now) (I.remaining input)
        (O.contents output.old) (O.contents output.new) result) }
{
    match words_of(rt.alloc(), words) {
        Ok(Words::Record { settings, out }) => {
            record_channels(rt, settings, out, input, output, errors)
        }
        Ok(command) => answer(rt, command, &mut input, output),
        Err(WordsFault::Help(text) | WordsFault::Version(text)) => print_help(output, text),
        Err(WordsFault::Words(text)) => Err(CommandEnding::Words(text)),
        Err(WordsFault::Memory) => Err(CommandEnding::Memory),
    }
}

/// Does one command.
fn answer<'a, R: AllocGlobal + Files, I: Read, O: Write>(
    rt: &R,
    command: Words<'a>,
    input: &mut I,
    output: &mut O,
) -> Result<(), CommandEnding<'a>>
where
    R::File: LockFile + PlacedRead,
    ensures { AnswersCommand command.entry (I.remaining input.old) (O.contents output.old)
        (O.contents output.new) result }
{
    match command {
        Words::Asm { file } => assemble_file(rt, file, input, output),
        Words::Dis { file } => disassemble_file(rt, file, input, output),
        Words::Verify { file } => verify_file(rt, file, input, output),
        Words::Run { file, view } => run_file(rt, file, view, input, output),
        Words::List { file } => list_packets(rt, file, input, output),
        Words::Audit { file } => audit_recording(rt, file, input, output),
        Words::Extract { file, channel, out } => extract_frames(
            rt, file, channel, out, input, output,
        ),
        Words::Upgrade { recording, out } => {
            upgrade_recording(rt, recording, out, input, output)
        }
        Words::Export { file, out, origin } => {
            export_frames(rt, file, out, origin, input, output)
        }
        Words::Chapter11 {
            recording,
            setup,
            out,
        } => write_chapter11(rt, recording, setup, out, output),
        Words::Simulate { file } => simulate_script(rt, file, input, output),
        Words::Version => print_version(rt.alloc(), output),
        Words::Record { .. } | Words::NoCommand => Err(CommandEnding::Words(String::new(
            rt.alloc(),
        ))),
    }
}

/// Prints the version, as clap does.
fn print_version<O: Write>(alloc: Global, output: &mut O) -> Result<(), CommandEnding<'static>> {
    let mut line = Vec::new(alloc);
    let built = writeln!(&mut line, "bpfrec {VERSION}");
    print_line(output, &mut line, built)
}

/// Prints the help or the version that was asked for.
fn print_help<O: Write>(output: &mut O, text: String) -> Result<(), CommandEnding<'static>> {
    print_text(output, text.as_str())
}

/// Prints why the words of the command line couldn't be read, and gives the exit status: 4 where
/// there is no memory for them, else 2, as for words that are no text.
pub fn words_unread<E: Write>(alloc: Global, error: &io::Error, mut errors: E) -> u8
where
    E: Drop,
    ensures nonzero { 0 < result }
{
    if error.kind() == ErrorKind::OutOfMemory {
        return CommandEnding::Memory.print_fault(alloc, &mut errors);
    }
    CommandEnding::WordsUnread(error).print_fault(alloc, &mut errors)
}
