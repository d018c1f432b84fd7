//! The recorder's program: the words and streams of the process, passed to `rec_cli`.
#![tactic(auto)]

use std::io::IsTerminal;
use std::process::ExitCode;
use std::rt::Files;
use std::{env, fs, io};

fn main(rt: HostRuntime) -> ExitCode {
    let _held = hold_streams(&rt);
    let errors = rt.stderr();
    let explains = errors.is_terminal();
    let status = match words(&rt) {
        Ok(words) => rec_cli::program(
            &rt,
            words.as_slice(),
            rt.reader(),
            &mut io::writer(&rt),
            errors,
            explains,
        ),
        Err(error) => rec_cli::words_unread(rt.alloc(), &error, rt.stderr()),
    };
    ExitCode::from(status)
}

/// The words after the program's name.
fn words(rt: &HostRuntime) -> io::Result<Vec<String>> {
    let mut words = Vec::new(rt.alloc());
    'words: for word in env::args(rt)?.skip(1) {
        words.push(word)?;
    }
    Ok(words)
}

/// Opens an empty file three times and holds it, so that each standard stream that is closed has one
/// in its place: else the next file that is opened would be read as standard input, or written as an
/// output.
fn hold_streams<R: Files>(rt: &R) -> [io::Result<R::File>; 3] {
    let empty = "/dev/null";
    [
        fs::open(rt, empty),
        fs::open(rt, empty),
        fs::open(rt, empty),
    ]
}
