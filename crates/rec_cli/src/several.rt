//! The command for several recordings, whose words `clap` doesn't read: it has no word that may stand many times ahead
//! of two others.

ghost use Rattle.std.specs.Prelude.{◌≡◌, ◌≤◌, IfSome, length, map, string_bytes};
ghost use Rattle.std.specs.List.{list_any};
ghost use Rattle.rec_cli.specs.Answered.{IsSeveral, is_option};

use cli_chapter11::write_joined;
use cli_streams::{ANSWERED, LockFile};
use rec_pieces::PlacedRead;
use std::io::Write;
use std::rt::Files;

/// What the words ask for.
#[derive(Clone, Copy)]
pub(crate) struct Several<'w> {
    /// The names of the recordings.
    pub recordings: &'w [String],
    /// The name of SETUP.
    pub setup: &'w str,
    /// The name of OUT.
    pub out: &'w str,
}

/// What the words ask for, where they are `chapter11 RECORDING.. SETUP OUT` with two recordings or more. None of them is
/// an option.
pub(crate) fn several_in(words: &[String]) -> Option<Several<'_>>
    ensures five { IfSome result (λ _. 5 ≤ length words.entry.now) }
    ensures asked { IfSome result (λ asked. IsSeveral (map string_bytes words.entry.now)
        (map string_bytes asked.recordings.now) asked.setup.now asked.out.now) }
{
    let [command, operands @ ..] = words else {
        return None;
    };
    if command.as_str() != "chapter11" || operands.len() < 4 || has_option(operands) {
        return None;
    }
    let (recordings, last) = operands.split_at(operands.len() - 2);
    Some(Several {
        recordings,
        setup: last[0].as_str(),
        out: last[1].as_str(),
    })
}

/// Whether one of the words is an option.
fn has_option(words: &[String]) -> bool
    ensures { result ≡ list_any is_option (map string_bytes words.now) }
{
    'words: for word in words {
        if is_option(word.as_str()) {
            return true;
        }
    }
    false
}

/// Whether a word is an option: it begins with `-`, which alone is the name of a stream.
fn is_option(word: &str) -> bool
    ensures { result ≡ is_option word.now }
{
    match word.as_bytes() {
        [first, _, ..] => *first == b'-',
        _ => false,
    }
}

/// Writes the file of several recordings, and gives the exit status.
pub(crate) fn join<R: AllocGlobal + Files, O: Write, E: Write + Drop>(
    rt: &R,
    asked: &Several<'_>,
    output: &mut O,
    errors: E,
    explains: bool,
) -> u8
where
    R::File: LockFile + PlacedRead,
{
    let mut errors = errors;
    match write_joined(rt, asked.recordings, asked.setup, asked.out, output) {
        Ok(()) => ANSWERED,
        Err(ending) => ending.report(rt.alloc(), output, &mut errors, explains),
    }
}
