//! How a command ends: its exit status, and the text of a fault.

ghost use Rattle.std.specs.Prelude.{◌≡◌, ◌<◌, ◌⊎◌};
ghost use Rattle.cli_streams.specs.declared.ending.CommandEnding.TheVariants.{File, Memory};
ghost use Rattle.cli_streams.specs.Endings.{reading_ending};
ghost use Rattle.cli_streams.specs.OwnPlaces.{IsJoinedRefusal, placed_ending};

use crate::listed::ListedFault;
use crate::output::print_line;
use crate::own_place::{own_place, refused_as, refused_at};
use crate::recording_fault::RecordingFault;
use crate::run_refusal::RunRefusal;
use crate::view::ViewFault;
use bpf_asm::AsmFault;
use bpf_dis::DisFault;
use bpf_insn::ListingFault;
use bpf_verify::Refused;
use rec_reader::{AuditFault, ReadEnd, ReadFaultKind};
use rec_stream::StreamRefusal;
use rec_whole::WholeRefusal;
use rec_words::{SettingsFault, SetupFault};
use std::alloc::{AllocError, AllocFailed, Global};
use std::io;
use std::io::{ErrorKind, Write};
use thiserror::Error;

/// The status where the command did what was asked.
pub const ANSWERED: u8 = 0;
/// The status where a text, a listing, a program, a view or a recording was refused.
const REFUSED: u8 = 1;
/// The status where the words of the command line were no command, or settings were refused.
const WORDS: u8 = 2;
/// The status where a file or a stream couldn't be read or written.
const FILE: u8 = 3;
/// The status where there was no memory.
const MEMORY: u8 = 4;

/// The name of standard input and standard output among files.
pub const STREAM: &str = "-";

/// Why a command ends with another status than [`ANSWERED`]. Its text is what is printed.
#[derive(Debug, Drop, Error)]
pub enum CommandEnding<'a> {
    /// A file couldn't be read, is no UTF-8 where text is wanted, or couldn't be written.
    #[error("file {0}\n")]
    File(&'a str),
    /// A file that the settings name couldn't be read, or is no UTF-8.
    #[error("file {0}\n")]
    NamedFile(String),
    #[error("{0}\n")]
    Assembler(#[from] AsmFault),
    #[error("{0}\n")]
    Disassembler(#[from] DisFault),
    #[error("{0}\n")]
    Listing(#[from] ListingFault),
    /// A program is refused; with its path a refusal may be long, and would make each ending so.
    #[error("{0}\n")]
    Refused(Box<Refused>),
    #[error("{0}\n")]
    View(#[from] ViewFault),
    /// A recording isn't read to its end.
    #[error("{0}\n")]
    Reading(ReadEnd),
    /// A recording is not approved.
    #[error("{0}\n")]
    Audit(AuditFault),
    #[error("{0}\n")]
    Settings(#[from] SettingsFault),
    #[error("{0}\n")]
    Setup(#[from] SetupFault),
    /// A recording can't be a whole file.
    #[error("{0}\n")]
    Whole(#[from] WholeRefusal),
    /// Several recordings can't be one: why, of the recording at this place.
    #[error("{refusal} {place}\n")]
    Joined { refusal: WholeRefusal, place: usize },
    /// The recording at this place of several can't be in their file, by those of its run.
    #[error("{refusal} {place}\n")]
    InRun { refusal: RunRefusal, place: usize },
    /// The recording at this place of several isn't read to its end.
    #[error("{end} {place}\n")]
    JoinedReading { end: ReadEnd, place: usize },
    /// A recording goes out no further as a stream, of which standard output has the packets ahead.
    #[error("{0}\n")]
    Stream(#[from] StreamRefusal),
    /// A line of a script is refused; its number.
    #[error("script line {0}\n")]
    Script(u64),
    /// A recording did not end.
    #[error("{0}\n")]
    Recording(#[from] RecordingFault),
    /// A recording did not end, which was told when it happened.
    #[error("")]
    Told,
    /// The words are no command; the text is clap's, with its line feeds.
    #[error("{0}")]
    Words(String),
    /// The words couldn't be read.
    #[error("error: the words can't be read: {0}\n")]
    WordsUnread(&'a io::Error),
    #[error("memory\n")]
    Memory,
}

impl<'a> CommandEnding<'a> {
    /// What a failed read, creation or write of a file comes to.
    pub fn of_io(path: &'a str, error: &io::Error) -> CommandEnding<'a>
        ensures { (result ≡ Memory) ⊎ (result ≡ File path.entry) }
    {
        match error.kind() {
            ErrorKind::OutOfMemory => CommandEnding::Memory,
            _ => CommandEnding::File(path),
        }
    }

    /// What a failed read, creation or write comes to of a file that the settings name.
    pub fn of_named_io(path: String, error: &io::Error) -> CommandEnding<'a> {
        match error.kind() {
            ErrorKind::OutOfMemory => CommandEnding::Memory,
            _ => CommandEnding::NamedFile(path),
        }
    }

    /// What a text comes to that lists no program which may be installed.
    pub fn of_listed(alloc: Global, fault: ListedFault) -> CommandEnding<'a> {
        let refused = match fault {
            ListedFault::Listing(fault) => return CommandEnding::Listing(fault),
            ListedFault::Refused(refused) => refused,
        };
        match Box::new(alloc, refused) {
            Ok(refused) => CommandEnding::Refused(refused),
            Err(_) => CommandEnding::Memory,
        }
    }

    /// What a fault of a recording comes to.
    pub fn of_reading(path: &'a str, end: ReadEnd) -> CommandEnding<'a>
        ensures { result ≡ reading_ending path.entry end }
    {
        match end.kind {
            ReadFaultKind::Memory => CommandEnding::Memory,
            ReadFaultKind::Device => CommandEnding::File(path),
            _ => CommandEnding::Reading(end),
        }
    }

    /// What a refusal of several recordings comes to, with the place of the packet in the joined recording, in which
    /// each of them ends where it is said.
    pub fn of_joined(refusal: WholeRefusal, ends: &[u64]) -> CommandEnding<'a>
        ensures { IsJoinedRefusal ends.now refusal result }
    {
        let Some(at) = refused_at(refusal) else {
            return CommandEnding::Joined { refusal, place: 0 };
        };
        match own_place(ends, at) {
            Some((place, own)) => CommandEnding::Joined {
                refusal: refused_as(refusal, own),
                place,
            },
            // no packet stands there
            None => CommandEnding::Joined { refusal, place: 0 },
        }
    }

    /// What it is of the recording at this place of several: its refusal, or the fault of reading it, has the place
    /// behind it.
    pub fn with_place(self, place: usize) -> CommandEnding<'a>
        ensures { result ≡ placed_ending place self.entry }
    {
        match self {
            CommandEnding::Whole(refusal) => CommandEnding::Joined { refusal, place },
            CommandEnding::Reading(end) => CommandEnding::JoinedReading { end, place },
            ending => ending,
        }
    }

    /// Prints the text and gives the exit status. A refusal of the verifier, of the audit or of a whole
    /// file is an answer and goes to `output` as one write; all else goes to `errors`, where a failed
    /// write is passed over. Where `explains`, a line on what it means and what to do follows there.
    pub fn report<O: Write, E: Write>(
        self,
        alloc: Global,
        output: &mut O,
        errors: &mut E,
        explains: bool,
    ) -> u8
        ensures nonzero { 0 < result }
    {
        let hint = if explains { self.hint() } else { None };
        let status = self.report_text(alloc, output, errors);
        if let Some(hint) = hint {
            let _ = writeln!(errors, "bpfrec: {hint}");
        }
        status
    }

    /// Prints the text, and gives the exit status.
    fn report_text<O: Write, E: Write>(self, alloc: Global, output: &mut O, errors: &mut E) -> u8
        ensures nonzero { 0 < result }
    {
        if !matches!(
            self,
            CommandEnding::Refused(_)
                | CommandEnding::Audit(_)
                | CommandEnding::Whole(_)
                | CommandEnding::Joined { .. }
                | CommandEnding::InRun { .. }
        ) {
            return self.print_fault(alloc, errors);
        }
        let mut line = Vec::new(alloc);
        let built = write!(&mut line, "{self}");
        match print_line(output, &mut line, built) {
            Ok(()) => self.status(),
            Err(ending) => ending.print_fault(alloc, errors),
        }
    }

    /// Prints the text of a fault as one write, and gives its exit status. A failed write is passed
    /// over. Without memory for the text it goes out part by part.
    pub fn print_fault<E: Write>(&self, alloc: Global, errors: &mut E) -> u8
        ensures nonzero { 0 < result }
    {
        let mut text = Vec::new(alloc);
        let _ = match write!(&mut text, "{self}") {
            Ok(()) => errors.write_all(text.as_slice()),
            Err(_) => write!(errors, "{self}"),
        };
        self.status()
    }

    /// The exit status.
    fn status(&self) -> u8
        ensures nonzero { 0 < result }
    {
        match self {
            CommandEnding::Settings(SettingsFault::Memory)
            | CommandEnding::Setup(SetupFault::Memory) => MEMORY,
            CommandEnding::Words(_) | CommandEnding::WordsUnread(_) => WORDS,
            CommandEnding::Settings(_) | CommandEnding::Setup(_) => WORDS,
            CommandEnding::File(_) | CommandEnding::NamedFile(_) => FILE,
            CommandEnding::Listing(ListingFault::Memory) | CommandEnding::View(ViewFault::Memory) =>
                MEMORY,
            CommandEnding::Assembler(AsmFault::Memory)
            | CommandEnding::Disassembler(DisFault::Memory) => MEMORY,
            CommandEnding::Memory => MEMORY,
            CommandEnding::Assembler(_)
            | CommandEnding::Disassembler(_)
            | CommandEnding::Reading(_) => REFUSED,
            CommandEnding::Listing(_) | CommandEnding::Refused(_) | CommandEnding::View(_) =>
                REFUSED,
            CommandEnding::Joined { .. } | CommandEnding::JoinedReading { .. } => REFUSED,
            CommandEnding::InRun { .. } => REFUSED,
            CommandEnding::Recording(_) | CommandEnding::Stream(_) | CommandEnding::Told => REFUSED,
            CommandEnding::Audit(_) | CommandEnding::Script(_) | CommandEnding::Whole(_) => REFUSED,
        }
    }
}

impl<'a> From<AuditFault> for CommandEnding<'a> {
    fn from(fault: AuditFault) -> CommandEnding<'a> {
        match fault {
            AuditFault::Memory => CommandEnding::Memory,
            fault => CommandEnding::Audit(fault),
        }
    }
}

impl<'a> From<AllocError> for CommandEnding<'a> {
    ghost from_gives = { λ _ ending. ending ≡ Memory };

    fn from(_error: AllocError) -> CommandEnding<'a> {
        CommandEnding::Memory
    }
}

impl<'a, T: Drop> From<AllocFailed<T>> for CommandEnding<'a> {
    ghost from_gives = { λ _ ending. ending ≡ Memory };

    fn from(_error: AllocFailed<T>) -> CommandEnding<'a> {
        CommandEnding::Memory
    }
}
