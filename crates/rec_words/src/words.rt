//! What the words of the command line ask for, by `clap`.

ghost use Rattle.std.specs.Prelude.{◌≡◌, ◌⊎◌, true, map, string_bytes, IfOk, IfErr};
ghost use Rattle.clap.specs.Words.{HasKind, Kinds, fault_of, first_of, found_of, kind_of, rows_of, subcommand_of, subcommand_rows_of, takes};
ghost use Rattle.rec_words.specs.Commands.{AsksFor, bpfrec_app, texts_of, word_for};
ghost use Rattle.rec_words.specs.WordsFaults.{IsFaultOf};
ghost use Rattle.rec_words.specs.declared.words.WordsFault.TheVariants.{Memory};

use crate::command_line::bpfrec;
use clap::error::ErrorKind;
use clap::{ArgMatches, Error};
use std::alloc::{AllocError, Global};

/// What a command line asks for.
#[derive(Drop)]
pub enum Words<'a> {
    /// No command: clap takes no words without one.
    NoCommand,
    /// `asm FILE`
    Asm {
        file: &'a str,
    },
    /// `dis FILE`
    Dis {
        file: &'a str,
    },
    /// `verify FILE`
    Verify {
        file: &'a str,
    },
    /// `run FILE HEX`
    Run {
        file: &'a str,
        view: &'a str,
    },
    /// `list FILE`
    List {
        file: &'a str,
    },
    /// `audit FILE`
    Audit {
        file: &'a str,
    },
    /// `extract FILE CHANNEL OUT`
    Extract {
        file: &'a str,
        channel: &'a str,
        out: &'a str,
    },
    /// `upgrade IN OUT`
    Upgrade {
        recording: &'a str,
        out: &'a str,
    },
    /// `export FILE OUT [ORIGIN]`
    Export {
        file: &'a str,
        out: &'a str,
        origin: Option<&'a str>,
    },
    /// `chapter11 RECORDING SETUP OUT`
    Chapter11 {
        recording: &'a str,
        setup: &'a str,
        out: &'a str,
    },
    /// `record SETTINGS OUT`
    Record {
        settings: &'a str,
        out: &'a str,
    },
    /// `simulate FILE`
    Simulate {
        file: &'a str,
    },
    /// `version`
    Version,
}

/// Why the words ask for nothing. The texts are those of `clap`, with their line feeds.
#[derive(Drop)]
pub enum WordsFault {
    /// Help was asked for.
    Help(String),
    /// The words are no command.
    Words(String),
    /// There is no memory for them.
    Memory,
    /// The version was asked for.
    Version(String),
}

impl From<AllocError> for WordsFault {
    ghost from_gives = { λ _ fault. fault ≡ Memory };

    fn from(_error: AllocError) -> WordsFault {
        WordsFault::Memory
    }
}

/// The command that the words ask for, by `clap`; the program's name is not among the words.
pub fn words_of<'a>(alloc: Global, words: &'a [String]) -> Result<Words<'a>, WordsFault>
    ensures asked { IfOk result
        (AsksFor (subcommand_of bpfrec_app (map string_bytes words.entry.now))) }
    ensures takes { IfErr result (λ fault.
        takes bpfrec_app (map string_bytes words.entry.now) ≡ true → fault ≡ WordsFault.Memory) }
    ensures kinds { IfErr result
        (IsFaultOf (fault_of bpfrec_app (map string_bytes words.entry.now))) }
{
    let command = bpfrec(alloc)?;
    match command.try_get_matches_from(words) {
        Ok(matches) => Ok(command_in(&matches)),
        Err(error) => Err(fault_from(alloc, error)),
    }
}

/// The command that the words have, with its own words.
fn command_in<'a>(matches: &ArgMatches<'a>) -> Words<'a>
    ensures { AsksFor (subcommand_rows_of matches.now) result }
{
    let Some((name, inner)) = matches.subcommand() else {
        return Words::NoCommand;
    };
    let file = word_for(inner, "FILE");
    if name == "asm" {
        return Words::Asm { file };
    }
    if name == "dis" {
        return Words::Dis { file };
    }
    if name == "verify" {
        return Words::Verify { file };
    }
    if name == "run" {
        let view = word_for(inner, "HEX");
        return Words::Run { file, view };
    }
    if name == "list" {
        return Words::List { file };
    }
    if name == "audit" {
        return Words::Audit { file };
    }
    if name == "extract" {
        let channel = word_for(inner, "CHANNEL");
        let out = word_for(inner, "OUT");
        return Words::Extract { file, channel, out };
    }
    if name == "upgrade" {
        let recording = word_for(inner, "IN");
        let out = word_for(inner, "OUT");
        return Words::Upgrade { recording, out };
    }
    if name == "export" {
        let out = word_for(inner, "OUT");
        let origin = optional_word_for(inner, "ORIGIN");
        return Words::Export { file, out, origin };
    }
    if name == "chapter11" {
        let recording = word_for(inner, "RECORDING");
        let setup = word_for(inner, "SETUP");
        let out = word_for(inner, "OUT");
        return Words::Chapter11 {
            recording,
            setup,
            out,
        };
    }
    if name == "record" {
        let settings = word_for(inner, "SETTINGS");
        let out = word_for(inner, "OUT");
        return Words::Record { settings, out };
    }
    if name == "simulate" {
        return Words::Simulate { file };
    }
    if name == "version" {
        return Words::Version;
    }
    Words::NoCommand
}

/// The word that a command has for this name.
fn word_for<'a>(matches: &ArgMatches<'a>, name: &str) -> &'a str
    ensures { result.now ≡ word_for name.now (rows_of (found_of matches.now)) }
{
    matches.get_str(name).unwrap_or("")
}

/// The word that a command has for this name, if it has one.
fn optional_word_for<'a>(matches: &ArgMatches<'a>, name: &str) -> Option<&'a str>
    ensures { texts_of result ≡ first_of name.now (rows_of (found_of matches.now)) }
{
    matches.get_str(name)
}

/// What an error of clap comes to.
fn fault_from(alloc: Global, error: Error) -> WordsFault
    ensures kinds { (kinds : Kinds) → HasKind kinds error → IsFaultOf kinds result }
    ensures memory { kind_of error ≡ ErrorKind.OutOfMemory → result ≡ WordsFault.Memory }
{
    let kind = error.kind();
    let Ok(text) = error.to_string(alloc) else {
        return WordsFault::Memory;
    };
    match kind {
        ErrorKind::OutOfMemory => WordsFault::Memory,
        ErrorKind::DisplayHelp => WordsFault::Help(text),
        ErrorKind::DisplayVersion => WordsFault::Version(text),
        _ => WordsFault::Words(text),
    }
}
