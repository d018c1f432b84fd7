//! The command line as `clap` reads it: a table of the commands.
mod help;

ghost use Rattle.std.specs.Prelude.{◌≡◌, IfOk, false, map};
ghost use Rattle.clap.specs.Words.{app_of, rule_of};
ghost use Rattle.clap.specs.declared.builder.Command.TheViews.{out-Command as fields_of};
ghost use Rattle.rec_words.specs.Commands.{bpfrec_app, command_app, operand_rule, top_app, with_commands};
ghost use Rattle.rec_words.specs.CommandTexts.{command_data, word_data};

use crate::command_line::help::{ABOUT, HelpText, STATUSES, text_of};
use clap::{Arg, ArgAction, Command};
use std::alloc::{AllocError, Global};

/// The version of the program.
pub const VERSION: &str = "0.1.0";

/// A command, its words and its help.
pub(crate) struct CommandTexts {
    /// Its name.
    pub(crate) name: &'static str,
    /// Its name as a user writes it.
    pub(crate) usage: &'static str,
    /// What it does, on one line.
    pub(crate) about: &'static str,
    /// What else help says of it.
    pub(crate) help: HelpText,
    /// The words after it, in order.
    pub(crate) words: &'static [WordTexts],
}

/// A word after a command, and its help.
pub(crate) struct WordTexts {
    /// The name that usage and help show.
    pub(crate) name: &'static str,
    /// What the word is.
    pub(crate) help: &'static str,
    /// Whether it must be given.
    pub(crate) is_required: bool,
}

/// A file with a listing.
const LISTING: WordTexts = WordTexts {
    name: "FILE",
    help: "A program's listing: the count, then code jt jf k of each instruction",
    is_required: true,
};

/// A file with a recording.
const RECORDING: WordTexts = WordTexts {
    name: "FILE",
    help: "A recording: packets, one after the other",
    is_required: true,
};

/// The commands, in the order in which help lists them.
const COMMANDS: &[CommandTexts] = &[
    CommandTexts {
        name: "asm",
        usage: "bpfrec asm",
        about: "Prints the listing of a filter's text",
        help: HelpText::Asm,
        words: &[WordTexts {
            name: "FILE",
            help: "A filter in the text of the Linux kernel's bpf_asm",
            is_required: true,
        }],
    },
    CommandTexts {
        name: "dis",
        usage: "bpfrec dis",
        about: "Prints the text of a program's listing",
        help: HelpText::Dis,
        words: &[LISTING],
    },
    CommandTexts {
        name: "verify",
        usage: "bpfrec verify",
        about: "Says whether a program may be installed",
        help: HelpText::Verify,
        words: &[LISTING],
    },
    CommandTexts {
        name: "run",
        usage: "bpfrec run",
        about: "Runs a program on a view",
        help: HelpText::Run,
        words: &[
            LISTING,
            WordTexts {
                name: "HEX",
                help: "The view in hexadecimal",
                is_required: true,
            },
        ],
    },
    CommandTexts {
        name: "list",
        usage: "bpfrec list",
        about: "Prints a line for each packet of a recording",
        help: HelpText::List,
        words: &[RECORDING],
    },
    CommandTexts {
        name: "audit",
        usage: "bpfrec audit",
        about: "Judges a recording by its own packets",
        help: HelpText::Audit,
        words: &[RECORDING],
    },
    CommandTexts {
        name: "extract",
        usage: "bpfrec extract",
        about: "Writes a channel's frames into a feed",
        help: HelpText::Extract,
        words: &[
            RECORDING,
            WordTexts {
                name: "CHANNEL",
                help: "The channel ID, a number from 0 to 65535",
                is_required: true,
            },
            WordTexts {
                name: "OUT",
                help: "The feed that is written",
                is_required: true,
            },
        ],
    },
    CommandTexts {
        name: "upgrade",
        usage: "bpfrec upgrade",
        about: "Adds data checksums to an old recording",
        help: HelpText::Upgrade,
        words: &[
            WordTexts {
                name: "IN",
                help: "A recording: packets, one after the other",
                is_required: true,
            },
            WordTexts {
                name: "OUT",
                help: "The recording that is written",
                is_required: true,
            },
        ],
    },
    CommandTexts {
        name: "export",
        usage: "bpfrec export",
        about: "Writes all channels' frames into a pcapng file",
        help: HelpText::Export,
        words: &[
            RECORDING,
            WordTexts {
                name: "OUT",
                help: "The pcapng file that is written",
                is_required: true,
            },
            WordTexts {
                name: "ORIGIN",
                help: "Seconds from 1970 to counter 0, which are added to times",
                is_required: false,
            },
        ],
    },
    CommandTexts {
        name: "chapter11",
        usage: "bpfrec chapter11",
        about: "Writes a whole Chapter 11 file of a recording",
        help: HelpText::Chapter11,
        words: &[
            WordTexts {
                name: "RECORDING",
                help: "A recording: packets, one after the other; a regular file",
                is_required: true,
            },
            WordTexts {
                name: "SETUP",
                help: "The times of counters and the names of channels",
                is_required: true,
            },
            WordTexts {
                name: "OUT",
                help: "The Chapter 11 file that is written",
                is_required: true,
            },
        ],
    },
    CommandTexts {
        name: "record",
        usage: "bpfrec record",
        about: "Records channels through their filters",
        help: HelpText::Record,
        words: &[
            WordTexts {
                name: "SETTINGS",
                help: "The channels, their feeds and filters",
                is_required: true,
            },
            WordTexts {
                name: "OUT",
                help: "The recording that is written",
                is_required: true,
            },
        ],
    },
    CommandTexts {
        name: "simulate",
        usage: "bpfrec simulate",
        about: "Runs the recorder's core by a script",
        help: HelpText::Simulate,
        words: &[WordTexts {
            name: "FILE",
            help: "A script: a recorder, its channels, and events, a line each",
            is_required: true,
        }],
    },
    CommandTexts {
        name: "version",
        usage: "bpfrec version",
        about: "Prints the program's version",
        help: HelpText::Version,
        words: &[],
    },
];

/// The command line of the program, with each of [`COMMANDS`].
pub(crate) fn bpfrec<'a>(alloc: Global) -> Result<Command<'a>, AllocError>
    ensures app { IfOk result (λ c. app_of c ≡ bpfrec_app) }
    ensures local { IfOk result (λ c. (fields_of c).has_globals ≡ false) }
{
    with_commands(alloc, COMMANDS)
}

/// The program with these commands, in order.
fn with_commands<'a>(alloc: Global, commands: &[CommandTexts]) -> Result<Command<'a>, AllocError>
    ensures app { IfOk result
        (λ c. app_of c ≡ with_commands top_app (map command_data commands.now)) }
    ensures local { IfOk result (λ c. (fields_of c).has_globals ≡ false) }
{
    let mut program = top(alloc)?;
    'commands: for texts in commands {
        program = program.subcommand(command(alloc, texts)?)?;
    }
    Ok(program)
}

/// The program without its commands.
fn top<'a>(alloc: Global) -> Result<Command<'a>, AllocError>
    ensures app { IfOk result (λ c. app_of c ≡ top_app) }
    ensures local { IfOk result (λ c. (fields_of c).has_globals ≡ false) }
{
    let program = Command::new(alloc, "bpfrec").bin_name("bpfrec")?;
    Ok(
        program
            .about(ABOUT)
            .version(VERSION)
            .after_help(STATUSES)
            .no_binary_name(true)
            .subcommand_required(true),
    )
}

/// A command with its words.
fn command<'a>(alloc: Global, texts: &CommandTexts) -> Result<Command<'a>, AllocError>
    ensures app { IfOk result (λ c. app_of c ≡ command_app (command_data texts.now)) }
    ensures local { IfOk result (λ c. (fields_of c).has_globals ≡ false) }
{
    let mut command = Command::new(alloc, texts.name)
        .bin_name(texts.usage)?
        .about(texts.about)
        .after_help(text_of(&texts.help));
    'words: for word in texts.words {
        command = command.arg(operand(alloc, word))?;
    }
    Ok(command)
}

/// A word.
fn operand<'a>(alloc: Global, texts: &WordTexts) -> Arg<'a>
    ensures rule { rule_of result ≡ operand_rule (word_data texts.now) }
    ensures local { result.global ≡ false }
{
    Arg::new(alloc, texts.name)
        .required(texts.is_required)
        .action(ArgAction::Set)
        .help(texts.help)
}
