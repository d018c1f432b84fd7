//! Drives the recorder's program through a table of cases and prints, for each, its words, its
//! output, its errors (a line of them begins with `! `) and its status. The files that the cases
//! name lie in `data/`; the listings of texts go from one command to the next. The stored output
//! is the record of all that the program prints.
#![tactic(auto)]

mod audits;
mod cases;
mod exports;
mod extracts;
mod limits;
mod records;
mod run;
mod scripts;
mod texts;
mod upgrades;
mod values;
mod wholes;

use audits::show_audits;
use cases::{CHECKED, HELP, PROGRAMS, RECORDINGS, REFUSED};
use exports::{EXPORTS, ExportCase};
use extracts::{EXTRACTS, ExtractCase};
use limits::show_limits;
use rec_cli::{LockFile, PlacedRead};
use records::show_records;
use run::{Input, NOTHING, run_program, show_closed, show_run, title};
use scripts::show_scripts;
use std::rt::Files;
use std::sync::Wait;
use std::thread::Threads;
use std::{fs, io};
use texts::{FILTERS, TEXTS, TextCase};
use upgrades::{UPGRADES, UpgradeCase};
use values::show_values;
use wholes::{JOINED, WHOLES, WholeCase};

/// The number of packets of a long recording, of 52 bytes each.
const LONG: u64 = 40_000;

fn main(rt: HostRuntime) -> io::Result<()> {
    show_programs(&rt)?;
    show_recordings(&rt)?;
    show_refused(&rt)?;
    show_checked(&rt)?;
    show_extracts(&rt)?;
    show_exports(&rt)?;
    show_upgrades(&rt)?;
    show_wholes(&rt)?;
    show_long_list(&rt)?;
    show_texts(&rt)?;
    show_filters(&rt)?;
    show_helps(&rt)?;
    show_piped(&rt)?;
    show_closed_output(&rt)?;
    show_records(&rt)?;
    show_audits(&rt)?;
    show_scripts(&rt)?;
    show_values(&rt)?;
    show_limits(&rt)
}

/// Each table has a function of its own, since its check takes time and memory for each row.
fn show_programs<R: AllocGlobal + Files + Print + Threads + Wait + Sync>(rt: &R) -> io::Result<()>
where
    R::File: Send + LockFile + PlacedRead,
    R::Dir: Send,
{
    for words in PROGRAMS {
        show_run(rt, words, NOTHING)?;
    }
    Ok(())
}

fn show_recordings<R: AllocGlobal + Files + Print + Threads + Wait + Sync>(rt: &R) -> io::Result<()>
where
    R::File: Send + LockFile + PlacedRead,
    R::Dir: Send,
{
    for words in RECORDINGS {
        show_run(rt, words, NOTHING)?;
    }
    Ok(())
}

fn show_refused<R: AllocGlobal + Files + Print + Threads + Wait + Sync>(rt: &R) -> io::Result<()>
where
    R::File: Send + LockFile + PlacedRead,
    R::Dir: Send,
{
    for words in REFUSED {
        show_run(rt, words, NOTHING)?;
    }
    Ok(())
}

fn show_checked<R: AllocGlobal + Files + Print + Threads + Wait + Sync>(rt: &R) -> io::Result<()>
where
    R::File: Send + LockFile + PlacedRead,
    R::Dir: Send,
{
    for words in CHECKED {
        show_run(rt, words, NOTHING)?;
    }
    Ok(())
}

fn show_extracts<R: AllocGlobal + Files + Print + Threads + Wait + Sync>(rt: &R) -> io::Result<()>
where
    R::File: Send + LockFile + PlacedRead,
    R::Dir: Send,
{
    for case in &EXTRACTS {
        show_extract(rt, case)?;
    }
    Ok(())
}

fn show_exports<R: AllocGlobal + Files + Print + Threads + Wait + Sync>(rt: &R) -> io::Result<()>
where
    R::File: Send + LockFile + PlacedRead,
    R::Dir: Send,
{
    for case in &EXPORTS {
        show_export(rt, case)?;
    }
    Ok(())
}

fn show_upgrades<R: AllocGlobal + Files + Print + Threads + Wait + Sync>(rt: &R) -> io::Result<()>
where
    R::File: Send + LockFile + PlacedRead,
    R::Dir: Send,
{
    for case in &UPGRADES {
        show_upgrade(rt, case)?;
    }
    Ok(())
}

fn show_wholes<R: AllocGlobal + Files + Print + Threads + Wait + Sync>(rt: &R) -> io::Result<()>
where
    R::File: Send + LockFile + PlacedRead,
    R::Dir: Send,
{
    for case in &WHOLES {
        show_whole(rt, case)?;
    }
    for words in JOINED {
        show_run(rt, words, NOTHING)?;
    }
    show_file(rt, "file", "joined")?;
    Ok(())
}

fn show_texts<R: AllocGlobal + Files + Print + Threads + Wait + Sync>(rt: &R) -> io::Result<()>
where
    R::File: Send + LockFile + PlacedRead,
    R::Dir: Send,
{
    for text in &TEXTS {
        show_text(rt, text)?;
    }
    Ok(())
}

fn show_filters<R: AllocGlobal + Files + Print + Threads + Wait + Sync>(rt: &R) -> io::Result<()>
where
    R::File: Send + LockFile + PlacedRead,
    R::Dir: Send,
{
    for filter in &FILTERS {
        show_text(rt, filter)?;
    }
    Ok(())
}

fn show_helps<R: AllocGlobal + Files + Print + Threads + Wait + Sync>(rt: &R) -> io::Result<()>
where
    R::File: Send + LockFile + PlacedRead,
    R::Dir: Send,
{
    for words in HELP {
        show_help(rt, words)?;
    }
    Ok(())
}

/// A text: its listing is stored as the file `listing`, and then checked and run on each view.
fn show_text<R: AllocGlobal + Files + Print + Threads + Wait + Sync>(
    rt: &R,
    text: &TextCase,
) -> io::Result<()>
where
    R::File: Send + LockFile + PlacedRead,
    R::Dir: Send,
{
    let listing = show_run(rt, &["asm", text.file], NOTHING)?;
    fs::write(rt, "listing", listing.output().as_bytes())?;
    show_run(rt, &["verify", "listing"], NOTHING)?;
    for view in text.views {
        show_run(rt, &["run", "listing", view], NOTHING)?;
    }
    Ok(())
}

/// A recording of so many packets that it is longer than the pieces of a mebibyte in which it is
/// read, and so is its list: how many packets are listed as they must be, and all other lines.
fn show_long_list<R: AllocGlobal + Files + Print + Threads + Wait + Sync>(rt: &R) -> io::Result<()>
where
    R::File: Send + LockFile + PlacedRead,
    R::Dir: Send,
{
    let recording = fs::read(rt, "recordings/two_versions.ch11")?;
    let end = recording.get(180..).unwrap_or(&[]);
    let mut bytes = Vec::new(rt.alloc());
    for _ in 0..LONG {
        bytes.extend_from_slice(end)?;
    }
    fs::write(rt, "long.ch11", bytes.as_slice())?;
    let words = ["list", "long.ch11"];
    let run = run_program(rt, &words, NOTHING)?;
    title(rt, &words)?;
    let mut packets = 0u64;
    for line in run.output().lines() {
        let want = format!(in rt.alloc();
            "{} 0 00 2 52 28 32 end 1 2 1",
            packets.wrapping_mul(52)
        )?;
        if line == want.as_str() {
            packets = packets.wrapping_add(1);
        } else {
            println!(rt; "{line}")?;
        }
    }
    println!(rt; "{packets} packets at their places")?;
    println!(rt; "= {}, {} bytes of errors", run.status, run.errors().len())
}

/// A channel's feed: what is printed, and then the bytes of the feed, if it was created.
fn show_extract<R: AllocGlobal + Files + Print + Threads + Wait + Sync>(
    rt: &R,
    case: &ExtractCase,
) -> io::Result<()>
where
    R::File: Send + LockFile + PlacedRead,
    R::Dir: Send,
{
    show_run(
        rt,
        &["extract", case.recording, case.channel, case.feed],
        NOTHING,
    )?;
    show_file(rt, "feed", case.feed)?;
    Ok(())
}

/// A recording's export: what is printed, and then the bytes of the file, if it was created.
fn show_export<R: AllocGlobal + Files + Print + Threads + Wait + Sync>(
    rt: &R,
    case: &ExportCase,
) -> io::Result<()>
where
    R::File: Send + LockFile + PlacedRead,
    R::Dir: Send,
{
    match case.origin {
        Some(origin) => show_run(rt, &["export", case.recording, case.out, origin], NOTHING)?,
        None => show_run(rt, &["export", case.recording, case.out], NOTHING)?,
    };
    show_file(rt, "file", case.out)?;
    Ok(())
}

/// A recording's upgrade: what is printed, and then the bytes of the file, if it was created, and its
/// audit.
fn show_upgrade<R: AllocGlobal + Files + Print + Threads + Wait + Sync>(
    rt: &R,
    case: &UpgradeCase,
) -> io::Result<()>
where
    R::File: Send + LockFile + PlacedRead,
    R::Dir: Send,
{
    show_run(rt, &["upgrade", case.recording, case.out], NOTHING)?;
    if show_file(rt, "file", case.out)? {
        show_run(rt, &["audit", case.out], NOTHING)?;
    }
    Ok(())
}

/// A recording's whole file: what is printed, and then the bytes of the file, if it was created.
fn show_whole<R: AllocGlobal + Files + Print + Threads + Wait + Sync>(
    rt: &R,
    case: &WholeCase,
) -> io::Result<()>
where
    R::File: Send + LockFile + PlacedRead,
    R::Dir: Send,
{
    show_run(
        rt,
        &["chapter11", case.recording, case.setup, case.out],
        NOTHING,
    )?;
    show_file(rt, "file", case.out)?;
    Ok(())
}

/// The bytes of a file behind a word, if it was created; whether it was.
fn show_file<R: AllocGlobal + Files + Print>(rt: &R, word: &str, file: &str) -> io::Result<bool> {
    let Ok(bytes) = fs::read(rt, file) else {
        println!(rt; "no {word}")?;
        return Ok(false);
    };
    print!(rt; "{word}")?;
    for byte in &bytes {
        print!(rt; " {byte:02x}")?;
    }
    println!(rt)?;
    Ok(true)
}

/// Help is shown by its stream, its status and the commands that it names, not by its text.
fn show_help<R: AllocGlobal + Files + Print + Threads + Wait + Sync>(
    rt: &R,
    words: &[&str],
) -> io::Result<()>
where
    R::File: Send + LockFile + PlacedRead,
    R::Dir: Send,
{
    let run = run_program(rt, words, NOTHING)?;
    title(rt, words)?;
    for name in [
        "asm",
        "dis",
        "verify",
        "run",
        "audit",
        "extract",
        "upgrade",
        "export",
        "chapter11",
        "simulate",
        "FILE",
        "HEX",
        "CHANNEL",
        "RECORDING",
        "SETUP",
        "OUT",
        "ORIGIN",
        "Usage",
    ] {
        if run.output().contains(name) {
            println!(rt; "names {name}")?;
        }
    }
    println!(rt; "= {}, {} bytes of errors", run.status, run.errors().len())
}

/// Each command that reads a file, by `-` from standard input.
fn show_piped<R: AllocGlobal + Files + Print + Threads + Wait + Sync>(rt: &R) -> io::Result<()>
where
    R::File: Send + LockFile + PlacedRead,
    R::Dir: Send,
{
    for (file, words) in [
        ("filters/arp.bpf", ["asm", "-"].as_slice()),
        ("arp", &["dis", "-"]),
        ("arp", &["verify", "-"]),
        ("arp", &["run", "-", cases::ARP]),
        ("recordings/two_versions.ch11", &["list", "-"]),
        (
            "recordings/two_versions.ch11",
            &["extract", "-", "1", "feed_piped"],
        ),
        ("recordings/two_versions.ch11", &["audit", "-"]),
        (
            "recordings/two_versions.ch11",
            &["upgrade", "-", "new_piped"],
        ),
        ("recordings/cut_to_210.ch11", &["list", "-"]),
        (
            "recordings/cut_to_210.ch11",
            &["extract", "-", "1", "feed_cut"],
        ),
        ("recordings/cut_to_210.ch11", &["upgrade", "-", "new_cut"]),
        (
            "recordings/cut_to_210.ch11",
            &["extract", "-", "1", "arp/feed"],
        ),
        ("recordings/cut_to_210.ch11", &["upgrade", "-", "arp/new"]),
        (
            "recordings/two_versions.ch11",
            &["extract", "-", "1", "arp/feed"],
        ),
        ("recordings/two_versions.ch11", &["upgrade", "-", "arp/new"]),
        ("not_utf8", &["asm", "-"]),
    ] {
        let input = fs::read(rt, file)?;
        show_run(rt, words, Input::Bytes(input.as_slice()))?;
    }
    for (word, file) in [("feed", "feed_piped"), ("file", "new_piped")] {
        show_file(rt, word, file)?;
    }
    Ok(())
}

fn show_closed_output<R: AllocGlobal + Files + Print + Threads + Wait + Sync>(
    rt: &R,
) -> io::Result<()>
where
    R::File: Send + LockFile + PlacedRead,
    R::Dir: Send,
{
    for words in [
        ["verify", "arp"].as_slice(),
        &["verify", "no_return"],
        &["run", "arp", ""],
        &["list", "recordings/two_versions.ch11"],
        &["audit", "recordings/two_versions.ch11"],
        &["audit", "recordings/frames.ch11"],
        &[
            "extract",
            "recordings/two_versions.ch11",
            "1",
            "feed_closed",
        ],
        &["upgrade", "recordings/two_versions.ch11", "new_closed"],
        &["--help"],
    ] {
        show_closed(rt, words)?;
    }
    Ok(())
}
