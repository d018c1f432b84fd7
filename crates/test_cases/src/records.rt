//! Recordings.

use crate::run::{Input, NOTHING, run_program, show_closed, show_run, title};
use rec_cli::{LockFile, PlacedRead};
use std::io::Write;
use std::rt::Files;
use std::sync::Wait;
use std::thread::Threads;
use std::{fs, io};

/// Lines that are answered in each way; the last one has no line feed.
const CHANGES: &str = "set 1 records/keeps\nset 9 records/keeps\nset 1 nowhere\nset 1 not_utf8\n\
    set 1 wrong_count\nset 1 no_return\n\nhello\nset 7\nset 7 \nset 65536 records/keeps\n\
    set +1 records/keeps\nset  1 records/keeps\nset 1 .\nset 1 /dev/null\nset 1 records/keeps";

/// Recordings of one channel, whose bytes are always the same, with changes of a filter that has no
/// frame to meet; and what is refused before a recording is created: the settings, the recording's
/// file, a name of its own where one is created, and the lines of the input.
static RECORDS: [[&str; 3]; 28] = [
    ["records/two.toml", "two.ch11", ""],
    ["records/none.toml", "none.ch11", ""],
    ["records/none.toml", "changed.ch11", CHANGES],
    ["records/two.toml", "-", ""],
    ["-", "out", ""],
    ["not_utf8", "out", ""],
    ["records/syntax.toml", "out", ""],
    ["records/unknown.toml", "out", ""],
    ["records/missing.toml", "out", ""],
    ["records/value.toml", "out", ""],
    ["records/channels.toml", "out", ""],
    ["records/same_channel.toml", "out", ""],
    ["records/no_filter.toml", "out", ""],
    ["records/no_listing.toml", "out", ""],
    ["records/refused.toml", "out", ""],
    ["records/too_long.toml", "out", ""],
    ["records/no_feed.toml", "out", ""],
    ["records/feed_first.toml", "out", ""],
    ["records/two.toml", "nowhere/out", ""],
    // a device that two channels would read
    ["records/one_device.toml", "out", ""],
    // a recording's file that is an input, which keeps its bytes; and one that is none
    ["records/two.toml", "records/two.toml", ""],
    ["records/two.toml", "./records/two.toml", ""],
    ["records/two.toml", "records/keeps", ""],
    ["records/endings.toml", "./records/drops", ""],
    ["records/two.toml", "records/two.feed", ""],
    ["records/endings.toml", "./records/marks.feed", ""],
    ["records/two.toml", "./new.ch11", ""],
    ["records/two.toml", "new.ch11", ""],
];

/// A listing, which line feeds may follow.
const LISTING: &[u8] = b"1,6 0 0 0,";

/// The number of bytes of the longest listing that is read.
const LONGEST: usize = 1_048_576;

/// The line that [`show_full_versions`] repeats, as often as a channel may have programs.
const CHANGE: &[u8] = b"set 1 records/keeps\n";

const VERSIONS: u64 = 1_024;

/// The recordings of the table, one by the longest program, the endings of several channels, a folder
/// that two channels have for a feed, an output that fails and one that is locked, long inputs, as many changes as a channel may have,
/// listings at the bound and past it, an input without memory, and a closed output.
pub(crate) fn show_records<R: AllocGlobal + Files + Print + Threads + Wait + Sync>(
    rt: &R,
) -> io::Result<()>
where
    R::File: Send + LockFile + PlacedRead,
    R::Dir: Send,
{
    for [settings, out, lines] in &RECORDS {
        show_record(rt, settings, out, lines)?;
    }
    let longest = ["record", "records/long.toml", "longest.ch11"];
    show_run(rt, &longest, NOTHING)?;
    show_run(rt, &["audit", "longest.ch11"], NOTHING)?;
    let endings = ["record", "records/endings.toml", "endings.ch11"];
    show_run(rt, &endings, NOTHING)?;
    show_run(
        rt,
        &["record", "records/one_folder.toml", "folder.ch11"],
        NOTHING,
    )?;
    show_run(rt, &["record", "records/two.toml", "/dev/full"], NOTHING)?;
    show_locked(rt)?;
    show_long_input(rt, "no change\n", 65_537)?;
    show_long_input(rt, "0123456789abcdef", 1_048_577)?;
    show_full_versions(rt)?;
    show_long_listing(rt, "longest", "set 1 longest", LONGEST)?;
    show_long_listing(rt, "too_long", "set 1 too_long", LONGEST + 1)?;
    show_run(rt, &["record", "too_long", "out"], NOTHING)?;
    let exhausted = ["record", "records/none.toml", "exhausted.ch11"];
    show_run(rt, &exhausted, Input::Exhausted(CHANGE))?;
    show_closed(rt, &["record", "records/none.toml", "closed.ch11"])
}

/// A recording: what is printed, and then its bytes, if it was created.
pub(crate) fn show_record<R: AllocGlobal + Files + Print + Threads + Wait + Sync>(
    rt: &R,
    settings: &str,
    out: &str,
    lines: &str,
) -> io::Result<()>
where
    R::File: Send + LockFile + PlacedRead,
    R::Dir: Send,
{
    show_run(
        rt,
        &["record", settings, out],
        Input::Bytes(lines.as_bytes()),
    )?;
    let Ok(bytes) = fs::read(rt, out) else {
        return println!(rt; "no recording");
    };
    print!(rt; "recording")?;
    for byte in &bytes {
        print!(rt; " {byte:02x}")?;
    }
    println!(rt)
}

/// An output that another open has locked: how many bytes it keeps.
fn show_locked<R: AllocGlobal + Files + Print + Threads + Wait + Sync>(rt: &R) -> io::Result<()>
where
    R::File: Send + LockFile + PlacedRead,
    R::Dir: Send,
{
    let mut held = fs::create(rt, "locked.ch11")?;
    held.write_all(b"what another program writes")?;
    if held.try_lock().is_err() {
        println!(rt; "no lock")?;
    }
    let record = ["record", "records/two.toml", "locked.ch11"];
    show_run(rt, &record, NOTHING)?;
    let extract = [
        "extract",
        "recordings/two_versions.ch11",
        "1",
        "locked.ch11",
    ];
    show_run(rt, &extract, NOTHING)?;
    println!(rt; "{} bytes", fs::read(rt, "locked.ch11")?.len())
}

/// An input that is longer than what is read of it: how many lines of it are answered.
fn show_long_input<R: AllocGlobal + Files + Print + Threads + Wait + Sync>(
    rt: &R,
    part: &str,
    count: usize,
) -> io::Result<()>
where
    R::File: Send + LockFile + PlacedRead,
    R::Dir: Send,
{
    let words = ["record", "records/none.toml", "long.ch11"];
    let mut input = Vec::new(rt.alloc());
    for _ in 0..count {
        input.extend_from_slice(part.as_bytes())?;
    }
    let run = run_program(rt, &words, Input::Bytes(input.as_slice()))?;
    title(rt, &words)?;
    let answered = run
        .errors()
        .lines()
        .filter(|line| *line == "refused 0 Line")
        .count();
    println!(rt; "{answered} lines answered of {} bytes", input.len())?;
    println!(rt; "= {}", run.status)
}

/// A listing of so many bytes, as FILE, by standard input, and in a line that changes a filter.
fn show_long_listing<R: AllocGlobal + Files + Print + Threads + Wait + Sync>(
    rt: &R,
    name: &str,
    line: &str,
    len: usize,
) -> io::Result<()>
where
    R::File: Send + LockFile + PlacedRead,
    R::Dir: Send,
{
    let mut listing = Vec::new(rt.alloc());
    listing.extend_from_slice(LISTING)?;
    listing.resize(len, b'\n')?;
    fs::write(rt, name, listing.as_slice())?;
    show_run(rt, &["verify", name], NOTHING)?;
    show_run(rt, &["verify", "-"], Input::Bytes(listing.as_slice()))?;
    let words = ["record", "records/none.toml", "bounded.ch11"];
    show_run(rt, &words, Input::Bytes(line.as_bytes()))?;
    Ok(())
}

/// One change more than the channel may have: how many are answered by their versions, in order,
/// and all other lines.
fn show_full_versions<R: AllocGlobal + Files + Print + Threads + Wait + Sync>(
    rt: &R,
) -> io::Result<()>
where
    R::File: Send + LockFile + PlacedRead,
    R::Dir: Send,
{
    let words = ["record", "records/none.toml", "full.ch11"];
    let mut input = Vec::new(rt.alloc());
    for _ in 0..VERSIONS {
        input.extend_from_slice(CHANGE)?;
    }
    let run = run_program(rt, &words, Input::Bytes(input.as_slice()))?;
    title(rt, &words)?;
    print!(rt; "{}", run.output())?;
    let mut versions = 1u64;
    for line in run.errors().lines() {
        let want = format!(in rt.alloc(); "installed 1 {versions} 0")?;
        if line == want.as_str() {
            versions = versions.wrapping_add(1);
        } else {
            println!(rt; "! {line}")?;
        }
    }
    println!(rt; "{versions} versions in their order")?;
    println!(rt; "= {}", run.status)
}
