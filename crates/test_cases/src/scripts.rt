//! Scripts of `simulate`.

use crate::run::{Input, NOTHING, run_program, show_closed, show_run, title};
use rec_cli::{LockFile, PlacedRead};
use std::io;
use std::rt::Files;
use std::sync::Wait;
use std::thread::Threads;

/// A recorder and a channel, ahead of the events of a script.
const OPENING: &str = "recorder 16424 4 8\nchannel 1 0 3 100 1,6 0 0 1,\n";

/// Scripts that end at a line before the first event, or have none.
static OPENINGS: [&str; 31] = [
    "",
    "\n\n",
    "recorder 16424 4 8\n",
    "\n\nrecorder\n",
    "record 16424 4 8\n",
    "recorder 16423 4 8\n",
    "recorder 524285 4 8\n",
    "recorder 16424 0 8\n",
    "recorder 16424 4097 8\n",
    "recorder 16424 4 256\n",
    "recorder 16424 4 8 \n",
    "recorder 16424 4 8\r\n",
    "recorder 16424  4 8\n",
    "recorder +16424 4 8\n",
    "recorder 524284 4096 255\nchannel 65535 255 15 18446744073709551615 1,6 0 0 0,",
    "recorder 16424 4 8\nsend 1\n",
    "recorder 16424 4 8\nchannel 0 0 0 1 1,6 0 0 0,\n",
    "recorder 16424 4 8\nchannel 65536 0 0 1 1,6 0 0 0,\n",
    "recorder 16424 4 8\nchannel 1 256 0 1 1,6 0 0 0,\n",
    "recorder 16424 4 8\nchannel 1 0 16 1 1,6 0 0 0,\n",
    "recorder 16424 4 8\nchannel 1 0 0 18446744073709551616 1,6 0 0 0,\n",
    "recorder 16424 4 8\nchannel 1 0 0 -1 1,6 0 0 0,\n",
    "recorder 16424 4 8\nchannel 1 0 0 1\n",
    "recorder 16424 4 8\nchannel 1 0 0 1 \n",
    "recorder 16424 4 8\nchannel 1 0 0 1 2,6 0 0 0,\n",
    "recorder 16424 4 8\nchannel 1 0 0 1 1,7 0 0 0,\n",
    "recorder 16424 4 8\nchannel 1 0 0 1 1,6 0 0 0,\r\n",
    "recorder 16424 4 8\nchannel 1 0 0 1 1,6 0 0 0,\nchannel 1 0 0 1 1,6 0 0 0,\n",
    "recorder 16424 4 8\n\nchannel 1 0 0 1 1,6 0 0 0,\n\nchannel 1 0 0 1 1,6 0 0 0,\n",
    "recorder 16424 4 8\nrecorder 16424 4 8\n",
    "\u{e9}\n",
];

/// Events after the opening, up to the one that ends the script.
static EVENTS: [&str; 25] = [
    "send 1\n\nclose 1\nsend\n",
    "channel 2 0 3 100 1,6 0 0 1,\n",
    "close 1\nchannel 2 0 3 100 1,6 0 0 1,\n",
    "recorder 16424 4 8\n",
    "sends 1\n",
    "send  1\n",
    "send 1 \n",
    "send 1\r\n",
    "send +1\n",
    "send -1\n",
    "send 65536\n",
    "send 65535\nwrite 0\nclose 9\ninstall 9 1,6 0 0 0,\n",
    "install 1\n",
    "install 1 1,7 0 0 0,\n",
    "install 1 6 0 0 0\n",
    "install 1 1,6 0 0 0,\r\n",
    "take 1 16 0\n",
    "take 1 16 0 \n",
    "take 1 16 4 ffffffffffff0200000000010806a1b2c3d4\n",
    "take 1 281474976710656 0 ffffffffffff0200000000010806a1b2c3d4\n",
    "take 1 281474976710655 3 FFFFffffffff0200000000010806a1b2c3d4\n",
    "take 1 16 0 ffffffffffff0200000000010806a1b2c3\n",
    "take 1 16 0 ffffffffffff0200000000010806a1b2c3d\n",
    "take 1 16 0 ffffffffffff0200000000010806a1b2c3dg\n",
    "take 65535 16 1 ffffffffffff0200000000010806a1b2c3d4\n",
];

/// The events of a long script, repeated.
const ROUND: &str = "take 1 16 0 ffffffffffff0200000000010806a1b2c3d4\ninstall 1 1,6 0 0 1,\n\
    send 1\nwrite 1\nwrite 1\n";

const ROUNDS: u64 = 2_000;

/// The examples, scripts of each kind, 64 channels and one more, a long script, and a closed output.
pub(crate) fn show_scripts<R: AllocGlobal + Files + Print + Threads + Wait + Sync>(
    rt: &R,
) -> io::Result<()>
where
    R::File: Send + LockFile + PlacedRead,
    R::Dir: Send,
{
    for name in ["scripts/changed_filter.script", "scripts/full_ring.script"] {
        show_run(rt, &["simulate", name], NOTHING)?;
    }
    for script in &OPENINGS {
        show_script(rt, script, script)?;
    }
    for events in &EVENTS {
        let script = format!(in rt.alloc(); "{OPENING}{events}")?;
        show_script(rt, events, script.as_str())?;
    }
    show_channels(rt, 64)?;
    show_channels(rt, 65)?;
    show_long_script(rt)?;
    show_closed(rt, &["simulate", "scripts/changed_filter.script"])
}

/// A script, after what is told of it.
pub(crate) fn show_script<R: AllocGlobal + Files + Print + Threads + Wait + Sync>(
    rt: &R,
    told: &str,
    script: &str,
) -> io::Result<()>
where
    R::File: Send + LockFile + PlacedRead,
    R::Dir: Send,
{
    println!(rt; "# {told:?}")?;
    show_run(rt, &["simulate", "-"], Input::Bytes(script.as_bytes()))?;
    Ok(())
}

/// A script of so many channels.
fn show_channels<R: AllocGlobal + Files + Print + Threads + Wait + Sync>(
    rt: &R,
    count: u64,
) -> io::Result<()>
where
    R::File: Send + LockFile + PlacedRead,
    R::Dir: Send,
{
    let mut script = String::from_str(rt.alloc(), "recorder 16424 1 8\n")?;
    for id in 1..=count {
        let line = format!(in rt.alloc(); "channel {id} 0 0 1 1,6 0 0 0,\n")?;
        script.push_str(line.as_str())?;
    }
    script.push_str("close 64\n")?;
    let told = format!(in rt.alloc(); "{count} channels")?;
    show_script(rt, told.as_str(), script.as_str())
}

/// A script of 10,000 events: how many lines answer it, of each kind.
fn show_long_script<R: AllocGlobal + Files + Print + Threads + Wait + Sync>(
    rt: &R,
) -> io::Result<()>
where
    R::File: Send + LockFile + PlacedRead,
    R::Dir: Send,
{
    let mut script = String::from_str(rt.alloc(), "recorder 16424 4 8\n")?;
    script.push_str("channel 1 0 3 1000000 1,6 0 0 1,\n")?;
    for _ in 0..ROUNDS {
        script.push_str(ROUND)?;
    }
    println!(rt; "# {} events", ROUNDS.wrapping_mul(5))?;
    show_counts(
        rt,
        script.as_str(),
        &[
            "took",
            "installed",
            "sent",
            "wrote",
            "refused 4",
            "refused 5",
            "refused 6",
        ],
    )
}

/// How many lines answer a script, of each kind.
pub(crate) fn show_counts<R: AllocGlobal + Files + Print + Threads + Wait + Sync>(
    rt: &R,
    script: &str,
    kinds: &[&str],
) -> io::Result<()>
where
    R::File: Send + LockFile + PlacedRead,
    R::Dir: Send,
{
    let words = ["simulate", "-"];
    let run = run_program(rt, &words, Input::Bytes(script.as_bytes()))?;
    title(rt, &words)?;
    for kind in kinds {
        let count = run
            .output()
            .lines()
            .filter(|line| line.starts_with(kind))
            .count();
        println!(rt; "{count} {kind}")?;
    }
    println!(rt; "= {}, {} bytes of errors", run.status, run.errors().len())
}
